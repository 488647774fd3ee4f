ghost use Rattle.std.specs.Prelude.{◌≡◌, ◌==◌, is_some, string_bytes, IfOk, IfSome, OnOk, OnErr};
ghost use Rattle.std.specs.Option.{option_map};
ghost use Rattle.bson_base.specs.Tree.{no_pairs};
ghost use Rattle.bson_base.specs.Pairs.{lookup, put, without, count, keys_of, AreDistinct};
ghost use Rattle.bson_base.specs.BsonView.{tree_of, listed_pairs, pairs_of};

use crate::bson::Bson;
use crate::iter::{IntoIter, Iter, Keys};
use bson_key_map::{KeyMap, KeySeed, Pair};
use std::alloc::{AllocError, Global};

/// A document: pairs of a key and a value, in order, where no key is there twice.
///
/// Source: bsonspec.org, version 1.1, `document`.
#[cycle(bson)]
#[derive(Debug, Drop)]
pub struct Document(KeyMap<Bson>);

impl Document {
    /// The empty document, with the seed `KeySeed::new`. Where keys come from outside, take [`Document::with_seed`]. It takes no memory.
    pub fn new(alloc: Global) -> Document
        ensures empty { pairs_of result ≡ no_pairs }
    {
        Document::with_seed(alloc, KeySeed::new())
    }

    /// The empty document. Where it comes to have more than 32 keys, they are found by hashes that begin with the seed. It takes no memory.
    ///
    /// Where keys come from outside, the seed is best that of the bytes that they came in: see `KeySeed`.
    pub fn with_seed(alloc: Global, seed: KeySeed) -> Document
        ensures empty { pairs_of result ≡ no_pairs }
    {
        Document(KeyMap::with_seed(alloc, seed))
    }

    /// How many pairs there are.
    pub fn len(&self) -> usize
        ensures len { result ≡ count (pairs_of self.now) }
        ensures distinct { AreDistinct (pairs_of self.now) }
    {
        self.0.as_slice().len()
    }

    /// Whether there is no pair.
    pub fn is_empty(&self) -> bool
        ensures empty { result ≡ (count (pairs_of self.now) == 0) }
    {
        self.len() == 0
    }

    /// The value of a key; `None` where the key is not there. It takes no memory.
    pub fn get(&self, key: &str) -> Option<&Bson>
        ensures value { option_map (λ b. tree_of b.now) result ≡ lookup key.now (pairs_of self.now) }
    {
        let index = self.0.get_index_of(key)?;
        Some(&self.0.as_slice()[index].value)
    }

    /// Whether a key is there. It takes no memory.
    pub fn contains_key(&self, key: &str) -> bool
        ensures value { result ≡ is_some (lookup key.now (pairs_of self.now)) }
    {
        self.get(key).is_some()
    }

    /// The keys in order, borrowed. It takes no memory.
    pub fn keys(&self) -> Keys<'_>
        ensures keys { result ≡ keys_of (pairs_of self.now) }
        ensures distinct { AreDistinct (pairs_of self.now) }
    {
        Keys::over(self.0.as_slice())
    }

    /// Puts a value at a key, and returns the value that was there; `None` where the key is new.
    ///
    /// A new key goes last, and a key that is there keeps its place.
    ///
    /// # Errors
    ///
    /// Memory ran out; the document is then unchanged.
    pub fn insert(&mut self, key: String, value: Bson) -> Result<Option<Bson>, AllocError>
        ensures new { OnOk result (pairs_of self.new ≡ put (string_bytes key) (tree_of value) (pairs_of self.old)) }
        ensures old { IfOk result (λ old. option_map tree_of old ≡ lookup (string_bytes key) (pairs_of self.old)) }
        ensures err { OnErr result (pairs_of self.new ≡ pairs_of self.old) }
    {
        match self.0.get_index_of(&key) {
            Some(index) => Ok(Some(self.0.replace(index, value))),
            None => {
                self.0.push(key, value)?;
                Ok(None)
            }
        }
    }

    /// Removes a key and returns its value; `None` where the key is not there, and the document is then unchanged.
    ///
    /// The pairs after it move down by one place. It takes no memory.
    pub fn remove(&mut self, key: &str) -> Option<Bson>
        ensures value { option_map tree_of result ≡ lookup key.now (pairs_of self.old) }
        ensures rest { pairs_of self.new ≡ without key.now (pairs_of self.old) }
    {
        let (_, value) = self.remove_entry(key)?;
        Some(value)
    }

    /// Removes a key and returns it with its value; `None` where the key is not there, and the document is then unchanged.
    ///
    /// The pairs after it move down by one place. It takes no memory.
    pub fn remove_entry(&mut self, key: &str) -> Option<(String, Bson)>
        ensures key { IfSome result (λ p. string_bytes p.0 ≡ key.now) }
        ensures value { option_map (λ p. tree_of p.1) result ≡ lookup key.now (pairs_of self.old) }
        ensures rest { pairs_of self.new ≡ without key.now (pairs_of self.old) }
    {
        let index = self.0.get_index_of(key)?;
        let Pair { key, value } = self.0.remove(index);
        Some((key, value))
    }

    /// The pairs in order, borrowed. It takes no memory.
    pub fn iter(&self) -> Iter<'_>
        ensures pairs { result ≡ pairs_of self.now }
        ensures distinct { AreDistinct (pairs_of self.now) }
    {
        Iter::over(self.0.as_slice())
    }

    /// An equal document, with keys and values of its own.
    ///
    /// # Errors
    ///
    /// Memory ran out.
    #[cycle(copy)]
    #[tactic(auto, using(crate::proofs::Rows::row_items, crate::proofs::Rows::row_pairs))]
    pub fn try_clone(&self, alloc: Global) -> Result<Document, AllocError>
        ensures equal { IfOk result (λ d. pairs_of d ≡ pairs_of self.now) }
    {
        let own = self.0.as_slice();
        let mut pairs = KeyMap::with_capacity(alloc, self.0.seed(), own.len())?;
        for pair in own {
            let key = String::from_str(alloc, &pair.key)?;
            pairs.push(key, pair.value.try_clone(alloc)?)?;
        }
        Ok(Document(pairs))
    }

    // The pairs, in order.
    pub(crate) fn as_slice(&self) -> &[Pair<Bson>]
        ensures pairs { listed_pairs result.now ≡ pairs_of self.now }
    {
        self.0.as_slice()
    }
}

impl IntoIterator for Document {
    type Item = (String, Bson);

    type IntoIter = IntoIter;

    ghost into_iter_gives = { λ document pairs. pairs ≡ pairs_of document };

    /// The pairs in order, owned. It takes no memory.
    fn into_iter(self) -> IntoIter {
        IntoIter::over(self.0.into_pairs())
    }
}
