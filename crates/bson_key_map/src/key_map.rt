//! A map that keeps the order of its keys.
ghost use Rattle.std.specs.Prelude.{◌≡◌, [], ◌∷◌, ◌++◌, ◌<◌, length, remove, slice_get, slice_set, Some, false, string_bytes, IfOk, IfSome, OnErr, OnOk};
ghost use Rattle.std.specs.List.{list_any, position, IsDistinct};
ghost use Rattle.std.specs.Str.{bytes_eq};
ghost use Rattle.std.specs.Vec.Iter.{into_iter_items, into_iter_len};
ghost use Rattle.bson_key_map.specs.Keys.{key_texts, pair_with};
ghost use Rattle.bson_key_map.specs.Stored.{IsTableOf};

use crate::key_seed::KeySeed;
use crate::key_table::KeyTable;
use crate::pair::Pair;
use std::alloc::{AllocError, Global};
use std::marker::Model;
use std::{fmt, mem, vec};

/// How many pairs a map may have before it makes a hash table.
const MOST_FEW: usize = 32;

/// Pairs of a key and a value in order, no key twice. Contracts see it as the list of its pairs.
///
/// Up to 32 keys are looked for one after another. The next one makes a hash table with copies of all keys, which stays when keys are removed. The hashes begin with a
/// seed.
#[derive(Drop)]
pub struct KeyMap<V> {
    seed: KeySeed,
    pairs: Vec<Pair<V>>,
    table: Option<KeyTable>,
}

impl<V> Model for KeyMap<V> {
    ghost use Rattle.std.specs.Prelude.{List};
    ghost use Rattle.std.specs.Coded.{coded_list};
    ghost use Rattle.std.specs.List.{IsDistinct};
    ghost use Rattle.std.specs.Str.{bytes_eq};
    ghost use Rattle.bson_key_map.specs.Prover.Codes.{pair_coded};
    ghost use Rattle.bson_key_map.specs.Keys.{key_texts};
    ghost use Rattle.bson_key_map.specs.Stored.{IsTableOf};
    ghost use Rattle.bson_key_map.specs.declared.pair.Pair.{Pair};

    ghost Value = { List (Pair V) };

    ghost coded = { coded_list (pair_coded V.code) };

    ghost view = { λ m. m.pairs.items };

    ghost invariant = { λ m. IsDistinct bytes_eq (key_texts m.pairs.items) × IsTableOf m.table m.pairs.items };
}

impl<V> KeyMap<V> {
    /// No pairs. The hashes of their keys begin with the seed. It takes no memory.
    pub fn with_seed(alloc: Global, seed: KeySeed) -> KeyMap<V>
        ensures empty { result ≡ [] }
    {
        KeyMap {
            seed,
            pairs: Vec::new(alloc),
            table: None,
        }
    }

    /// No pairs, with memory for so many.
    ///
    /// # Errors
    ///
    /// Memory ran out.
    pub fn with_capacity(
        alloc: Global,
        seed: KeySeed,
        capacity: usize,
    ) -> Result<KeyMap<V>, AllocError>
        ensures empty { IfOk result (λ m. m ≡ []) }
    {
        Ok(KeyMap {
            seed,
            pairs: Vec::with_capacity(alloc, capacity)?,
            table: None,
        })
    }

    /// The seed of the hashes.
    pub fn seed(&self) -> KeySeed {
        self.seed
    }

    /// The pairs, in order.
    #[inline(always)]
    pub fn as_slice(&self) -> &[Pair<V>]
        ensures pairs { result.now ≡ self.now }
        ensures unique { IsDistinct bytes_eq (key_texts self.now) }
    {
        &self.pairs
    }

    /// The index of a key; `None` where it is not there.
    #[inline(always)]
    pub fn get_index_of(&self, key: &str) -> Option<usize>
        ensures index { result ≡ position (bytes_eq key.now) (key_texts self.now) }
        ensures within { IfSome result (λ i. i < length self.now) }
    {
        match &self.table {
            None => index_among(key, &self.pairs),
            Some(table) => table.get_index_of(key),
        }
    }

    /// Replaces the value at an index, and returns the old one. The index is less than the number of pairs.
    // A function of its own, so that inserting a new key reserves no stack for the value replaced.
    #[inline(never)]
    pub fn replace(&mut self, index: usize, value: V) -> V
        requires within { index < length self.old }
        ensures before { (p : Pair V) → slice_get self.old index ≡ Some p → result ≡ p.value }
        ensures after { (p : Pair V) → slice_get self.old index ≡ Some p → self.new ≡ slice_set self.old index (pair_with value p) }
    {
        mem::replace(&mut self.pairs[index].value, value)
    }

    /// Adds a pair at the end. Its key must be new.
    ///
    /// # Errors
    ///
    /// Memory ran out; the pairs are then unchanged.
    #[inline(always)]
    pub fn push(&mut self, key: String, value: V) -> Result<(), AllocError>
    where
        V: Drop,
        requires new { list_any (bytes_eq (string_bytes key)) (key_texts self.old) ≡ false }
        ensures pairs { OnOk result (self.new ≡ self.old ++ record { key = key; value = value } ∷ []) }
        ensures err { OnErr result (self.new ≡ self.old) }
    {
        self.pairs.reserve(1)?;
        if self.table.is_some() || self.pairs.len() >= MOST_FEW {
            let alloc = *self.pairs.allocator();
            push_to_table(alloc, self.seed, &self.pairs, &mut self.table, &key)?;
        }
        self.pairs.push(Pair { key, value })?;
        Ok(())
    }

    /// Removes the pair at an index, and returns it. The index is less than the number of pairs. The pairs after it move down by one place.
    pub fn remove(&mut self, index: usize) -> Pair<V>
        requires within { index < length self.old }
        ensures pair { slice_get self.old index ≡ Some result }
        ensures pairs { self.new ≡ remove self.old index }
    {
        if let Some(table) = &mut self.table {
            table.remove(index);
        }
        self.pairs.remove(index)
    }

    /// The pairs, owned, in order. It takes no memory.
    pub fn into_pairs(self) -> vec::IntoIter<Pair<V>>
        ensures pairs { into_iter_items result ≡ self }
        ensures len { into_iter_len result ≡ length self }
    {
        self.pairs.into_iter()
    }
}

// The index of a key among these pairs; `None` where it is not there.
#[inline(always)]
fn index_among<V>(key: &str, pairs: &[Pair<V>]) -> Option<usize>
    ensures index { result ≡ position (bytes_eq key.now) (key_texts pairs.now) }
    ensures within { IfSome result (λ i. i < length pairs.now) }
{
    for (index, pair) in pairs.iter().enumerate() {
        if key == pair.key.as_str() {
            return Some(index);
        }
    }
    None
}

// Copies a new key to the hash table of these pairs. Where there is none yet, makes that of all their keys first.
#[cold]
#[inline(never)]
fn push_to_table<V>(
    alloc: Global,
    seed: KeySeed,
    pairs: &[Pair<V>],
    table: &mut Option<KeyTable>,
    key: &str,
) -> Result<(), AllocError>
    requires distinct { IsDistinct bytes_eq (key_texts pairs.now) }
    requires table { IsTableOf table.old pairs.now }
    requires new { list_any (bytes_eq key.now) (key_texts pairs.now) ≡ false }
    ensures texts { OnOk result (table.new ≡ Some (key_texts pairs.now ++ key.now ∷ [])) }
    ensures err { OnErr result (IsTableOf table.new pairs.now) }
{
    match table {
        Some(table) => table.push(alloc, key),
        None => {
            let mut made = KeyTable::of_pairs(alloc, seed, pairs)?;
            made.push(alloc, key)?;
            *table = Some(made);
            Ok(())
        }
    }
}

/// As std's maps are printed: `{"a": 1, "b": 2}`.
impl<V: fmt::Debug> fmt::Debug for KeyMap<V> {
    fn fmt<W: fmt::Write>(&self, f: &mut fmt::Formatter<W>) -> fmt::Result {
        let mut map = f.debug_map();
        for pair in self.as_slice() {
            map.entry(&pair.key, &pair.value);
        }
        map.finish()
    }
}
