ghost use Rattle.std.specs.Prelude.{◌≡◌, length};
ghost use Rattle.std.specs.Iterator.{at_most};
ghost use Rattle.std.specs.Vec.Iter.{into_iter_items, into_iter_len};
ghost use Rattle.bson_key_map.specs.Keys.{key_texts};
ghost use Rattle.bson_base.specs.Pairs.{count};
ghost use Rattle.bson_base.specs.Next.{IsNext, IsNextKey, IsTaken};
ghost use Rattle.bson_base.specs.BsonView.{listed_pairs};

use crate::bson::Bson;
use bson_key_map::Pair;
use std::marker::Model;
use std::vec;

/// The pairs of a document, borrowed one after another. Contracts see it as the pairs that are left.
#[derive(Debug, Drop)]
pub struct Iter<'a> {
    left: &'a [Pair<Bson>],
}

impl<'a> Model for Iter<'a> {
    ghost use Rattle.bson_base.specs.Tree.{Pairs};
    ghost use Rattle.bson_base.specs.Prover.StoredTree.{coded_pairs};
    ghost use Rattle.bson_base.specs.BsonView.{listed_pairs};

    ghost Value = { Pairs };

    ghost coded = { coded_pairs };

    ghost view = { λ i. listed_pairs i.left.now };
}

impl<'a> Iter<'a> {
    // Over these pairs.
    pub(crate) fn over(pairs: &'a [Pair<Bson>]) -> Iter<'a>
        ensures { result ≡ listed_pairs pairs.now }
    {
        Iter { left: pairs }
    }
}

impl<'a> Iterator for Iter<'a> {
    type Item = (&'a String, &'a Bson);

    ghost next_gives = { IsNext };

    ghost remaining = { λ pairs. at_most (count pairs) };

    fn next(&mut self) -> Option<(&'a String, &'a Bson)> {
        let (pair, left) = self.left.split_first()?;
        self.left = left;
        Some((&pair.key, &pair.value))
    }
}

/// The keys of a document, borrowed one after another. Contracts see it as the texts of the keys that are left.
#[derive(Debug, Drop)]
pub struct Keys<'a> {
    left: &'a [Pair<Bson>],
}

impl<'a> Model for Keys<'a> {
    ghost use Rattle.std.specs.Prelude.{List};
    ghost use Rattle.bson_kinds.specs.Text.{Utf8};
    ghost use Rattle.bson_key_map.specs.Keys.{key_texts};

    ghost Value = { List Utf8 };

    ghost view = { λ k. key_texts k.left.now };
}

impl<'a> Keys<'a> {
    // Over the keys of these pairs.
    pub(crate) fn over(pairs: &'a [Pair<Bson>]) -> Keys<'a>
        ensures { result ≡ key_texts pairs.now }
    {
        Keys { left: pairs }
    }
}

impl<'a> Iterator for Keys<'a> {
    type Item = &'a String;

    ghost next_gives = { IsNextKey };

    ghost remaining = { λ keys. at_most (length keys) };

    fn next(&mut self) -> Option<&'a String> {
        let (pair, left) = self.left.split_first()?;
        self.left = left;
        Some(&pair.key)
    }
}

/// The pairs of a document, owned, one after another. Contracts see it as the pairs that are left.
#[derive(Drop)]
pub struct IntoIter {
    left: vec::IntoIter<Pair<Bson>>,
}

impl Model for IntoIter {
    ghost use Rattle.std.specs.Prelude.{◌≡◌, length};
    ghost use Rattle.std.specs.Vec.Iter.{into_iter_items, into_iter_len};
    ghost use Rattle.bson_base.specs.Tree.{Pairs};
    ghost use Rattle.bson_base.specs.Prover.StoredTree.{coded_pairs};
    ghost use Rattle.bson_base.specs.BsonView.{listed_pairs};

    ghost Value = { Pairs };

    ghost coded = { coded_pairs };

    ghost view = { λ i. listed_pairs (into_iter_items i.left) };

    ghost invariant = { λ i. into_iter_len i.left ≡ length (into_iter_items i.left) };
}

impl IntoIter {
    // Over these pairs.
    pub(crate) fn over(pairs: vec::IntoIter<Pair<Bson>>) -> IntoIter
        requires { into_iter_len pairs ≡ length (into_iter_items pairs) }
        ensures { result ≡ listed_pairs (into_iter_items pairs) }
    {
        IntoIter { left: pairs }
    }
}

impl Iterator for IntoIter {
    type Item = (String, Bson);

    ghost next_gives = { IsTaken };

    ghost remaining = { λ pairs. at_most (count pairs) };

    fn next(&mut self) -> Option<(String, Bson)> {
        let Pair { key, value } = self.left.next()?;
        Some((key, value))
    }
}
