//! How the keys of a large document are found.
ghost use Rattle.std.specs.Prelude.{◌≡◌, [], ◌∷◌, ◌++◌, ◌<◌, length, remove, false, IfOk, IfSome, OnErr, OnOk};
ghost use Rattle.std.specs.List.{list_any, position, IsDistinct};
ghost use Rattle.std.specs.Str.{bytes_eq};
ghost use Rattle.bson_key_map.specs.Keys.{key_texts};

use crate::key_seed::KeySeed;
use crate::pair::Pair;
use indexmap::IndexSet;
use std::alloc::{AllocError, Global};
use std::marker::Model;

/// Copies of the keys of a document in a hash table, in the order of the keys. Contracts see it as the list of their texts.
#[derive(Drop)]
pub(crate) struct KeyTable {
    keys: Box<IndexSet<String, KeySeed>>,
}

impl Model for KeyTable {
    ghost use Rattle.std.specs.Prelude.{List, map, string_bytes};
    ghost use Rattle.bson_kinds.specs.Text.{Utf8};

    ghost Value = { List Utf8 };

    ghost view = { λ t. map string_bytes t.keys.value.keys };
}

impl KeyTable {
    // The table of the keys of these pairs.
    #[cold]
    #[inline(never)]
    pub(crate) fn of_pairs<V>(
        alloc: Global,
        seed: KeySeed,
        pairs: &[Pair<V>],
    ) -> Result<KeyTable, AllocError>
        requires distinct { IsDistinct bytes_eq (key_texts pairs.now) }
        ensures texts { IfOk result (λ t. t ≡ key_texts pairs.now) }
    {
        let room = pairs.len().saturating_mul(2);
        let keys = IndexSet::with_capacity_and_hasher(alloc, room, seed)?;
        let mut table = KeyTable {
            keys: Box::new(alloc, keys)?,
        };
        for pair in pairs {
            table.push(alloc, &pair.key)?;
        }
        Ok(table)
    }

    // The index of a key; `None` where it is not there.
    pub(crate) fn get_index_of(&self, key: &str) -> Option<usize>
        ensures index { result ≡ position (bytes_eq key.now) self.now }
        ensures within { IfSome result (λ i. i < length self.now) }
    {
        self.keys.get_index_of(key)
    }

    // Copies a new key to the end.
    pub(crate) fn push(&mut self, alloc: Global, key: &str) -> Result<(), AllocError>
        requires new { list_any (bytes_eq key.now) self.old ≡ false }
        ensures texts { OnOk result (self.new ≡ self.old ++ key.now ∷ []) }
        ensures err { OnErr result (self.new ≡ self.old) }
    {
        let copy = String::from_str(alloc, key)?;
        let _ = self.keys.insert(copy)?;
        Ok(())
    }

    // Removes the key at an index. The keys after it move down by one place.
    pub(crate) fn remove(&mut self, index: usize)
        requires within { index < length self.old }
        ensures texts { self.new ≡ remove self.old index }
    {
        let _ = self.keys.shift_remove_index(index);
    }
}
