// The writer of a map, key by key and value by value.
ghost use Rattle.std.specs.Prelude.{◌≡◌, []};
ghost use Rattle.bson_values.specs.Value.{str, no_entries};
ghost use Rattle.bson_datum.specs.View.{view};
ghost use Rattle.bson_writing.specs.Levels.{in_whole};
ghost use Rattle.bson_ser_tree.specs.Taking.{HasFailed, HasEntries, TakesKey, TakesValue, EndsEntries, AnswersFailed};

use crate::levels::IN_WHOLE;
use crate::pairs::PairsWriter;
use bson_base::Bson;
use bson_datum::Datum;
use bson_values::ser::Result;
use std::alloc::Global;
use std::marker::Model;
use std::mem;

/// A writer of a map, key by key and value by value.
///
/// A value takes the key that was given last, or the empty text where none was since the last value. A key without a value behind it is dropped.
#[derive(Debug, Drop)]
pub struct MapSerializer {
    pairs: PairsWriter,
    // The text of the key that the next value takes.
    key: String,
}

impl Model for MapSerializer {
    ghost use Rattle.std.specs.Prelude.{string_bytes};
    ghost use Rattle.bson_ser_tree.specs.Made.{EntriesMade};
    ghost use Rattle.bson_ser_tree.specs.Prover.StoredMade.{coded_entries};

    ghost Value = { EntriesMade };

    ghost coded = { coded_entries };

    ghost use Rattle.bson_ser_tree.specs.MadeView.{pairs_made};

    ghost view = { λ w. record { made = pairs_made w.pairs; key = string_bytes w.key } };
}

impl MapSerializer {
    // No entries so far.
    pub(crate) fn new(alloc: Global, readable: bool) -> MapSerializer
        ensures { HasEntries in_whole readable result no_entries (str []) }
    {
        MapSerializer {
            pairs: PairsWriter::new(alloc, readable),
            key: String::new(alloc),
        }
    }

    /// Takes the key of the next value, in place of one that has no value behind it.
    ///
    /// # Errors
    ///
    /// The refusal of the key as that of the next entry of the map, without its path, or `NoMemory`. From then on `SerializationError` with `Failed`.
    pub fn serialize_key(&mut self, key: &Datum<'_>) -> Result<()>
        ensures takes { TakesKey in_whole self.old self.new (view key.now) result }
        ensures failed { HasFailed self.old.made.pairs → HasFailed self.new.made.pairs × AnswersFailed result }
    {
        self.key = self.pairs.key(key, IN_WHOLE)?;
        Ok(())
    }

    /// Takes the next value, at the key that was given last.
    ///
    /// # Errors
    ///
    /// The refusal of the value as a part of the map, without its path, or `NoMemory`. From then on `SerializationError` with `Failed`.
    pub fn serialize_value(&mut self, value: &Datum<'_>) -> Result<()>
        ensures takes { TakesValue in_whole self.old self.new (view value.now) result }
        ensures failed { HasFailed self.old.made.pairs → HasFailed self.new.made.pairs × AnswersFailed result }
    {
        let empty = String::new(self.pairs.allocator());
        let key = mem::replace(&mut self.key, empty);
        self.pairs.put(key, value, IN_WHOLE)
    }

    /// What the document of all entries is folded to.
    ///
    /// # Errors
    ///
    /// `SerializationError` with `Failed` after a refusal, or `NoMemory`.
    pub fn end(self) -> Result<Bson>
        ensures whole { EndsEntries in_whole self result }
        ensures failed { HasFailed self.made.pairs → AnswersFailed result }
    {
        self.pairs.finish()
    }
}
