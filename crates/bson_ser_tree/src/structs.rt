// The writer of a struct, field by field.
ghost use Rattle.std.specs.Prelude.{◌≡◌, []};
ghost use Rattle.bson_values.specs.Value.{no_field_values, structure};
ghost use Rattle.bson_datum.specs.View.{view};
ghost use Rattle.bson_writing.specs.Levels.{in_whole};
ghost use Rattle.bson_ser_tree.specs.Taking.{HasFailed, HasFields, TakesField, EndsFields, AnswersFailed};

use crate::levels::IN_WHOLE;
use crate::pairs::PairsWriter;
use bson_base::Bson;
use bson_datum::Datum;
use bson_values::ser::Result;
use std::alloc::Global;
use std::marker::Model;

/// A writer of a struct without a name, field by field.
#[derive(Debug, Drop)]
pub struct StructSerializer {
    pairs: PairsWriter,
}

impl Model for StructSerializer {
    ghost use Rattle.bson_ser_tree.specs.Made.{PairsMade};
    ghost use Rattle.bson_ser_tree.specs.Prover.StoredMade.{coded_made};

    ghost Value = { PairsMade };

    ghost coded = { coded_made };

    ghost use Rattle.bson_ser_tree.specs.MadeView.{pairs_made};

    ghost view = { λ w. pairs_made w.pairs };
}

impl StructSerializer {
    // No fields so far.
    pub(crate) fn new(alloc: Global, readable: bool) -> StructSerializer
        ensures { HasFields in_whole readable result no_field_values }
    {
        StructSerializer {
            pairs: PairsWriter::new(alloc, readable),
        }
    }

    /// Takes the next field: its name and its value.
    ///
    /// # Errors
    ///
    /// The refusal of the field as a part of the struct, without its path, or `NoMemory`. From then on `SerializationError` with `Failed`.
    pub fn serialize_field(&mut self, key: &str, value: &Datum<'_>) -> Result<()>
        ensures takes { TakesField (structure []) in_whole self.old self.new key.now (view value.now) result }
        ensures failed { HasFailed self.old.pairs → HasFailed self.new.pairs × AnswersFailed result }
    {
        self.pairs.put_field(key, value, IN_WHOLE)
    }

    /// What the document of all fields is folded to.
    ///
    /// # Errors
    ///
    /// `SerializationError` with `Failed` after a refusal, or `NoMemory`.
    pub fn end(self) -> Result<Bson>
        ensures whole { EndsFields (structure []) in_whole self result }
        ensures failed { HasFailed self.pairs → AnswersFailed result }
    {
        self.pairs.finish()
    }
}
