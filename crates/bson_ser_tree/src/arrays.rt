// Writers of sequences, tuples and tuple structs, value by value.
ghost use Rattle.std.specs.Prelude.{◌≡◌};
ghost use Rattle.bson_kinds.specs.Text.{Utf8};
ghost use Rattle.bson_values.specs.Value.{no_items, sequence, tuple, tuple_structure};
ghost use Rattle.bson_datum.specs.View.{view};
ghost use Rattle.bson_writing.specs.Levels.{in_whole};
ghost use Rattle.bson_ser_tree.specs.Taking.{HasFailed, HasItems, TakesItem, EndsItems, AnswersFailed};

use crate::items::ItemsWriter;
use crate::levels::IN_WHOLE;
use bson_base::Bson;
use bson_datum::Datum;
use bson_values::ser::Result;
use std::alloc::Global;
use std::marker::Model;

/// A writer of a sequence, value by value.
#[derive(Debug, Drop)]
pub struct ArraySerializer {
    items: ItemsWriter,
}

impl Model for ArraySerializer {
    ghost use Rattle.bson_ser_tree.specs.Made.{ItemsMade};
    ghost use Rattle.bson_ser_tree.specs.Prover.StoredMade.{coded_items};

    ghost Value = { ItemsMade };

    ghost coded = { coded_items };

    ghost use Rattle.bson_ser_tree.specs.MadeView.{items_made};

    ghost view = { λ w. items_made w.items };
}

impl ArraySerializer {
    // No values so far.
    pub(crate) fn new(alloc: Global, readable: bool) -> ArraySerializer
        ensures { HasItems in_whole readable result no_items }
    {
        ArraySerializer {
            items: ItemsWriter::new(alloc, readable),
        }
    }

    /// Takes the next value.
    ///
    /// # Errors
    ///
    /// The refusal of the value as a part of the sequence, without its path, or `NoMemory`. From then on `SerializationError` with `Failed`.
    pub fn serialize_element(&mut self, value: &Datum<'_>) -> Result<()>
        ensures takes { TakesItem sequence in_whole self.old self.new (view value.now) result }
        ensures failed { HasFailed self.old.trees → HasFailed self.new.trees × AnswersFailed result }
    {
        self.items.push(value, IN_WHOLE)
    }

    /// The array of all values.
    ///
    /// # Errors
    ///
    /// `SerializationError` with `Failed` after a refusal, or `NoMemory`.
    pub fn end(self) -> Result<Bson>
        ensures whole { EndsItems sequence in_whole self result }
        ensures failed { HasFailed self.trees → AnswersFailed result }
    {
        self.items.finish()
    }
}

/// A writer of a tuple, value by value.
#[derive(Debug, Drop)]
pub struct TupleSerializer {
    items: ItemsWriter,
}

impl Model for TupleSerializer {
    ghost use Rattle.bson_ser_tree.specs.Made.{ItemsMade};
    ghost use Rattle.bson_ser_tree.specs.Prover.StoredMade.{coded_items};

    ghost Value = { ItemsMade };

    ghost coded = { coded_items };

    ghost use Rattle.bson_ser_tree.specs.MadeView.{items_made};

    ghost view = { λ w. items_made w.items };
}

impl TupleSerializer {
    // No values so far.
    pub(crate) fn new(alloc: Global, readable: bool) -> TupleSerializer
        ensures { HasItems in_whole readable result no_items }
    {
        TupleSerializer {
            items: ItemsWriter::new(alloc, readable),
        }
    }

    /// Takes the next value.
    ///
    /// # Errors
    ///
    /// The refusal of the value as a part of the tuple, without its path, or `NoMemory`. From then on `SerializationError` with `Failed`.
    pub fn serialize_element(&mut self, value: &Datum<'_>) -> Result<()>
        ensures takes { TakesItem tuple in_whole self.old self.new (view value.now) result }
        ensures failed { HasFailed self.old.trees → HasFailed self.new.trees × AnswersFailed result }
    {
        self.items.push(value, IN_WHOLE)
    }

    /// The array of all values.
    ///
    /// # Errors
    ///
    /// `SerializationError` with `Failed` after a refusal, or `NoMemory`.
    pub fn end(self) -> Result<Bson>
        ensures whole { EndsItems tuple in_whole self result }
        ensures failed { HasFailed self.trees → AnswersFailed result }
    {
        self.items.finish()
    }
}

/// A writer of a tuple struct of any name, value by value.
#[derive(Debug, Drop)]
pub struct TupleStructSerializer {
    items: ItemsWriter,
}

impl Model for TupleStructSerializer {
    ghost use Rattle.bson_ser_tree.specs.Made.{ItemsMade};
    ghost use Rattle.bson_ser_tree.specs.Prover.StoredMade.{coded_items};

    ghost Value = { ItemsMade };

    ghost coded = { coded_items };

    ghost use Rattle.bson_ser_tree.specs.MadeView.{items_made};

    ghost view = { λ w. items_made w.items };
}

impl TupleStructSerializer {
    // No values so far.
    pub(crate) fn new(alloc: Global, readable: bool) -> TupleStructSerializer
        ensures { HasItems in_whole readable result no_items }
    {
        TupleStructSerializer {
            items: ItemsWriter::new(alloc, readable),
        }
    }

    /// Takes the next value.
    ///
    /// # Errors
    ///
    /// The refusal of the value as a part of the struct, without its path, or `NoMemory`. From then on `SerializationError` with `Failed`.
    pub fn serialize_field(&mut self, value: &Datum<'_>) -> Result<()>
        ensures takes { (name : Utf8) → TakesItem (tuple_structure name) in_whole self.old self.new (view value.now) result }
        ensures failed { HasFailed self.old.trees → HasFailed self.new.trees × AnswersFailed result }
    {
        self.items.push(value, IN_WHOLE)
    }

    /// The array of all values.
    ///
    /// # Errors
    ///
    /// `SerializationError` with `Failed` after a refusal, or `NoMemory`.
    pub fn end(self) -> Result<Bson>
        ensures whole { (name : Utf8) → EndsItems (tuple_structure name) in_whole self result }
        ensures failed { HasFailed self.trees → AnswersFailed result }
    {
        self.items.finish()
    }
}
