// Writers of variants with contents, part by part.
ghost use Rattle.std.specs.Prelude.{◌≡◌, IfOk, IfErr};
ghost use Rattle.bson_values.specs.Value.{no_items, tuple_variant, no_field_values, structure_variant};
ghost use Rattle.bson_datum.specs.View.{view};
ghost use Rattle.bson_values.specs.declared.ser.Error.TheVariants.{NoMemory};
ghost use Rattle.bson_writing.specs.Levels.{in_variant};
ghost use Rattle.bson_ser_tree.specs.Taking.{HasFailed, HasItems, HasFields, TakesItem, TakesField, EndsItems, EndsFields, AnswersFailed};

use crate::items::ItemsWriter;
use crate::levels::IN_VARIANT;
use crate::pairs::PairsWriter;
use crate::value::variant;
use bson_base::Bson;
use bson_datum::Datum;
use bson_values::ser::Result;
use std::alloc::Global;
use std::marker::Model;

/// A writer of a tuple variant, value by value.
#[derive(Debug, Drop)]
pub struct TupleVariantSerializer {
    variant: String,
    items: ItemsWriter,
}

impl Model for TupleVariantSerializer {
    ghost use Rattle.std.specs.Prelude.{string_bytes};
    ghost use Rattle.bson_ser_tree.specs.Made.{VariantItemsMade};
    ghost use Rattle.bson_ser_tree.specs.Prover.StoredMade.{coded_variant_items};

    ghost Value = { VariantItemsMade };

    ghost coded = { coded_variant_items };

    ghost use Rattle.bson_ser_tree.specs.MadeView.{items_made};

    ghost view = { λ w. record { variant = string_bytes w.variant; made = items_made w.items } };
}

impl TupleVariantSerializer {
    // No values so far.
    pub(crate) fn new(
        alloc: Global,
        readable: bool,
        variant: &str,
    ) -> Result<TupleVariantSerializer>
        ensures none { IfOk result (λ w. HasItems in_variant readable w.made no_items) }
        ensures variant { IfOk result (λ w. w.variant ≡ variant.now) }
        ensures memory { IfErr result (λ e. e ≡ NoMemory) }
    {
        let variant = String::from_str(alloc, variant)?;
        let items = ItemsWriter::new(alloc, readable);
        Ok(TupleVariantSerializer { variant, items })
    }

    /// Takes the next value.
    ///
    /// # Errors
    ///
    /// The refusal of the value as a part of the variant, without its path, or `NoMemory`. From then on `SerializationError` with `Failed`.
    pub fn serialize_field(&mut self, value: &Datum<'_>) -> Result<()>
        ensures takes { TakesItem (tuple_variant self.old.variant) in_variant self.old.made self.new.made (view value.now) result }
        ensures variant { self.new.variant ≡ self.old.variant }
        ensures failed { HasFailed self.old.made.trees → HasFailed self.new.made.trees × AnswersFailed result }
    {
        self.items.push(value, IN_VARIANT)
    }

    /// The document of one pair: under the name of the variant is the array of all values.
    ///
    /// # Errors
    ///
    /// `SerializationError` with `Failed` after a refusal, or `NoMemory`.
    pub fn end(self) -> Result<Bson>
        ensures whole { EndsItems (tuple_variant self.variant) in_variant self.made result }
        ensures failed { HasFailed self.made.trees → AnswersFailed result }
    {
        let alloc = self.items.allocator();
        let tree = self.items.finish()?;
        Ok(variant(alloc, self.variant, tree)?)
    }
}

/// A writer of a struct variant, field by field.
#[derive(Debug, Drop)]
pub struct StructVariantSerializer {
    variant: String,
    pairs: PairsWriter,
}

impl Model for StructVariantSerializer {
    ghost use Rattle.std.specs.Prelude.{string_bytes};
    ghost use Rattle.bson_ser_tree.specs.Made.{VariantPairsMade};
    ghost use Rattle.bson_ser_tree.specs.Prover.StoredMade.{coded_variant_pairs};

    ghost Value = { VariantPairsMade };

    ghost coded = { coded_variant_pairs };

    ghost use Rattle.bson_ser_tree.specs.MadeView.{pairs_made};

    ghost view = { λ w. record { variant = string_bytes w.variant; made = pairs_made w.pairs } };
}

impl StructVariantSerializer {
    // No fields so far.
    pub(crate) fn new(
        alloc: Global,
        readable: bool,
        variant: &str,
    ) -> Result<StructVariantSerializer>
        ensures none { IfOk result (λ w. HasFields in_variant readable w.made no_field_values) }
        ensures variant { IfOk result (λ w. w.variant ≡ variant.now) }
        ensures memory { IfErr result (λ e. e ≡ NoMemory) }
    {
        let variant = String::from_str(alloc, variant)?;
        let pairs = PairsWriter::new(alloc, readable);
        Ok(StructVariantSerializer { variant, pairs })
    }

    /// Takes the next field: its name and its value.
    ///
    /// # Errors
    ///
    /// The refusal of the field as a part of the variant, without its path, or `NoMemory`. From then on `SerializationError` with `Failed`.
    pub fn serialize_field(&mut self, key: &str, value: &Datum<'_>) -> Result<()>
        ensures takes { TakesField (structure_variant self.old.variant) in_variant self.old.made self.new.made key.now (view value.now) result }
        ensures variant { self.new.variant ≡ self.old.variant }
        ensures failed { HasFailed self.old.made.pairs → HasFailed self.new.made.pairs × AnswersFailed result }
    {
        self.pairs.put_field(key, value, IN_VARIANT)
    }

    /// The document of one pair: under the name of the variant is what the document of all fields is folded to.
    ///
    /// # Errors
    ///
    /// `SerializationError` with `Failed` after a refusal, or `NoMemory`.
    pub fn end(self) -> Result<Bson>
        ensures whole { EndsFields (structure_variant self.variant) in_variant self.made result }
        ensures failed { HasFailed self.made.pairs → AnswersFailed result }
    {
        let alloc = self.pairs.allocator();
        let tree = self.pairs.finish()?;
        Ok(variant(alloc, self.variant, tree)?)
    }
}
