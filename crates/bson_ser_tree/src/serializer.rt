ghost use Rattle.std.specs.Prelude.{◌≡◌, true, [], unwrap_or, IfOk, IfErr};
ghost use Rattle.bson_base.specs.BsonView.{tree_of};
ghost use Rattle.bson_values.specs.Value.{str, no_items, no_entries, no_field_values};
ghost use Rattle.bson_datum.specs.View.{view};
ghost use Rattle.bson_values.specs.declared.ser.Error.TheVariants.{NoMemory};
ghost use Rattle.bson_values.specs.Returned.{Writes};
ghost use Rattle.bson_tree_laws.specs.TreeSpell.{tree_whole};
ghost use Rattle.bson_ser_tree.specs.Answers.{without_paths};
ghost use Rattle.bson_writing.specs.Levels.{in_whole, in_variant};
ghost use Rattle.bson_ser_tree.specs.Taking.{HasItems, HasEntries, HasFields};

use crate::arrays::{ArraySerializer, TupleSerializer, TupleStructSerializer};
use crate::document::whole;
use crate::maps::MapSerializer;
use crate::options::SerializerOptions;
use crate::stopping::without_path;
use crate::structs::StructSerializer;
use crate::variants::{StructVariantSerializer, TupleVariantSerializer};
use bson_base::Bson;
use bson_datum::Datum;
use bson_values::ser::Result;
use std::alloc::Global;
use std::marker::Model;

/// A writer of one value. Contracts see whether it writes values with two forms in their readable form.
#[derive(Debug, Drop)]
pub struct Serializer {
    readable: bool,
}

impl Model for Serializer {
    ghost use Rattle.std.specs.Prelude.{Bool};

    ghost Value = { Bool };

    ghost view = { λ s. s.readable };
}

impl Serializer {
    /// A writer in the readable form.
    pub fn new() -> Serializer
        ensures readable { result ≡ true }
    {
        Serializer { readable: true }
    }

    /// A writer with these options.
    pub fn new_with_options(options: SerializerOptions) -> Serializer
        ensures readable { result ≡ unwrap_or options.human_readable true }
    {
        Serializer {
            readable: options.human_readable.unwrap_or(true),
        }
    }

    /// The BSON value of a datum, as [`to_bson_at`](crate::to_bson_at) makes it.
    ///
    /// # Errors
    ///
    /// Those of [`to_bson_at`](crate::to_bson_at), without their paths.
    pub fn serialize(self, alloc: Global, value: &Datum<'_>) -> Result<Bson>
        ensures exact { Writes tree_of result (without_paths (tree_whole self (view value.now))) }
    {
        match whole(alloc, value, self.readable) {
            Ok(tree) => Ok(tree),
            Err(stop) => Err(without_path(stop)),
        }
    }

    /// A writer of a sequence, value by value.
    pub fn serialize_seq(self, alloc: Global) -> ArraySerializer
        ensures none { HasItems in_whole self result no_items }
    {
        ArraySerializer::new(alloc, self.readable)
    }

    /// A writer of a tuple, value by value.
    pub fn serialize_tuple(self, alloc: Global) -> TupleSerializer
        ensures none { HasItems in_whole self result no_items }
    {
        TupleSerializer::new(alloc, self.readable)
    }

    /// A writer of a tuple struct of any name, value by value.
    pub fn serialize_tuple_struct(self, alloc: Global) -> TupleStructSerializer
        ensures none { HasItems in_whole self result no_items }
    {
        TupleStructSerializer::new(alloc, self.readable)
    }

    /// A writer of a map, key by key and value by value.
    pub fn serialize_map(self, alloc: Global) -> MapSerializer
        ensures none { HasEntries in_whole self result no_entries (str []) }
    {
        MapSerializer::new(alloc, self.readable)
    }

    /// A writer of a struct without a name, field by field.
    pub fn serialize_struct(self, alloc: Global) -> StructSerializer
        ensures none { HasFields in_whole self result no_field_values }
    {
        StructSerializer::new(alloc, self.readable)
    }

    /// A writer of a variant of this name with values, value by value.
    ///
    /// # Errors
    ///
    /// `NoMemory`.
    pub fn serialize_tuple_variant(
        self,
        alloc: Global,
        variant: &str,
    ) -> Result<TupleVariantSerializer>
        ensures none { IfOk result (λ w. HasItems in_variant self w.made no_items) }
        ensures variant { IfOk result (λ w. w.variant ≡ variant.now) }
        ensures memory { IfErr result (λ e. e ≡ NoMemory) }
    {
        TupleVariantSerializer::new(alloc, self.readable, variant)
    }

    /// A writer of a variant of this name with fields, field by field.
    ///
    /// # Errors
    ///
    /// `NoMemory`.
    pub fn serialize_struct_variant(
        self,
        alloc: Global,
        variant: &str,
    ) -> Result<StructVariantSerializer>
        ensures none { IfOk result (λ w. HasFields in_variant self w.made no_field_values) }
        ensures variant { IfOk result (λ w. w.variant ≡ variant.now) }
        ensures memory { IfErr result (λ e. e ≡ NoMemory) }
    {
        StructVariantSerializer::new(alloc, self.readable, variant)
    }
}
