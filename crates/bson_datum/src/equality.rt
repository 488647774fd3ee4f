ghost use Rattle.std.specs.Prelude.{◌≡◌, ◌↔◌, IsTrue};
ghost use Rattle.std.specs.Str.{bytes_eq};
ghost use Rattle.bson_values.specs.TextView.{text_view};
ghost use Rattle.bson_datum.specs.RawView.{raw_document_view, raw_array_view};
ghost use Rattle.bson_values.specs.Value.{newtype, newtype_variant, sequence, tuple, tuple_structure, tuple_variant, map, structure, structure_variant};
ghost use Rattle.bson_datum.specs.View.{view, items_view, entry_view, entries_view, field_view, fields_view};
ghost use Rattle.bson_values.specs.Same.{same, same_items, same_entries, same_entry, same_fields, same_field};

use crate::{Datum, Entry, Field, RawArr, RawDoc};
use bson_values::Text;

/// Two documents in their bytes are equal exactly where their bytes are, whoever owns them.
impl PartialEq for RawDoc<'_> {
    ghost use Rattle.std.specs.Str.{bytes_eq};
    ghost use Rattle.bson_datum.specs.RawView.{raw_document_view};
    ghost use Rattle.bson_datum.specs.Prover.Decided.{raw_document_laws};

    ghost eq = { λ a b. bytes_eq (raw_document_view a) (raw_document_view b) };

    ghost laws = { raw_document_laws };

    fn eq(&self, other: &Self) -> bool
        ensures value { result ≡ bytes_eq (raw_document_view self.now) (raw_document_view other.now) }
        ensures equal { IsTrue result ↔ (raw_document_view self.now ≡ raw_document_view other.now) }
    {
        self.as_bytes() == other.as_bytes()
    }
}

/// Two arrays in their bytes are equal exactly where their bytes are, whoever owns them.
impl PartialEq for RawArr<'_> {
    ghost use Rattle.std.specs.Str.{bytes_eq};
    ghost use Rattle.bson_datum.specs.RawView.{raw_array_view};
    ghost use Rattle.bson_datum.specs.Prover.Decided.{raw_array_laws};

    ghost eq = { λ a b. bytes_eq (raw_array_view a) (raw_array_view b) };

    ghost laws = { raw_array_laws };

    fn eq(&self, other: &Self) -> bool
        ensures value { result ≡ bytes_eq (raw_array_view self.now) (raw_array_view other.now) }
        ensures equal { IsTrue result ↔ (raw_array_view self.now ≡ raw_array_view other.now) }
    {
        self.as_bytes() == other.as_bytes()
    }
}

/// Two entries are equal exactly where their keys are and their values are.
impl PartialEq for Entry<'_> {
    ghost use Rattle.bson_datum.specs.View.{entry_view};
    ghost use Rattle.bson_values.specs.Same.{same_entry};
    ghost use Rattle.bson_datum.specs.Prover.Decided.{entry_laws};

    ghost eq = { λ a b. same_entry (entry_view a) (entry_view b) };

    ghost laws = { entry_laws };

    fn eq(&self, other: &Self) -> bool
        ensures value { result ≡ same_entry (entry_view self.now) (entry_view other.now) }
        ensures equal { IsTrue result ↔ (entry_view self.now ≡ entry_view other.now) }
    {
        is_same_entry(self, other)
    }
}

/// Two fields are equal exactly where their names are and their values are.
impl PartialEq for Field<'_> {
    ghost use Rattle.bson_datum.specs.View.{field_view};
    ghost use Rattle.bson_values.specs.Same.{same_field};
    ghost use Rattle.bson_datum.specs.Prover.Decided.{field_laws};

    ghost eq = { λ a b. same_field (field_view a) (field_view b) };

    ghost laws = { field_laws };

    fn eq(&self, other: &Self) -> bool
        ensures value { result ≡ same_field (field_view self.now) (field_view other.now) }
        ensures equal { IsTrue result ↔ (field_view self.now ≡ field_view other.now) }
    {
        is_same_field(self, other)
    }
}

/// Two data are equal exactly where they stand for one value.
impl PartialEq for Datum<'_> {
    ghost use Rattle.bson_datum.specs.View.{view};
    ghost use Rattle.bson_values.specs.Same.{same};
    ghost use Rattle.bson_datum.specs.Prover.Decided.{datum_laws};

    ghost eq = { λ a b. same (view a) (view b) };

    ghost laws = { datum_laws };

    fn eq(&self, other: &Self) -> bool
        ensures value { result ≡ same (view self.now) (view other.now) }
        ensures equal { IsTrue result ↔ (view self.now ≡ view other.now) }
    {
        is_same(self, other)
    }
}

// Whether two data stand for one value.
#[cycle(same)]
#[tactic(auto, using(crate::proofs::Views::item_rows_items, crate::proofs::Views::entry_rows_items, crate::proofs::Views::rows_items))]
fn is_same(a: &Datum<'_>, b: &Datum<'_>) -> bool
    ensures { result ≡ same (view a.now) (view b.now) }
{
    match (a, b) {
        (Datum::Bool(truth), Datum::Bool(other)) => truth == other,
        (Datum::I8(number), Datum::I8(other)) => number == other,
        (Datum::I16(number), Datum::I16(other)) => number == other,
        (Datum::I32(number), Datum::I32(other)) => number == other,
        (Datum::I64(number), Datum::I64(other)) => number == other,
        (Datum::U8(number), Datum::U8(other)) => number == other,
        (Datum::U16(number), Datum::U16(other)) => number == other,
        (Datum::U32(number), Datum::U32(other)) => number == other,
        (Datum::U64(number), Datum::U64(other)) => number == other,
        (Datum::Double(number), Datum::Double(other)) => number == other,
        (Datum::Char(character), Datum::Char(other)) => character == other,
        (Datum::Str(text), Datum::Str(other)) => text == other,
        (Datum::Bytes(bytes), Datum::Bytes(other)) => bytes == other,
        (Datum::RawDocument(document), Datum::RawDocument(other)) => document == other,
        (Datum::RawArray(array), Datum::RawArray(other)) => array == other,
        (Datum::None, Datum::None) | (Datum::Unit, Datum::Unit) => true,
        (Datum::Some(value), Datum::Some(other)) => is_same(value, other),
        (Datum::UnitStruct { name }, Datum::UnitStruct { name: other }) => name == other,
        (Datum::UnitVariant { variant }, Datum::UnitVariant { variant: other }) => variant == other,
        (Datum::NewtypeStruct { name, value }, _) => is_newtype_of(name, value, b),
        (Datum::NewtypeVariant { variant, value }, _) => is_newtype_variant_of(variant, value, b),
        (Datum::Seq(items), _) => is_sequence_of(items, b),
        (Datum::Tuple(items), _) => is_tuple_of(items, b),
        (Datum::TupleStruct { name, items }, _) => is_tuple_struct_of(name, items, b),
        (Datum::TupleVariant { variant, items }, _) => is_tuple_variant_of(variant, items, b),
        (Datum::Map(entries), _) => is_map_of(entries, b),
        (Datum::Struct { name, fields }, _) => is_struct_of(name, fields, b),
        (Datum::StructVariant { variant, fields }, _) => is_struct_variant_of(variant, fields, b),
        (
            Datum::Mode { readable, compact },
            Datum::Mode {
                readable: other_readable,
                compact: other_compact,
            },
        ) => is_same(readable, other_readable) && is_same(compact, other_compact),
        _ => false,
    }
}

// Whether a datum is a newtype of this name around this value.
#[cycle(same)]
#[tactic(auto, using(crate::proofs::Sames::unlike_newtype))]
fn is_newtype_of(name: &Text<'_>, value: &Datum<'_>, datum: &Datum<'_>) -> bool
    ensures { result ≡ same (newtype (text_view name.now) (view value.now)) (view datum.now) }
{
    match datum {
        Datum::NewtypeStruct {
            name: other,
            value: content,
        } => name == other && is_same(value, content),
        _ => false,
    }
}

// Whether a datum is a variant of this name around this value.
#[cycle(same)]
#[tactic(auto, using(crate::proofs::Sames::unlike_newtype_variant))]
fn is_newtype_variant_of(variant: &Text<'_>, value: &Datum<'_>, datum: &Datum<'_>) -> bool
    ensures { result ≡ same (newtype_variant (text_view variant.now) (view value.now)) (view datum.now) }
{
    match datum {
        Datum::NewtypeVariant {
            variant: other,
            value: content,
        } => variant == other && is_same(value, content),
        _ => false,
    }
}

// Whether a datum is a sequence of these values.
#[cycle(same)]
#[tactic(auto, using(crate::proofs::Views::item_rows_items, crate::proofs::Sames::unlike_sequence))]
fn is_sequence_of(items: &[Datum<'_>], datum: &Datum<'_>) -> bool
    ensures { result ≡ same (sequence (items_view items.now)) (view datum.now) }
{
    match datum {
        Datum::Seq(others) => are_same_items(items, others),
        _ => false,
    }
}

// Whether a datum is a tuple of these values.
#[cycle(same)]
#[tactic(auto, using(crate::proofs::Views::item_rows_items, crate::proofs::Sames::unlike_tuple))]
fn is_tuple_of(items: &[Datum<'_>], datum: &Datum<'_>) -> bool
    ensures { result ≡ same (tuple (items_view items.now)) (view datum.now) }
{
    match datum {
        Datum::Tuple(others) => are_same_items(items, others),
        _ => false,
    }
}

// Whether a datum is a tuple struct of this name with these values.
#[cycle(same)]
#[tactic(auto, using(crate::proofs::Views::item_rows_items, crate::proofs::Sames::unlike_tuple_struct))]
fn is_tuple_struct_of(name: &Text<'_>, items: &[Datum<'_>], datum: &Datum<'_>) -> bool
    ensures { result ≡ same (tuple_structure (text_view name.now) (items_view items.now)) (view datum.now) }
{
    match datum {
        Datum::TupleStruct {
            name: other,
            items: others,
        } => name == other && are_same_items(items, others),
        _ => false,
    }
}

// Whether a datum is a variant of this name with these values.
#[cycle(same)]
#[tactic(auto, using(crate::proofs::Views::item_rows_items, crate::proofs::Sames::unlike_tuple_variant))]
fn is_tuple_variant_of(variant: &Text<'_>, items: &[Datum<'_>], datum: &Datum<'_>) -> bool
    ensures { result ≡ same (tuple_variant (text_view variant.now) (items_view items.now)) (view datum.now) }
{
    match datum {
        Datum::TupleVariant {
            variant: other,
            items: others,
        } => variant == other && are_same_items(items, others),
        _ => false,
    }
}

// Whether a datum is a map of these entries.
#[cycle(same)]
#[tactic(auto, using(crate::proofs::Views::entry_rows_items, crate::proofs::Sames::unlike_map))]
fn is_map_of(entries: &[Entry<'_>], datum: &Datum<'_>) -> bool
    ensures { result ≡ same (map (entries_view entries.now)) (view datum.now) }
{
    match datum {
        Datum::Map(others) => are_same_entries(entries, others),
        _ => false,
    }
}

// Whether a datum is a struct of this name with these fields.
#[cycle(same)]
#[tactic(auto, using(crate::proofs::Views::rows_items, crate::proofs::Sames::unlike_struct))]
fn is_struct_of(name: &Text<'_>, fields: &[Field<'_>], datum: &Datum<'_>) -> bool
    ensures { result ≡ same (structure (text_view name.now) (fields_view fields.now)) (view datum.now) }
{
    match datum {
        Datum::Struct {
            name: other,
            fields: others,
        } => name == other && are_same_fields(fields, others),
        _ => false,
    }
}

// Whether a datum is a variant of this name with these fields.
#[cycle(same)]
#[tactic(auto, using(crate::proofs::Views::rows_items, crate::proofs::Sames::unlike_struct_variant))]
fn is_struct_variant_of(variant: &Text<'_>, fields: &[Field<'_>], datum: &Datum<'_>) -> bool
    ensures { result ≡ same (structure_variant (text_view variant.now) (fields_view fields.now)) (view datum.now) }
{
    match datum {
        Datum::StructVariant {
            variant: other,
            fields: others,
        } => variant == other && are_same_fields(fields, others),
        _ => false,
    }
}

// Whether as many data are in both, equal one by one.
#[cycle(same)]
fn are_same_items(a: &[Datum<'_>], b: &[Datum<'_>]) -> bool
    ensures { result ≡ same_items (items_view a.now) (items_view b.now) }
{
    if a.len() != b.len() {
        return false;
    }
    for (i, item) in a.iter().enumerate() {
        if !is_same(item, &b[i]) {
            return false;
        }
    }
    true
}

// Whether as many entries are in both, equal one by one.
#[cycle(same)]
fn are_same_entries(a: &[Entry<'_>], b: &[Entry<'_>]) -> bool
    ensures { result ≡ same_entries (entries_view a.now) (entries_view b.now) }
{
    if a.len() != b.len() {
        return false;
    }
    for (i, entry) in a.iter().enumerate() {
        if !is_same_entry(entry, &b[i]) {
            return false;
        }
    }
    true
}

// Whether two entries have equal keys and equal values.
#[cycle(same)]
fn is_same_entry(a: &Entry<'_>, b: &Entry<'_>) -> bool
    ensures { result ≡ same_entry (entry_view a.now) (entry_view b.now) }
{
    is_same(&a.key, &b.key) && is_same(&a.value, &b.value)
}

// Whether as many fields are in both, equal one by one.
#[cycle(same)]
fn are_same_fields(a: &[Field<'_>], b: &[Field<'_>]) -> bool
    ensures { result ≡ same_fields (fields_view a.now) (fields_view b.now) }
{
    if a.len() != b.len() {
        return false;
    }
    for (i, field) in a.iter().enumerate() {
        if !is_same_field(field, &b[i]) {
            return false;
        }
    }
    true
}

// Whether two fields have one name and stand for one value.
#[cycle(same)]
fn is_same_field(a: &Field<'_>, b: &Field<'_>) -> bool
    ensures { result ≡ same_field (field_view a.now) (field_view b.now) }
{
    a.name == b.name && is_same(&a.value, &b.value)
}
