// One pass over a datum. What is known only behind a value is written over its place: the kind of each element, and the length of
// each document, array and code with its scope.
ghost use Rattle.std.specs.Prelude.{◌≡◌, ◌+◌, [], length, codes};
ghost use Rattle.std.specs.Str.{bytes_eq};
ghost use Rattle.std.specs.Fmt.{decimal};
ghost use Rattle.bson_base.specs.Tree.{document, array};
ghost use Rattle.bson_values.specs.Refusal.{under, under_index};
ghost use Rattle.bson_values.specs.TextView.{text_view};
ghost use Rattle.bson_values.specs.Value.{newtype_kind, uuid_newtype, readable_inside, kind_as, structure};
ghost use Rattle.bson_datum.specs.View.{view, items_view, entries_view, fields_view};
ghost use Rattle.bson_laws.specs.Means.{key_text};
ghost use Rattle.bson_laws.specs.Unwrap.{unwrap, scoped_code};
ghost use Rattle.bson_laws.specs.UuidBytes.{uuid_bytes};
ghost use Rattle.bson_laws.specs.Spell.{spell_scoped, spell_uuid, written_size, newtype_at, newtype_size, reserved_at, reserved_size, scoped_size, spell_as, spell_items_as, spell_key, spell_entries_as, spell_fields_as, spell_list, named, variant_at, enclosed_at, key_size, variant_size, size_as, size_items_as, size_entries_as, size_fields_as, size_list};
ghost use Rattle.bson_ser_stream.specs.ContentsView.{contents_view};
ghost use Rattle.bson_ser_stream.specs.Writing.{with_tree, with_element, with_entry, with_elements, with_array_elements, places, pair_places, tree_places, count_of};
ghost use Rattle.bson_ser_stream.specs.Halting.{Puts, PutsParts};

use crate::container::{Container, Total};
use crate::element::begin_element;
use crate::raw::put_raw;
use crate::reserved::{put_unwrapped, put_uuid};
use crate::scalar::{
    put_bool, put_bytes, put_char, put_double, put_i32, put_i64, put_text, put_u64,
};
use Contents::{Fields, Items, Value};
use bson_base::has_zero;
use bson_datum::{Datum, Entry, Field};
use bson_io::{Ledger, Out, Steps};
use bson_kinds::ElementType::{self, EmbeddedDocument};
use bson_kinds::reserved_kind;
use bson_reserved::scoped_code;
use bson_values::{Cause, Text};
use bson_writing::{Halt, written_key, zero_in};

// What is under a key: a value, or what a variant holds that is no datum of its own.
#[derive(Clone, Copy)]
pub(crate) enum Contents<'a, 'b> {
    Value(&'a Datum<'b>),
    // The values of a tuple variant.
    Items(&'a [Datum<'b>]),
    // The fields of a struct variant.
    Fields(&'a [Field<'b>]),
}

// Whether a newtype of this name is that of a UUID.
fn is_uuid(name: &str) -> bool
    ensures { result ≡ bytes_eq name.now uuid_newtype }
{
    name == "$__bson_private_uuid"
}

// Whether the content of a newtype of this name is given in its readable form.
fn readable_inside(readable: bool, name: &str) -> bool
    ensures { result ≡ readable_inside readable name.now }
{
    readable || name == "$__bson_private_human_readable"
}

/// Appends a value, in its readable form or in its compact one, with so many levels of documents and arrays left, and returns
/// the kind that it wrote. It is for writers of values that are part of something else; whole documents are written by [`to_buf`](crate::to_buf).
///
/// # Errors
///
/// The refusal of the value, with its path from here on, or that memory ran out. What was appended before stays in `out`.
#[cycle(put)]
#[inline(always)]
pub fn put_value<L: Ledger>(
    out: &mut Out,
    steps: &mut Steps<L>,
    value: &Datum<'_>,
    readable: bool,
    levels: u32,
) -> Result<ElementType, Halt>
    ensures { Puts (kind_as readable (view value.now)) (size_as readable (view value.now)) (spell_as readable (view value.now) levels)
        out.old out.new steps.old steps.new result }
{
    match value {
        Datum::Bool(b) => put_bool(out, steps, *b),
        Datum::I8(n) => put_i32(out, steps, i32::from(*n)),
        Datum::I16(n) => put_i32(out, steps, i32::from(*n)),
        Datum::I32(n) => put_i32(out, steps, *n),
        Datum::I64(n) => put_i64(out, steps, *n),
        Datum::U8(n) => put_i32(out, steps, i32::from(*n)),
        Datum::U16(n) => put_i32(out, steps, i32::from(*n)),
        Datum::U32(n) => put_i64(out, steps, i64::from(*n)),
        Datum::U64(n) => put_u64(out, steps, *n),
        Datum::Double(number) => put_double(out, steps, *number),
        Datum::Char(c) => put_char(out, steps, *c),
        Datum::Str(text) => put_text(out, steps, text.as_str()),
        Datum::Bytes(bytes) => put_bytes(out, steps, bytes.as_bytes()),
        Datum::None | Datum::Unit | Datum::UnitStruct { .. } => Ok(ElementType::Null),
        Datum::Some(content) => put_inner(out, steps, content, readable, levels),
        Datum::NewtypeStruct { name, value } => put_newtype(
            out, steps, name, value, readable, levels,
        ),
        Datum::UnitVariant { variant } => put_text(out, steps, variant.as_str()),
        Datum::NewtypeVariant { variant, value } => {
            put_variant(out, steps, variant, Value(value), readable, levels)
        }
        Datum::Seq(items) | Datum::Tuple(items) | Datum::TupleStruct { items, .. } => {
            put_array(out, steps, items, readable, levels)
        }
        Datum::TupleVariant { variant, items } => {
            put_variant(out, steps, variant, Items(items), readable, levels)
        }
        Datum::Map(entries) => put_map(out, steps, entries, readable, levels),
        Datum::Struct { name, fields } => put_struct(out, steps, name, fields, readable, levels),
        Datum::RawDocument(raw) => put_raw(out, steps, EmbeddedDocument, raw.as_bytes(), levels),
        Datum::RawArray(raw) => put_raw(out, steps, ElementType::Array, raw.as_bytes(), levels),
        Datum::Mode { readable: form, .. } if readable => put_inner(out, steps, form, true, levels),
        Datum::Mode { compact, .. } => put_inner(out, steps, compact, readable, levels),
        Datum::StructVariant { variant, fields } => {
            put_variant(out, steps, variant, Fields(fields), readable, levels)
        }
    }
}

// The content of some value, and the form of a value with two. It is a function of its own, since `put_value` is inlined.
#[cycle(put)]
#[inline(never)]
fn put_inner<L: Ledger>(
    out: &mut Out,
    steps: &mut Steps<L>,
    content: &Datum<'_>,
    readable: bool,
    levels: u32,
) -> Result<ElementType, Halt>
    ensures { Puts (kind_as readable (view content.now)) (size_as readable (view content.now)) (spell_as readable (view content.now) levels)
        out.old out.new steps.old steps.new result }
{
    put_value(out, steps, content, readable, levels)
}

// A newtype: that of a UUID, or its content.
#[cycle(put)]
fn put_newtype<L: Ledger>(
    out: &mut Out,
    steps: &mut Steps<L>,
    name: &Text<'_>,
    content: &Datum<'_>,
    readable: bool,
    levels: u32,
) -> Result<ElementType, Halt>
    ensures { let name = text_view name.now in let value = view content.now in let inside = readable_inside readable name in
        Puts (newtype_kind name (kind_as inside value)) (newtype_size name (written_size (spell_uuid (uuid_bytes readable value))) (size_as inside value))
        (newtype_at name (spell_uuid (uuid_bytes readable value)) (spell_as inside value levels))
        out.old out.new steps.old steps.new result }
{
    let name = name.as_str();
    if is_uuid(name) {
        return put_uuid(out, steps, content, readable);
    }
    put_value(out, steps, content, readable_inside(readable, name), levels)
}

/// Appends the value of a struct whose name is reserved for this kind, with so many levels of documents and arrays left for a scope, and returns the kind. It
/// takes no level.
///
/// # Errors
///
/// The refusal of the struct, with its path from here on, or that memory ran out. What was appended before stays in `out`.
#[cycle(put)]
#[inline(never)]
pub fn put_reserved<L: Ledger>(
    out: &mut Out,
    steps: &mut Steps<L>,
    kind: ElementType,
    fields: &[Field<'_>],
    readable: bool,
    levels: u32,
) -> Result<ElementType, Halt>
    ensures { let values = fields_view fields.now in
        Puts kind (reserved_size kind (unwrap kind values) (scoped_code (size_list readable values [])))
        (reserved_at kind (unwrap kind values) (scoped_code (spell_list readable values levels [])))
        out.old out.new steps.old steps.new result }
{
    match kind {
        ElementType::JavaScriptCodeWithScope => put_scoped(out, steps, fields, readable, levels),
        _ => put_unwrapped(out, steps, kind, fields),
    }
}

// Code with a scope, which is at the level of a document in its place.
#[cycle(put)]
fn put_scoped<L: Ledger>(
    out: &mut Out,
    steps: &mut Steps<L>,
    fields: &[Field<'_>],
    readable: bool,
    levels: u32,
) -> Result<ElementType, Halt>
    ensures { let values = fields_view fields.now in
        Puts ElementType.JavaScriptCodeWithScope (scoped_size (scoped_code (size_list readable values [])))
        (spell_scoped (scoped_code (spell_list readable values levels [])))
        out.old out.new steps.old steps.new result }
{
    let Some((code, scope)) = scoped_code(fields) else {
        return Err(Halt::caused(out.allocator(), Cause::BadStep));
    };
    let total = Total::begin(out, steps)?;
    put_text(out, steps, code)?;
    put_scope(out, steps, scope, readable, levels)?;
    total.end(out, steps)?;
    Ok(ElementType::JavaScriptCodeWithScope)
}

// The scope of code. A refusal is seen from the code.
#[cycle(put)]
fn put_scope<L: Ledger>(
    out: &mut Out,
    steps: &mut Steps<L>,
    scope: &Datum<'_>,
    readable: bool,
    levels: u32,
) -> Result<(), Halt>
    ensures { let value = view scope.now in
        PutsParts (size_as readable value) (count_of places (spell_as readable value levels)) (with_tree out.old.bytes (under (codes "$scope") (spell_as readable value levels)))
        out.old out.new steps.old steps.new result }
{
    match put_value(out, steps, scope, readable, levels) {
        Ok(_) => Ok(()),
        Err(halt) => Err(halt.under_key("$scope")),
    }
}

// A variant with contents: a document of one pair, whose key is the name of the variant.
#[cycle(put)]
fn put_variant<L: Ledger>(
    out: &mut Out,
    steps: &mut Steps<L>,
    name: &Text<'_>,
    contents: Contents<'_, '_>,
    readable: bool,
    levels: u32,
) -> Result<ElementType, Halt>
    ensures { let name = text_view name.now in let value = contents_view contents.entry in
        Puts ElementType.EmbeddedDocument (variant_size name (size_as readable value)) (variant_at name levels (spell_as readable value))
        out.old out.new steps.old steps.new result }
{
    let document = Container::begin(out, steps, levels)?;
    put_named(out, steps, name, contents, readable, document.levels)?;
    document.end(out, steps)?;
    Ok(EmbeddedDocument)
}

// A struct: one of a reserved name, or a document of its fields.
#[cycle(put)]
#[inline(always)]
fn put_struct<L: Ledger>(
    out: &mut Out,
    steps: &mut Steps<L>,
    name: &Text<'_>,
    fields: &[Field<'_>],
    readable: bool,
    levels: u32,
) -> Result<ElementType, Halt>
    ensures { let value = structure (text_view name.now) (fields_view fields.now) in
        Puts (kind_as readable value) (size_as readable value) (spell_as readable value levels)
        out.old out.new steps.old steps.new result }
{
    match reserved_kind(name.as_str()) {
        Some(kind) => put_reserved(out, steps, kind, fields, readable, levels),
        None => put_document(out, steps, fields, readable, levels),
    }
}

// A document of these fields.
#[cycle(put)]
#[inline(always)]
fn put_document<L: Ledger>(
    out: &mut Out,
    steps: &mut Steps<L>,
    fields: &[Field<'_>],
    readable: bool,
    levels: u32,
) -> Result<ElementType, Halt>
    ensures { let values = fields_view fields.now in
        Puts ElementType.EmbeddedDocument (size_fields_as readable values + 5) (enclosed_at document levels (spell_fields_as readable values))
        out.old out.new steps.old steps.new result }
{
    let document = Container::begin(out, steps, levels)?;
    put_fields(out, steps, fields, readable, document.levels)?;
    document.end(out, steps)?;
    Ok(EmbeddedDocument)
}

// A document of the entries of a map.
#[cycle(put)]
fn put_map<L: Ledger>(
    out: &mut Out,
    steps: &mut Steps<L>,
    entries: &[Entry<'_>],
    readable: bool,
    levels: u32,
) -> Result<ElementType, Halt>
    ensures { let values = entries_view entries.now in
        Puts ElementType.EmbeddedDocument (size_entries_as readable values + 5) (enclosed_at document levels (spell_entries_as readable values))
        out.old out.new steps.old steps.new result }
{
    let document = Container::begin(out, steps, levels)?;
    put_entries(out, steps, entries, readable, document.levels)?;
    document.end(out, steps)?;
    Ok(EmbeddedDocument)
}

// An array of these values.
#[cycle(put)]
fn put_array<L: Ledger>(
    out: &mut Out,
    steps: &mut Steps<L>,
    items: &[Datum<'_>],
    readable: bool,
    levels: u32,
) -> Result<ElementType, Halt>
    ensures { let values = items_view items.now in
        Puts ElementType.Array (size_items_as readable 0 values + 5) (enclosed_at array levels (spell_items_as readable 0 values))
        out.old out.new steps.old steps.new result }
{
    let array = Container::begin(out, steps, levels)?;
    put_items(out, steps, items, readable, array.levels)?;
    array.end(out, steps)?;
    Ok(ElementType::Array)
}

// The elements of these fields.
#[cycle(put)]
#[inline(always)]
fn put_fields<L: Ledger>(
    out: &mut Out,
    steps: &mut Steps<L>,
    fields: &[Field<'_>],
    readable: bool,
    levels: u32,
) -> Result<(), Halt>
    ensures { let values = fields_view fields.now in
        PutsParts (size_fields_as readable values) (count_of pair_places (spell_fields_as readable values levels)) (with_elements out.old.bytes (spell_fields_as readable values levels))
        out.old out.new steps.old steps.new result }
{
    for field in fields {
        let value = Value(&field.value);
        put_named(out, steps, &field.name, value, readable, levels)?;
    }
    Ok(())
}

// The elements of these entries.
#[cycle(put)]
fn put_entries<L: Ledger>(
    out: &mut Out,
    steps: &mut Steps<L>,
    entries: &[Entry<'_>],
    readable: bool,
    levels: u32,
) -> Result<(), Halt>
    ensures { let values = entries_view entries.now in
        PutsParts (size_entries_as readable values) (count_of pair_places (spell_entries_as readable values levels)) (with_elements out.old.bytes (spell_entries_as readable values levels))
        out.old out.new steps.old steps.new result }
{
    for entry in entries {
        put_entry(out, steps, entry, readable, levels)?;
    }
    Ok(())
}

// The elements of these values, whose keys are their indexes.
#[cycle(put)]
fn put_items<L: Ledger>(
    out: &mut Out,
    steps: &mut Steps<L>,
    items: &[Datum<'_>],
    readable: bool,
    levels: u32,
) -> Result<(), Halt>
    ensures { let values = items_view items.now in
        PutsParts (size_items_as readable 0 values) (count_of tree_places (spell_items_as readable 0 values levels)) (with_array_elements out.old.bytes 0 (spell_items_as readable 0 values levels))
        out.old out.new steps.old steps.new result }
{
    for (index, item) in items.iter().enumerate() {
        put_item(out, steps, index as u64, item, readable, levels)?;
    }
    Ok(())
}

// The element of a field, or of what a variant holds. Its name is judged before it.
#[cycle(put)]
pub(crate) fn put_named<L: Ledger>(
    out: &mut Out,
    steps: &mut Steps<L>,
    name: &Text<'_>,
    contents: Contents<'_, '_>,
    readable: bool,
    levels: u32,
) -> Result<(), Halt>
    ensures { let name = text_view name.now in let value = contents_view contents.entry in
        PutsParts (length name + 2 + size_as readable value) (count_of places (spell_as readable value levels) + 1) (with_element out.old.bytes name (named name (spell_as readable value levels)))
        out.old out.new steps.old steps.new result }
{
    let key = name.as_str();
    if has_zero(key) {
        return Err(zero_in(out.allocator(), key));
    }
    put_under_key(out, steps, key, contents, readable, levels)
}

// The element of an entry, whose key is judged before its value.
#[cycle(put)]
fn put_entry<L: Ledger>(
    out: &mut Out,
    steps: &mut Steps<L>,
    entry: &Entry<'_>,
    readable: bool,
    levels: u32,
) -> Result<(), Halt>
    ensures { let key = view entry.now.key in let value = view entry.now.value in
        PutsParts (key_size (key_text key) + 2 + size_as readable value) (count_of places (spell_as readable value levels) + 1) (with_entry out.old.bytes (spell_key key) (spell_as readable value levels))
        out.old out.new steps.old steps.new result }
{
    let key = written_key(out.allocator(), &entry.key)?;
    put_under_key(out, steps, key, Value(&entry.value), readable, levels)
}

// The element of what is under a key. A refusal is seen from the document.
#[cycle(put)]
#[inline(always)]
pub(crate) fn put_under_key<L: Ledger>(
    out: &mut Out,
    steps: &mut Steps<L>,
    key: &str,
    contents: Contents<'_, '_>,
    readable: bool,
    levels: u32,
) -> Result<(), Halt>
    ensures { let value = contents_view contents.entry in
        PutsParts (length key.now + 2 + size_as readable value) (count_of places (spell_as readable value levels) + 1) (with_element out.old.bytes key.now (under key.now (spell_as readable value levels)))
        out.old out.new steps.old steps.new result }
{
    match put_element(out, steps, key, contents, readable, levels) {
        Ok(()) => Ok(()),
        Err(halt) => Err(halt.under_key(key)),
    }
}

/// Appends the element of a value in an array, whose key is its index in decimal digits, with so many levels of documents and arrays left for the value.
///
/// # Errors
///
/// The refusal of the value, with its path from the array on, or that memory ran out. What was appended before stays in `out`.
#[cycle(put)]
pub fn put_item<L: Ledger>(
    out: &mut Out,
    steps: &mut Steps<L>,
    index: u64,
    item: &Datum<'_>,
    readable: bool,
    levels: u32,
) -> Result<(), Halt>
    ensures { let value = view item.now in
        PutsParts (length (decimal index) + 2 + size_as readable value) (count_of places (spell_as readable value levels) + 1) (with_element out.old.bytes (decimal index) (under_index index (spell_as readable value levels)))
        out.old out.new steps.old steps.new result }
{
    let mut digits = itoa::Buffer::new();
    let value = Value(item);
    match put_element(out, steps, digits.format(index), value, readable, levels) {
        Ok(()) => Ok(()),
        Err(halt) => Err(halt.under_index(index)),
    }
}

// An element: its key and what is under it, whose kind is known behind it. A refusal is seen from the value.
#[cycle(put)]
#[inline(always)]
fn put_element<L: Ledger>(
    out: &mut Out,
    steps: &mut Steps<L>,
    key: &str,
    contents: Contents<'_, '_>,
    readable: bool,
    levels: u32,
) -> Result<(), Halt>
    ensures { let value = contents_view contents.entry in
        PutsParts (length key.now + 2 + size_as readable value) (count_of places (spell_as readable value levels) + 1) (with_element out.old.bytes key.now (spell_as readable value levels))
        out.old out.new steps.old steps.new result }
{
    let start = out.len();
    begin_element(out, steps, key)?;
    let kind = put_contents(out, steps, contents, readable, levels)?;
    out.patch_byte(start, kind.byte(), steps);
    Ok(())
}

// What is under a key, and the kind that it is written as.
#[cycle(put)]
fn put_contents<L: Ledger>(
    out: &mut Out,
    steps: &mut Steps<L>,
    contents: Contents<'_, '_>,
    readable: bool,
    levels: u32,
) -> Result<ElementType, Halt>
    ensures { let value = contents_view contents.entry in
        Puts (kind_as readable (contents_view contents.entry)) (size_as readable value) (spell_as readable value levels)
        out.old out.new steps.old steps.new result }
{
    match contents {
        Value(value) => put_value(out, steps, value, readable, levels),
        Items(items) => put_array(out, steps, items, readable, levels),
        Fields(fields) => put_document(out, steps, fields, readable, levels),
    }
}
