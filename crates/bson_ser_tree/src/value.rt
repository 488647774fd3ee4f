// The tree of a datum. Its texts and byte strings are copied, since the datum is borrowed.
ghost use Rattle.std.specs.Prelude.{◌≡◌, false, string_bytes, IfOk};
ghost use Rattle.std.specs.Str.{bytes_eq};
ghost use Rattle.bson_base.specs.BsonView.{tree_of, trees_of, pairs_of};
ghost use Rattle.bson_base.specs.Folded.{fold};
ghost use Rattle.bson_kinds.specs.Outcome.{result_map};
ghost use Rattle.bson_base.specs.Tree.{document, array, no_pairs, pair};
ghost use Rattle.bson_values.specs.Refusal.{under, under_index};
ghost use Rattle.bson_values.specs.TextView.{text_view};
ghost use Rattle.bson_values.specs.Value as values;
ghost use Rattle.bson_values.specs.Value.{uuid_newtype, readable_inside};
ghost use Rattle.bson_datum.specs.View.{view, items_view, entries_view, fields_view};
ghost use Rattle.bson_laws.specs.Spell.{enclosed_at, newtype_at};
ghost use Rattle.bson_laws.specs.UuidBytes.{uuid_bytes};
ghost use Rattle.bson_tree_laws.specs.TreeSpell as trees;
ghost use Rattle.bson_tree_laws.specs.TreeSpell.{tree_uuid, tree_variant, tree_struct, tree_spell, tree_items, tree_entries, tree_fields, tree_key_text};
ghost use Rattle.bson_ser_tree.specs.Gives.{Reaches};

use crate::raw::{raw_array, raw_document};
use crate::scalar::{byte_string, character, text, unique_id, unsigned};
use crate::stopping::{Writing, refused, refused_for};
use bson_base::{Bson, Document};
use bson_datum::{Datum, Entry, Field};
use bson_kinds::reserved_kind;
use bson_values::ser::Fault;
use bson_values::{Cause, Text};
use std::alloc::{AllocError, Global};

// Whether a newtype of this name is that of a UUID.
fn is_uuid(name: &str) -> bool
    ensures { result ≡ bytes_eq name.now uuid_newtype }
{
    name == "$__bson_private_uuid"
}

// Whether the content of a newtype of this name is given in its readable form.
fn readable_inside(readable: bool, name: &str) -> bool
    ensures { result ≡ readable_inside readable name.now }
{
    readable || name == "$__bson_private_human_readable"
}

// Whether a struct of this name takes no level: one of a reserved name, and one that is reached from such a one by fields alone.
fn is_levelless(in_reserved: bool, name: &str) -> bool
    ensures { result ≡ trees.is_levelless in_reserved name.now }
{
    in_reserved || reserved_kind(name).is_some()
}

/// The tree of a value, in its readable form or in its compact one, with so many levels of documents and arrays left. `in_reserved` says
/// whether the value is reached from a struct of a reserved name by fields alone.
///
/// # Errors
///
/// The refusal of the value, with its path from here on, or that memory ran out.
#[cycle(build)]
#[tactic(auto, using(bson_datum::proofs::Views::item_rows_items, bson_datum::proofs::Views::entry_rows_items, bson_datum::proofs::Views::rows_items))]
pub(crate) fn tree_value(
    alloc: Global,
    value: &Datum<'_>,
    readable: bool,
    in_reserved: bool,
    levels: u32,
) -> Writing<Bson>
    ensures { Reaches tree_of result (tree_spell readable in_reserved (view value.now) levels) }
{
    match value {
        Datum::Bool(b) => Ok(Bson::Boolean(*b)),
        Datum::I8(n) => Ok(Bson::Int32(i32::from(*n))),
        Datum::I16(n) => Ok(Bson::Int32(i32::from(*n))),
        Datum::I32(n) => Ok(Bson::Int32(*n)),
        Datum::I64(n) => Ok(Bson::Int64(*n)),
        Datum::U8(n) => Ok(Bson::Int32(i32::from(*n))),
        Datum::U16(n) => Ok(Bson::Int32(i32::from(*n))),
        Datum::U32(n) => Ok(Bson::Int64(i64::from(*n))),
        Datum::U64(n) => unsigned(alloc, *n),
        Datum::Double(number) => Ok(Bson::Double(*number)),
        Datum::Char(c) => Ok(character(alloc, *c)?),
        Datum::Str(content) => Ok(text(alloc, content.as_str())?),
        Datum::UnitVariant { variant } => Ok(text(alloc, variant.as_str())?),
        Datum::Bytes(bytes) => Ok(byte_string(alloc, bytes.as_bytes())?),
        Datum::None | Datum::Unit | Datum::UnitStruct { .. } => Ok(Bson::Null),
        Datum::Some(content) => inner(alloc, content, readable, levels),
        Datum::NewtypeStruct { name, value } => {
            newtype(alloc, name.as_str(), value, readable, levels)
        }
        Datum::RawDocument(document) => raw_document(alloc, document.as_document(), levels),
        Datum::RawArray(array) => raw_array(alloc, array.as_array(), levels),
        Datum::NewtypeVariant { variant, value } => {
            newtype_variant(alloc, variant.as_str(), value, readable, levels)
        }
        Datum::Seq(items) | Datum::Tuple(items) | Datum::TupleStruct { items, .. } => {
            array(alloc, items, readable, levels)
        }
        Datum::TupleVariant { variant, items } => {
            tuple_variant(alloc, variant.as_str(), items, readable, levels)
        }
        Datum::Map(entries) => map(alloc, entries, readable, levels),
        Datum::Struct { name, fields } => named(alloc, name, fields, readable, in_reserved, levels),
        Datum::StructVariant { variant, fields } => {
            struct_variant(alloc, variant.as_str(), fields, readable, levels)
        }
        Datum::Mode { readable: form, .. } if readable => inner(alloc, form, readable, levels),
        Datum::Mode { compact, .. } => inner(alloc, compact, readable, levels),
    }
}

// The tree of a value that is not reached from a struct of a reserved name by fields alone.
#[cycle(build)]
#[inline(always)]
fn inner(alloc: Global, value: &Datum<'_>, readable: bool, levels: u32) -> Writing<Bson>
    ensures { Reaches tree_of result (tree_spell readable false (view value.now) levels) }
{
    tree_value(alloc, value, readable, false, levels)
}

// A newtype: that of a UUID, or its content.
#[cycle(build)]
fn newtype(
    alloc: Global,
    name: &str,
    content: &Datum<'_>,
    readable: bool,
    levels: u32,
) -> Writing<Bson>
    ensures { let value = view content.now in
        Reaches tree_of result (newtype_at name.now (tree_uuid (uuid_bytes readable value)) (tree_spell (readable_inside readable name.now) false value levels)) }
{
    if is_uuid(name) {
        return unique_id(alloc, content, readable);
    }
    inner(alloc, content, readable_inside(readable, name), levels)
}

// ---- arrays

// An array of these values.
#[cycle(build)]
#[tactic(auto, using(bson_base::proofs::Rows::row_items, bson_base::proofs::Rows::row_pairs))]
fn array(alloc: Global, items: &[Datum<'_>], readable: bool, levels: u32) -> Writing<Bson>
    ensures { Reaches tree_of result (enclosed_at array levels (tree_items readable 0 (items_view items.now))) }
{
    if levels == 0 {
        return Err(refused_for(alloc, Cause::TooDeep));
    }
    let trees = item_trees(alloc, items, readable, levels - 1)?;
    Ok(Bson::Array(trees))
}

// The trees of these values.
#[cycle(build)]
fn item_trees(alloc: Global, items: &[Datum<'_>], readable: bool, levels: u32) -> Writing<Vec<Bson>>
    ensures { Reaches (λ trees. trees_of trees.items) result (tree_items readable 0 (items_view items.now) levels) }
{
    let mut trees = Vec::with_capacity(alloc, items.len())?;
    for (index, item) in items.iter().enumerate() {
        trees.push(item_tree(alloc, index as u64, item, readable, levels)?)?;
    }
    Ok(trees)
}

// The tree of a value in an array. A refusal is seen from the array.
#[cycle(build)]
fn item_tree(
    alloc: Global,
    index: u64,
    item: &Datum<'_>,
    readable: bool,
    levels: u32,
) -> Writing<Bson>
    ensures { Reaches tree_of result (under_index index (tree_spell readable false (view item.now) levels)) }
{
    match inner(alloc, item, readable, levels) {
        Ok(tree) => Ok(tree),
        Err(stop) => Err(stop.under_index(index)),
    }
}

// ---- maps and structs, which are folded after their parts

// A map.
#[cycle(build)]
fn map(alloc: Global, entries: &[Entry<'_>], readable: bool, levels: u32) -> Writing<Bson>
    ensures { Reaches tree_of result (enclosed_at fold levels (tree_entries readable (entries_view entries.now) no_pairs)) }
{
    if levels == 0 {
        return Err(refused_for(alloc, Cause::TooDeep));
    }
    let document = entry_trees(alloc, entries, readable, levels - 1)?;
    Ok(Bson::from_extended_document(alloc, document)?)
}

// A struct of this name.
#[cycle(build)]
#[inline(always)]
fn named(
    alloc: Global,
    name: &Text<'_>,
    fields: &[Field<'_>],
    readable: bool,
    in_reserved: bool,
    levels: u32,
) -> Writing<Bson>
    ensures { let value = values.structure (text_view name.now) (fields_view fields.now) in
        Reaches tree_of result (tree_spell readable in_reserved value levels) }
{
    let levelless = is_levelless(in_reserved, name.as_str());
    structure(alloc, fields, readable, levelless, levels)
}

// A struct, which takes a level or none.
#[cycle(build)]
fn structure(
    alloc: Global,
    fields: &[Field<'_>],
    readable: bool,
    levelless: bool,
    levels: u32,
) -> Writing<Bson>
    ensures { Reaches tree_of result (tree_struct levelless levels (tree_fields readable levelless (fields_view fields.now) no_pairs)) }
{
    if levelless {
        return folded(alloc, fields, readable, true, levels);
    }
    if levels == 0 {
        return Err(refused_for(alloc, Cause::TooDeep));
    }
    folded(alloc, fields, readable, false, levels - 1)
}

// What the document of these fields is folded to.
#[cycle(build)]
fn folded(
    alloc: Global,
    fields: &[Field<'_>],
    readable: bool,
    in_reserved: bool,
    levels: u32,
) -> Writing<Bson>
    ensures { Reaches tree_of result (result_map fold (tree_fields readable in_reserved (fields_view fields.now) no_pairs levels)) }
{
    let document = field_trees(alloc, fields, readable, in_reserved, levels)?;
    Ok(Bson::from_extended_document(alloc, document)?)
}

// The document of these entries. A repeated key replaces the value in its place.
#[cycle(build)]
fn entry_trees(
    alloc: Global,
    entries: &[Entry<'_>],
    readable: bool,
    levels: u32,
) -> Writing<Document>
    ensures { Reaches pairs_of result (tree_entries readable (entries_view entries.now) no_pairs levels) }
{
    let mut document = Document::new(alloc);
    for entry in entries {
        let key = key_text(alloc, &entry.key, readable, levels)?;
        let tree = tree_under(alloc, &key, &entry.value, readable, false, levels)?;
        drop(document.insert(key, tree)?);
    }
    Ok(document)
}

// The document of these fields. A repeated name replaces the value in its place.
#[cycle(build)]
fn field_trees(
    alloc: Global,
    fields: &[Field<'_>],
    readable: bool,
    in_reserved: bool,
    levels: u32,
) -> Writing<Document>
    ensures { Reaches pairs_of result (tree_fields readable in_reserved (fields_view fields.now) no_pairs levels) }
{
    let mut document = Document::new(alloc);
    for field in fields {
        let name = field.name.as_str();
        let key = String::from_str(alloc, name)?;
        let tree = tree_under(alloc, name, &field.value, readable, in_reserved, levels)?;
        drop(document.insert(key, tree)?);
    }
    Ok(document)
}

/// The text that a key of a map is, whose tree is a text.
#[cycle(build)]
pub(crate) fn key_text(
    alloc: Global,
    key: &Datum<'_>,
    readable: bool,
    levels: u32,
) -> Writing<String>
    ensures { Reaches string_bytes result (tree_key_text readable (view key.now) levels) }
{
    let tree = inner(alloc, key, readable, levels)?;
    text_of(alloc, tree)
}

// The text that the tree of a key is.
fn text_of(alloc: Global, key: Bson) -> Writing<String>
    ensures { Reaches string_bytes result (trees.tree_key (tree_of key)) }
{
    match key {
        Bson::String(text) => Ok(text),
        other => Err(refused(alloc, Fault::InvalidDocumentKey(other))),
    }
}

// The tree of the value at a key. A refusal is seen from the document.
#[cycle(build)]
fn tree_under(
    alloc: Global,
    key: &str,
    value: &Datum<'_>,
    readable: bool,
    in_reserved: bool,
    levels: u32,
) -> Writing<Bson>
    ensures { Reaches tree_of result (under key.now (tree_spell readable in_reserved (view value.now) levels)) }
{
    match tree_value(alloc, value, readable, in_reserved, levels) {
        Ok(tree) => Ok(tree),
        Err(stop) => Err(stop.under_key(key)),
    }
}

// ---- variants with contents

// A newtype variant.
#[cycle(build)]
fn newtype_variant(
    alloc: Global,
    name: &str,
    content: &Datum<'_>,
    readable: bool,
    levels: u32,
) -> Writing<Bson>
    ensures { Reaches tree_of result (tree_variant name.now levels (tree_spell readable false (view content.now))) }
{
    if levels == 0 {
        return Err(refused_for(alloc, Cause::TooDeep));
    }
    let tree = tree_under(alloc, name, content, readable, false, levels - 1)?;
    Ok(variant(alloc, String::from_str(alloc, name)?, tree)?)
}

// A tuple variant.
#[cycle(build)]
fn tuple_variant(
    alloc: Global,
    name: &str,
    items: &[Datum<'_>],
    readable: bool,
    levels: u32,
) -> Writing<Bson>
    ensures { Reaches tree_of result (tree_variant name.now levels (λ inside. enclosed_at array inside (tree_items readable 0 (items_view items.now)))) }
{
    if levels == 0 {
        return Err(refused_for(alloc, Cause::TooDeep));
    }
    match array(alloc, items, readable, levels - 1) {
        Ok(tree) => Ok(variant(alloc, String::from_str(alloc, name)?, tree)?),
        Err(stop) => Err(stop.under_key(name)),
    }
}

// A struct variant, whose fields alone are folded.
#[cycle(build)]
fn struct_variant(
    alloc: Global,
    name: &str,
    fields: &[Field<'_>],
    readable: bool,
    levels: u32,
) -> Writing<Bson>
    ensures { Reaches tree_of result (tree_variant name.now levels (λ inside. enclosed_at fold inside (tree_fields readable false (fields_view fields.now) no_pairs))) }
{
    if levels == 0 {
        return Err(refused_for(alloc, Cause::TooDeep));
    }
    match structure(alloc, fields, readable, false, levels - 1) {
        Ok(tree) => Ok(variant(alloc, String::from_str(alloc, name)?, tree)?),
        Err(stop) => Err(stop.under_key(name)),
    }
}

/// The document of one pair that a variant with contents is.
#[tactic(auto, using(bson_base::proofs::Rows::row_items, bson_base::proofs::Rows::row_pairs))]
pub(crate) fn variant(alloc: Global, name: String, tree: Bson) -> Result<Bson, AllocError>
    ensures { IfOk result (λ value. tree_of value ≡ document (pair (string_bytes name) (tree_of tree) no_pairs)) }
{
    let mut document = Document::new(alloc);
    drop(document.insert(name, tree)?);
    Ok(Bson::Document(document))
}
