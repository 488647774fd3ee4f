// A value at a shape.
ghost use Rattle.std.specs.Prelude.{◌≡◌, false, None, IfSome};
ghost use Rattle.bson_kinds.specs.Reserved.{reserved_kind};
ghost use Rattle.bson_rawdoc.specs.Node.{value_node, inner_node};
ghost use Rattle.bson_rawdoc.specs.ValueView.{raw_value};
ghost use Rattle.bson_shape.specs.Form.{optional, lossy, map, newtype, structure, reference, definitions};
ghost use Rattle.bson_shape.specs.Makers.{AreDistinct, is_reserved_newtype};
ghost use Rattle.bson_shape.specs.ShapeView.{fields_of};
ghost use Rattle.bson_slots.specs.FieldsRead.{unknown_of};
ghost use Rattle.bson_pass_parts.specs.Put.{recast_for, IsPut};

use crate::array::recast_array;
use crate::enumeration::recast_enum;
use crate::map::recast_map;
use crate::structure::recast_struct;
use crate::tuple::recast_tuple;
use bson_kinds::ElementType;
use bson_laws::Reader;
use bson_pass_parts::{borrows_nothing_in, recast_leaf, recast_variant};
use bson_rawdoc::RawBsonRef;
use bson_shape::{FieldShape, Form, Shape};

/// The value at a shape for a reader, with so many levels of documents and arrays left.
#[cycle(recast)]
pub(crate) fn recast_value(
    made: &mut Vec<u8>,
    reader: &Reader<'_>,
    shape: &Shape,
    levels: u32,
    value: &RawBsonRef<'_>,
) -> Option<ElementType>
    ensures put { IfSome result (IsPut (recast_for reader.now shape.now levels (value_node (inner_node levels) (raw_value value.now)))
        made.old.items made.new.items) }
{
    shape.known();
    match shape.form() {
        Form::Leaf(leaf) => recast_leaf(made, leaf, levels, value),
        Form::Option(inner) => recast_option(made, reader, inner, levels, value),
        Form::Seq(item) => match value {
            RawBsonRef::Array(array) => recast_array(made, reader, item, levels, array.as_bytes()),
            _ => None,
        },
        Form::Tuple(parts) | Form::TupleStruct(_, parts) => match value {
            RawBsonRef::Array(array) => recast_tuple(made, reader, parts, levels, array.as_bytes()),
            _ => None,
        },
        Form::Struct(name, fields) => recast_structure(
            made, reader, name, fields, false, levels, value,
        ),
        Form::ClosedStruct(name, fields) => {
            recast_structure(made, reader, name, fields, true, levels, value)
        }
        Form::Map(key, inner) => recast_keyed(made, reader, key, inner, levels, value),
        Form::Newtype(name, inner) => recast_newtype(made, reader, name, inner, levels, value),
        Form::UnitStruct(_) => match value {
            RawBsonRef::Null => Some(ElementType::Null),
            _ => None,
        },
        Form::Enum(variants) => match value {
            RawBsonRef::String(name) => recast_variant(made, variants, levels, name),
            RawBsonRef::Document(document) => {
                recast_enum(made, reader, variants, levels, document.as_bytes())
            }
            _ => None,
        },
        Form::Lossy(inner) => recast_marked(made, reader, inner, levels, value),
        Form::Reference(name) => recast_reference(made, reader, name, levels, value),
        Form::Definitions(table, inner) => {
            recast_definitions(made, reader, table, inner, levels, value)
        }
        Form::Readable(_) | Form::Mode(_, _) => None,
    }
}

/// The value at a struct of this name with these fields, which is closed or not.
#[cycle(recast)]
fn recast_structure(
    made: &mut Vec<u8>,
    reader: &Reader<'_>,
    name: &str,
    fields: &[FieldShape],
    closed: bool,
    levels: u32,
    value: &RawBsonRef<'_>,
) -> Option<ElementType>
    requires free { reserved_kind name.now ≡ None }
    requires distinct { AreDistinct (fields_of fields.now) }
    ensures { IfSome result (IsPut (recast_for reader.now (structure (unknown_of closed) name.now (fields_of fields.now)) levels
        (value_node (inner_node levels) (raw_value value.now))) made.old.items made.new.items) }
{
    match value {
        RawBsonRef::Document(document) => {
            recast_struct(
                made,
                reader,
                name,
                fields,
                closed,
                levels,
                document.as_bytes(),
            )
        }
        _ => None,
    }
}

/// The value at a map whose keys and values have these shapes; the keys have to be at a leaf.
#[inline(always)]
#[cycle(recast)]
fn recast_keyed(
    made: &mut Vec<u8>,
    reader: &Reader<'_>,
    key: &Shape,
    inner: &Shape,
    levels: u32,
    value: &RawBsonRef<'_>,
) -> Option<ElementType>
    ensures { IfSome result (IsPut (recast_for reader.now (map key.now inner.now) levels (value_node (inner_node levels) (raw_value value.now)))
        made.old.items made.new.items) }
{
    match key.form() {
        Form::Leaf(key) => match value {
            RawBsonRef::Document(document) => {
                recast_map(made, reader, key, inner, levels, *document)
            }
            _ => None,
        },
        _ => None,
    }
}

/// The value at a newtype whose value has this shape: it is written as that value.
#[cycle(recast)]
fn recast_newtype(
    made: &mut Vec<u8>,
    reader: &Reader<'_>,
    name: &str,
    inner: &Shape,
    levels: u32,
    value: &RawBsonRef<'_>,
) -> Option<ElementType>
    requires free { is_reserved_newtype name.now ≡ false }
    ensures { IfSome result (IsPut (recast_for reader.now (newtype name.now inner.now) levels (value_node (inner_node levels) (raw_value value.now)))
        made.old.items made.new.items) }
{
    recast_value(made, reader, inner, levels, value)
}

/// The value at a mark whose value has this shape: it is read as it stands, since each text of it that is read is UTF-8.
#[cycle(recast)]
fn recast_marked(
    made: &mut Vec<u8>,
    reader: &Reader<'_>,
    inner: &Shape,
    levels: u32,
    value: &RawBsonRef<'_>,
) -> Option<ElementType>
    ensures { IfSome result (IsPut (recast_for reader.now (lossy inner.now) levels (value_node (inner_node levels) (raw_value value.now)))
        made.old.items made.new.items) }
{
    if !borrows_nothing_in(reader.table, inner) {
        return None;
    }
    recast_value(made, reader, inner, levels, value)
}

/// The value at an option whose value has this shape.
#[cycle(recast)]
fn recast_option(
    made: &mut Vec<u8>,
    reader: &Reader<'_>,
    inner: &Shape,
    levels: u32,
    value: &RawBsonRef<'_>,
) -> Option<ElementType>
    ensures put { IfSome result (IsPut (recast_for reader.now (optional inner.now) levels (value_node (inner_node levels) (raw_value value.now)))
        made.old.items made.new.items) }
{
    match value {
        RawBsonRef::Null => Some(ElementType::Null),
        _ => recast_value(made, reader, inner, levels, value),
    }
}

/// The value at a reference of this name: it is written at its definition.
#[inline(never)]
#[cycle(recast)]
fn recast_reference(
    made: &mut Vec<u8>,
    reader: &Reader<'_>,
    name: &str,
    levels: u32,
    value: &RawBsonRef<'_>,
) -> Option<ElementType>
    ensures put { IfSome result (IsPut (recast_for reader.now (reference name.now) levels (value_node (inner_node levels) (raw_value value.now)))
        made.old.items made.new.items) }
{
    match reader.definition(name) {
        Some(definition) => {
            recast_value(made, &definition.reader, definition.shape, levels, value)
        }
        None => None,
    }
}

/// The value at a shape in these definitions.
#[inline(never)]
#[cycle(recast)]
fn recast_definitions(
    made: &mut Vec<u8>,
    reader: &Reader<'_>,
    table: &[FieldShape],
    inner: &Shape,
    levels: u32,
    value: &RawBsonRef<'_>,
) -> Option<ElementType>
    ensures put { IfSome result (IsPut (recast_for reader.now (definitions (fields_of table.now) inner.now) levels (value_node (inner_node levels) (raw_value value.now)))
        made.old.items made.new.items) }
{
    recast_value(made, &reader.inside(table), inner, levels, value)
}
