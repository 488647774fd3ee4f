// Whether fields are the first of those that a struct is accepted with whose name is reserved.
ghost use Rattle.std.specs.Prelude.{◌≡◌, ◌↔◌, [], IsTrue, option_map};
ghost use Rattle.bson_datum.specs.View.{fields_view};
ghost use Rattle.bson_laws.specs.Unwrap.{listed};
ghost use Rattle.bson_ser_parts.specs.Fronts.{AreFirst, is_lone, lone_name};
ghost use Rattle.bson_ser_parts.specs.Places.{ways, agrees_some};

use crate::fitting::agrees;
use crate::place::Place::{
    Base64, Byte, Bytes, Decimal, Key, KeyOf, Number, ObjectId, Scope, Subtype, Text, Unsigned,
};
use bson_datum::Field;
use bson_kinds::ElementType;

/// Whether these fields are the first of those that some struct is accepted with whose name is reserved for this kind: whether some list that is accepted begins with
/// that of their keys and values. It takes no memory.
///
/// Source: the reserved names of MongoDB's crate `bson`, version 2.
pub fn begins(kind: ElementType, fields: &[Field<'_>]) -> bool
    ensures { IsTrue result ↔ AreFirst kind (fields_view fields.now) }
{
    match lone_name(kind) {
        Some(name) => is_lone(name, fields),
        None => agrees_some(kind, fields),
    }
}

// The name of the one field of a struct whose value is not looked at.
fn lone_name(kind: ElementType) -> Option<&'static str>
    ensures { option_map (λ name. name.now) result ≡ lone_name kind }
{
    match kind {
        ElementType::MinKey => Some("$minKey"),
        ElementType::MaxKey => Some("$maxKey"),
        ElementType::Undefined => Some("$undefined"),
        _ => None,
    }
}

// Whether there is no field, or one, of this name.
fn is_lone(name: &str, fields: &[Field<'_>]) -> bool
    ensures { result ≡ is_lone name.now (fields_view fields.now) }
{
    match fields.split_first() {
        Some((field, rest)) => rest.is_empty() && field.name.as_str() == name,
        None => true,
    }
}

// Whether the fields agree with one of the lists of places of this kind.
fn agrees_some(kind: ElementType, fields: &[Field<'_>]) -> bool
    ensures { result ≡ agrees_some (ways kind) (listed (fields_view fields.now) []) }
{
    match kind {
        ElementType::ObjectId => agrees(&[Key("$oid"), ObjectId], fields),
        ElementType::DateTime => agrees(&[Key("$date"), Key("$numberLong"), Number], fields),
        ElementType::Binary => binary_agrees(fields),
        ElementType::Timestamp => agrees(
            &[Key("$timestamp"), Key("t"), Unsigned, Key("i"), Unsigned],
            fields,
        ),
        ElementType::JavaScriptCode => agrees(&[Key("$code"), Text], fields),
        ElementType::JavaScriptCodeWithScope => agrees(
            &[Key("$code"), Text, Key("$scope"), Scope],
            fields,
        ),
        ElementType::Symbol => agrees(&[Key("$symbol"), Text], fields),
        ElementType::RegularExpression => expression_agrees(fields),
        ElementType::DbPointer => pointer_agrees(fields),
        ElementType::Decimal128 => agrees(
            &[KeyOf("$numberDecimal", "$numberDecimalBytes"), Decimal],
            fields,
        ),
        _ => false,
    }
}

// The same of a binary, whose bytes are given as base64 and digits, or as they are.
fn binary_agrees(fields: &[Field<'_>]) -> bool
    ensures { result ≡ agrees_some (ways ElementType.Binary) (listed (fields_view fields.now) []) }
{
    let as_text = [
        Key("$binary"),
        KeyOf("base64", "bytes"),
        Base64,
        Key("subType"),
        Subtype,
    ];
    let as_bytes = [
        Key("$binary"),
        KeyOf("base64", "bytes"),
        Bytes,
        Key("subType"),
        Byte,
    ];
    agrees(&as_text, fields) || agrees(&as_bytes, fields)
}

// The same of a regular expression.
fn expression_agrees(fields: &[Field<'_>]) -> bool
    ensures { result ≡ agrees_some (ways ElementType.RegularExpression) (listed (fields_view fields.now) []) }
{
    let places = [
        Key("$regularExpression"),
        Key("pattern"),
        Text,
        Key("options"),
        Text,
    ];
    agrees(&places, fields)
}

// The same of a DBPointer, whose id is an ObjectId.
fn pointer_agrees(fields: &[Field<'_>]) -> bool
    ensures { result ≡ agrees_some (ways ElementType.DbPointer) (listed (fields_view fields.now) []) }
{
    let places = [
        Key("$dbPointer"),
        Key("$ref"),
        Text,
        Key("$id"),
        Key("$oid"),
        ObjectId,
    ];
    agrees(&places, fields)
}
