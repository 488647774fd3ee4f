ghost use Rattle.std.specs.Prelude.{◌≡◌, [], IfSome, option_and_then, is_some};
ghost use Rattle.bson_datum.specs.View.{fields_view};
ghost use Rattle.bson_laws.specs.Unwrap as unwrap;
ghost use Rattle.bson_laws.specs.Unwrap.{listed, unwrap_list};
ghost use Rattle.bson_reserved.specs.ListView.{parts_view};
ghost use Rattle.bson_reserved.specs.AcceptedView.{accepted_view, accepted_kind, base64_view};

use crate::accepted::Accepted;
use crate::list::{Part, parts_of};
use crate::lists::{
    binary_list, date_time_list, db_pointer_list, decimal128_list, object_id_list,
    regular_expression_list, text_list, timestamp_list,
};
use bson_datum::Field;
use bson_kinds::ElementType;

/// What the fields of a struct are accepted as whose name is reserved for this kind: each kind takes one list of keys and values, in one order, where a
/// struct that is a field's value gives its own fields to the list, and a value with two forms its compact one. `None` where they are not that list, for
/// a kind that no name is reserved for, and for code with a scope ([`scoped_code`](crate::scoped_code)). It takes no memory.
///
/// Source: the reserved names of MongoDB's crate `bson`, version 2, and the bodies of MongoDB's extended JSON.
pub fn unwrap<'a>(kind: ElementType, fields: &'a [Field<'_>]) -> Option<Accepted<'a>>
    ensures accepted { option_and_then accepted_view result ≡ unwrap.unwrap kind (fields_view fields.now) }
    // A binary is accepted as base64 exactly where the list gives its bytes so, whatever its text.
    ensures base64 { option_and_then base64_view result ≡ unwrap.base64_given kind (listed (fields_view fields.now) []) }
    ensures kind { IfSome result (λ accepted. accepted_kind accepted ≡ kind) }
{
    match kind {
        ElementType::MinKey => has_lone_field("$minKey", fields).then_some(Accepted::MinKey),
        ElementType::MaxKey => has_lone_field("$maxKey", fields).then_some(Accepted::MaxKey),
        ElementType::Undefined => {
            has_lone_field("$undefined", fields).then_some(Accepted::Undefined)
        }
        _ => {
            let list = parts_of(fields)?;
            unwrap_list(kind, list.as_slice())
        }
    }
}

// Whether there is one field, of this name.
fn has_lone_field(name: &str, fields: &[Field<'_>]) -> bool
    ensures { result ≡ is_some (unwrap.lone_field name.now (fields_view fields.now)) }
{
    match fields.split_first() {
        Some((field, rest)) => rest.is_empty() && field.name.as_str() == name,
        None => false,
    }
}

// What this list of keys and values is accepted as, where the struct's name is reserved for this kind.
fn unwrap_list<'a>(kind: ElementType, list: &[Part<'a, '_>]) -> Option<Accepted<'a>>
    ensures accepted { option_and_then accepted_view result ≡ unwrap_list kind (parts_view list.now) }
    ensures base64 { option_and_then base64_view result ≡ unwrap.base64_given kind (parts_view list.now) }
    ensures kind { IfSome result (λ accepted. accepted_kind accepted ≡ kind) }
{
    match kind {
        ElementType::ObjectId => Some(Accepted::ObjectId(object_id_list(list)?)),
        ElementType::DateTime => Some(Accepted::DateTime(date_time_list(list)?)),
        ElementType::Binary => binary_list(list),
        ElementType::Timestamp => Some(Accepted::Timestamp(timestamp_list(list)?)),
        ElementType::JavaScriptCode => Some(Accepted::JavaScriptCode(text_list("$code", list)?)),
        ElementType::Symbol => Some(Accepted::Symbol(text_list("$symbol", list)?)),
        ElementType::RegularExpression => {
            let (pattern, options) = regular_expression_list(list)?;
            Some(Accepted::RegularExpression { pattern, options })
        }
        ElementType::DbPointer => {
            let (namespace, id) = db_pointer_list(list)?;
            Some(Accepted::DbPointer { namespace, id })
        }
        ElementType::Decimal128 => Some(Accepted::Decimal128(decimal128_list(list)?)),
        _ => None,
    }
}
