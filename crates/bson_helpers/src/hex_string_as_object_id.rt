//! A text of 24 hexadecimal digits as an ObjectId.
ghost use Rattle.std.specs.Prelude.{◌≡◌, Ok, string_bytes};
ghost use Rattle.bson_shape.specs.Form.{leaf};
ghost use Rattle.bson_shape.specs.declared.leaf.Leaf.TheVariants as leaves;
ghost use Rattle.bson_values.specs.Returned.{Reads, Writes};
ghost use Rattle.bson_datum.specs.View.{view};
ghost use Rattle.bson_helpers.specs.Helpers.{text_as_id, text_of_id};

use crate::errors::unwritable;
use bson_base::{NotHex, ObjectId};
use bson_datum::Datum;
use bson_shape::Shape;
use bson_traits::{Deserialize, id_datum};
use bson_values::{Cause, de, ser};
use std::alloc::{AllocError, Global};

/// The shape `oid`. It takes no memory.
pub fn shape(_alloc: Global) -> Result<Shape, AllocError>
    ensures shape { result ≡ Ok (leaf leaves.ObjectId) }
{
    Ok(Shape::object_id())
}

/// The ObjectId that the text names.
///
/// # Errors
///
/// `NotObjectId` exactly where the text is not 24 hexadecimal digits; or `NoMemory`.
pub fn serialize<'x>(alloc: Global, val: &str) -> ser::Result<Datum<'x>>
    ensures datum { Writes view result (text_as_id val.now) }
{
    match ObjectId::parse_str(val) {
        Ok(id) => Ok(id_datum(alloc, id)?),
        Err(NotHex) => Err(unwritable(Cause::NotObjectId(String::from_str(alloc, val)?))),
    }
}

/// The digits of the ObjectId that the datum is.
///
/// # Errors
///
/// `NotFitting` exactly where the datum is not that of an ObjectId; or `NoMemory`.
pub fn deserialize(alloc: Global, datum: Datum<'_>) -> de::Result<String>
    ensures text { Reads string_bytes result (text_of_id (view datum.entry)) }
{
    let id = <ObjectId as Deserialize<'_>>::from_datum(alloc, datum)?;
    Ok(id.to_hex(alloc)?)
}
