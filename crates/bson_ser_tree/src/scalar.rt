// Values without other values in them.
ghost use Rattle.std.specs.Prelude.{◌≡◌, encode_utf8, pos, IfOk};
ghost use Rattle.bson_base.specs.BsonView.{tree_of};
ghost use Rattle.bson_base.specs.Tree.{string, binary};
ghost use Rattle.bson_kinds.specs.declared.element_type.ElementType.TheVariants.{Int64};
ghost use Rattle.bson_datum.specs.View.{view};
ghost use Rattle.bson_laws.specs.Spell.{spell_number};
ghost use Rattle.bson_laws.specs.UuidBytes.{uuid_bytes};
ghost use Rattle.bson_tree_laws.specs.TreeSpell.{tree_uuid};
ghost use Rattle.bson_ser_tree.specs.Gives.{Reaches};

use crate::stopping::{Writing, refused, refused_for};
use bson_base::{Binary, BinarySubtype, Bson};
use bson_datum::Datum;
use bson_reserved::{UuidBytes, uuid_bytes};
use bson_values::Cause;
use bson_values::ser::Fault;
use std::alloc::{AllocError, Global};

/// The subtype of bytes without a further meaning.
const GENERIC: BinarySubtype = BinarySubtype(0);

/// The subtype of UUIDs.
const UUID: BinarySubtype = BinarySubtype(4);

/// A number of 64 bits without a sign, where an Int64 holds it.
pub(crate) fn unsigned(alloc: Global, number: u64) -> Writing<Bson>
    ensures { Reaches tree_of result (spell_number Int64 (pos number)) }
{
    match i64::try_from(number) {
        Ok(signed) => Ok(Bson::Int64(signed)),
        Err(_) => Err(refused(alloc, Fault::UnsignedIntegerExceededRange(number))),
    }
}

/// A text.
pub(crate) fn text(alloc: Global, text: &str) -> Result<Bson, AllocError>
    ensures { IfOk result (λ value. tree_of value ≡ string text.now) }
{
    Ok(Bson::String(String::from_str(alloc, text)?))
}

/// A character: the text of it alone.
pub(crate) fn character(alloc: Global, c: char) -> Result<Bson, AllocError>
    ensures { IfOk result (λ value. tree_of value ≡ string (encode_utf8 c)) }
{
    let mut buffer = [0; 4];
    text(alloc, c.encode_utf8(&mut buffer))
}

/// A byte string: a binary of subtype 0.
pub(crate) fn byte_string(alloc: Global, bytes: &[u8]) -> Result<Bson, AllocError>
    ensures { IfOk result (λ value. tree_of value ≡ binary 0 bytes.now) }
{
    let bytes = bytes.to_vec(alloc)?;
    Ok(Bson::Binary(Binary::from_parts(GENERIC, bytes)))
}

/// What is in the newtype of a UUID: a binary of subtype 4.
pub(crate) fn unique_id(alloc: Global, content: &Datum<'_>, readable: bool) -> Writing<Bson>
    ensures { Reaches tree_of result (tree_uuid (uuid_bytes readable (view content.now))) }
{
    match uuid_bytes(readable, content) {
        Some(UuidBytes::Uuid(id)) => Ok(id_binary(alloc, &id.0)?),
        Some(UuidBytes::Bytes(bytes)) => Ok(id_binary(alloc, bytes)?),
        None => Err(refused_for(alloc, Cause::BadUuid)),
    }
}

fn id_binary(alloc: Global, id: &[u8]) -> Result<Bson, AllocError>
    ensures { IfOk result (λ value. tree_of value ≡ binary 4 id.now) }
{
    let bytes = id.to_vec(alloc)?;
    Ok(Bson::Binary(Binary::from_parts(UUID, bytes)))
}
