// The structs of reserved names but that of code with a scope, and the newtypes of UUIDs. Nothing is written before their fields are
// accepted, but for a binary whose bytes are given as base64: that is judged while its bytes are appended.
ghost use Rattle.std.specs.Prelude.{◌≡◌, length};
ghost use Rattle.bson_datum.specs.View.{view, fields_view};
ghost use Rattle.bson_reserved.specs.AcceptedView.{accepted_view, accepted_kind};
ghost use Rattle.bson_laws.specs.Unwrap.{unwrap};
ghost use Rattle.bson_laws.specs.UuidBytes.{uuid_bytes};
ghost use Rattle.bson_laws.specs.Written.{spell_unwrapped, spell_uuid, written_size};
ghost use Rattle.bson_ser_stream.specs.Halting.{Puts};

use crate::binary::{put_base64, put_binary};
use crate::extended::{
    put_code, put_date_time, put_db_pointer, put_decimal128, put_object_id, put_regular_expression,
    put_symbol, put_timestamp,
};
use bson_base::BinarySubtype;
use bson_datum::{Datum, Field};
use bson_io::{Ledger, Out, Steps};
use bson_kinds::ElementType;
use bson_reserved::{Accepted, UuidBytes, unwrap, uuid_bytes};
use bson_values::Cause;
use bson_writing::Halt;

// The subtype of UUIDs.
const UUID: BinarySubtype = BinarySubtype(4);

/// Appends the value of a struct whose name is reserved for this kind.
pub(crate) fn put_unwrapped<L: Ledger>(
    out: &mut Out,
    steps: &mut Steps<L>,
    kind: ElementType,
    fields: &[Field<'_>],
) -> Result<ElementType, Halt>
    ensures { let expected = spell_unwrapped (unwrap kind (fields_view fields.now)) in
        Puts kind (written_size expected) expected out.old out.new steps.old steps.new result }
{
    match unwrap(kind, fields) {
        Some(accepted) => put_accepted(out, steps, accepted),
        None => Err(Halt::caused(out.allocator(), Cause::BadStep)),
    }
}

// What the fields were accepted as.
fn put_accepted<L: Ledger>(
    out: &mut Out,
    steps: &mut Steps<L>,
    accepted: Accepted<'_>,
) -> Result<ElementType, Halt>
    ensures { let expected = spell_unwrapped (accepted_view accepted.entry) in
        Puts (accepted_kind accepted.entry) (written_size expected) expected out.old out.new steps.old steps.new result }
{
    match accepted {
        Accepted::ObjectId(id) => put_object_id(out, steps, id),
        Accepted::DateTime(time) => put_date_time(out, steps, time),
        Accepted::Base64 { subtype, text } => put_base64(out, steps, subtype, text),
        Accepted::Binary { subtype, bytes } => put_binary(out, steps, subtype, bytes),
        Accepted::Timestamp(timestamp) => put_timestamp(out, steps, timestamp),
        Accepted::JavaScriptCode(code) => put_code(out, steps, code),
        Accepted::Symbol(text) => put_symbol(out, steps, text),
        Accepted::RegularExpression { pattern, options } => {
            put_regular_expression(out, steps, pattern, options)
        }
        Accepted::DbPointer { namespace, id } => put_db_pointer(out, steps, namespace, id),
        Accepted::Decimal128(bits) => put_decimal128(out, steps, bits),
        Accepted::MinKey => Ok(ElementType::MinKey),
        Accepted::MaxKey => Ok(ElementType::MaxKey),
        Accepted::Undefined => Ok(ElementType::Undefined),
    }
}

/// Appends the binary of the newtype of a UUID around this value.
pub(crate) fn put_uuid<L: Ledger>(
    out: &mut Out,
    steps: &mut Steps<L>,
    content: &Datum<'_>,
    readable: bool,
) -> Result<ElementType, Halt>
    ensures { let expected = spell_uuid (uuid_bytes readable (view content.now)) in
        Puts ElementType.Binary (written_size expected) expected out.old out.new steps.old steps.new result }
{
    match uuid_bytes(readable, content) {
        None => Err(Halt::caused(out.allocator(), Cause::BadUuid)),
        Some(UuidBytes::Uuid(id)) => put_binary(out, steps, UUID, &id.0),
        Some(UuidBytes::Bytes(bytes)) => put_binary(out, steps, UUID, bytes),
    }
}
