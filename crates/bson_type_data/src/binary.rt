// A binary as a datum, and the binary that a datum is.
ghost use Rattle.std.specs.Prelude.{◌≡◌, ◌∷◌, [], codes, IfOk, string_bytes};
ghost use Rattle.std.specs.Option.{option_map};
ghost use Rattle.std.specs.Prelude.{option_and_then};
ghost use Rattle.bson_datum.specs.Access.{as_str, field};
ghost use Rattle.bson_base.specs.Made.{digits};
ghost use Rattle.bson_base.specs.Parsed.{bytes_of_base64};
ghost use Rattle.bson_datum.specs.View.{view};
ghost use Rattle.bson_laws.specs.Datum.{itself, nameless, two};
ghost use Rattle.bson_values.specs.Value.{str};
ghost use Rattle.bson_values.specs.Returned.{Reads};
ghost use Rattle.bson_type_data.specs.Extended.{base64_in, binary_datum, binary_in, binary_said, taken_binary, subtype_in};

use crate::data::{is_equal, struct_of_one, struct_of_two, text_of};
use crate::refusal::not_fitting;
use base64::DecodeAllocError;
use base64::engine::general_purpose::STANDARD;
use bson_base::{Binary, BinarySubtype, base64_text, digits, subtype_of_text};
use bson_datum::Datum;
use bson_values::{ByteStr, de};
use std::alloc::{AllocError, Global};

/// The binary that a datum is.
///
/// # Errors
///
/// `NotFitting` exactly where it is none, or out of memory.
pub fn binary_of(alloc: Global, datum: &Datum<'_>) -> de::Result<Binary>
    ensures { Reads (λ b. (b.subtype.0, b.bytes.items)) result (taken_binary (view datum.now)) }
{
    let Some((subtype, bytes)) = binary_said(alloc, datum)? else {
        return Err(not_fitting());
    };
    if is_equal(binary_datum(alloc, subtype, &bytes)?, datum) {
        return Ok(Binary::from_parts(subtype, bytes));
    }
    Err(not_fitting())
}

/// The datum of a binary: its bytes, borrowed, where its subtype is 0, and else a struct.
///
/// # Errors
///
/// Memory ran out.
pub fn borrowed_binary(alloc: Global, binary: &Binary) -> Result<Datum<'_>, AllocError>
    ensures { IfOk result (λ d. view d ≡ binary_datum (binary.now.subtype.0, binary.now.bytes.items)) }
{
    if binary.subtype.0 == 0 {
        return Ok(Datum::Bytes(ByteStr::Borrowed(&binary.bytes)));
    }
    binary_datum(alloc, binary.subtype, &binary.bytes)
}

// The datum of a binary, which owns its bytes: bytes where its subtype is 0, and else a struct.
fn binary_datum<'x>(
    alloc: Global,
    subtype: BinarySubtype,
    bytes: &[u8],
) -> Result<Datum<'x>, AllocError>
    ensures { IfOk result (λ d. view d ≡ binary_datum (subtype.0, bytes.now)) }
{
    if subtype.0 == 0 {
        return Ok(Datum::Bytes(ByteStr::Owned(bytes.to_vec(alloc)?)));
    }
    let base64 = base64_text(alloc, bytes)?;
    let body = binary_body(alloc, base64, subtype)?;
    struct_of_one(alloc, "$binary", "$binary", body)
}

// The struct of the base64 of a binary and of its subtype.
fn binary_body<'x>(
    alloc: Global,
    base64: String,
    subtype: BinarySubtype,
) -> Result<Datum<'x>, AllocError>
    ensures { IfOk result (λ d. view d ≡ nameless itself (two itself (codes "base64") (str (string_bytes base64)) (codes "subType") (str (digits (subtype.0 ∷ []))))) }
{
    let digits = digits(alloc, &[subtype.0])?;
    struct_of_two(
        alloc,
        "",
        ("base64", text_of(base64)),
        ("subType", text_of(digits)),
    )
}

// The subtype and the bytes that a value may be the datum of.
fn binary_said(
    alloc: Global,
    datum: &Datum<'_>,
) -> Result<Option<(BinarySubtype, Vec<u8>)>, AllocError>
    ensures { IfOk result (λ o. option_map (λ p. (p.0.0, p.1.items)) o ≡ binary_said (view datum.now)) }
{
    if let Datum::Bytes(bytes) = datum {
        return Ok(Some((BinarySubtype(0), bytes.as_bytes().to_vec(alloc)?)));
    }
    match datum.field("$binary") {
        Some(body) => binary_in(alloc, body),
        None => Ok(None),
    }
}

// The subtype and the bytes in the struct of both.
fn binary_in(
    alloc: Global,
    body: &Datum<'_>,
) -> Result<Option<(BinarySubtype, Vec<u8>)>, AllocError>
    ensures { IfOk result (λ o. option_map (λ p. (p.0.0, p.1.items)) o ≡ binary_in (view body.now)) }
{
    let Some(subtype) = subtype_in(body) else {
        return Ok(None);
    };
    match base64_in(alloc, body)? {
        Some(bytes) => Ok(Some((BinarySubtype(subtype), bytes))),
        None => Ok(None),
    }
}

// The subtype that a field gives as digits.
fn subtype_in(body: &Datum<'_>) -> Option<u8>
    ensures { result ≡ subtype_in (view body.now) }
{
    subtype_of_text(body.field("subType")?.as_str()?)
}

// The bytes that a field gives in base64.
fn base64_in(alloc: Global, body: &Datum<'_>) -> Result<Option<Vec<u8>>, AllocError>
    ensures { IfOk result (λ o. option_map (λ v. v.items) o ≡ base64_in (view body.now)) }
{
    match base64_field(body) {
        Some(text) => bytes_of_base64(alloc, text),
        None => Ok(None),
    }
}

// The text of the field for base64.
fn base64_field<'d>(body: &'d Datum<'_>) -> Option<&'d str>
    ensures { option_map (λ t. t.now) result ≡ option_and_then as_str (field (codes "base64") (view body.now)) }
{
    body.field("base64")?.as_str()
}

// The bytes that a base64 text stands for.
#[tactic(auto, unfolding(bson_base::specs::Parsed::bytes_of_base64))]
fn bytes_of_base64(alloc: Global, text: &str) -> Result<Option<Vec<u8>>, AllocError>
    ensures { IfOk result (λ o. option_map (λ v. v.items) o ≡ bytes_of_base64 text.now) }
{
    match STANDARD.decode(alloc, text.as_bytes()) {
        Ok(bytes) => Ok(Some(bytes)),
        Err(DecodeAllocError::OutOfMemory) => Err(AllocError),
        Err(DecodeAllocError::DecodeError(_)) => Ok(None),
    }
}
