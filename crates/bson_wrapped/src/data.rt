// Extended values as data: the structs of their reserved names. All texts, names and byte strings in them are owned, but those in data that are given.
ghost use Rattle.std.specs.Prelude.{◌≡◌, [], ◌∷◌, true, codes, string_bytes, IfOk};
ghost use Rattle.bson_base.specs.Made.{digits};
ghost use Rattle.bson_base.specs.Instant.{millis};
ghost use Rattle.bson_base.specs.Sorted.{sorted};
ghost use Rattle.bson_base.specs.Tree as tree;
ghost use Rattle.bson_kinds.specs.Piece.{made};
ghost use Rattle.bson_values.specs.Pieces.{text_piece};
ghost use Rattle.bson_datum.specs.MarkedView.{marked};
ghost use Rattle.bson_values.specs.Value as values;
ghost use Rattle.bson_laws.specs.Datum.{datum, uuid_datum, one, two, wrapped};
ghost use Rattle.bson_met.specs.PieceView.{met_text};
ghost use Rattle.bson_slots.specs.FieldSlots.{fields_marked};
ghost use Rattle.bson_texts.specs.ListsMarked.{entries_marked};
ghost use Rattle.bson_wrapped.specs.Data.{scoped_datum};

use bson_base::{BinarySubtype, DateTime, Decimal128, ObjectId, Regex, Timestamp, Uuid};
use bson_datum::{Datum, Entry, Field};
use bson_growing::boxed;
use bson_met::{MetBytes, MetText};
use bson_slots::{named_field, named_struct};
use bson_values::{ByteStr, Text};
use std::alloc::{AllocError, Global};

/// A text.
fn text<'de>(text: String) -> Datum<'de>
    ensures { marked result ≡ values.str (made (string_bytes text)) }
{
    Datum::Str(Text::Owned(text))
}

/// A copy of a text that a reader looks at.
fn text_of<'de>(alloc: Global, text: MetText<'_>) -> Result<Datum<'de>, AllocError>
    ensures { IfOk result (λ d. marked d ≡ values.str (made (met_text text.entry).bytes)) }
{
    Ok(Datum::Str(Text::Owned(text.to_string(alloc)?)))
}

/// A copy of bytes.
///
/// # Errors
///
/// Memory ran out.
pub fn bytes<'de>(alloc: Global, bytes: &[u8]) -> Result<Datum<'de>, AllocError>
    ensures datum { IfOk result (λ d. marked d ≡ values.bytes (made bytes.now)) }
{
    Ok(Datum::Bytes(ByteStr::Owned(bytes.to_vec(alloc)?)))
}

/// Bytes that are not in the input.
fn elsewhere(bytes: &[u8]) -> MetBytes<'_>
    ensures { result.bytes.now ≡ bytes.now }
{
    MetBytes {
        bytes,
        in_input: false,
        under_mark: false,
    }
}

/// The struct of this name with one field.
///
/// # Errors
///
/// Memory ran out.
pub fn struct_of_one<'de>(
    alloc: Global,
    name: &str,
    key: &str,
    value: Datum<'de>,
) -> Result<Datum<'de>, AllocError>
    ensures datum { IfOk result (λ d. marked d ≡ values.structure (made name.now) (one made key.now (marked value.entry))) }
{
    let fields = vec![in alloc; named_field(alloc, key, value)?]?;
    named_struct(alloc, name, fields)
}

/// The struct of this name with two fields.
///
/// # Errors
///
/// Memory ran out.
pub fn struct_of_two<'de>(
    alloc: Global,
    name: &str,
    first: (&str, Datum<'de>),
    second: (&str, Datum<'de>),
) -> Result<Datum<'de>, AllocError>
    ensures datum { IfOk result (λ d. marked d ≡ values.structure (made name.now)
        (two made first.entry.0.now (marked first.entry.1) second.entry.0.now (marked second.entry.1))) }
{
    let fields = match named_field(alloc, first.0, first.1) {
        Ok(first) => two_fields(alloc, first, second)?,
        Err(error) => {
            drop(second);
            return Err(error);
        }
    };
    named_struct(alloc, name, fields)
}

/// The fields of a struct: one that is made, and one of this name with this value.
fn two_fields<'de>(
    alloc: Global,
    first: Field<'de>,
    second: (&str, Datum<'de>),
) -> Result<Vec<Field<'de>>, AllocError>
    ensures { IfOk result (λ v. fields_marked v.items ≡ values.field_value (text_piece first.entry.name)
        (marked first.entry.value) (one made second.entry.0.now (marked second.entry.1))) }
{
    match named_field(alloc, second.0, second.1) {
        Ok(second) => Ok(vec![in alloc; first, second]?),
        Err(error) => {
            drop(first);
            Err(error)
        }
    }
}

/// The struct of a reserved name whose one field has the same name.
///
/// # Errors
///
/// Memory ran out.
pub fn wrap<'de>(alloc: Global, name: &str, value: Datum<'de>) -> Result<Datum<'de>, AllocError>
    ensures datum { IfOk result (λ d. marked d ≡ wrapped made name.now (marked value.entry)) }
{
    struct_of_one(alloc, name, name, value)
}

/// An ObjectId of these bytes, which are twelve: with another number of them the writer refuses the struct with `BadStep`.
///
/// # Errors
///
/// Memory ran out.
pub fn object_id<'de>(alloc: Global, id: &[u8]) -> Result<Datum<'de>, AllocError>
    ensures datum { IfOk result (λ d. marked d ≡ datum made (tree.object_id id.now)) }
{
    let digits = text_of(alloc, MetText::Digits(elsewhere(id)))?;
    wrap(alloc, "$oid", digits)
}

/// A time.
///
/// # Errors
///
/// Memory ran out.
pub fn date_time<'de>(alloc: Global, time: DateTime) -> Result<Datum<'de>, AllocError>
    ensures datum { IfOk result (λ d. marked d ≡ datum made (tree.date_time (millis time))) }
{
    let number = text_of(alloc, MetText::Number(time))?;
    let body = struct_of_one(alloc, "", "$numberLong", number)?;
    wrap(alloc, "$date", body)
}

/// A binary: bytes where its subtype is 0, and else a struct.
///
/// # Errors
///
/// Memory ran out.
pub fn binary<'de>(
    alloc: Global,
    subtype: BinarySubtype,
    content: &[u8],
) -> Result<Datum<'de>, AllocError>
    ensures datum { IfOk result (λ d. marked d ≡ datum made (tree.binary subtype.0 content.now)) }
{
    if subtype.0 == 0 {
        return bytes(alloc, content);
    }
    let base64 = text_of(alloc, MetText::Base64(elsewhere(content)))?;
    let body = binary_body(alloc, base64, subtype)?;
    wrap(alloc, "$binary", body)
}

/// The struct of the base64 of a binary and of its subtype.
fn binary_body<'de>(
    alloc: Global,
    base64: Datum<'de>,
    subtype: BinarySubtype,
) -> Result<Datum<'de>, AllocError>
    ensures { IfOk result (λ d. marked d ≡ values.structure (made [])
        (two made (codes "base64") (marked base64.entry) (codes "subType") (values.str (made (digits (subtype.0 ∷ [])))))) }
{
    match text_of(alloc, MetText::Subtype(subtype)) {
        Ok(digits) => struct_of_two(alloc, "", ("base64", base64), ("subType", digits)),
        Err(error) => {
            drop(base64);
            Err(error)
        }
    }
}

/// A binary whose bytes are owned.
///
/// # Errors
///
/// Memory ran out.
pub fn owned_binary<'de>(
    alloc: Global,
    subtype: BinarySubtype,
    content: Vec<u8>,
) -> Result<Datum<'de>, AllocError>
    ensures datum { IfOk result (λ d. marked d ≡ datum made (tree.binary subtype.0 content.items)) }
{
    if subtype.0 == 0 {
        return Ok(Datum::Bytes(ByteStr::Owned(content)));
    }
    binary(alloc, subtype, &content)
}

/// A timestamp.
///
/// # Errors
///
/// Memory ran out.
pub fn timestamp<'de>(alloc: Global, time: Timestamp) -> Result<Datum<'de>, AllocError>
    ensures datum { IfOk result (λ d. marked d ≡ datum made (tree.timestamp time.time time.increment)) }
{
    let first = ("t", Datum::I64(i64::from(time.time)));
    let second = ("i", Datum::I64(i64::from(time.increment)));
    let body = struct_of_two(alloc, "", first, second)?;
    wrap(alloc, "$timestamp", body)
}

/// A regular expression. Its options are sorted by character.
///
/// # Errors
///
/// Memory ran out.
pub fn regular_expression<'de>(
    alloc: Global,
    pattern: String,
    options: String,
) -> Result<Datum<'de>, AllocError>
    ensures datum { IfOk result (λ d. marked d ≡ datum made (tree.regular_expression (string_bytes pattern) (sorted (string_bytes options)))) }
{
    let sorted = Regex::new(alloc, String::new(alloc), options)?;
    let options = text(String::from_str(alloc, sorted.options())?);
    let body = struct_of_two(alloc, "", ("pattern", text(pattern)), ("options", options))?;
    wrap(alloc, "$regularExpression", body)
}

/// A DbPointer.
///
/// # Errors
///
/// Memory ran out.
pub fn db_pointer<'de>(
    alloc: Global,
    namespace: String,
    id: ObjectId,
) -> Result<Datum<'de>, AllocError>
    ensures datum { IfOk result (λ d. marked d ≡ datum made (tree.db_pointer (string_bytes namespace) id.0)) }
{
    let digits = text_of(alloc, MetText::Id(id))?;
    let id = struct_of_one(alloc, "", "$oid", digits)?;
    let body = struct_of_two(alloc, "", ("$ref", text(namespace)), ("$id", id))?;
    wrap(alloc, "$dbPointer", body)
}

/// JavaScript code.
///
/// # Errors
///
/// Memory ran out.
pub fn code<'de>(alloc: Global, code: String) -> Result<Datum<'de>, AllocError>
    ensures datum { IfOk result (λ d. marked d ≡ datum made (tree.javascript_code (string_bytes code))) }
{
    wrap(alloc, "$code", text(code))
}

/// JavaScript code with the entries of its scope.
///
/// # Errors
///
/// Memory ran out.
#[tactic(auto, using(bson_texts::proofs::MarkedLists::row_entries))]
pub fn scoped_code<'de>(
    alloc: Global,
    code: String,
    scope: Vec<Entry<'de>>,
) -> Result<Datum<'de>, AllocError>
    ensures datum { IfOk result (λ d. marked d ≡ scoped_datum (string_bytes code) (entries_marked scope.entry.items)) }
{
    let code = ("$code", text(code));
    let scope = ("$scope", Datum::Map(scope));
    struct_of_two(alloc, "$codeWithScope", code, scope)
}

/// A Symbol.
///
/// # Errors
///
/// Memory ran out.
pub fn symbol<'de>(alloc: Global, symbol: String) -> Result<Datum<'de>, AllocError>
    ensures datum { IfOk result (λ d. marked d ≡ datum made (tree.symbol (string_bytes symbol))) }
{
    wrap(alloc, "$symbol", text(symbol))
}

/// A Decimal128 of these bytes, which are sixteen: with another number of them the writer refuses the struct with `BadStep`.
///
/// # Errors
///
/// Memory ran out.
pub fn decimal128<'de>(alloc: Global, bits: Vec<u8>) -> Result<Datum<'de>, AllocError>
    ensures datum { IfOk result (λ d. marked d ≡ datum made (tree.decimal128 bits.items)) }
{
    let bits = Datum::Bytes(ByteStr::Owned(bits));
    struct_of_one(alloc, "$numberDecimal", "$numberDecimalBytes", bits)
}

/// The deprecated kind without a value.
///
/// # Errors
///
/// Memory ran out.
pub fn undefined<'de>(alloc: Global) -> Result<Datum<'de>, AllocError>
    ensures datum { IfOk result (λ d. marked d ≡ datum made tree.undefined) }
{
    wrap(alloc, "$undefined", Datum::Bool(true))
}

/// The value that is greater than every other.
///
/// # Errors
///
/// Memory ran out.
pub fn max_key<'de>(alloc: Global) -> Result<Datum<'de>, AllocError>
    ensures datum { IfOk result (λ d. marked d ≡ datum made tree.max_key) }
{
    wrap(alloc, "$maxKey", Datum::I32(1))
}

/// The value that is less than every other.
///
/// # Errors
///
/// Memory ran out.
pub fn min_key<'de>(alloc: Global) -> Result<Datum<'de>, AllocError>
    ensures datum { IfOk result (λ d. marked d ≡ datum made tree.min_key) }
{
    wrap(alloc, "$minKey", Datum::I32(1))
}

/// A UUID: its newtype around its text and its bytes.
///
/// # Errors
///
/// Memory ran out.
pub fn uuid<'de>(alloc: Global, id: Uuid) -> Result<Datum<'de>, AllocError>
    ensures datum { IfOk result (λ d. marked d ≡ uuid_datum made id.0) }
{
    let readable = boxed(alloc, text(id.to_hyphenated(alloc)?))?;
    let compact = boxed(alloc, bytes(alloc, &id.0)?)?;
    let value = boxed(alloc, Datum::Mode { readable, compact })?;
    let name = Text::Owned(String::from_str(alloc, "$__bson_private_uuid")?);
    Ok(Datum::NewtypeStruct { name, value })
}
