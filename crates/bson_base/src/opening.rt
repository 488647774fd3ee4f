ghost use Rattle.std.specs.Prelude.{◌≡◌, false, IfOk};
ghost use Rattle.std.specs.Str.{bytes_eq};
ghost use Rattle.bson_base.specs.Tree.{object_id, date_time, timestamp, decimal128};
ghost use Rattle.bson_base.specs.BsonView.{tree_of, binary_of, regex_of, pointer_of, pairs_of};
ghost use Rattle.bson_base.specs.Instant.{millis};
ghost use Rattle.bson_base.specs.Opened.{IsExtended, one, two, opened};

use crate::binary::{Binary, BinarySubtype};
use crate::bson::Bson;
use crate::document::Document;
use crate::texts::{base64_text, digits, number_text};
use crate::{DateTime, DbPointer, Decimal128, ObjectId, Regex, Timestamp};
use std::alloc::{AllocError, Global};

impl Bson {
    /// The document that an extended value is opened to, for a reader that lacks its kind: a Symbol `a` is opened to `{$symbol: "a"}`.
    ///
    /// The value is extended: none of `Double`, `String`, `Array`, `Document`, `Boolean`, `Null`, `Int32` and `Int64`, and no `Binary` of
    /// subtype 0. The texts that it holds, and a scope, are moved into the document.
    ///
    /// Source: MongoDB's extended JSON, but for `$numberDecimalBytes`, the order of `$binary`, and the Int64s of `$timestamp`.
    ///
    /// # Errors
    ///
    /// Memory ran out.
    #[tactic(auto, using(crate::proofs::Rows::row_items, crate::proofs::Rows::row_pairs))]
    pub fn into_extended_document(self, alloc: Global) -> Result<Document, AllocError>
        requires extended { IsExtended (tree_of self) }
        ensures opened { IfOk result (λ d. pairs_of d ≡ opened (tree_of self)) }
    {
        match self {
            Bson::RegularExpression(regex) => open_regex(alloc, regex),
            Bson::JavaScriptCode(code) => one_pair(alloc, "$code", Bson::String(code)),
            Bson::JavaScriptCodeWithScope(scoped) => {
                let code = Bson::String(scoped.code);
                let scope = Bson::Document(scoped.scope);
                two_pairs(alloc, "$code", code, "$scope", scope)
            }
            Bson::Timestamp(timestamp) => open_timestamp(alloc, timestamp),
            Bson::Binary(binary) => open_binary(alloc, &binary),
            Bson::ObjectId(id) => open_id(alloc, id),
            Bson::DateTime(time) => open_time(alloc, time),
            Bson::Symbol(text) => one_pair(alloc, "$symbol", Bson::String(text)),
            Bson::Decimal128(number) => open_decimal(alloc, number),
            Bson::Undefined => one_pair(alloc, "$undefined", Bson::Boolean(true)),
            Bson::MaxKey => one_pair(alloc, "$maxKey", Bson::Int32(1)),
            Bson::MinKey => one_pair(alloc, "$minKey", Bson::Int32(1)),
            Bson::DbPointer(pointer) => open_pointer(alloc, pointer),
            Bson::Double(_)
            | Bson::String(_)
            | Bson::Array(_)
            | Bson::Document(_)
            | Bson::Boolean(_)
            | Bson::Null
            | Bson::Int32(_)
            | Bson::Int64(_) => unreachable!(),
        }
    }
}

// The document that an ObjectId is opened to.
fn open_id(alloc: Global, id: ObjectId) -> Result<Document, AllocError>
    ensures { IfOk result (λ d. pairs_of d ≡ opened (object_id id.0)) }
{
    one_pair(alloc, "$oid", Bson::String(id.to_hex(alloc)?))
}

// That of a time.
#[tactic(auto, using(crate::proofs::Rows::row_items, crate::proofs::Rows::row_pairs))]
fn open_time(alloc: Global, time: DateTime) -> Result<Document, AllocError>
    ensures { IfOk result (λ d. pairs_of d ≡ opened (date_time (millis time))) }
{
    let number = Bson::String(number_text(alloc, time.timestamp_millis())?);
    let parts = one_pair(alloc, "$numberLong", number)?;
    one_pair(alloc, "$date", Bson::Document(parts))
}

// That of a binary of another subtype than 0.
#[tactic(auto, using(crate::proofs::Rows::row_items, crate::proofs::Rows::row_pairs, std::proofs::lemmas::Bool::Decides::nat_tests))]
fn open_binary(alloc: Global, binary: &Binary) -> Result<Document, AllocError>
    requires extended { IsExtended (binary_of binary.now) }
    ensures { IfOk result (λ d. pairs_of d ≡ opened (binary_of binary.now)) }
{
    let subtype = Bson::String(digits(alloc, &[binary.subtype.0])?);
    let bytes = Bson::String(base64_text(alloc, &binary.bytes)?);
    let parts = two_pairs(alloc, "subType", subtype, "base64", bytes)?;
    one_pair(alloc, "$binary", Bson::Document(parts))
}

// That of a timestamp.
#[tactic(auto, using(crate::proofs::Rows::row_items, crate::proofs::Rows::row_pairs))]
fn open_timestamp(alloc: Global, time: Timestamp) -> Result<Document, AllocError>
    ensures { IfOk result (λ d. pairs_of d ≡ opened (timestamp time.time time.increment)) }
{
    let seconds = Bson::Int64(i64::from(time.time));
    let increment = Bson::Int64(i64::from(time.increment));
    let parts = two_pairs(alloc, "t", seconds, "i", increment)?;
    one_pair(alloc, "$timestamp", Bson::Document(parts))
}

// That of a regular expression.
#[tactic(auto, using(crate::proofs::Rows::row_items, crate::proofs::Rows::row_pairs))]
fn open_regex(alloc: Global, regex: Regex) -> Result<Document, AllocError>
    ensures { IfOk result (λ d. pairs_of d ≡ opened (regex_of regex)) }
{
    let (pattern, options) = regex.into_parts();
    let (pattern, options) = (Bson::String(pattern), Bson::String(options));
    let parts = two_pairs(alloc, "pattern", pattern, "options", options)?;
    one_pair(alloc, "$regularExpression", Bson::Document(parts))
}

// That of a reference to a document.
#[tactic(auto, using(crate::proofs::Rows::row_items, crate::proofs::Rows::row_pairs))]
fn open_pointer(alloc: Global, pointer: DbPointer) -> Result<Document, AllocError>
    ensures { IfOk result (λ d. pairs_of d ≡ opened (pointer_of pointer)) }
{
    let DbPointer { namespace, id } = pointer;
    let id = Bson::Document(open_id(alloc, id)?);
    let parts = two_pairs(alloc, "$ref", Bson::String(namespace), "$id", id)?;
    one_pair(alloc, "$dbPointer", Bson::Document(parts))
}

// That of a decimal number.
fn open_decimal(alloc: Global, number: Decimal128) -> Result<Document, AllocError>
    ensures { IfOk result (λ d. pairs_of d ≡ opened (decimal128 number.0)) }
{
    let bytes = Vec::from_slice(alloc, &number.0)?;
    let binary = Binary::from_parts(BinarySubtype(0), bytes);
    one_pair(alloc, "$numberDecimalBytes", Bson::Binary(binary))
}

// The document of one pair.
fn one_pair(alloc: Global, key: &str, value: Bson) -> Result<Document, AllocError>
    ensures { IfOk result (λ d. pairs_of d ≡ one key.now (tree_of value)) }
{
    let mut document = Document::new(alloc);
    document.insert(String::from_str(alloc, key)?, value)?;
    Ok(document)
}

// The document of two pairs, of different keys.
fn two_pairs(
    alloc: Global,
    key: &str,
    value: Bson,
    other: &str,
    second: Bson,
) -> Result<Document, AllocError>
    requires different { bytes_eq other.now key.now ≡ false }
    ensures { IfOk result (λ d. pairs_of d ≡ two key.now (tree_of value) other.now (tree_of second)) }
{
    let mut document = one_pair(alloc, key, value)?;
    document.insert(String::from_str(alloc, other)?, second)?;
    Ok(document)
}
