// The values that hold no other value, as tokens.
ghost use Rattle.std.specs.Prelude.{[], ◌∷◌, OnOk, codes, string_bytes, true};
ghost use Rattle.std.specs.Fmt.{decimal};
ghost use Rattle.json.specs.Json as json;
ghost use Rattle.bson_base.specs.Made.{digits, number_text, base64_text};
ghost use Rattle.bson_decimals.specs.Decimals.{decimal_text};
ghost use Rattle.bson_json_laws.specs.JsonOf.{one, two, text_at, one_at, integer_json};
ghost use Rattle.bson_json_text.specs.Puts.{Appends, Opens, Keys, Closes};

use bson_base::{Binary, DbPointer, Decimal128, ObjectId, Regex, Timestamp, base64_text, digits};
use bson_decimals::decimal_text;
use bson_json_laws::JsonForm;
use json::Writer;
use std::alloc::{AllocError, Global};

// An object of one member that is a text.
pub(crate) fn put_text_at(writer: &mut Writer, key: &str, text: &str) -> Result<(), AllocError>
    ensures { OnOk result (Appends (text_at key.now text.now) writer.old writer.new) }
{
    writer.begin_object()?;
    writer.key(key)?;
    writer.string(text)?;
    writer.end_object()
}

// One of two members that are texts.
fn put_texts(
    writer: &mut Writer,
    key: &str,
    text: &str,
    other: &str,
    second: &str,
) -> Result<(), AllocError>
    ensures { OnOk result (Appends (two key.now (json.string text.now) other.now (json.string second.now)) writer.old writer.new) }
{
    writer.begin_object()?;
    writer.key(key)?;
    writer.string(text)?;
    writer.key(other)?;
    writer.string(second)?;
    writer.end_object()
}

// The number 1 at a key.
pub(crate) fn put_one_at(writer: &mut Writer, key: &str) -> Result<(), AllocError>
    ensures { OnOk result (Appends (one_at key.now) writer.old writer.new) }
{
    writer.begin_object()?;
    writer.key(key)?;
    writer.u64(1)?;
    writer.end_object()
}

// An ObjectId.
pub(crate) fn put_id(writer: &mut Writer, alloc: Global, id: ObjectId) -> Result<(), AllocError>
    ensures { OnOk result (Appends (text_at (codes "$oid") (digits id.0)) writer.old writer.new) }
{
    let text = digits(alloc, &id.0)?;
    put_text_at(writer, "$oid", &text)
}

// An integer.
#[tactic(auto, unfolding(bson_base::specs::Made::number_text))]
pub(crate) fn put_integer(
    writer: &mut Writer,
    form: JsonForm,
    key: &str,
    number: i64,
) -> Result<(), AllocError>
    ensures { OnOk result (Appends (integer_json form key.now number) writer.old writer.new) }
{
    match form {
        JsonForm::Canonical => {
            writer.begin_object()?;
            writer.key(key)?;
            writer.quoted_i64(number)?;
            writer.end_object()
        }
        JsonForm::Relaxed => writer.i64(number),
    }
}

// Opens an object at a key.
pub(crate) fn open(writer: &mut Writer, key: &str) -> Result<(), AllocError>
    ensures { OnOk result (Opens key.now writer.old writer.new) }
{
    writer.begin_object()?;
    writer.key(key)
}

// The next key.
pub(crate) fn next(writer: &mut Writer, key: &str) -> Result<(), AllocError>
    ensures { OnOk result (Keys key.now writer.old writer.new) }
{
    writer.key(key)
}

// Closes an object.
pub(crate) fn close(writer: &mut Writer) -> Result<(), AllocError>
    ensures { OnOk result (Closes writer.old writer.new) }
{
    writer.end_object()
}

// A binary, of its two texts.
#[tactic(auto, using(crate::proofs::Nested::one_closed))]
fn put_binary_texts(writer: &mut Writer, bytes: &str, subtype: &str) -> Result<(), AllocError>
    ensures { OnOk result (Appends (one (codes "$binary") (two (codes "base64") (json.string bytes.now) (codes "subType") (json.string subtype.now))) writer.old writer.new) }
{
    open(writer, "$binary")?;
    put_texts(writer, "base64", bytes, "subType", subtype)?;
    close(writer)
}

// A binary.
pub(crate) fn put_binary(
    writer: &mut Writer,
    alloc: Global,
    binary: &Binary,
) -> Result<(), AllocError>
    ensures { OnOk result (Appends (one (codes "$binary") (two (codes "base64") (json.string (base64_text binary.now.bytes.items)) (codes "subType") (json.string (digits (binary.now.subtype.0 ∷ []))))) writer.old writer.new) }
{
    let bytes = base64_text(alloc, &binary.bytes)?;
    let subtype = digits(alloc, &[binary.subtype.0])?;
    put_binary_texts(writer, &bytes, &subtype)
}

// A decimal number.
pub(crate) fn put_decimal(
    writer: &mut Writer,
    alloc: Global,
    number: Decimal128,
) -> Result<(), AllocError>
    ensures { OnOk result (Appends (text_at (codes "$numberDecimal") (decimal_text number.0)) writer.old writer.new) }
{
    let text = decimal_text(alloc, &number.0)?;
    put_text_at(writer, "$numberDecimal", &text)
}

// A regular expression, of its two texts.
#[tactic(auto, using(crate::proofs::Nested::one_closed))]
fn put_regex_texts(writer: &mut Writer, pattern: &str, options: &str) -> Result<(), AllocError>
    ensures { OnOk result (Appends (one (codes "$regularExpression") (two (codes "pattern") (json.string pattern.now) (codes "options") (json.string options.now))) writer.old writer.new) }
{
    open(writer, "$regularExpression")?;
    put_texts(writer, "pattern", pattern, "options", options)?;
    close(writer)
}

// A regular expression.
pub(crate) fn put_regex(writer: &mut Writer, regex: &Regex) -> Result<(), AllocError>
    ensures { OnOk result (Appends (one (codes "$regularExpression") (two (codes "pattern") (json.string regex.now.pattern) (codes "options") (json.string regex.now.options))) writer.old writer.new) }
{
    put_regex_texts(writer, regex.pattern(), regex.options())
}

// The parts of a reference to a document.
#[tactic(auto, using(crate::proofs::Nested::two_closed))]
fn put_pointer_parts(
    writer: &mut Writer,
    alloc: Global,
    namespace: &str,
    id: ObjectId,
) -> Result<(), AllocError>
    ensures { OnOk result (Appends (two (codes "$ref") (json.string namespace.now) (codes "$id") (text_at (codes "$oid") (digits id.0))) writer.old writer.new) }
{
    open(writer, "$ref")?;
    put_string(writer, namespace)?;
    next(writer, "$id")?;
    put_id(writer, alloc, id)?;
    close(writer)
}

// A reference to a document, by its parts.
#[tactic(auto, using(crate::proofs::Nested::one_closed))]
fn put_pointer_to(
    writer: &mut Writer,
    alloc: Global,
    namespace: &str,
    id: ObjectId,
) -> Result<(), AllocError>
    ensures { OnOk result (Appends (one (codes "$dbPointer") (two (codes "$ref") (json.string namespace.now) (codes "$id") (text_at (codes "$oid") (digits id.0)))) writer.old writer.new) }
{
    open(writer, "$dbPointer")?;
    put_pointer_parts(writer, alloc, namespace, id)?;
    close(writer)
}

// A reference to a document.
pub(crate) fn put_pointer(
    writer: &mut Writer,
    alloc: Global,
    pointer: &DbPointer,
) -> Result<(), AllocError>
    ensures { OnOk result (Appends (one (codes "$dbPointer") (two (codes "$ref") (json.string (string_bytes pointer.now.namespace)) (codes "$id") (text_at (codes "$oid") (digits pointer.now.id.0)))) writer.old writer.new) }
{
    put_pointer_to(writer, alloc, &pointer.namespace, pointer.id)
}

// A number without a sign.
fn put_number(writer: &mut Writer, number: u32) -> Result<(), AllocError>
    ensures { OnOk result (Appends (json.number (decimal number)) writer.old writer.new) }
{
    writer.u64(u64::from(number))
}

#[tactic(auto, using(crate::proofs::Nested::two_closed))]
fn put_timestamp_parts(writer: &mut Writer, time: u32, increment: u32) -> Result<(), AllocError>
    ensures { OnOk result (Appends (two (codes "t") (json.number (decimal time)) (codes "i") (json.number (decimal increment))) writer.old writer.new) }
{
    open(writer, "t")?;
    put_number(writer, time)?;
    next(writer, "i")?;
    put_number(writer, increment)?;
    close(writer)
}

// A timestamp.
#[tactic(auto, using(crate::proofs::Nested::one_closed))]
pub(crate) fn put_timestamp(writer: &mut Writer, timestamp: Timestamp) -> Result<(), AllocError>
    ensures { OnOk result (Appends (one (codes "$timestamp") (two (codes "t") (json.number (decimal timestamp.time)) (codes "i") (json.number (decimal timestamp.increment)))) writer.old writer.new) }
{
    open(writer, "$timestamp")?;
    put_timestamp_parts(writer, timestamp.time, timestamp.increment)?;
    close(writer)
}

// True at the key of the kind without a value.
#[tactic(auto, using(crate::proofs::Nested::one_closed))]
pub(crate) fn put_undefined(writer: &mut Writer) -> Result<(), AllocError>
    ensures { OnOk result (Appends (one (codes "$undefined") (json.boolean true)) writer.old writer.new) }
{
    open(writer, "$undefined")?;
    put_boolean(writer, true)?;
    close(writer)
}

// A text, a boolean, null.
pub(crate) fn put_string(writer: &mut Writer, text: &str) -> Result<(), AllocError>
    ensures { OnOk result (Appends (json.string text.now) writer.old writer.new) }
{
    writer.string(text)
}

pub(crate) fn put_boolean(writer: &mut Writer, truth: bool) -> Result<(), AllocError>
    ensures { OnOk result (Appends (json.boolean truth) writer.old writer.new) }
{
    writer.boolean(truth)
}

pub(crate) fn put_null(writer: &mut Writer) -> Result<(), AllocError>
    ensures { OnOk result (Appends json.null writer.old writer.new) }
{
    writer.null()
}
