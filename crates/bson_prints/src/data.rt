// Extended values as data, each made once.
use bson_base::{BinarySubtype, DateTime, ObjectId, Timestamp, Uuid};
use bson_datum::{Datum, Entry};
use bson_growing::push;
use bson_lines::Lines;
use bson_values::Text;
use bson_wrapped::data;
use std::alloc::{AllocError, Global};

/// The bytes of an ObjectId.
const ID: [u8; 12] = [
    0x50, 0x7f, 0x1f, 0x77, 0xbc, 0xf8, 0x6c, 0xd7, 0x99, 0x43, 0x90, 0x11,
];

/// The bytes of a UUID.
const UUID: [u8; 16] = [
    0x67, 0xe5, 0x50, 0x44, 0x10, 0xb1, 0x42, 0x6f, 0x92, 0x47, 0xbb, 0x68, 0x0e, 0x5f, 0xe0, 0xc8,
];

/// A text with memory of its own.
fn text(alloc: Global, text: &str) -> Result<String, AllocError> {
    String::from_str(alloc, text)
}

/// A struct of one field.
fn one<'x>(alloc: Global) -> Result<Datum<'x>, AllocError> {
    data::struct_of_one(alloc, "S", "a", Datum::I32(1))
}

/// A struct of two fields.
fn two<'x>(alloc: Global) -> Result<Datum<'x>, AllocError> {
    data::struct_of_two(alloc, "S", ("a", Datum::I32(1)), ("b", Datum::I32(2)))
}

/// A binary of this subtype, whose bytes are given.
fn owned_binary<'x>(alloc: Global, subtype: u8) -> Result<Datum<'x>, AllocError> {
    let bytes = vec![in alloc; 170]?;
    data::owned_binary(alloc, BinarySubtype(subtype), bytes)
}

/// A regular expression, whose options are not in order.
fn regex<'x>(alloc: Global) -> Result<Datum<'x>, AllocError> {
    let pattern = text(alloc, "a")?;
    data::regular_expression(alloc, pattern, text(alloc, "xi")?)
}

/// A DbPointer.
fn pointer<'x>(alloc: Global) -> Result<Datum<'x>, AllocError> {
    data::db_pointer(alloc, text(alloc, "n")?, ObjectId(ID))
}

/// Code.
fn code<'x>(alloc: Global) -> Result<Datum<'x>, AllocError> {
    data::code(alloc, text(alloc, "c")?)
}

/// The entries of a scope.
fn scope<'x>(alloc: Global) -> Result<Vec<Entry<'x>>, AllocError> {
    let key = Datum::Str(Text::Borrowed("v"));
    let value = Datum::I32(2);
    let mut entries = Vec::new(alloc);
    push(&mut entries, Entry { key, value })?;
    Ok(entries)
}

/// Code with a scope.
fn scoped<'x>(alloc: Global) -> Result<Datum<'x>, AllocError> {
    let code = text(alloc, "c")?;
    data::scoped_code(alloc, code, scope(alloc)?)
}

/// A Symbol.
fn symbol<'x>(alloc: Global) -> Result<Datum<'x>, AllocError> {
    data::symbol(alloc, text(alloc, "s")?)
}

/// A Decimal128.
fn decimal<'x>(alloc: Global) -> Result<Datum<'x>, AllocError> {
    data::decimal128(alloc, UUID.to_vec(alloc)?)
}

/// Adds what is made of data and bytes.
fn add_parts(lines: &mut Lines, alloc: Global) {
    lines.made("bytes", data::bytes(alloc, &[1, 2]));
    lines.made("struct_of_one", one(alloc));
    lines.made("struct_of_two", two(alloc));
    lines.made("wrap", data::wrap(alloc, "$w", Datum::Bool(true)));
    lines.made("binary", data::binary(alloc, BinarySubtype(0), &[170]));
    lines.made("binary", data::binary(alloc, BinarySubtype(2), &[170]));
    lines.made("owned_binary", owned_binary(alloc, 0));
    lines.made("owned_binary", owned_binary(alloc, 2));
}

/// Adds ids and times.
fn add_numbers(lines: &mut Lines, alloc: Global) {
    let stamp = Timestamp {
        time: 5,
        increment: 6,
    };
    lines.made("object_id", data::object_id(alloc, &ID));
    lines.made(
        "date_time",
        data::date_time(alloc, DateTime::from_millis(5)),
    );
    lines.made("timestamp", data::timestamp(alloc, stamp));
    lines.made("decimal128", decimal(alloc));
    lines.made("uuid", data::uuid(alloc, Uuid(UUID)));
}

/// Adds texts and values without contents.
fn add_others(lines: &mut Lines, alloc: Global) {
    lines.made("regular_expression", regex(alloc));
    lines.made("db_pointer", pointer(alloc));
    lines.made("code", code(alloc));
    lines.made("scoped_code", scoped(alloc));
    lines.made("symbol", symbol(alloc));
    lines.made("undefined", data::undefined(alloc));
    lines.made("max_key", data::max_key(alloc));
    lines.made("min_key", data::min_key(alloc));
}

/// A value of each kind.
pub fn add_data(lines: &mut Lines, alloc: Global) {
    add_parts(lines, alloc);
    add_numbers(lines, alloc);
    add_others(lines, alloc);
}
