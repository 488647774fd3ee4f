// A document as a datum, what is read of it, and its bytes; and the same of each of its values, by the type of its kind.
use crate::values::{add_read, add_value};
use bson_base::{
    Binary, Bson, DateTime, DbPointer, Decimal128, Document, Double, JavaScriptCodeWithScope,
    ObjectId, Regex, Timestamp,
};
use bson_datum::Datum;
use bson_lines::Lines;
use bson_types::{from_slice, to_vec};
use std::alloc::Global;

/// The bytes of a document that has a value of each kind.
const ALL: &[u8] =
    b"\xe5\0\0\0\x01a\0\0\0\0\0\0\0\xf8?\x02b\0\x02\0\0\0x\0\x03c\0\x0c\0\0\0\x10d\0\x01\0\0\0\0\x04e\0\x0c\0\0\0\x080\0\x01\x0a1\0\0\x05f\0\x02\0\0\0\0\x01\x02\x05g\0\x01\0\0\0\x05\x03\x06h\0\x07i\0P\x7f\x1fw\xbc\xf8l\xd7\x99C\x90\x11\x09j\0\x05\0\0\0\0\0\0\0\x0bk\0p\0im\0\x0cl\0\x02\0\0\0n\0P\x7f\x1fw\xbc\xf8l\xd7\x99C\x90\x11\x0dm\0\x02\0\0\0c\0\x0en\0\x02\0\0\0s\0\x0fo\0\x16\0\0\0\x02\0\0\0c\0\x0c\0\0\0\x10v\0\x02\0\0\0\0\x10p\0\xfe\xff\xff\xff\x11q\0\x06\0\0\0\x05\0\0\0\x12r\0\x07\0\0\0\0\0\0\0\x13s\0\0\x01\x02\x03\x04\x05\x06\x07\x08\x09\x0a\x0b\x0c\x0d\x0e\x0f\x7ft\0\xffu\0\0";

/// Adds a number or a time by the type of its kind, and an Int32 as a `Bson`.
fn add_number(lines: &mut Lines, alloc: Global, value: &Bson) {
    match value {
        Bson::Double(number) => add_value::<Double>(lines, alloc, number),
        Bson::Int32(_) => add_value::<Bson>(lines, alloc, value),
        Bson::Int64(number) => add_value::<i64>(lines, alloc, number),
        Bson::Decimal128(number) => add_value::<Decimal128>(lines, alloc, number),
        Bson::DateTime(time) => add_value::<DateTime>(lines, alloc, time),
        Bson::Timestamp(stamp) => add_value::<Timestamp>(lines, alloc, stamp),
        _ => {}
    }
}

/// Adds a value of another kind that has a type, by that type.
fn add_other(lines: &mut Lines, alloc: Global, value: &Bson) {
    match value {
        Bson::String(text) => add_value::<String>(lines, alloc, text),
        Bson::Array(items) => add_value::<Vec<Bson>>(lines, alloc, items),
        Bson::Binary(binary) => add_value::<Binary>(lines, alloc, binary),
        Bson::ObjectId(id) => add_value::<ObjectId>(lines, alloc, id),
        Bson::RegularExpression(regex) => add_value::<Regex>(lines, alloc, regex),
        Bson::DbPointer(pointer) => add_value::<DbPointer>(lines, alloc, pointer),
        Bson::JavaScriptCodeWithScope(code) => {
            add_value::<JavaScriptCodeWithScope>(lines, alloc, code)
        }
        _ => {}
    }
}

/// Adds a document as a datum, what is read of that, and its bytes; and its values.
fn add_document(lines: &mut Lines, alloc: Global, document: &Document) {
    add_value::<Document>(lines, alloc, document);
    lines.bytes("to_vec", to_vec(alloc, document));
    for (_, value) in document.iter() {
        add_number(lines, alloc, value);
        add_other(lines, alloc, value);
    }
}

/// A document with a value of each kind, and what is read of a datum that is none of them.
pub fn add_documents(lines: &mut Lines, alloc: Global) {
    match from_slice::<Document>(alloc, ALL) {
        Ok(document) => {
            add_document(lines, alloc, &document);
            drop(document);
        }
        Err(error) => lines.text("no document", &error),
    }
    add_read::<Bson>(lines, alloc, Datum::I8(5));
    add_read::<Document>(lines, alloc, Datum::Unit);
    add_read::<JavaScriptCodeWithScope>(lines, alloc, Datum::Unit);
}
