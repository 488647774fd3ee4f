// The fields of a struct, from the cells of a line.
use bson_datum::{Datum, Entry, Field};
use bson_growing::push;
use bson_values::{ByteStr, Text};
use std::alloc::{AllocError, Global};

/// What stands between cells.
pub const BETWEEN: &str = " | ";

/// Puts the fields of cells behind others; false where a cell is none.
pub fn push_fields<'l>(alloc: Global, fields: &mut Vec<Field<'l>>, cells: &'l str) -> bool {
    for cell in cells.split(BETWEEN) {
        if !push_field(alloc, fields, cell) {
            return false;
        }
    }
    true
}

/// Puts the field of a cell behind others: its key, and behind a space its value.
fn push_field<'l>(alloc: Global, fields: &mut Vec<Field<'l>>, cell: &'l str) -> bool {
    let (key, rest) = split_of(cell);
    let (sort, said) = split_of(rest);
    let name = Text::Borrowed(key);
    match value_of(alloc, sort, said) {
        Some(value) => push(fields, Field { name, value }).is_ok(),
        None => false,
    }
}

/// A word, and what is behind the space after it.
fn split_of(cell: &str) -> (&str, &str) {
    match cell.split_once(' ') {
        Some((word, rest)) => (word, rest),
        None => (cell, ""),
    }
}

/// A struct without fields.
fn empty<'l>(alloc: Global) -> Datum<'l> {
    Datum::Struct {
        name: Text::Borrowed(""),
        fields: Vec::new(alloc),
    }
}

/// The value of a cell: its sort, and what it says.
fn value_of<'l>(alloc: Global, sort: &str, said: &'l str) -> Option<Datum<'l>> {
    match sort {
        "text" => Some(Datum::Str(Text::Borrowed(said))),
        "zero" => Some(Datum::Str(Text::Borrowed("a\0"))),
        "bytes" => Some(Datum::Bytes(ByteStr::Borrowed(said.as_bytes()))),
        "u8" => byte_of(said),
        "i64" => number_of(said),
        "bool" => Some(Datum::Bool(true)),
        "empty" => Some(empty(alloc)),
        "scope" => Some(Datum::Map(Vec::new(alloc))),
        "numbered" => scope(alloc).ok(),
        _ => None,
    }
}

/// A number of `u8`.
fn byte_of<'l>(said: &str) -> Option<Datum<'l>> {
    match said.parse::<u8>() {
        Ok(number) => Some(Datum::U8(number)),
        Err(_) => None,
    }
}

/// A number of `i64`.
fn number_of<'l>(said: &str) -> Option<Datum<'l>> {
    match said.parse::<i64>() {
        Ok(number) => Some(Datum::I64(number)),
        Err(_) => None,
    }
}

/// A scope with a number for a key.
fn scope<'l>(alloc: Global) -> Result<Datum<'l>, AllocError> {
    let key = Datum::I32(7);
    let value = Datum::Bool(true);
    let mut entries = Vec::new(alloc);
    push(&mut entries, Entry { key, value })?;
    Ok(Datum::Map(entries))
}
