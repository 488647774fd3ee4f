// Values that no writer takes.
use bson_datum::{Datum, Field};
use bson_growing::{boxed, push};
use bson_lines::Lines;
use bson_ser_stream::to_vec_at;
use bson_ser_tree::{Serializer, to_bson_at};
use bson_values::Text;
use std::alloc::{AllocError, Global};

/// Adds why a value is refused by the writer of trees, with its path and without it, and by that of bytes.
fn add_refusal(lines: &mut Lines, alloc: Global, value: &Datum<'_>) {
    lines.made("to_bson_at", to_bson_at(alloc, value));
    lines.made("serialize", Serializer::new().serialize(alloc, value));
    lines.bytes("to_vec_at", to_vec_at(alloc, value));
}

/// Adds why a value that was made is refused.
fn add_made(lines: &mut Lines, alloc: Global, made: Result<Datum<'_>, AllocError>) {
    match made {
        Ok(value) => {
            add_refusal(lines, alloc, &value);
            drop(value);
        }
        Err(error) => lines.text("no value", &error),
    }
}

/// A struct with a value under `x`.
pub fn under_x<'x>(alloc: Global, value: Datum<'x>) -> Result<Datum<'x>, AllocError> {
    let name = Text::Borrowed("x");
    let mut fields = Vec::new(alloc);
    push(&mut fields, Field { name, value })?;
    let name = Text::Borrowed("S");
    Ok(Datum::Struct { name, fields })
}

/// The newtype of a UUID around the text of one, which it takes in the readable form alone.
fn uuid<'x>(alloc: Global) -> Result<Datum<'x>, AllocError> {
    let text = Text::Borrowed("67e55044-10b1-426f-9247-bb680e5fe0c8");
    let name = Text::Borrowed("$__bson_private_uuid");
    let value = boxed(alloc, Datum::Str(text))?;
    under_x(alloc, Datum::NewtypeStruct { name, value })
}

/// An array of this value.
fn array<'x>(alloc: Global, value: Datum<'x>) -> Result<Datum<'x>, AllocError> {
    let mut items = Vec::new(alloc);
    push(&mut items, value)?;
    Ok(Datum::Seq(items))
}

/// An array in an array, and so on: so many arrays.
fn nested<'x>(alloc: Global, arrays: u32) -> Result<Datum<'x>, AllocError> {
    let mut value = Datum::Unit;
    for _ in 0..arrays {
        value = array(alloc, value)?;
    }
    under_x(alloc, value)
}

/// A number above the greatest Int64.
fn great<'x>(alloc: Global) -> Result<Datum<'x>, AllocError> {
    under_x(alloc, Datum::U64(9223372036854775808))
}

/// The refusals of a number, of a UUID in the form that the newtype does not take, and of an array at level 201.
pub fn add_refusals(lines: &mut Lines, alloc: Global) {
    add_made(lines, alloc, great(alloc));
    add_made(lines, alloc, uuid(alloc));
    add_made(lines, alloc, nested(alloc, 200));
}
