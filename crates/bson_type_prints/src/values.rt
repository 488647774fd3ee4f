// Helpers for numbers, and values of types: the datum of each, and what is read of it.
use bson_base::Uuid;
use bson_datum::Datum;
use bson_helpers::{
    HumanReadable, Utf8LossyDeserialization, serialize_u32_as_i32, serialize_u32_as_i64,
    serialize_u64_as_i32, serialize_u64_as_i64,
};
use bson_lines::Lines;
use bson_shape::Shape;
use bson_traits::{Deserialize, Serialize};
use bson_values::Text;
use std::alloc::Global;
use std::fmt::{Debug, Display};

/// The greatest numbers that are converted, and the ones behind them.
pub fn add_numbers(lines: &mut Lines) {
    lines.made("u32 as i32", serialize_u32_as_i32(&2147483647));
    lines.made("u32 as i32", serialize_u32_as_i32(&2147483648));
    lines.made("u32 as i64", serialize_u32_as_i64(&4294967295));
    lines.made("u64 as i32", serialize_u64_as_i32(&2147483647));
    lines.made("u64 as i32", serialize_u64_as_i32(&2147483648));
    lines.made("u64 as i64", serialize_u64_as_i64(&9223372036854775807));
    lines.made("u64 as i64", serialize_u64_as_i64(&9223372036854775808));
}

/// Adds the notation of a shape that was made.
pub fn add_shape<E: Display>(lines: &mut Lines, alloc: Global, made: &Result<Shape, E>) {
    match made {
        Ok(shape) => lines.written("shape", &shape.print(alloc)),
        Err(error) => lines.text("no shape", error),
    }
}

/// Adds what is read of a datum.
pub fn add_read<'de, T: Deserialize<'de> + Debug + Drop>(
    lines: &mut Lines,
    alloc: Global,
    datum: Datum<'de>,
) {
    lines.made("from_datum", T::from_datum(alloc, datum));
}

/// Adds the shape of a type, the datum of a value, and what is read of that.
pub fn add_value<'de, T: Serialize + Deserialize<'de> + Debug + Drop>(
    lines: &mut Lines,
    alloc: Global,
    value: &'de T,
) {
    add_shape(lines, alloc, &T::shape(alloc));
    match value.to_datum(alloc) {
        Ok(datum) => {
            lines.debug("to_datum", &datum);
            add_read::<T>(lines, alloc, datum);
        }
        Err(error) => lines.text("no datum", &error),
    }
}

/// How two numbers compare, alone and in the marks.
pub fn add_comparisons(lines: &mut Lines) {
    compare(lines, &5i32, &7i32);
    compare(lines, &HumanReadable(5i32), &HumanReadable(7i32));
    compare(
        lines,
        &Utf8LossyDeserialization(7i32),
        &Utf8LossyDeserialization(5i32),
    );
    compare(lines, &HumanReadable(5i32), &HumanReadable(5i32));
    compare(
        lines,
        &Utf8LossyDeserialization(5i32),
        &Utf8LossyDeserialization(5i32),
    );
}

/// Adds whether two values are equal, and how they compare, where they may not and where they do.
fn compare<T: Ord>(lines: &mut Lines, value: &T, other: &T) {
    lines.debug("equal", &(value == other));
    lines.debug("partial_cmp", &value.partial_cmp(other));
    lines.debug("cmp", &value.cmp(other));
}

/// The bytes of the UUID `67e55044-10b1-426f-9247-bb680e5fe0c8`.
const UUID: [u8; 16] = [
    0x67, 0xe5, 0x50, 0x44, 0x10, 0xb1, 0x42, 0x6f, 0x92, 0x47, 0xbb, 0x68, 0x0e, 0x5f, 0xe0, 0xc8,
];

/// Adds a number of each width but those of 32 and 64 bits with a sign.
fn add_widths(lines: &mut Lines, alloc: Global) {
    add_value::<i8>(lines, alloc, &-128);
    add_value::<i16>(lines, alloc, &-32768);
    add_value::<u8>(lines, alloc, &255);
    add_value::<u16>(lines, alloc, &65535);
    add_value::<u32>(lines, alloc, &4294967295);
    add_value::<u64>(lines, alloc, &18446744073709551615);
}

/// Adds a number of 32 bits, alone and in the marks; and what it is not read of.
fn add_marked(lines: &mut Lines, alloc: Global) {
    add_value::<i32>(lines, alloc, &5);
    add_value::<HumanReadable<i32>>(lines, alloc, &HumanReadable(5));
    add_value::<Utf8LossyDeserialization<i32>>(lines, alloc, &Utf8LossyDeserialization(5));
    add_read::<i32>(lines, alloc, Datum::Unit);
}

/// Adds a text that is borrowed.
fn add_borrowed(lines: &mut Lines, alloc: Global) {
    let text = Text::Borrowed("a");
    add_value::<Text<'_>>(lines, alloc, &text);
    drop(text);
}

/// Values that are made without memory, of each type that has them.
pub fn add_values(lines: &mut Lines, alloc: Global) {
    add_marked(lines, alloc);
    add_widths(lines, alloc);
    add_value::<bool>(lines, alloc, &true);
    add_value::<char>(lines, alloc, &'c');
    add_value::<()>(lines, alloc, &());
    add_value::<Option<i32>>(lines, alloc, &Some(5));
    add_value::<Uuid>(lines, alloc, &Uuid(UUID));
    add_borrowed(lines, alloc);
}
