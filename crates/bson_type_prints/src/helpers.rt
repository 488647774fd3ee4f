// Helpers for ObjectIds and times: the shape of each, what it writes, and what it reads of that.
use crate::values::add_shape;
use bson_base::{DateTime, ObjectId, Timestamp};
use bson_helpers::{
    bson_datetime_as_rfc3339_string, hex_string_as_object_id, i64_as_bson_datetime,
    rfc3339_string_as_bson_datetime, serialize_object_id_as_hex_string, timestamp_as_u32,
    u32_as_timestamp,
};
use bson_lines::Lines;
use std::alloc::Global;

/// The bytes of an ObjectId.
const ID: [u8; 12] = [
    0x50, 0x7f, 0x1f, 0x77, 0xbc, 0xf8, 0x6c, 0xd7, 0x99, 0x43, 0x90, 0x11,
];

/// The milliseconds of a time since the start of 1970.
const MILLIS: i64 = 1700000000000;

/// Adds an ObjectId as a text of digits.
fn add_object_id(lines: &mut Lines, alloc: Global, id: &ObjectId) {
    let digits = serialize_object_id_as_hex_string(alloc, id);
    lines.made("serialize_object_id_as_hex_string", digits);
}

/// Adds a text of digits as an ObjectId.
fn add_digits(lines: &mut Lines, alloc: Global, digits: &str) {
    match hex_string_as_object_id::serialize(alloc, digits) {
        Ok(datum) => {
            lines.debug(digits, &datum);
            let read = hex_string_as_object_id::deserialize(alloc, datum);
            lines.made("read", read);
        }
        Err(error) => lines.text(digits, &error),
    }
}

/// Adds a text as a DateTime.
fn add_text(lines: &mut Lines, alloc: Global, text: &str) {
    match rfc3339_string_as_bson_datetime::serialize(alloc, text) {
        Ok(datum) => {
            lines.debug(text, &datum);
            let read = rfc3339_string_as_bson_datetime::deserialize(alloc, datum);
            lines.made("read", read);
        }
        Err(error) => lines.text(text, &error),
    }
}

/// Adds a DateTime as a text.
fn add_date(lines: &mut Lines, alloc: Global, date: &DateTime) {
    match bson_datetime_as_rfc3339_string::serialize(alloc, date) {
        Ok(datum) => {
            lines.debug("date", &datum);
            let read = bson_datetime_as_rfc3339_string::deserialize(alloc, datum);
            lines.made("read", read);
        }
        Err(error) => lines.text("date", &error),
    }
}

/// Adds a number of milliseconds as a DateTime.
fn add_millis(lines: &mut Lines, alloc: Global, millis: &i64) {
    match i64_as_bson_datetime::serialize(alloc, millis) {
        Ok(datum) => {
            lines.debug("milliseconds", &datum);
            lines.made("read", i64_as_bson_datetime::deserialize(alloc, datum));
        }
        Err(error) => lines.text("milliseconds", &error),
    }
}

/// Adds a number of seconds as a Timestamp.
fn add_seconds(lines: &mut Lines, alloc: Global, seconds: &u32) {
    match u32_as_timestamp::serialize(alloc, seconds) {
        Ok(datum) => {
            lines.debug("seconds", &datum);
            lines.made("read", u32_as_timestamp::deserialize(alloc, datum));
        }
        Err(error) => lines.text("seconds", &error),
    }
}

/// Adds a Timestamp as a number of seconds.
fn add_stamp(lines: &mut Lines, alloc: Global, time: u32, increment: u32) {
    match timestamp_as_u32::serialize(alloc, &Timestamp { time, increment }) {
        Ok(datum) => {
            lines.debug("stamp", &datum);
            lines.made("read", timestamp_as_u32::deserialize(alloc, datum));
        }
        Err(error) => lines.text("stamp", &error),
    }
}

/// Adds the shapes of texts, and texts that are written and refused.
fn add_texts(lines: &mut Lines, alloc: Global) {
    add_shape(lines, alloc, &hex_string_as_object_id::shape(alloc));
    add_digits(lines, alloc, "507f1f77bcf86cd799439011");
    add_digits(lines, alloc, "507f");
    add_shape(lines, alloc, &rfc3339_string_as_bson_datetime::shape(alloc));
    add_text(lines, alloc, "2023-11-14T22:13:20Z");
    add_text(lines, alloc, "yesterday");
}

/// Adds the shapes of dates and numbers, and dates and numbers that are written and refused.
fn add_times(lines: &mut Lines, alloc: Global) {
    add_shape(lines, alloc, &bson_datetime_as_rfc3339_string::shape(alloc));
    add_date(lines, alloc, &DateTime::from_millis(MILLIS));
    add_date(lines, alloc, &DateTime::from_millis(i64::MAX));
    add_shape(lines, alloc, &i64_as_bson_datetime::shape(alloc));
    add_millis(lines, alloc, &5);
    add_shape(lines, alloc, &u32_as_timestamp::shape(alloc));
    add_seconds(lines, alloc, &5);
    add_shape(lines, alloc, &timestamp_as_u32::shape(alloc));
    add_stamp(lines, alloc, 5, 0);
    add_stamp(lines, alloc, 1, 1);
}

/// What each helper writes and reads.
pub fn add_helpers(lines: &mut Lines, alloc: Global) {
    add_object_id(lines, alloc, &ObjectId(ID));
    add_texts(lines, alloc);
    add_times(lines, alloc);
}
