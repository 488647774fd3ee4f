// The texts of ObjectIds, UUIDs and dates, as their public formats have them.
use bson_base::{DateTime, ObjectId, Uuid};
use bson_dates::date_text;
use bson_lines::Lines;
use std::alloc::Global;

/// Adds the ObjectId that a text is: its bytes, and the text that it is printed as.
fn add_object_id(lines: &mut Lines, alloc: Global, text: &str) {
    match ObjectId::parse_str(text) {
        Ok(id) => {
            lines.hex(text, &id.0);
            lines.written("printed", &id.to_hex(alloc));
        }
        Err(error) => lines.debug(text, &error),
    }
}

/// Adds the UUID that a text is: its bytes, and the text that it is printed as.
fn add_uuid(lines: &mut Lines, alloc: Global, text: &str) {
    match Uuid::parse_str(text) {
        Ok(id) => {
            lines.hex(text, &id.0);
            lines.written("printed", &id.to_hyphenated(alloc));
        }
        Err(error) => lines.debug(text, &error),
    }
}

/// Texts of dates. The first four are those of RFC 3339, section 5.8, but for its second 60; the last five are refused.
const TEXTS: [&str; 12] = [
    "1985-04-12T23:20:50.52Z",
    "1996-12-19T16:39:57-08:00",
    "1990-12-31T23:59:59Z",
    "1937-01-01T12:00:27.87+00:20",
    "1970-01-01t00:00:00.0019z",
    "2024-02-29T00:00:00Z",
    "0000-01-01T00:00:00Z",
    "2023-02-29T00:00:00Z",
    "1990-12-31T23:59:60Z",
    "1990-12-31 23:59:59Z",
    "1990-12-31T23:59:59.Z",
    "1990-12-31T23:59:59",
];

/// Adds the milliseconds since the start of 1970 that a text stands for.
fn add_date(lines: &mut Lines, text: &str) {
    match DateTime::parse_rfc3339_str(text) {
        Ok(date) => lines.text(text, &date.timestamp_millis()),
        Err(error) => lines.debug(text, &error),
    }
}

/// Milliseconds since the start of 1970: two in the last hundred years, the last before 1970, the first and the last that have a text, and the
/// two beside these.
const MILLISECONDS: [i64; 7] = [
    1700000000000,
    482196050520,
    -1,
    -62167219200000,
    253402300799999,
    -62167219200001,
    253402300800000,
];

/// Adds the text that a date is printed as.
fn add_date_text(lines: &mut Lines, alloc: Global, milliseconds: i64) {
    lines.text("milliseconds", &milliseconds);
    lines.made("date_text", date_text(alloc, milliseconds));
    match DateTime::from_millis(milliseconds).try_to_rfc3339_string(alloc) {
        Ok(text) => lines.named("printed", &text),
        Err(error) => {
            lines.debug("no text", &error);
            lines.text("no text", &error);
        }
    }
}

/// Ids that are read from texts and texts that are none, the milliseconds that texts of dates stand for, and the texts that dates are printed as.
pub fn add_texts(lines: &mut Lines, alloc: Global) {
    add_object_id(lines, alloc, "507F1f77bcf86cd799439011");
    add_object_id(lines, alloc, "507f1f77bcf86cd79943901");
    add_uuid(lines, alloc, "f81d4fae-7dec-11d0-a765-00a0c91e6bf6");
    add_uuid(lines, alloc, "f81d4fae-7dec");
    for text in TEXTS {
        add_date(lines, text);
    }
    for milliseconds in MILLISECONDS {
        add_date_text(lines, alloc, milliseconds);
    }
}
