// What the raw layer reads where there is memory: an element of every kind, a text that is mended, and the values of an array.
use bson_base::Bson;
use bson_lines::Lines;
use bson_rawdoc::{RawBsonRef, RawDocument, RawElement};
use std::alloc::Global;

/// Documents of one element, under `k`: one for each kind.
const KINDS: [&[u8]; 21] = [
    b"\x10\0\0\0\x01k\0\0\0\0\0\0\0\xf8\x3f\0",
    b"\x0e\0\0\0\x02k\0\x02\0\0\0a\0\0",
    b"\x0d\0\0\0\x03k\0\x05\0\0\0\0\0",
    b"\x10\0\0\0\x04k\0\x08\0\0\0\x0a0\0\0\0",
    b"\x0e\0\0\0\x05k\0\x01\0\0\0\0a\0",
    b"\x08\0\0\0\x06k\0\0",
    b"\x14\0\0\0\x07k\0abcdefghijkl\0",
    b"\x09\0\0\0\x08k\0\x01\0",
    b"\x10\0\0\0\x09k\0\x01\0\0\0\0\0\0\0\0",
    b"\x08\0\0\0\x0ak\0\0",
    b"\x0d\0\0\0\x0bk\0a*\0i\0\0",
    b"\x1a\0\0\0\x0ck\0\x02\0\0\0a\0abcdefghijkl\0",
    b"\x0e\0\0\0\x0dk\0\x02\0\0\0a\0\0",
    b"\x0e\0\0\0\x0ek\0\x02\0\0\0a\0\0",
    b"\x17\0\0\0\x0fk\0\x0f\0\0\0\x02\0\0\0a\0\x05\0\0\0\0\0",
    b"\x0c\0\0\0\x10k\0\x01\0\0\0\0",
    b"\x10\0\0\0\x11k\0\x01\0\0\0\x02\0\0\0\0",
    b"\x10\0\0\0\x12k\0\x01\0\0\0\0\0\0\0\0",
    b"\x18\0\0\0\x13k\0abcdefghijklmnop\0",
    b"\x08\0\0\0\xffk\0\0",
    b"\x08\0\0\0\x7fk\0\0",
];

/// Adds an element: its key and its kind, its bytes, and the kind of its value.
fn add_element(lines: &mut Lines, element: &RawElement<'_>) {
    lines.debug(element.key(), &element.element_type());
    lines.hex("bytes", element.slice());
    match element.value() {
        Ok(value) => lines.debug("value", &value.element_type()),
        Err(fault) => lines.debug("no value", &fault),
    }
}

/// Adds the elements of a document.
fn add_elements_of(lines: &mut Lines, document: RawDocument<'_>) {
    for element in document.iter_elements() {
        match element {
            Ok(element) => add_element(lines, &element),
            Err(fault) => lines.debug("no element", &fault),
        }
    }
}

/// Adds the elements of a document of one element of each kind.
fn add_kinds(lines: &mut Lines) {
    for bytes in KINDS {
        match RawDocument::from_bytes(bytes) {
            Ok(document) => add_elements_of(lines, document),
            Err(fault) => lines.debug("no document", &fault),
        }
    }
}

/// Adds a text in hexadecimal digits.
fn add_text(lines: &mut Lines, value: &Option<Bson>) {
    match value {
        Some(Bson::String(text)) => lines.hex("lossy", text.as_bytes()),
        _ => lines.line("no text"),
    }
}

/// Adds the text that an element is where its ill-formed bytes are mended.
fn add_mended(lines: &mut Lines, alloc: Global, element: &RawElement<'_>) {
    match element.value_utf8_lossy(alloc) {
        Ok(value) => add_text(lines, &value),
        Err(fault) => lines.debug("no value", &fault),
    }
}

/// Adds the same by way of the text before it is judged.
fn add_unjudged(lines: &mut Lines, alloc: Global, element: &RawElement<'_>) {
    match element.unjudged() {
        Ok(Some(value)) => lines.made("unjudged", value.to_bson_lossy(alloc)),
        Ok(None) => lines.line("no text"),
        Err(fault) => lines.debug("no value", &fault),
    }
}

/// The document with the field `s`, a text of one byte that is not UTF-8.
const ILL_FORMED: &[u8] = b"\x0e\0\0\0\x02s\0\x02\0\0\0\xff\0\0";

/// Adds a text that is not UTF-8, in which U+FFFD stands for its ill-formed byte.
fn add_lossy(lines: &mut Lines, alloc: Global, document: RawDocument<'_>) {
    for element in document.iter_elements() {
        match element {
            Ok(element) => {
                add_mended(lines, alloc, &element);
                add_unjudged(lines, alloc, &element);
            }
            Err(fault) => lines.debug("no element", &fault),
        }
    }
}

/// The document `{k: [null]}`.
const ARRAY: &[u8] = b"\x10\0\0\0\x04k\0\x08\0\0\0\x0a0\0\0\0";

/// Adds the values of the array under a key.
fn add_values(lines: &mut Lines, alloc: Global, document: RawDocument<'_>) {
    match document.get("k") {
        Ok(Some(RawBsonRef::Array(array))) => lines.made("values", array.to_values(alloc)),
        Ok(_) => lines.line("no array"),
        Err(fault) => lines.debug("no value", &fault),
    }
}

/// Adds the values of an array in a document.
fn add_array(lines: &mut Lines, alloc: Global) {
    match RawDocument::from_bytes(ARRAY) {
        Ok(document) => add_values(lines, alloc, document),
        Err(fault) => lines.debug("no document", &fault),
    }
}

/// An element of each kind, a text that is mended, an array, and what `Debug` gives of a document.
pub fn add_elements(lines: &mut Lines, alloc: Global) {
    add_kinds(lines);
    match RawDocument::from_bytes(ILL_FORMED) {
        Ok(document) => add_lossy(lines, alloc, document),
        Err(fault) => lines.debug("no document", &fault),
    }
    add_array(lines, alloc);
    lines.debug("document", &RawDocument::from_bytes(&[5, 0, 0, 0, 0]));
}
