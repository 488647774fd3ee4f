// Owned values are made, opened and copied where there is memory.
use bson_base::{Binary, BinarySubtype, Bson, Document, Regex};
use bson_lines::Lines;
use bson_rawdoc::RawDocument;
use bson_values::{ByteStr, Text};
use std::alloc::{AllocError, Global};

/// A binary.
fn binary(alloc: Global) -> Result<Binary, AllocError> {
    let bytes = vec![in alloc; 1, 2]?;
    Ok(Binary::from_parts(BinarySubtype(4), bytes))
}

/// A regular expression, whose options are put in order.
fn regex(alloc: Global) -> Result<Regex, AllocError> {
    let pattern = String::from_str(alloc, "a")?;
    Regex::new(alloc, pattern, String::from_str(alloc, "xi")?)
}

/// Adds the parts of a regular expression.
fn add_regex(lines: &mut Lines, regex: &Result<Regex, AllocError>) {
    match regex {
        Ok(regex) => lines.named(regex.pattern(), regex.options()),
        Err(error) => lines.text("no expression", error),
    }
}

/// Adds a regular expression, and a copy of it.
fn add_regex_copy(lines: &mut Lines, alloc: Global) {
    let regex = regex(alloc);
    add_regex(lines, &regex);
    if let Ok(regex) = &regex {
        add_regex(lines, &regex.try_clone(alloc));
    }
}

/// The document that a symbol is opened to.
fn opened(alloc: Global) -> Result<Document, AllocError> {
    let symbol = Bson::Symbol(String::from_str(alloc, "a")?);
    symbol.into_extended_document(alloc)
}

/// Adds the elements of a document.
pub fn add_elements_of(lines: &mut Lines, document: &Document) {
    for (key, value) in document.iter() {
        lines.debug(key, value);
    }
}

/// Adds the document that a symbol is opened to.
fn add_opened(lines: &mut Lines, alloc: Global) {
    match opened(alloc) {
        Ok(document) => add_elements_of(lines, &document),
        Err(error) => lines.text("no document", &error),
    }
}

/// Puts null under a key, and returns what was under it before.
fn put(alloc: Global, document: &mut Document) -> Result<Option<Bson>, AllocError> {
    document.insert(String::from_str(alloc, "a")?, Bson::Null)
}

/// Adds what was under the key of a document before null was put there, and how many keys it has then; twice.
fn add_put(lines: &mut Lines, alloc: Global) {
    let mut document = Document::new(alloc);
    for _ in 0..2 {
        lines.made("put", put(alloc, &mut document));
        lines.text("keys", &document.len());
    }
}

/// The bytes of a document with a value of each kind that has memory of its own: under `a` an array of a text, code, a symbol, a binary, a regular
/// expression, a pointer and code with a scope.
const OWNED: &[u8] =
    b"`\0\0\0\x04a\0X\0\0\0\x020\0\x02\0\0\0a\0\x0d1\0\x02\0\0\0b\0\x0e2\0\x02\0\0\0c\0\x053\0\x02\0\0\0\0\x01\x02\x0b4\0d\0i\0\x0c5\0\x02\0\0\0e\0abcdefghijkl\x0f6\0\x0f\0\0\0\x02\0\0\0f\0\x05\0\0\0\0\0\0";

/// Whether a copy of a value is equal to it.
fn is_copied(alloc: Global, value: &Bson) -> Result<bool, AllocError> {
    Ok(value.try_clone(alloc)? == *value)
}

/// Adds whether a copy of a document is equal to it.
fn add_copied(lines: &mut Lines, alloc: Global, document: RawDocument<'_>) {
    match document.to_document(alloc) {
        Ok(document) => {
            let value = Bson::Document(document);
            lines.made("equal to its copy", is_copied(alloc, &value));
        }
        Err(fault) => lines.debug("no tree", &fault),
    }
}

/// Adds a copy of a document with a value of each kind that has memory of its own.
fn add_copy(lines: &mut Lines, alloc: Global) {
    match RawDocument::from_bytes(OWNED) {
        Ok(document) => add_copied(lines, alloc, document),
        Err(fault) => lines.debug("no document", &fault),
    }
}

/// A text that owns its bytes.
fn owned_text<'x>(alloc: Global) -> Result<Text<'x>, AllocError> {
    Text::Borrowed("a").into_owned(alloc)
}

/// A byte string that owns its bytes.
fn owned_bytes<'x>(alloc: Global) -> Result<ByteStr<'x>, AllocError> {
    ByteStr::Borrowed(b"a").into_owned(alloc)
}

/// Adds a text that is owned, and a copy of it.
fn add_text_copy(lines: &mut Lines, alloc: Global) {
    match owned_text(alloc) {
        Ok(text) => {
            lines.debug("text", &text);
            lines.made("copy", text.try_clone(alloc));
        }
        Err(error) => lines.text("no text", &error),
    }
}

/// Adds a byte string that is owned, and a copy of it.
fn add_bytes_copy(lines: &mut Lines, alloc: Global) {
    match owned_bytes(alloc) {
        Ok(bytes) => {
            lines.debug("bytes", &bytes);
            lines.made("copy", bytes.try_clone(alloc));
        }
        Err(error) => lines.text("no bytes", &error),
    }
}

/// A binary, a regular expression, a value that is opened, a value that is put, and copies.
pub fn add_values(lines: &mut Lines, alloc: Global) {
    lines.made("binary", binary(alloc));
    add_regex_copy(lines, alloc);
    add_opened(lines, alloc);
    add_put(lines, alloc);
    add_copy(lines, alloc);
    add_text_copy(lines, alloc);
    add_bytes_copy(lines, alloc);
}
