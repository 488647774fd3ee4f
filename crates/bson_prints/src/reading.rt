// What is read of a document at a shape, its copies, and why it is refused: as `Debug` prints them.
use bson_datum::{Datum, RawArr, RawDoc};
use bson_de_raw::from_slice_at;
use bson_growing::boxed;
use bson_lines::Lines;
use bson_recasting::{RecastError, recast};
use bson_shape::Shape;
use std::alloc::{AllocError, Global};
use std::fmt::Debug;

/// The shape of a value of each form that holds others or has memory of its own.
const SHAPE: &str =
    "S{o:?string,n:N=str,m:[str:bytes],q:[bytebuf],t:(bool,str),p:P(str),e:[<A,B=str,C(str),D{f:str}>],u:U!,d:rawdoc,r:rawarray,v:rawbson}";

/// A document with such a value.
const FORMS: &[u8] = b"\xd9\0\0\0\
    \x02o\0\x02\0\0\0a\0\
    \x02n\0\x02\0\0\0b\0\
    \x03m\0\x0e\0\0\0\x05k\0\x01\0\0\0\0\x01\0\
    \x04q\0\x0e\0\0\0\x050\0\x01\0\0\0\0\x02\0\
    \x04t\0\x12\0\0\0\x080\0\x01\x021\0\x02\0\0\0c\0\0\
    \x04p\0\x0e\0\0\0\x020\0\x02\0\0\0d\0\0\
    \x04e\0Q\0\0\0\x020\0\x02\0\0\0A\0\x031\0\x0e\0\0\0\x02B\0\x02\0\0\0x\0\0\x032\0\x16\0\0\0\x04C\0\x0e\0\0\0\x020\0\x02\0\0\0y\0\0\0\x033\0\x16\0\0\0\x03D\0\x0e\0\0\0\x02f\0\x02\0\0\0z\0\0\0\0\
    \x0au\0\
    \x03d\0\x05\0\0\0\0\
    \x04r\0\x05\0\0\0\0\
    \x13v\0\x01\x02\x03\x04\x05\x06\x07\x08\x09\x0a\x0b\x0c\x0d\x0e\x0f\x10\
    \0";

/// An owned copy of a datum.
fn owned<'x>(alloc: Global, datum: &Datum<'_>) -> Result<Datum<'x>, AllocError> {
    datum.try_clone(alloc)?.into_owned(alloc)
}

/// Adds what a call gives, and drops it.
pub fn add_given<T: Debug + Drop>(lines: &mut Lines, name: &str, given: T) {
    lines.debug(name, &given);
}

/// An owned copy of a document in its bytes.
fn owned_document<'x>(alloc: Global, document: &RawDoc<'_>) -> Result<RawDoc<'x>, AllocError> {
    document.try_clone(alloc)?.into_owned(alloc)
}

/// An owned copy of an array in its bytes.
fn owned_array<'x>(alloc: Global, array: &RawArr<'_>) -> Result<RawArr<'x>, AllocError> {
    array.try_clone(alloc)?.into_owned(alloc)
}

/// Adds the document in its bytes that the field `d` of a datum is, as an owned copy.
fn add_raw_document(lines: &mut Lines, alloc: Global, datum: &Datum<'_>) {
    if let Some(Datum::RawDocument(document)) = datum.field("d") {
        lines.made("owned", owned_document(alloc, document));
    }
}

/// Adds the array in its bytes that the field `r` of a datum is, as an owned copy.
fn add_raw_array(lines: &mut Lines, alloc: Global, datum: &Datum<'_>) {
    if let Some(Datum::RawArray(array)) = datum.field("r") {
        lines.made("owned", owned_array(alloc, array));
    }
}

/// Adds a datum, its copy and its owned copy, and owned copies of two parts.
fn add_copies(lines: &mut Lines, alloc: Global, datum: Datum<'_>) {
    lines.debug("read", &datum);
    add_given(lines, "copy", datum.try_clone(alloc));
    add_given(lines, "owned", owned(alloc, &datum));
    add_raw_document(lines, alloc, &datum);
    add_raw_array(lines, alloc, &datum);
    drop(datum);
}

/// Adds what a document is read as at a shape, and its copies.
fn add_read(lines: &mut Lines, alloc: Global, shape: &Shape, bytes: &[u8]) {
    match from_slice_at(alloc, shape, bytes) {
        Ok(datum) => add_copies(lines, alloc, datum),
        Err(error) => lines.text("not read", &error),
    }
}

/// A value with two forms.
fn mode<'x>(alloc: Global) -> Result<Datum<'x>, AllocError> {
    let readable = boxed(alloc, Datum::Bool(true))?;
    let compact = boxed(alloc, Datum::Unit)?;
    Ok(Datum::Mode { readable, compact })
}

/// Adds a value with two forms, and its copies.
fn add_mode(lines: &mut Lines, alloc: Global) {
    match mode(alloc) {
        Ok(datum) => add_copies(lines, alloc, datum),
        Err(error) => lines.text("no value", &error),
    }
}

/// Why a document without elements is refused at a shape, if it is.
fn refusal(alloc: Global, shape: &Shape) -> Option<RecastError> {
    recast(alloc, shape, b"\x05\0\0\0\0").err()
}

/// Adds what is read at the shape of each form.
fn add_forms(lines: &mut Lines, alloc: Global) {
    match Shape::parse(alloc, SHAPE) {
        Ok(shape) => add_read(lines, alloc, &shape, FORMS),
        Err(error) => lines.text("no shape", &error),
    }
}

/// Adds the refusal of a document at a sequence.
fn add_refusal(lines: &mut Lines, alloc: Global) {
    match Shape::parse(alloc, "[bool]") {
        Ok(shape) => lines.debug("refusal", &refusal(alloc, &shape)),
        Err(error) => lines.text("no shape", &error),
    }
}

/// A document that is read, a value with two forms, and a document that is refused.
pub fn add_documents(lines: &mut Lines, alloc: Global) {
    add_forms(lines, alloc);
    add_mode(lines, alloc);
    add_refusal(lines, alloc);
}
