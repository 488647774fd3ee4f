ghost use Rattle.std.specs.Prelude.{◌≡◌, Ok};
ghost use Rattle.bson_rawdoc.specs.Envelope.{envelope};
ghost use Rattle.bson_datum.specs.RawView.{raw_document_view};
ghost use Rattle.bson_datum.specs.View.{view};
ghost use Rattle.bson_types.specs.Framed.{IsFramed};
ghost use Rattle.bson_types.specs.Typed.{WritesBytes, WritesDocument};

use bson_datum::{Datum, RawDoc};
use bson_rawdoc::RawDocumentBuf;
use bson_ser_stream::to_vec_at;
use bson_traits::Serialize;
use bson_values::ser;
use std::alloc::Global;

/// The bytes of the document that a value is: those of its datum.
///
/// # Errors
///
/// - What the type refuses, without a path of the writer.
/// - Those of [`to_vec_at`] for the datum of the value.
/// - `NoMemory`.
pub fn to_vec<T: Serialize>(alloc: Global, value: &T) -> ser::Result<Vec<u8>>
    ensures bytes { WritesBytes (λ v. v.items) (T.written value.now) result }
{
    match value.to_datum(alloc) {
        Ok(datum) => {
            let bytes = to_vec_at(alloc, &datum);
            drop(datum);
            bytes
        }
        Err(error) => Err(error),
    }
}

/// The document that a value is, as it is in its bytes: those that [`to_vec`] gives.
///
/// # Errors
///
/// Those of [`to_vec`]: its bytes pass the test of their envelope.
pub fn to_raw_document_buf<T: Serialize>(alloc: Global, value: &T) -> ser::Result<RawDocumentBuf>
    ensures bytes { WritesBytes (λ d. d) (T.written value.now) result }
{
    match value.to_datum(alloc) {
        Ok(datum) => {
            let document = document_of(alloc, &datum);
            drop(datum);
            document
        }
        Err(error) => Err(error),
    }
}

// The document that a datum is, as it is in its bytes.
fn document_of(alloc: Global, datum: &Datum<'_>) -> ser::Result<RawDocumentBuf>
    ensures { WritesDocument (λ d. d) (view datum.now) result }
{
    known_framed(datum);
    match to_vec_at(alloc, datum) {
        Ok(bytes) => Ok(framed(bytes)),
        Err(error) => Err(error),
    }
}

// A datum that is given by the bytes of a document is given by those of a whole one.
fn known_framed(datum: &Datum<'_>)
    ensures { IsFramed (view datum.now) }
{
    match datum {
        Datum::RawDocument(document) => known_envelope(document),
        Datum::Some(content) => known_framed(content),
        Datum::NewtypeStruct { value, .. } => known_framed(value),
        Datum::Mode { readable, compact } => {
            known_framed(readable);
            known_framed(compact);
        }
        _ => {}
    }
}

// The bytes of a document pass the test of their envelope.
fn known_envelope(document: &RawDoc<'_>)
    ensures { let bytes = raw_document_view document.now in envelope bytes ≡ Ok bytes }
{
    document.as_bytes();
}

// The document of bytes that pass the test of their envelope.
fn framed(bytes: Vec<u8>) -> RawDocumentBuf
    requires { envelope bytes.items ≡ Ok bytes.items }
    ensures { result ≡ bytes.items }
{
    match RawDocumentBuf::from_bytes(bytes) {
        Ok(document) => document,
        Err(_) => unreachable!(),
    }
}
