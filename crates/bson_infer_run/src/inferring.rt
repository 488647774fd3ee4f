ghost use Rattle.std.specs.Prelude.{◌≡◌, IfOk, MatchOption};
ghost use Rattle.bson_infer_laws.specs.Inferred.{inferred};
ghost use Rattle.bson_infer_run.specs.Infer.{documents_of, AreSound, IsFirstUnsound, Infers};

use crate::add::add_document;
use crate::error::InferError;
use crate::shape::shape_of;
use crate::sound::is_sound;
use crate::summary::Summary;
use bson_base::Document;
use bson_shape::Shape;
use std::alloc::{AllocError, Global};

/// The shape of documents: that which has a view of each of them, by the join of what each value asks for.
///
/// A key that is not in all documents is an option, and so is one that is null in some and not in all. Integers of 32 and 64 bits are `i64` together, and other
/// unlike values `bson`. An array is a sequence of what its items have in common, of no item `<>`; so are no documents. The shape has the fields in the order
/// in which their keys came.
///
/// # Errors
///
/// `NotSound` with the number of the first document that is not sound, which is one with a key that begins with `$` or holds a zero character, with a zero character in a
/// part of a regular expression, with more than 16777216 bytes in a binary (16777212 in the old subtype 2), of more than 200 levels or of more than 2147483647 bytes;
/// `NoMemory` where all are sound and memory runs out.
pub fn infer(alloc: Global, documents: &[Document]) -> Result<Shape, InferError>
    ensures exact { Infers result (documents_of documents.now) }
{
    if let Some(number) = first_unsound(documents) {
        return Err(InferError::NotSound(number));
    }
    let Ok(summary) = summary_of(alloc, documents) else {
        return Err(InferError::NoMemory);
    };
    match shape_of(alloc, &summary) {
        Ok(shape) => Ok(shape),
        Err(_) => Err(InferError::NoMemory),
    }
}

// The number of the first document that is not sound.
fn first_unsound(documents: &[Document]) -> Option<usize>
    ensures { MatchOption result (AreSound (documents_of documents.now)) (λ i. IsFirstUnsound i (documents_of documents.now)) }
{
    for (i, document) in documents.iter().enumerate() {
        if !is_sound(document) {
            return Some(i);
        }
    }
    None
}

// What sound documents have in common.
fn summary_of(alloc: Global, documents: &[Document]) -> Result<Summary, AllocError>
    requires { AreSound (documents_of documents.now) }
    ensures { IfOk result (λ s. s ≡ inferred (documents_of documents.now)) }
{
    let mut summary = Summary::nothing();
    for document in documents {
        summary = add_document(alloc, document, summary)?;
    }
    Ok(summary)
}
