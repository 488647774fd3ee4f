// The shape of a file of documents.
ghost use Rattle.std.specs.Prelude.{◌≡◌, ◌+◌, None, IfOk, IfErr};
ghost use Rattle.bson_rawdoc.specs.Cut.{cut};
ghost use Rattle.bson_infer_run.specs.Files.{inferring_of, piece_pairs, Gathers, IsAllGathered, IsInferring, IsRead};

use crate::add::add_document;
use crate::covered::is_covered;
use crate::shape::shape_of;
use crate::sound::is_sound;
use crate::summary::Summary;
use bson_base::Document;
use bson_rawdoc::{RawDocument, RawDocuments, raw};
use bson_shape::Shape;
use std::alloc::Global;

/// Why no shape is inferred from a file.
#[derive(Drop)]
pub(crate) enum FileError {
    /// At this place of the file no document begins.
    Broken(usize),
    /// The document of this number, counted from 0, is the first with a fault in its bytes, and this is the first one.
    Faulty(u64, raw::Error),
    /// No document has a fault, and that of this number is the first that is not sound.
    NotSound(u64),
    /// Memory ran out.
    NoMemory,
}

// Why bytes are not read as a document.
#[derive(Drop)]
enum ReadError {
    Raw(raw::Error),
    NoMemory,
}

// What is known of the documents so far.
#[derive(Drop)]
struct Gathered {
    // How many there were.
    number: u64,
    // The first that is not sound.
    unsound: Option<u64>,
    // What they have in common, where all are sound.
    summary: Summary,
}

/// The shape of the documents of a file, which has them one behind another. One document at a time is held.
///
/// # Errors
///
/// The first of these that holds: `Broken` where the file cannot be cut into documents, `Faulty` where a document has a fault, `NotSound` where one is not sound. `NoMemory` where
/// memory ran out.
pub(crate) fn infer_file(alloc: Global, file: &[u8]) -> Result<Shape, FileError>
    ensures { IsInferring (inferring_of file.now) result }
{
    if let Some(place) = break_of(file) {
        return Err(FileError::Broken(place));
    }
    let gathered = gather(alloc, file)?;
    if let Some(number) = gathered.unsound {
        return Err(FileError::NotSound(number));
    }
    match shape_of(alloc, &gathered.summary) {
        Ok(shape) => Ok(shape),
        Err(_) => Err(FileError::NoMemory),
    }
}

// The place where a file is broken.
fn break_of(file: &[u8]) -> Option<usize>
    ensures { result ≡ (cut file.now).broken }
{
    for piece in RawDocuments::new(file) {
        if let Err(place) = piece {
            return Some(place);
        }
    }
    None
}

// What is known of all documents of a file.
fn gather(alloc: Global, file: &[u8]) -> Result<Gathered, FileError>
    requires { (cut file.now).broken ≡ None }
    ensures { IsAllGathered (cut file.now).pieces result }
{
    let mut so_far = Gathered {
        number: 0,
        unsound: None,
        summary: Summary::nothing(),
    };
    for piece in RawDocuments::new(file) {
        match piece {
            Ok(bytes) => so_far = with_next(alloc, bytes, so_far)?,
            Err(_) => unreachable!(),
        }
    }
    Ok(so_far)
}

// One more document: where it adds nothing, no tree is made of it.
fn with_next(alloc: Global, bytes: &[u8], so_far: Gathered) -> Result<Gathered, FileError>
    ensures { Gathers so_far (piece_pairs bytes.now) result }
{
    if so_far.unsound.is_none() && is_covered(bytes, &so_far.summary) {
        return with_covered(so_far);
    }
    with_piece(alloc, bytes, so_far)
}

// One more document, which adds nothing.
fn with_covered(so_far: Gathered) -> Result<Gathered, FileError>
    ensures number { IfOk result (λ g. g.number ≡ so_far.number + 1) }
    ensures unsound { IfOk result (λ g. g.unsound ≡ so_far.unsound) }
    ensures summary { IfOk result (λ g. g.summary ≡ so_far.summary) }
    ensures memory { IfErr result (λ e. e ≡ FileError.NoMemory) }
{
    let Gathered {
        number,
        unsound,
        summary,
    } = so_far;
    let Some(number) = number.checked_add(1) else {
        return Err(FileError::NoMemory);
    };
    Ok(Gathered {
        number,
        unsound,
        summary,
    })
}

// One more document, which is made a tree.
fn with_piece(alloc: Global, bytes: &[u8], so_far: Gathered) -> Result<Gathered, FileError>
    ensures { Gathers so_far (piece_pairs bytes.now) result }
{
    let Gathered {
        number,
        unsound,
        summary,
    } = so_far;
    let document = match document_of(alloc, bytes) {
        Ok(document) => document,
        Err(ReadError::Raw(error)) => return Err(FileError::Faulty(number, error)),
        Err(ReadError::NoMemory) => return Err(FileError::NoMemory),
    };
    let Some(next) = number.checked_add(1) else {
        return Err(FileError::NoMemory);
    };
    if unsound.is_some() {
        return Ok(Gathered {
            number: next,
            unsound,
            summary,
        });
    }
    if !is_sound(&document) {
        return Ok(Gathered {
            number: next,
            unsound: Some(number),
            summary,
        });
    }
    let Ok(summary) = add_document(alloc, &document, summary) else {
        return Err(FileError::NoMemory);
    };
    Ok(Gathered {
        number: next,
        unsound: None,
        summary,
    })
}

// The document that bytes are.
fn document_of(alloc: Global, bytes: &[u8]) -> Result<Document, ReadError>
    ensures { IsRead (piece_pairs bytes.now) result }
{
    let document = match RawDocument::from_bytes(bytes) {
        Ok(document) => document,
        Err(error) => return Err(ReadError::Raw(error)),
    };
    match document.to_document(alloc) {
        Ok(document) => Ok(document),
        Err(raw::Error::NoMemory) => Err(ReadError::NoMemory),
        Err(error) => Err(ReadError::Raw(error)),
    }
}
