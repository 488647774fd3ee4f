//! Reads a document on standard input at a shape and writes it anew, over bytes or over trees in memory, as far as its first word says. It prints nothing:
//! `bench/halves.py` counts what each step costs.
#![tactic(auto)]

use bson_base::Document;
use bson_de_raw::from_slice_at;
use bson_de_tree::from_document_at;
use bson_rawdoc::RawDocument;
use bson_ser_stream::to_vec_at;
use bson_ser_tree::to_document_at;
use bson_shape::Shape;
use std::alloc::Global;
use std::env;
use std::io::Read;
use std::process::ExitCode;

/// Whether a step was taken; what it made is dropped.
fn is_taken<T: Drop, E: Drop>(made: Result<T, E>) -> bool {
    made.is_ok()
}

/// Reads bytes at a shape, and writes what was read to bytes.
fn over_bytes(alloc: Global, shape: &Shape, bytes: &[u8]) -> bool {
    match from_slice_at(alloc, shape, bytes) {
        Ok(value) => {
            let written = to_vec_at(alloc, &value);
            drop(value);
            is_taken(written)
        }
        Err(_) => false,
    }
}

/// The document in memory that bytes are.
fn document(alloc: Global, bytes: &[u8]) -> Option<Document> {
    RawDocument::from_bytes(bytes).ok()?.to_document(alloc).ok()
}

/// Reads a document in memory at a shape.
fn read_tree(alloc: Global, shape: &Shape, bytes: &[u8]) -> bool {
    match document(alloc, bytes) {
        Some(document) => is_taken(from_document_at(alloc, shape, document)),
        None => false,
    }
}

/// Reads a document in memory at a shape, and writes what was read as one.
fn over_tree(alloc: Global, shape: &Shape, document: Document) -> bool {
    match from_document_at(alloc, shape, document) {
        Ok(value) => {
            let written = to_document_at(alloc, &value);
            drop(value);
            is_taken(written)
        }
        Err(_) => false,
    }
}

/// Reads the document in memory that bytes are at a shape, and writes what was read as one.
fn over_trees(alloc: Global, shape: &Shape, bytes: &[u8]) -> bool {
    match document(alloc, bytes) {
        Some(document) => over_tree(alloc, shape, document),
        None => false,
    }
}

/// Takes the step of this name and all that come before it; returns whether none was refused. Any other word is no step.
fn run(alloc: Global, step: &str, shape: &Shape, bytes: &[u8]) -> bool {
    match step {
        "read" => is_taken(from_slice_at(alloc, shape, bytes)),
        "write" => over_bytes(alloc, shape, bytes),
        "document" => document(alloc, bytes).is_some(),
        "read-tree" => read_tree(alloc, shape, bytes),
        "write-tree" => over_trees(alloc, shape, bytes),
        _ => true,
    }
}

/// The bytes of standard input.
fn input(rt: &HostRuntime) -> Option<Vec<u8>> {
    let mut bytes = Vec::new(rt.alloc());
    rt.stdin().read_to_end(&mut bytes).ok()?;
    Some(bytes)
}

/// Takes the step at the shape that a word is.
fn run_at(rt: &HostRuntime, step: &str, shape: &Shape) -> bool {
    match input(rt) {
        Some(bytes) => run(rt.alloc(), step, shape, &bytes),
        None => false,
    }
}

/// Takes the step at the shape that these words are.
fn run_words(rt: &HostRuntime, step: &str, shape: &str) -> bool {
    match Shape::parse(rt.alloc(), shape) {
        Ok(shape) => run_at(rt, step, &shape),
        Err(_) => false,
    }
}

/// The words after the program's name.
fn words(rt: &HostRuntime) -> Option<Vec<String>> {
    let mut words = Vec::new(rt.alloc());
    for word in env::args(rt).ok()?.skip(1) {
        words.push(word).ok()?;
    }
    Some(words)
}

/// Ends with status 0 where the step that the first word names was taken at the shape that the second one is, and else with 1.
fn main(rt: HostRuntime) -> ExitCode {
    match words(&rt).as_deref() {
        Some([step, shape]) if run_words(&rt, step, shape) => ExitCode::from(0),
        _ => ExitCode::from(1),
    }
}
