// The document at a place of a file.
ghost use Rattle.bson_buffers.specs.Finding.{IsFound};

use bson_rawdoc::RawDocuments;

/// What is at a place of a file of documents.
#[derive(Clone, Copy, Debug, PartialEq, Eq)]
pub enum Found {
    /// A document of so many bytes.
    Document(usize),
    /// No more documents: the file ends at the place, or before it.
    End,
    /// Bytes that begin no document: fewer than four, or with a length of less than five, or of more bytes than are left.
    Broken,
}

/// Looks for the document that begins at a place of a file, which has documents one after another.
///
/// What is inside a document is not looked at. Begun at 0, and after each document at the end of it, it finds the documents that `RawDocuments` cuts the
/// file into.
pub fn document_at(file: &[u8], place: usize) -> Found
    ensures found { IsFound file.now place result }
{
    if place >= file.len() {
        return Found::End;
    }
    match RawDocuments::new(&file[place..]).next() {
        Some(Ok(document)) => Found::Document(document.len()),
        Some(Err(_)) => Found::Broken,
        None => Found::End,
    }
}
