ghost use Rattle.std.specs.Prelude.{◌≡◌};
ghost use Rattle.bson_rawdoc.specs.DocumentView.{document_bytes, array_bytes};

use crate::document::RawDocument;

/// The bytes of one array, which pass the test of their envelope.
///
/// An array is a document whose elements are its values, in order. Their keys are not looked at.
///
/// Source: bsonspec.org, version 1.1, `array`.
#[derive(Clone, Copy, Debug)]
pub struct RawArray<'a> {
    pub(crate) document: RawDocument<'a>,
}

impl<'a> RawArray<'a> {
    /// The bytes of the array, from its length to its last byte.
    pub fn as_bytes(self) -> &'a [u8]
        ensures bytes { result.now ≡ array_bytes self.entry }
    {
        self.document.as_bytes()
    }

    /// The document that the array is.
    pub fn as_doc(self) -> RawDocument<'a>
        ensures bytes { document_bytes result ≡ array_bytes self.entry }
    {
        self.document
    }
}
