ghost use Rattle.std.specs.Prelude.{◌≡◌, Ok};
ghost use Rattle.bson_rawdoc.specs.DocumentView.{document_bytes};
ghost use Rattle.bson_rawdoc.specs.Envelope.{envelope};
ghost use Rattle.bson_datum.specs.RawView.{raw_document_view};

use bson_rawdoc::{RawDocument, RawDocumentBuf};

/// A document in its bytes, borrowed or owned.
#[derive(Debug, Drop)]
pub enum RawDoc<'a> {
    /// Borrowed, by the input or by the value that is written.
    Borrowed(RawDocument<'a>),
    /// Owned.
    Owned(RawDocumentBuf),
}

impl RawDoc<'_> {
    /// The document, whoever owns its bytes.
    pub fn as_document(&self) -> RawDocument<'_>
        ensures bytes { document_bytes result ≡ raw_document_view self.now }
    {
        match self {
            RawDoc::Borrowed(document) => *document,
            RawDoc::Owned(document) => document.as_document(),
        }
    }

    /// The bytes of the document, whoever owns them.
    pub fn as_bytes(&self) -> &[u8]
        ensures bytes { result.now ≡ raw_document_view self.now }
        ensures enveloped { envelope result.now ≡ Ok result.now }
    {
        self.as_document().as_bytes()
    }
}
