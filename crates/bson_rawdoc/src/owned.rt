// Documents and arrays that own their bytes.
ghost use Rattle.std.specs.Prelude.{◌≡◌};
ghost use Rattle.bson_kinds.specs.Outcome.{result_map};
ghost use Rattle.bson_rawdoc.specs.DocumentView.{document_bytes, array_bytes};
ghost use Rattle.bson_rawdoc.specs.Envelope.{envelope};

use crate::array::RawArray;
use crate::document::RawDocument;
use crate::raw::Error;
use std::marker::Model;

/// The bytes of one document, which pass the test of their envelope, owned. Contracts see it as these bytes.
#[derive(Debug, Drop)]
pub struct RawDocumentBuf {
    bytes: Vec<u8>,
}

impl Model for RawDocumentBuf {
    ghost use Rattle.std.specs.Prelude.{◌≡◌, Ok};
    ghost use Rattle.std.specs.Coded.{coded_list, coded_ℕ};
    ghost use Rattle.bson_kinds.specs.Text.{Bytes};
    ghost use Rattle.bson_rawdoc.specs.Envelope.{envelope};

    ghost Value = { Bytes };

    ghost coded = { coded_list coded_ℕ };

    ghost view = { λ d. d.bytes.items };

    ghost invariant = { λ d. envelope d.bytes.items ≡ Ok d.bytes.items };
}

impl RawDocumentBuf {
    /// A document from its bytes. It takes no memory.
    ///
    /// # Errors
    ///
    /// Those of `RawDocument::from_bytes`.
    pub fn from_bytes(bytes: Vec<u8>) -> Result<RawDocumentBuf, Error>
        ensures envelope { result ≡ envelope bytes.items }
    {
        match RawDocument::from_bytes(&bytes) {
            Ok(_) => Ok(RawDocumentBuf { bytes }),
            Err(fault) => Err(fault),
        }
    }

    /// The document, borrowed.
    pub fn as_document(&self) -> RawDocument<'_>
        ensures bytes { document_bytes result ≡ self.now }
    {
        match RawDocument::from_bytes(&self.bytes) {
            Ok(document) => document,
            Err(_) => unreachable!(),
        }
    }

    /// The bytes of the document.
    pub fn into_bytes(self) -> Vec<u8>
        ensures bytes { result.items ≡ self }
    {
        let RawDocumentBuf { bytes } = self;
        bytes
    }
}

/// The bytes of one array, which pass the test of their envelope, owned.
#[derive(Debug, Drop)]
pub struct RawArrayBuf {
    document: RawDocumentBuf,
}

impl RawArrayBuf {
    /// The array whose elements are those of the document, in order. Their keys are not looked at.
    pub fn from_document(document: RawDocumentBuf) -> RawArrayBuf
        ensures bytes { result.document ≡ document }
    {
        RawArrayBuf { document }
    }

    /// The array, borrowed.
    pub fn as_array(&self) -> RawArray<'_>
        ensures bytes { array_bytes result ≡ self.now.document }
    {
        RawArray {
            document: self.document.as_document(),
        }
    }
}
