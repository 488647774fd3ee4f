ghost use Rattle.std.specs.Prelude.{◌≡◌, ◌<◌, ◌^◌, Ok};
ghost use Rattle.bson_kinds.specs.Outcome.{result_map};
ghost use Rattle.bson_rawdoc.specs.Envelope.{envelope};
ghost use Rattle.bson_rawdoc.specs.Next.{count};
ghost use Rattle.bson_rawdoc.specs.Walk.{walk};

use crate::iter::RawIter;
use crate::raw::Error;
use crate::reading::{int32_in, is_closed};

/// The bytes of one document, which pass the test of their envelope.
///
/// It borrows the bytes that it was made from. What is inside is looked at when it is asked for.
#[derive(Clone, Copy, Debug)]
pub struct RawDocument<'a> {
    bytes: &'a [u8],
    ghost enveloped: { envelope bytes.now ≡ Ok bytes.now },
}

impl<'a> RawDocument<'a> {
    ghost use Rattle.bson_rawdoc.specs.DocumentView.{document_bytes};

    /// A document from its bytes, without a copy.
    ///
    /// # Errors
    ///
    /// The first of these that holds: `TooShort` under five bytes, `LengthDiffers` where the length that the first four
    /// bytes announce is not their count, `NoTerminator` where the last byte is not zero.
    pub fn from_bytes(bytes: &'a [u8]) -> Result<RawDocument<'a>, Error>
        ensures envelope { result_map document_bytes result ≡ envelope bytes.now }
    {
        if bytes.len() < 5 {
            return Err(Error::TooShort);
        }
        if i64::from(int32_in(bytes)) != bytes.len() as i64 {
            return Err(Error::LengthDiffers);
        }
        if !is_closed(bytes) {
            return Err(Error::NoTerminator);
        }
        Ok(RawDocument { bytes })
    }

    /// The bytes of the document, from its length to its last byte.
    pub fn as_bytes(self) -> &'a [u8]
        ensures bytes { result.now ≡ document_bytes self.entry }
    {
        self.bytes
    }

    /// The elements of the document, one after another.
    pub fn iter_elements(self) -> RawIter<'a>
        ensures walk { result ≡ walk (document_bytes self.entry) }
        // A document has fewer elements than it may have bytes.
        ensures few { count result < 2 ^ 31 }
    {
        RawIter::over(self.bytes)
    }
}
