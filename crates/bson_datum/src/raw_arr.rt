ghost use Rattle.std.specs.Prelude.{◌≡◌, Ok};
ghost use Rattle.bson_rawdoc.specs.DocumentView.{array_bytes};
ghost use Rattle.bson_rawdoc.specs.Envelope.{envelope};
ghost use Rattle.bson_datum.specs.RawView.{raw_array_view};

use bson_rawdoc::{RawArray, RawArrayBuf};

/// An array in its bytes, borrowed or owned.
#[derive(Debug, Drop)]
pub enum RawArr<'a> {
    /// Borrowed, by the input or by the value that is written.
    Borrowed(RawArray<'a>),
    /// Owned.
    Owned(RawArrayBuf),
}

impl RawArr<'_> {
    /// The array, whoever owns its bytes.
    pub fn as_array(&self) -> RawArray<'_>
        ensures bytes { array_bytes result ≡ raw_array_view self.now }
    {
        match self {
            RawArr::Borrowed(array) => *array,
            RawArr::Owned(array) => array.as_array(),
        }
    }

    /// The bytes of the array, whoever owns them.
    pub fn as_bytes(&self) -> &[u8]
        ensures bytes { result.now ≡ raw_array_view self.now }
        ensures enveloped { envelope result.now ≡ Ok result.now }
    {
        self.as_array().as_bytes()
    }
}
