ghost use Rattle.std.specs.Prelude.{◌≡◌};
ghost use Rattle.bson_values.specs.ByteStrView.{bytes_view};

/// A byte string, borrowed or owned.
#[derive(Debug, Drop)]
pub enum ByteStr<'a> {
    /// Borrowed, by the input or by the value that is written.
    Borrowed(&'a [u8]),
    /// Owned.
    Owned(Vec<u8>),
}

impl ByteStr<'_> {
    /// The bytes, whoever owns them.
    pub fn as_bytes(&self) -> &[u8]
        ensures bytes { result.now ≡ bytes_view self.now }
    {
        match self {
            ByteStr::Borrowed(bytes) => bytes,
            ByteStr::Owned(bytes) => bytes,
        }
    }
}
