// Copies of texts and byte strings.
ghost use Rattle.std.specs.Prelude.{◌≡◌, IfOk, false};
ghost use Rattle.bson_values.specs.ByteStrView.{bytes_view};
ghost use Rattle.bson_values.specs.Pieces.{text_borrowed, bytes_borrowed};
ghost use Rattle.bson_values.specs.TextView.{text_view};

use crate::{ByteStr, Text};
use std::alloc::{AllocError, Global};

impl<'a> Text<'a> {
    /// An equal text: borrowed where this one is, else a copy.
    ///
    /// # Errors
    ///
    /// Memory ran out.
    pub fn try_clone(&self, alloc: Global) -> Result<Text<'a>, AllocError>
        ensures equal { IfOk result (λ t. text_view t ≡ text_view self.now) }
        ensures borrowed { IfOk result (λ t. text_borrowed t ≡ text_borrowed self.now) }
    {
        match self {
            Text::Borrowed(text) => Ok(Text::Borrowed(text)),
            Text::Owned(text) => Ok(Text::Owned(String::from_str(alloc, text.as_str())?)),
        }
    }

    /// An equal text that is owned: a copy where this one is borrowed.
    ///
    /// # Errors
    ///
    /// Memory ran out.
    pub fn into_owned<'x>(self, alloc: Global) -> Result<Text<'x>, AllocError>
        ensures equal { IfOk result (λ t. text_view t ≡ text_view self.entry) }
        ensures owned { IfOk result (λ t. text_borrowed t ≡ false) }
    {
        match self {
            Text::Borrowed(text) => Ok(Text::Owned(String::from_str(alloc, text)?)),
            Text::Owned(text) => Ok(Text::Owned(text)),
        }
    }
}

impl<'a> ByteStr<'a> {
    /// An equal byte string: borrowed where this one is, else a copy.
    ///
    /// # Errors
    ///
    /// Memory ran out.
    pub fn try_clone(&self, alloc: Global) -> Result<ByteStr<'a>, AllocError>
        ensures equal { IfOk result (λ b. bytes_view b ≡ bytes_view self.now) }
        ensures borrowed { IfOk result (λ b. bytes_borrowed b ≡ bytes_borrowed self.now) }
    {
        match self {
            ByteStr::Borrowed(bytes) => Ok(ByteStr::Borrowed(bytes)),
            ByteStr::Owned(bytes) => Ok(ByteStr::Owned(bytes.as_slice().to_vec(alloc)?)),
        }
    }

    /// An equal byte string that is owned: a copy where this one is borrowed.
    ///
    /// # Errors
    ///
    /// Memory ran out.
    pub fn into_owned<'x>(self, alloc: Global) -> Result<ByteStr<'x>, AllocError>
        ensures equal { IfOk result (λ b. bytes_view b ≡ bytes_view self.entry) }
        ensures owned { IfOk result (λ b. bytes_borrowed b ≡ false) }
    {
        match self {
            ByteStr::Borrowed(bytes) => Ok(ByteStr::Owned(bytes.to_vec(alloc)?)),
            ByteStr::Owned(bytes) => Ok(ByteStr::Owned(bytes)),
        }
    }
}
