ghost use Rattle.std.specs.Prelude.{◌≡◌, true, IfOk};
ghost use Rattle.bson_rawdoc.specs.Node as node;
ghost use Rattle.bson_kinds.specs.Piece.{borrowed};
ghost use Rattle.bson_values.specs.Pieces.{bytes_piece};
ghost use Rattle.bson_laws.specs.Taken.{borrow, owned_under_mark};
ghost use Rattle.bson_met.specs.Gives.{Reaches};
ghost use Rattle.bson_met.specs.PieceView.{met_bytes};

use crate::reading::{Reading, refused};
use bson_values::{ByteStr, Cause};
use std::alloc::{AllocError, Global};

/// A byte string that a reader meets.
#[derive(Clone, Copy)]
pub struct MetBytes<'de> {
    /// The bytes.
    pub bytes: &'de [u8],
    /// Whether they are in the input, so that they can be borrowed.
    pub in_input: bool,
    /// Whether texts are mended there: then only a byte string is borrowed.
    pub under_mark: bool,
}

impl<'de> MetBytes<'de> {
    /// The bytes, borrowed where they are in the input and no text is mended.
    ///
    /// # Errors
    ///
    /// Memory ran out.
    #[inline(always)]
    pub fn to_byte_str(self, alloc: Global) -> Result<ByteStr<'de>, AllocError>
        ensures piece { IfOk result (λ b. bytes_piece b ≡ owned_under_mark self.entry.under_mark (met_bytes self.entry)) }
    {
        if self.in_input && !self.under_mark {
            return Ok(ByteStr::Borrowed(self.bytes));
        }
        Ok(ByteStr::Owned(self.bytes.to_vec(alloc)?))
    }

    /// The bytes, borrowed where they are in the input: a byte string is, also where texts are mended.
    ///
    /// # Errors
    ///
    /// Memory ran out.
    #[inline(always)]
    pub fn borrow_or_copy(self, alloc: Global) -> Result<ByteStr<'de>, AllocError>
        ensures piece { IfOk result (λ b. bytes_piece b ≡ met_bytes self.entry) }
    {
        if self.in_input {
            return Ok(ByteStr::Borrowed(self.bytes));
        }
        Ok(ByteStr::Owned(self.bytes.to_vec(alloc)?))
    }

    /// The bytes, which are not borrowed where texts are mended.
    #[inline(always)]
    pub fn owned_under_mark(self) -> MetBytes<'de>
        ensures owned_under_mark { met_bytes result ≡ owned_under_mark self.entry.under_mark (met_bytes self.entry) }
    {
        MetBytes {
            bytes: self.bytes,
            in_input: self.in_input && !self.under_mark,
            under_mark: false,
        }
    }

    /// The same bytes, where texts are mended.
    pub(crate) fn mended(self) -> MetBytes<'de>
        ensures mended { node.bytes result.under_mark (met_bytes result) ≡ node.bytes true (met_bytes self.entry) }
    {
        MetBytes {
            bytes: self.bytes,
            in_input: self.in_input,
            under_mark: true,
        }
    }

    /// The bytes, where they can be borrowed.
    #[inline(always)]
    pub fn borrow(self, alloc: Global) -> Reading<&'de [u8]>
        ensures borrowed { Reaches (λ b. borrowed b.now) result (borrow (met_bytes self.entry)) }
    {
        if self.in_input {
            return Ok(self.bytes);
        }
        Err(refused(alloc, Cause::NotBorrowed))
    }
}
