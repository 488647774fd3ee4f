ghost use Rattle.std.specs.Prelude.{if◌then◌else◌, ◌≡◌, true, string_bytes, IfOk};
ghost use Rattle.std.specs.Str.{is_utf8};
ghost use Rattle.bson_rawdoc.specs.Node.{mended_text};
ghost use Rattle.bson_kinds.specs.Piece.{borrowed, made};
ghost use Rattle.bson_values.specs.Pieces.{text_piece};
ghost use Rattle.bson_laws.specs.Taken.{borrow};
ghost use Rattle.bson_met.specs.Gives.{Reaches};
ghost use Rattle.bson_met.specs.PieceView.{str_piece, met_text};

use crate::bytes::MetBytes;
use crate::reading::{Reading, refused};
use bson_base::{BinarySubtype, DateTime, ObjectId, base64_text, digits, number_text};
use bson_values::{Cause, Text};
use std::alloc::{AllocError, Global};

/// A text that is whole somewhere, as a key is.
#[derive(Clone, Copy)]
pub struct MetStr<'de> {
    /// The text.
    pub text: &'de str,
    /// Whether it is in the input, so that it can be borrowed.
    pub in_input: bool,
}

impl<'de> MetStr<'de> {
    /// A text of the input.
    #[inline(always)]
    pub(crate) fn input(text: &'de str) -> MetStr<'de>
        ensures piece { str_piece result ≡ borrowed text.now }
    {
        MetStr {
            text,
            in_input: true,
        }
    }

    /// A key of the input, which is not borrowed where texts are mended.
    #[inline(always)]
    pub(crate) fn key(mends: bool, text: &'de str) -> MetStr<'de>
        ensures piece { str_piece result ≡ (if mends then made text.now else borrowed text.now) }
    {
        MetStr {
            text,
            in_input: !mends,
        }
    }

    /// A text that is not in the input.
    #[inline(always)]
    pub(crate) fn elsewhere(text: &'de str) -> MetStr<'de>
        ensures piece { str_piece result ≡ made text.now }
    {
        MetStr {
            text,
            in_input: false,
        }
    }

    /// The text, borrowed where it is in the input.
    ///
    /// # Errors
    ///
    /// Memory ran out.
    #[inline(always)]
    pub fn to_text(self, alloc: Global) -> Result<Text<'de>, AllocError>
        ensures piece { IfOk result (λ t. text_piece t ≡ str_piece self.entry) }
    {
        if self.in_input {
            return Ok(Text::Borrowed(self.text));
        }
        Ok(Text::Owned(String::from_str(alloc, self.text)?))
    }

    /// The text, where it can be borrowed.
    #[inline(always)]
    pub fn borrow(self, alloc: Global) -> Reading<&'de str>
        ensures borrowed { Reaches (λ t. borrowed t.now) result (borrow (str_piece self.entry)) }
    {
        if self.in_input {
            return Ok(self.text);
        }
        Err(refused(alloc, Cause::NotBorrowed))
    }
}

/// A text that a reader meets as a value.
#[derive(Clone, Copy)]
pub enum MetText<'de> {
    /// It is whole somewhere.
    Whole(MetStr<'de>),
    /// The hexadecimal digits of these bytes.
    Digits(MetBytes<'de>),
    /// The hexadecimal digits of an ObjectId.
    Id(ObjectId),
    /// The hexadecimal digits of this byte.
    Subtype(BinarySubtype),
    /// The base64 text of these bytes.
    Base64(MetBytes<'de>),
    /// The decimal digits of these milliseconds.
    Number(DateTime),
    /// These bytes, where U+FFFD stands for each ill-formed sequence.
    Mended(&'de [u8]),
}

impl<'de> MetText<'de> {
    /// The text, borrowed from the input where it is there. A text that no bytes hold is made.
    ///
    /// # Errors
    ///
    /// Memory ran out.
    #[inline(always)]
    pub fn to_text(self, alloc: Global) -> Result<Text<'de>, AllocError>
        ensures piece { IfOk result (λ t. text_piece t ≡ met_text self.entry) }
    {
        if let MetText::Whole(text) = self {
            return text.to_text(alloc);
        }
        Ok(Text::Owned(self.make(alloc)?))
    }

    /// A copy of the text.
    ///
    /// # Errors
    ///
    /// Memory ran out.
    #[inline(always)]
    pub fn to_string(self, alloc: Global) -> Result<String, AllocError>
        ensures text { IfOk result (λ s. string_bytes s ≡ (met_text self.entry).bytes) }
    {
        if let MetText::Whole(text) = self {
            return String::from_str(alloc, text.text);
        }
        self.make(alloc)
    }

    /// The text, where it can be borrowed from the input.
    #[inline(always)]
    pub fn borrow(self, alloc: Global) -> Reading<&'de str>
        ensures borrowed { Reaches (λ t. borrowed t.now) result (borrow (met_text self.entry)) }
    {
        match self {
            MetText::Whole(text) => text.borrow(alloc),
            MetText::Digits(_)
            | MetText::Id(_)
            | MetText::Subtype(_)
            | MetText::Base64(_)
            | MetText::Number(_)
            | MetText::Mended(_) => Err(refused(alloc, Cause::NotBorrowed)),
        }
    }

    // The text in memory of its own.
    #[inline(never)]
    fn make(self, alloc: Global) -> Result<String, AllocError>
        ensures text { IfOk result (λ s. string_bytes s ≡ (met_text self.entry).bytes) }
    {
        match self {
            MetText::Whole(text) => String::from_str(alloc, text.text),
            MetText::Digits(bytes) => digits(alloc, bytes.bytes),
            MetText::Id(id) => digits(alloc, &id.0),
            MetText::Subtype(subtype) => digits(alloc, &[subtype.0]),
            MetText::Base64(bytes) => base64_text(alloc, bytes.bytes),
            MetText::Number(time) => number_text(alloc, time.timestamp_millis()),
            MetText::Mended(bytes) => String::from_utf8_lossy(alloc, bytes),
        }
    }

    // The same text, which is not borrowed. It is a text, so that nothing in it is replaced.
    #[tactic(auto, using(bson_laws::proofs::MendedTexts::whole_mended))]
    #[inline(always)]
    pub(crate) fn mended(self) -> MetText<'de>
        ensures { met_text result ≡ mended_text (met_text self.entry) }
    {
        self.known();
        match self {
            MetText::Whole(text) => MetText::Whole(MetStr::elsewhere(text.text)),
            other => other,
        }
    }

    // It is a text.
    #[tactic(auto, using(bson_base::proofs::MadeTexts::digits_are_text, bson_base::proofs::MadeTexts::base64_is_text, bson_base::proofs::MadeTexts::number_is_text, bson_laws::proofs::MendedTexts::mended_whole))]
    #[inline(always)]
    pub(crate) fn known(self)
        ensures text { is_utf8 (met_text self.entry).bytes ≡ true }
    {
        match self {
            MetText::Whole(text) => known(text.text),
            MetText::Digits(_)
            | MetText::Id(_)
            | MetText::Subtype(_)
            | MetText::Base64(_)
            | MetText::Mended(_) => {}
            MetText::Number(time) => {
                let _milliseconds = time.timestamp_millis();
            }
        }
    }
}

// A text is UTF-8.
#[inline(always)]
pub(crate) fn known(text: &str)
    ensures { is_utf8 text.now ≡ true }
{}
