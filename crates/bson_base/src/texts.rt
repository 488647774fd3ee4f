// Texts that are made of bytes and of numbers, and the test of a text for a zero.
ghost use Rattle.std.specs.Prelude.{◌≡◌, string_bytes, IfOk};
ghost use Rattle.bson_base.specs.Made.{digits, number_text, base64_text};
ghost use Rattle.bson_kinds.specs.Text.{has_zero};

use base64::engine::general_purpose::STANDARD;
use std::alloc::{AllocError, Global};

/// Each byte as two lower-case hexadecimal digits.
///
/// # Errors
///
/// Out of memory.
#[tactic(auto, unfolding(crate::specs::Made::digits))]
pub fn digits(alloc: Global, bytes: &[u8]) -> Result<String, AllocError>
    ensures { IfOk result (λ s. string_bytes s ≡ digits bytes.now) }
{
    hex::encode(alloc, bytes)
}

/// The bytes in standard base64 with padding (RFC 4648, section 4).
///
/// # Errors
///
/// Out of memory.
#[tactic(auto, unfolding(crate::specs::Made::base64_text))]
pub fn base64_text(alloc: Global, bytes: &[u8]) -> Result<String, AllocError>
    ensures { IfOk result (λ s. string_bytes s ≡ base64_text bytes.now) }
{
    STANDARD.encode(alloc, bytes)
}

/// A number in decimal digits, with a sign where it is negative.
///
/// # Errors
///
/// Out of memory.
#[tactic(auto, unfolding(crate::specs::Made::number_text))]
pub fn number_text(alloc: Global, number: i64) -> Result<String, AllocError>
    ensures { IfOk result (λ s. string_bytes s ≡ number_text number) }
{
    let mut digits = itoa::Buffer::new();
    String::from_str(alloc, digits.format(number))
}

/// Whether a zero character is in the text, so that it can be no key and no part of a regular expression.
pub fn has_zero(text: &str) -> bool
    ensures { result ≡ has_zero text.now }
{
    let mut rest = text.as_bytes();
    while let [first, others @ ..] = rest {
        if *first == 0 {
            return true;
        }
        rest = others;
    }
    false
}
