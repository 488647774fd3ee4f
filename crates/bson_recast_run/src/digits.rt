// Bytes as hexadecimal digits.
ghost use Rattle.std.specs.Prelude.{◌≡◌, IfOk, option_map};
ghost use Rattle.bson_kinds.specs.Text.{AreBytes};
ghost use Rattle.bson_recast_run.specs.Digits.{bytes_of_digits, digits_line, is_blank, shown};

use hex::FromHexError;
use std::alloc::{AllocError, Global};

// Whether a byte may stand between digits.
fn is_blank(byte: u8) -> bool
    ensures { result ≡ is_blank byte }
{
    matches!(byte, b' ' | b'\t' | b'\r' | b'\n')
}

/// The bytes that a text of hexadecimal digits stands for, where blanks do not count; `None` where it is not an even number of digits.
///
/// # Errors
///
/// Memory ran out.
pub(crate) fn bytes_of_digits(
    alloc: Global,
    mut text: Vec<u8>,
) -> Result<Option<Vec<u8>>, AllocError>
    ensures { IfOk result (λ o. option_map (λ v. v.items) o ≡ bytes_of_digits text.items) }
{
    text.retain(|byte| !is_blank(*byte));
    match hex::decode(alloc, text) {
        Ok(bytes) => Ok(Some(bytes)),
        Err(error) => match error {
            FromHexError::OutOfMemory => Err(AllocError),
            FromHexError::InvalidHexCharacter { .. }
            | FromHexError::OddLength
            | FromHexError::InvalidStringLength => Ok(None),
        },
    }
}

// The lower-case digits of bytes, and a line feed.
fn digits_line(alloc: Global, bytes: &[u8]) -> Result<Vec<u8>, AllocError>
    ensures { IfOk result (λ v. v.items ≡ digits_line bytes.now) }
{
    let mut line = hex::encode(alloc, bytes)?;
    line.push_str("\n")?;
    Ok(line.into_bytes())
}

// The items of a slice of bytes are bytes.
fn known(bytes: &[u8])
    ensures { AreBytes bytes.now }
{}

/// A document as it is written: in its bytes, or in digits.
///
/// # Errors
///
/// Memory ran out.
pub(crate) fn shown(alloc: Global, hex: bool, document: Vec<u8>) -> Result<Vec<u8>, AllocError>
    ensures shown { IfOk result (λ v. v.items ≡ shown hex document.items) }
    ensures are_bytes { AreBytes document.items }
{
    known(&document);
    if hex {
        return digits_line(alloc, &document);
    }
    Ok(document)
}
