// Texts and keys among bytes. Most are short and ASCII, so that is tested first; the test for other characters is separate.
ghost use Rattle.std.specs.Prelude.{◌≡◌, ◌+◌, ◌<◌, ℕ, Some, Err, length, take, drop, IsTrue, IfOk, IfErr};
ghost use Rattle.std.specs.Str.{IsAscii, IsUtf8, is_utf8};
ghost use Rattle.bson_rawdoc.specs.Extent.{cut_at_zero};
ghost use Rattle.bson_rawdoc.specs.Walk.{element_at};

use crate::raw::Error;
use crate::reading::cut_at_zero;

// Texts of up to so many bytes are tested for ASCII first.
const SHORT: usize = 16;

/// Whether these bytes are UTF-8.
#[inline(always)]
pub fn is_utf8(bytes: &[u8]) -> bool
    ensures { result ≡ is_utf8 bytes.now }
{
    if bytes.len() <= SHORT && is_ascii(bytes) {
        return true;
    }
    is_utf8_of_any_length(bytes)
}

// Whether these bytes are ASCII.
fn is_ascii(bytes: &[u8]) -> bool
    ensures { IsTrue result → IsAscii bytes.now }
{
    for b in bytes {
        if *b >= 128 {
            return false;
        }
    }
    true
}

// `is_utf8`, without the test for short texts.
#[inline(never)]
fn is_utf8_of_any_length(bytes: &[u8]) -> bool
    ensures { result ≡ is_utf8 bytes.now }
{
    simdutf8::basic::from_utf8(bytes).is_ok()
}

/// How many bytes the key takes that begins these bytes, without the zero behind it.
///
/// # Errors
///
/// `KeyUnclosed` where no byte is zero, then `KeyNotUtf8` where the bytes before the first zero are not UTF-8.
// One pass looks for the zero and for characters beyond ASCII.
#[inline(always)]
pub fn key_len(bytes: &[u8]) -> Result<usize, Error>
    ensures within { IfOk result (λ n. n < length bytes.now) }
    ensures cut { IfOk result (λ n. cut_at_zero bytes.now ≡ Some (take n bytes.now, drop (n + 1) bytes.now)) }
    ensures utf8 { IfOk result (λ n. IsUtf8 (take n bytes.now)) }
    ensures fault { IfErr result (λ e. (kind : ℕ) → element_at kind bytes.now ≡ Err e) }
{
    for (i, b) in bytes.iter().enumerate() {
        if *b == 0 {
            return Ok(i);
        }
        if *b >= 128 {
            return key_len_beyond_ascii(bytes);
        }
    }
    Err(Error::KeyUnclosed)
}

// `key_len`, for a key of any characters.
#[inline(never)]
fn key_len_beyond_ascii(bytes: &[u8]) -> Result<usize, Error>
    ensures within { IfOk result (λ n. n < length bytes.now) }
    ensures cut { IfOk result (λ n. cut_at_zero bytes.now ≡ Some (take n bytes.now, drop (n + 1) bytes.now)) }
    ensures utf8 { IfOk result (λ n. IsUtf8 (take n bytes.now)) }
    ensures fault { IfErr result (λ e. (kind : ℕ) → element_at kind bytes.now ≡ Err e) }
{
    let Some((key, _)) = cut_at_zero(bytes) else {
        return Err(Error::KeyUnclosed);
    };
    if !is_utf8_of_any_length(key) {
        return Err(Error::KeyNotUtf8);
    }
    Ok(key.len())
}
