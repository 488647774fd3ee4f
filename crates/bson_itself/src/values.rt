// The bytes of values without others in them.
ghost use Rattle.std.specs.Prelude.{◌≡◌, ◌≤◌, take, length, IfSome, IsTrue};
ghost use Rattle.bson_base.specs.Sorted.{sorted};
ghost use Rattle.bson_kinds.specs.Text.{AreBytes};
ghost use Rattle.bson_itself.specs.Encoded.{IsTextValue, IsBinaryValue, IsBehind, IsExpression, IsPointer, IsTrueOrFalse};

use crate::keys::key;
use crate::untyped::{UntypedLeaf, is_taken_subtype};
use bson_base::{MAX_BINARY, Regex};
use bson_rawdoc::reading::{inside, is_closed, known_bytes, uint32_in};
use bson_rawdoc::utf8::is_utf8;
use std::alloc::Global;

/// How many bytes the text takes that begins these bytes.
#[inline(always)]
pub fn text_len(bytes: &[u8]) -> Option<usize>
    ensures within { IfSome result (λ n. n ≤ length bytes.now) }
    ensures text { IfSome result (λ n. IsTextValue (take n bytes.now)) }
{
    if bytes.len() < 4 {
        return None;
    }
    known_bytes(bytes);
    let count = uint32_in(bytes) as usize;
    if count < 1 || count > bytes.len() - 4 {
        return None;
    }
    let text = &bytes[..count + 4];
    if !is_closed(text) || !is_utf8(inside(text)) {
        return None;
    }
    Some(count + 4)
}

// How many bytes the binary takes that begins these bytes, if the leaf takes it.
#[inline(always)]
pub(crate) fn binary_len(leaf: UntypedLeaf, bytes: &[u8]) -> Option<usize>
    ensures within { IfSome result (λ n. n ≤ length bytes.now) }
    ensures binary { IfSome result (λ n. IsBinaryValue leaf (take n bytes.now)) }
{
    if bytes.len() < 5 {
        return None;
    }
    known_bytes(bytes);
    let count = uint32_in(bytes) as usize;
    if count > bytes.len() - 5 || count > MAX_BINARY || !is_taken_subtype(leaf, bytes[4]) {
        return None;
    }
    let (binary, _) = bytes.split_at(count + 5);
    let (_, behind) = binary.split_at(5);
    if !is_behind(bytes[4], behind) {
        return None;
    }
    Some(count + 5)
}

// Whether these bytes may be behind a subtype: in the old subtype 2 their first four are a second length.
#[inline(always)]
fn is_behind(subtype: u8, bytes: &[u8]) -> bool
    ensures { IsTrue result → IsBehind subtype bytes.now }
{
    known_bytes(bytes);
    if subtype != 2 {
        return true;
    }
    bytes.len() >= 4 && uint32_in(bytes) as usize == bytes.len() - 4
}

// How many bytes the DbPointer takes that begins these bytes: a text and an ObjectId.
pub(crate) fn pointer_len(bytes: &[u8]) -> Option<usize>
    ensures within { IfSome result (λ n. n ≤ length bytes.now) }
    ensures pointer { IfSome result (λ n. IsPointer (take n bytes.now)) }
{
    known_bytes(bytes);
    let text = text_len(bytes)?;
    if bytes.len() - text < 12 {
        return None;
    }
    Some(text + 12)
}

// How many bytes the regular expression takes that begins these bytes, if its options are in order: they are sorted where they are written.
pub(crate) fn expression_len(alloc: Global, bytes: &[u8]) -> Option<usize>
    ensures within { IfSome result (λ n. n ≤ length bytes.now) }
    ensures expression { IfSome result (λ n. IsExpression (take n bytes.now)) }
{
    let (pattern, behind) = key(bytes)?;
    let (options, _) = key(behind)?;
    if !are_in_order(alloc, options) {
        return None;
    }
    Some(pattern.len() + options.len() + 2)
}

// Whether the characters of these options are in order.
fn are_in_order(alloc: Global, options: &str) -> bool
    ensures { IsTrue result → sorted options.now ≡ options.now }
{
    let Ok(text) = String::from_str(alloc, options) else {
        return false;
    };
    let Ok(expression) = Regex::new(alloc, String::new(alloc), text) else {
        return false;
    };
    expression.options() == options
}

// So many bytes, if they are there.
#[inline(always)]
pub(crate) fn fixed_len(bytes: &[u8], count: usize) -> Option<usize>
    ensures within { IfSome result (λ n. n ≤ length bytes.now) }
    ensures fixed { IfSome result (λ n. n ≡ count) }
    ensures are_bytes { AreBytes bytes.now }
{
    known_bytes(bytes);
    if bytes.len() < count {
        return None;
    }
    Some(count)
}

/// How many bytes the boolean takes that begins these bytes.
#[inline(always)]
pub fn boolean_len(bytes: &[u8]) -> Option<usize>
    ensures within { IfSome result (λ n. (n ≡ 1) × (n ≤ length bytes.now)) }
    ensures boolean { IfSome result (λ n. IsTrueOrFalse (take n bytes.now)) }
{
    match bytes {
        [0, ..] => Some(1),
        [1, ..] => Some(1),
        _ => None,
    }
}
