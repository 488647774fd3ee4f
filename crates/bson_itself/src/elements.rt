// The elements of documents and arrays, one by one.
ghost use Rattle.std.specs.Prelude.{◌≡◌, ◌≤◌, take, length, IfSome, IsTrue};
ghost use Rattle.bson_base.specs.Sound.{max_bytes};
ghost use Rattle.bson_kinds.specs.declared.element_type.ElementType.TheVariants as kinds;
ghost use Rattle.bson_shape.specs.Form as form;
ghost use Rattle.bson_itself.specs.Encoded.{EncodesItself, ArePairs, AreTrees, IsFrame};
ghost use Rattle.bson_itself.specs.Kept.{IsWrittenAsRead, leaf_of};
ghost use Rattle.bson_itself.specs.declared.untyped.UntypedLeaf.TheVariants.{Bson};

use crate::keys::key;
use crate::untyped::{UntypedLeaf, is_taken_key};
use crate::values::{binary_len, boolean_len, expression_len, fixed_len, pointer_len, text_len};
use bson_io::MOST;
use bson_keys::MetKeys;
use bson_kinds::ElementType;
use bson_rawdoc::reading::{inside, is_closed, known_bytes, uint32_in};
use std::alloc::Global;

/// Whether a value of the kind in these bytes is written at a leaf as these bytes, with so many levels of documents and arrays left.
///
/// `false` says nothing of the value: it is also for values that are read and written otherwise, for those that are refused, and where memory runs out. At `any` it
/// looks for texts, numbers, booleans, null, binaries of subtype 0, and documents and arrays of these whose keys are different, or the indexes in an array. At `bson` it looks for every kind;
/// no key may be a wrapper key, and the options of a regular expression have to be in order.
pub fn is_itself(
    alloc: Global,
    leaf: UntypedLeaf,
    kind: ElementType,
    bytes: &[u8],
    levels: u32,
) -> bool
    ensures kept { IsTrue result → IsWrittenAsRead (form.leaf (leaf_of leaf)) levels kind bytes.now }
    ensures itself { IsTrue result → EncodesItself leaf kind levels bytes.now }
    ensures few { IsTrue result → length bytes.now ≤ max_bytes }
{
    if bytes.len() > MOST {
        return false;
    }
    let Some(len) = value_len(alloc, leaf, kind, bytes, levels) else {
        return false;
    };
    if len != bytes.len() {
        return false;
    }
    true
}

// How many bytes the value of the kind takes that begins these bytes.
#[inline(always)]
#[cycle(itself)]
fn value_len(
    alloc: Global,
    leaf: UntypedLeaf,
    kind: ElementType,
    bytes: &[u8],
    levels: u32,
) -> Option<usize>
    ensures within { IfSome result (λ n. n ≤ length bytes.now) }
    ensures itself { IfSome result (λ n. EncodesItself leaf kind levels (take n bytes.now)) }
{
    match kind {
        ElementType::Double => fixed_len(bytes, 8),
        ElementType::String => text_len(bytes),
        ElementType::EmbeddedDocument => document_len(alloc, leaf, bytes, levels),
        ElementType::Array => array_len(alloc, leaf, bytes, levels),
        ElementType::Binary => binary_len(leaf, bytes),
        ElementType::Boolean => boolean_len(bytes),
        ElementType::Null => Some(0),
        ElementType::Int32 => fixed_len(bytes, 4),
        ElementType::Int64 => fixed_len(bytes, 8),
        _ => match leaf {
            UntypedLeaf::Any => None,
            UntypedLeaf::Bson => match kind {
                ElementType::JavaScriptCodeWithScope => scoped_len(alloc, bytes, levels),
                _ => extended_len(alloc, kind, bytes, levels),
            },
        },
    }
}

// How many bytes the extended value of the kind takes that begins these bytes, at `bson`; code with a scope is not looked for.
#[inline(always)]
fn extended_len(alloc: Global, kind: ElementType, bytes: &[u8], levels: u32) -> Option<usize>
    ensures within { IfSome result (λ n. n ≤ length bytes.now) }
    ensures itself { IfSome result (λ n. EncodesItself Bson kind levels (take n bytes.now)) }
{
    match kind {
        ElementType::ObjectId => fixed_len(bytes, 12),
        ElementType::DateTime => fixed_len(bytes, 8),
        ElementType::Timestamp => fixed_len(bytes, 8),
        ElementType::Decimal128 => fixed_len(bytes, 16),
        ElementType::JavaScriptCode => text_len(bytes),
        ElementType::Symbol => text_len(bytes),
        ElementType::RegularExpression => expression_len(alloc, bytes),
        ElementType::DbPointer => pointer_len(bytes),
        ElementType::Undefined => Some(0),
        ElementType::MinKey => Some(0),
        ElementType::MaxKey => Some(0),
        _ => None,
    }
}

/// How many bytes the document or the array takes that begins these bytes, if they are as many as they announce and the last is a zero.
#[inline(always)]
pub fn frame_len(bytes: &[u8]) -> Option<usize>
    ensures within { IfSome result (λ n. (5 ≤ n) × (n ≤ length bytes.now)) }
    ensures frame { IfSome result (λ n. IsFrame (take n bytes.now)) }
{
    if bytes.len() < 5 {
        return None;
    }
    known_bytes(bytes);
    let count = uint32_in(bytes) as usize;
    if count < 5 || count > bytes.len() || !is_closed(&bytes[..count]) {
        return None;
    }
    Some(count)
}

// How many bytes the document takes that begins these bytes.
#[inline(always)]
#[cycle(itself)]
fn document_len(alloc: Global, leaf: UntypedLeaf, bytes: &[u8], levels: u32) -> Option<usize>
    ensures within { IfSome result (λ n. n ≤ length bytes.now) }
    ensures itself { IfSome result (λ n. EncodesItself leaf kinds.EmbeddedDocument levels (take n bytes.now)) }
{
    let count = frame_len(bytes)?;
    if levels == 0 || !are_pairs(alloc, leaf, inside(&bytes[..count]), levels - 1) {
        return None;
    }
    Some(count)
}

// How many bytes the array takes that begins these bytes.
#[inline(always)]
#[cycle(itself)]
fn array_len(alloc: Global, leaf: UntypedLeaf, bytes: &[u8], levels: u32) -> Option<usize>
    ensures within { IfSome result (λ n. n ≤ length bytes.now) }
    ensures itself { IfSome result (λ n. EncodesItself leaf kinds.Array levels (take n bytes.now)) }
{
    let count = frame_len(bytes)?;
    if levels == 0 || !are_items(alloc, leaf, inside(&bytes[..count]), levels - 1) {
        return None;
    }
    Some(count)
}

// How many bytes the code with its scope takes that begins these bytes, at `bson`: the length of all, a text, a document.
#[cold]
#[inline(never)]
#[cycle(itself)]
fn scoped_len(alloc: Global, bytes: &[u8], levels: u32) -> Option<usize>
    ensures within { IfSome result (λ n. n ≤ length bytes.now) }
    ensures itself { IfSome result (λ n. EncodesItself Bson kinds.JavaScriptCodeWithScope levels (take n bytes.now)) }
{
    if bytes.len() < 4 {
        return None;
    }
    known_bytes(bytes);
    let (_, parts) = bytes.split_at(4);
    let code = text_len(parts)?;
    let (_, behind) = parts.split_at(code);
    let scope = document_len(alloc, UntypedLeaf::Bson, behind, levels)?;
    let count = 4 + code + scope;
    if uint32_in(bytes) as usize != count {
        return None;
    }
    Some(count)
}

// Whether these bytes are the elements of a document.
#[inline(never)]
#[cycle(itself)]
fn are_pairs(alloc: Global, leaf: UntypedLeaf, bytes: &[u8], levels: u32) -> bool
    ensures { IsTrue result → ArePairs leaf levels bytes.now }
{
    let mut keys = MetKeys::new(alloc);
    let mut rest = bytes;
    while let [byte, behind @ ..] = rest {
        let Some((name, value)) = key(behind) else {
            return false;
        };
        if !is_taken_key(leaf, name) {
            return false;
        }
        if !keys.add(name) {
            return false;
        }
        let Some(kind) = ElementType::from_byte(*byte) else {
            return false;
        };
        let Some(size) = value_len(alloc, leaf, kind, value, levels) else {
            return false;
        };
        let (_, next) = value.split_at(size);
        rest = next;
    }
    keys.are_different()
}

// Whether these bytes are the elements of an array, whose keys are their indexes.
#[inline(never)]
#[cycle(itself)]
fn are_items(alloc: Global, leaf: UntypedLeaf, bytes: &[u8], levels: u32) -> bool
    ensures { IsTrue result → AreTrees leaf levels bytes.now }
{
    let mut digits = itoa::Buffer::new();
    let mut index: u64 = 0;
    let mut rest = bytes;
    while let [byte, behind @ ..] = rest {
        let Some((name, value)) = key(behind) else {
            return false;
        };
        if name != digits.format(index) {
            return false;
        }
        let Some(kind) = ElementType::from_byte(*byte) else {
            return false;
        };
        let Some(size) = value_len(alloc, leaf, kind, value, levels) else {
            return false;
        };
        let (_, next) = value.split_at(size);
        rest = next;
        let Some(more) = index.checked_add(1) else {
            return false;
        };
        index = more;
    }
    true
}
