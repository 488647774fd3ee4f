// Elements that are written as they were read: they lie one behind another in the document, and are copied in one piece.
ghost use Rattle.std.specs.Prelude.{◌≡◌, ◌≤◌, ◌++◌, length, IfSome};
ghost use Rattle.bson_base.specs.Tree.{element};
ghost use Rattle.bson_pass_parts.specs.Run.{IsFirst, IsHead, run, size};

use crate::bytes::put;
use bson_kinds::ElementType;
use bson_rawdoc::RawElement;

/// How many bytes the element takes that begins these bytes: its kind, its key, a zero, its value.
#[inline(always)]
pub fn element_len(bytes: &[u8], element: &RawElement<'_>) -> usize
    requires { IsFirst bytes.now element.now }
    ensures size { result ≡ size element.now }
    ensures head { IsHead bytes.now element.now }
{
    element.key().len() + element.slice().len() + 2
}

/// Appends a run: the elements between two places.
#[inline(always)]
pub fn put_run(made: &mut Vec<u8>, elements: &[u8], from: usize, at: usize) -> Option<()>
    requires order { from ≤ at }
    requires within { at ≤ length elements.now }
    ensures { IfSome result (λ _. made.new.items ≡ made.old.items ++ run elements.now from at) }
{
    if from == at {
        return Some(());
    }
    put(made, &elements[from..at])
}

/// Appends an element: its kind, its key, a zero, the bytes of its value.
pub fn put_element(made: &mut Vec<u8>, kind: ElementType, key: &str, value: &[u8]) -> Option<()>
    ensures { IfSome result (λ _. made.new.items ≡ made.old.items ++ element kind key.now value.now) }
{
    made.push(kind.byte()).ok()?;
    put(made, key.as_bytes())?;
    made.push(0).ok()?;
    put(made, value)
}
