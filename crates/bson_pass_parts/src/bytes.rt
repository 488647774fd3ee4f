// The bytes that are made: pieces that are appended, and places that are written over.
ghost use Rattle.std.specs.Prelude.{◌≡◌, ◌≤◌, ◌<◌, ◌+◌, ◌++◌, ◌∷◌, [], length, take, drop, IfSome};
ghost use Rattle.bson_kinds.specs.Kind.{byte};
ghost use Rattle.bson_base.specs.Tree.{enclosed, le32};
ghost use Rattle.bson_io.specs.Output.{patched};

use bson_io::MOST;
use bson_kinds::ElementType;

/// Appends bytes; `None` where memory runs out.
#[inline(always)]
pub fn put(made: &mut Vec<u8>, piece: &[u8]) -> Option<()>
    ensures { IfSome result (λ _. made.new.items ≡ made.old.items ++ piece.now) }
{
    made.extend_from_slice(piece).ok()
}

/// Appends the front of an element: a place for its kind, and its key closed by a zero.
#[inline(always)]
pub fn put_front(made: &mut Vec<u8>, key: &[u8]) -> Option<()>
    ensures { IfSome result (λ _. made.new.items ≡ made.old.items ++ (0 ∷ (key.now ++ 0 ∷ []))) }
{
    made.push(0).ok()?;
    made.extend_from_slice(key).ok()?;
    made.push(0).ok()
}

/// Writes a kind into its place.
#[inline(always)]
pub fn set_kind(made: &mut Vec<u8>, place: usize, kind: ElementType)
    requires { place < length made.old.items }
    ensures { made.new.items ≡ take place made.old.items ++ (byte kind ∷ drop (place + 1) made.old.items) }
{
    made[place] = kind.byte();
}

/// Ends a document or an array that begins at a place with four bytes for its length: appends a zero, and writes the length.
pub fn close(made: &mut Vec<u8>, start: usize) -> Option<()>
    requires { start + 4 ≤ length made.old.items }
    ensures { IfSome result (λ _. made.new.items ≡ take start made.old.items ++ enclosed (drop (start + 4) made.old.items)) }
{
    made.push(0).ok()?;
    let length = made.len() - start;
    if length > MOST {
        return None;
    }
    set_length(made, start, length as u32);
    Some(())
}

// Writes a length into its place.
#[tactic(auto, unfolding(bson_base::specs::Tree::le32))]
fn set_length(made: &mut Vec<u8>, start: usize, count: u32)
    requires { start + 4 ≤ length made.old.items }
    ensures { made.new.items ≡ patched made.old.items start (le32 count) }
{
    made[start..start + 4].copy_from_slice(&count.to_le_bytes());
}
