// The next document of a source.
ghost use Rattle.std.specs.Prelude.{◌≡◌, ◌≢◌, ◌≤◌, IfOk};
ghost use Rattle.bson_io.specs.Ends.{Rose, Takes};
ghost use Rattle.bson_streaming.specs.Next.{IsNextPiece};

use crate::taking::take_up_to;
use bson_io::Source;
use bson_kinds::ElementType;
use bson_rawdoc::extent::extent;
use bson_source::TakeFault;

/// What a source has next, of a file that has documents one behind another.
#[derive(Clone, Copy, Debug, PartialEq, Eq)]
pub enum Piece {
    /// No bytes are left.
    End,
    /// A document.
    Document,
    /// Bytes that no document begins with: fewer than four, or that announce less than five bytes, or more than are left.
    Broken,
}

/// Takes the next document of a source into a buffer, in place of what that held.
///
/// Memory grows with the bytes that came, and not with the length that is announced. Nothing behind the document is taken.
///
/// # Errors
///
/// `Failed` where a call on the source failed, `NoMemory` where memory ran out. Then some of the bytes are gone from the source.
pub fn next_document<S: Source>(bytes: &mut Vec<u8>, source: &mut S) -> Result<Piece, TakeFault>
    ensures next { IfOk result (λ p. IsNextPiece p bytes.new.items (S.left source.old) (S.left source.new)) }
    ensures taken { Takes (S.left source.old) (S.left source.new) }
    // `Failed` comes only where a call on the source failed; wherever else it ends, no call did.
    ensures failed { result ≡ Err TakeFault.Failed → Rose (S.faults source.old) (S.faults source.new) }
    ensures kept { result ≢ Err TakeFault.Failed → S.faults source.new ≡ S.faults source.old }
    ensures later { S.faults source.old ≤ S.faults source.new }
{
    bytes.clear();
    take_up_to(bytes, 4, source)?;
    if bytes.is_empty() {
        return Ok(Piece::End);
    }
    let Ok(length) = extent(ElementType::EmbeddedDocument, bytes) else {
        return Ok(Piece::Broken);
    };
    take_up_to(bytes, length, source)?;
    if bytes.len() < length {
        return Ok(Piece::Broken);
    }
    Ok(Piece::Document)
}
