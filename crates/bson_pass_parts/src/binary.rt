// Binaries at the leaves that take them.
ghost use Rattle.std.specs.Prelude.{◌≡◌, ◌++◌, false, IfSome, Some};
ghost use Rattle.bson_base.specs.Sound.{IsBinary};
ghost use Rattle.bson_base.specs.Tree.{binary, after_length};
ghost use Rattle.bson_rawdoc.specs.Node.{binary_node};
ghost use Rattle.bson_kinds.specs.Piece.{borrowed};
ghost use Rattle.bson_shape.specs.Form as form;
ghost use Rattle.bson_pass_parts.specs.Put.{recast_node, IsPut};

use crate::bytes::put;
use bson_base::{BinarySubtype, MAX_BINARY};
use bson_kinds::ElementType;
use bson_rawdoc::reading::known_bytes;
use bson_shape::Leaf;

/// A binary at a leaf that takes it: at that of binaries, of byte strings if its subtype is 0, or of UUIDs if it is 4 and there are sixteen bytes.
pub(crate) fn recast_binary(
    made: &mut Vec<u8>,
    leaf: Leaf,
    levels: u32,
    subtype: BinarySubtype,
    bytes: &[u8],
) -> Option<ElementType>
    ensures { IfSome result (IsPut (recast_node (form.leaf leaf) levels (binary_node false subtype.0 (borrowed bytes.now))) made.old.items made.new.items) }
{
    match (leaf, subtype.0) {
        (Leaf::Binary, subtype) => put_binary(made, subtype, bytes),
        (Leaf::Bytes, 0) => put_binary(made, 0, bytes),
        (Leaf::ByteBuf, 0) => put_binary(made, 0, bytes),
        (Leaf::Uuid, 4) if bytes.len() == 16 => put_binary(made, 4, bytes),
        _ => None,
    }
}

/// A binary of any subtype but the old one, which has a second length.
fn put_binary(made: &mut Vec<u8>, subtype: u8, bytes: &[u8]) -> Option<ElementType>
    ensures put { IfSome result (IsPut (Some (binary subtype bytes.now)) made.old.items made.new.items) }
    ensures clean { IfSome result (λ _. IsBinary subtype bytes.now) }
{
    if subtype == 2 || bytes.len() > MAX_BINARY {
        return None;
    }
    known_bytes(bytes);
    put_counted(made, subtype, bytes)?;
    Some(ElementType::Binary)
}

/// Bytes of a subtype: their number, the subtype, the bytes.
#[tactic(auto, unfolding(bson_base::specs::Tree::le32))]
fn put_counted(made: &mut Vec<u8>, subtype: u8, bytes: &[u8]) -> Option<()>
    ensures { IfSome result (λ _. made.new.items ≡ made.old.items ++ after_length subtype bytes.now) }
{
    let count = u32::try_from(bytes.len()).ok()?;
    put(made, &count.to_le_bytes())?;
    put(made, &[subtype])?;
    put(made, bytes)
}
