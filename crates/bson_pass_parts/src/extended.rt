// Extended values at their leaves.
ghost use Rattle.std.specs.Prelude.{◌≡◌, ◌++◌, ◌<◌, ◌^◌, IfSome};
ghost use Rattle.bson_base.specs.Sound.{HasBytes};
ghost use Rattle.bson_base.specs.Tree.{le32};
ghost use Rattle.bson_rawdoc.specs.Node as nodes;
ghost use Rattle.bson_rawdoc.specs.Node.{opens};
ghost use Rattle.bson_kinds.specs.Piece.{borrowed};
ghost use Rattle.bson_shape.specs.Form as form;
ghost use Rattle.bson_pass_parts.specs.Put.{recast_node, IsPut};

use crate::bytes::put;
use crate::leaf::put_eight;
use bson_base::{Decimal128, ObjectId, Timestamp};
use bson_kinds::ElementType;
use bson_rawdoc::reading::known_bytes;
use bson_shape::Leaf;

/// An ObjectId at its leaf: its twelve bytes.
pub(crate) fn recast_object_id(
    made: &mut Vec<u8>,
    leaf: Leaf,
    levels: u32,
    id: ObjectId,
) -> Option<ElementType>
    ensures { IfSome result (IsPut (recast_node (form.leaf leaf) levels (opens (nodes.object_id (borrowed id.0)))) made.old.items made.new.items) }
{
    match leaf {
        Leaf::ObjectId => {
            known(&id.0);
            put(made, &id.0)?;
            Some(ElementType::ObjectId)
        }
        _ => None,
    }
}

// An ObjectId has twelve bytes.
fn known(id: &[u8; 12])
    ensures { HasBytes 12 id.now }
{
    known_bytes(id);
}

/// A time at its leaf: its milliseconds in eight bytes.
pub(crate) fn recast_time(
    made: &mut Vec<u8>,
    leaf: Leaf,
    levels: u32,
    milliseconds: i64,
) -> Option<ElementType>
    ensures { IfSome result (IsPut (recast_node (form.leaf leaf) levels (opens (nodes.date_time milliseconds))) made.old.items made.new.items) }
{
    match leaf {
        Leaf::DateTime => {
            put_eight(made, milliseconds)?;
            Some(ElementType::DateTime)
        }
        _ => None,
    }
}

/// A decimal at its leaf: its sixteen bytes.
pub(crate) fn recast_decimal(
    made: &mut Vec<u8>,
    leaf: Leaf,
    levels: u32,
    decimal: Decimal128,
) -> Option<ElementType>
    ensures { IfSome result (IsPut (recast_node (form.leaf leaf) levels (opens (nodes.decimal128 (borrowed decimal.0)))) made.old.items made.new.items) }
{
    match leaf {
        Leaf::Decimal128 => {
            known_sixteen(&decimal.0);
            put(made, &decimal.0)?;
            Some(ElementType::Decimal128)
        }
        _ => None,
    }
}

// A decimal has sixteen bytes.
fn known_sixteen(decimal: &[u8; 16])
    ensures { HasBytes 16 decimal.now }
{
    known_bytes(decimal);
}

/// A timestamp at its leaf: its increment in four bytes, and its time.
pub(crate) fn recast_timestamp(
    made: &mut Vec<u8>,
    leaf: Leaf,
    levels: u32,
    stamp: Timestamp,
) -> Option<ElementType>
    ensures { IfSome result (IsPut (recast_node (form.leaf leaf) levels (opens (nodes.timestamp stamp.time stamp.increment))) made.old.items made.new.items) }
{
    match leaf {
        Leaf::Timestamp => {
            known_numbers(stamp.time, stamp.increment);
            put_timestamp(made, stamp)?;
            Some(ElementType::Timestamp)
        }
        _ => None,
    }
}

// Numbers of four bytes are no greater.
fn known_numbers(time: u32, increment: u32)
    ensures { (time < 2 ^ 32) × (increment < 2 ^ 32) }
{}

/// The eight bytes of a timestamp.
#[tactic(auto, unfolding(bson_base::specs::Tree::le32))]
fn put_timestamp(made: &mut Vec<u8>, stamp: Timestamp) -> Option<()>
    ensures { IfSome result (λ _. made.new.items ≡ made.old.items ++ (le32 stamp.increment ++ le32 stamp.time)) }
{
    put(made, &stamp.increment.to_le_bytes())?;
    put(made, &stamp.time.to_le_bytes())
}
