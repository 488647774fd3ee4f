// Values at leaves.
ghost use Rattle.bson_shape.specs.Form as form;
ghost use Rattle.bson_datum.specs.MarkedView.{marked};
ghost use Rattle.bson_laws.specs.Reads.{reads};
ghost use Rattle.bson_laws.specs.ReadsFrom.{reads_from};
ghost use Rattle.bson_laws.specs.declared.origin.Origin.TheVariants as origins;
ghost use Rattle.bson_met.specs.Gives.{Reaches};

use bson_datum::Datum;
use bson_laws::Origin;
use bson_leaves::{is_extended, read_leaf};
use bson_met::{Met, Reading, refused};
use bson_raw_builder::{read_extended, read_raw_tree};
use bson_shape::Leaf;
use bson_values::Cause;
use std::alloc::Global;

/// The value at a leaf.
#[inline(always)]
pub(crate) fn read_leaf_at<'de>(
    alloc: Global,
    origin: Origin,
    leaf: Leaf,
    value: &Met<'de>,
) -> Reading<Datum<'de>>
    ensures exact { Reaches marked result (reads_from origin (form.leaf leaf) value.now) }
{
    match origin {
        Origin::Bytes => read_any_leaf(alloc, leaf, value),
        Origin::Tree => read_tree_leaf(alloc, leaf, value),
    }
}

/// The value at a leaf, by the rows of bytes.
#[inline(always)]
fn read_any_leaf<'de>(alloc: Global, leaf: Leaf, value: &Met<'de>) -> Reading<Datum<'de>>
    ensures exact { Reaches marked result (reads (form.leaf leaf) value.now) }
{
    if is_extended(leaf) {
        return read_extended(alloc, leaf, value);
    }
    read_leaf(alloc, leaf, value)
}

/// The value of a tree at a leaf: a leaf that borrows takes none, and at a raw leaf it is put in bytes.
#[inline(never)]
fn read_tree_leaf<'de>(alloc: Global, leaf: Leaf, value: &Met<'de>) -> Reading<Datum<'de>>
    ensures exact { Reaches marked result (reads_from origins.Tree (form.leaf leaf) value.now) }
{
    match leaf {
        Leaf::Str | Leaf::Bytes => {
            value.judge(alloc)?;
            Err(refused(alloc, Cause::NotBorrowed))
        }
        Leaf::RawDocument | Leaf::RawArray | Leaf::RawBson => read_raw_tree(alloc, leaf, value),
        _ => read_any_leaf(alloc, leaf, value),
    }
}
