ghost use Rattle.std.specs.Prelude.{◌≡◌, ℕ, ◌<◌, ◌^◌, false};
ghost use Rattle.bson_rawdoc.specs.Node.{node_in, nodes_with};
ghost use Rattle.bson_met.specs.ContainerView.{array_items, items_at};
ghost use Rattle.bson_met.specs.ItemsView.{array_nodes, value_nodes};
ghost use Rattle.bson_met.specs.Next.{IsItemAdvanced, IsItemTaken};
ghost use Rattle.bson_met.specs.Sizes.{count};
ghost use Rattle.bson_met.specs.Seen.{seen_nodes};

use crate::containers::{ArrayPlace, MetArray};
use crate::met::Met;
use crate::opened::Made;
use crate::reading::{Reading, refused};
use bson_base::Bson;
use bson_rawdoc::RawIter;
use bson_values::Cause;
use std::alloc::Global;
use std::marker::Model;

/// The elements of an array, one after another. Contracts see what is left of them. Their keys tell nothing.
#[derive(Drop)]
pub struct Items<'de> {
    levels: u32,
    // Whether their texts are mended.
    mends: bool,
    array: Array<'de>,
}

/// Where they come from.
#[derive(Drop)]
pub(crate) enum Array<'de> {
    /// An array of the input.
    Bytes(RawIter<'de>),
    /// An array of a tree.
    Values(Values<'de>),
}

/// The values of an array of a tree, from an index on.
#[derive(Drop)]
pub(crate) struct Values<'de> {
    all: &'de [Bson],
    index: usize,
}

impl<'de> Model for Items<'de> {
    ghost use Rattle.std.specs.Prelude.{◌<◌, ◌^◌};
    ghost use Rattle.bson_rawdoc.specs.Node.{Nodes};
    ghost use Rattle.bson_met.specs.Sizes.{count};
    ghost use Rattle.bson_met.specs.StoredNode.{coded_nodes};
    ghost use Rattle.bson_met.specs.ItemsView.{array_nodes};
    ghost use Rattle.bson_met.specs.Seen.{seen_nodes};

    ghost Value = { Nodes };

    ghost coded = { coded_nodes };

    ghost view = { λ e. seen_nodes e.mends (array_nodes e.levels e.array) };

    ghost invariant = { λ e. count (seen_nodes e.mends (array_nodes e.levels e.array)) < 2 ^ 64 };
}

impl<'de> Items<'de> {
    /// Those of an array.
    #[inline(always)]
    pub fn of_array(array: MetArray<'de>) -> Items<'de>
        ensures elements { result ≡ array_items array.entry }
    {
        Items {
            levels: array.levels,
            mends: array.mends,
            array: source_of(array.place),
        }
    }

    /// A value to put the first element into. There are fewer elements than 2 ^ 64.
    #[inline(always)]
    pub fn start(&self) -> Met<'de>
        ensures few { count self.now < 2 ^ 64 }
    {
        let _levels = self.levels;
        Met::of_made(Made::True)
    }

    /// Puts the next element into the value, and says whether there is one; a fault that ends the list is a refusal.
    #[inline(always)]
    pub fn advance(&mut self, alloc: Global, value: &mut Met<'de>) -> Reading<bool>
        ensures advanced { IsItemAdvanced self.old result value.new self.new }
    {
        let (levels, mends) = (self.levels, self.mends);
        match &mut self.array {
            Array::Bytes(elements) => advance_in_bytes(alloc, levels, mends, elements, value),
            Array::Values(values) => Ok(advance_in_values(levels, mends, values, value)),
        }
    }
}

/// Where the elements of an array come from. There are fewer than 2 ^ 64.
#[inline(always)]
fn source_of<'de>(place: ArrayPlace<'de>) -> Array<'de>
    ensures elements { (levels : ℕ) → array_nodes levels result ≡ items_at levels place.entry }
    ensures few { (levels : ℕ) → count (array_nodes levels result) < 2 ^ 64 }
{
    match place {
        ArrayPlace::Bytes(array) => Array::Bytes(array.as_doc().iter_elements()),
        ArrayPlace::Values(values) => {
            // There are no more values than this.
            let _len = values.len();
            Array::Values(Values {
                all: values.as_slice(),
                index: 0,
            })
        }
    }
}

/// The next element of an array of the input, put into the value.
#[inline(always)]
fn advance_in_bytes<'de>(
    alloc: Global,
    levels: u32,
    mends: bool,
    elements: &mut RawIter<'de>,
    value: &mut Met<'de>,
) -> Reading<bool>
    ensures { IsItemAdvanced (seen_nodes mends (nodes_with (node_in levels) elements.old)) result value.new (seen_nodes mends (nodes_with (node_in levels) elements.new)) }
{
    match elements.next() {
        Some(Ok(element)) => {
            *value = Met::of_seen(levels, mends, element);
            Ok(true)
        }
        Some(Err(fault)) => Err(refused(alloc, Cause::Raw(fault))),
        None => Ok(false),
    }
}

/// The next element of an array of a tree, put into the value.
#[inline(never)]
fn advance_in_values<'de>(
    levels: u32,
    mends: bool,
    values: &mut Values<'de>,
    value: &mut Met<'de>,
) -> bool
    ensures { IsItemTaken (seen_nodes mends (value_nodes levels values.old)) result value.new (seen_nodes mends (value_nodes levels values.new)) }
{
    let all = values.all;
    match all.get(values.index) {
        Some(next) => {
            values.index += 1;
            *value = Met::of_tree(levels, next).under(mends);
            true
        }
        None => false,
    }
}
