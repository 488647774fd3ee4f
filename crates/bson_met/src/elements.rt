ghost use Rattle.std.specs.Prelude.{◌≡◌, ℕ, ◌<◌, ◌^◌, false};
ghost use Rattle.bson_rawdoc.specs.Node.{from_memory, node_in, nodes_with, pair_nodes, opened};
ghost use Rattle.bson_met.specs.ContainerView.{document_elements, elements_at};
ghost use Rattle.bson_met.specs.ElementsView.{source_nodes};
ghost use Rattle.bson_met.specs.Next.{IsAdvanced, IsTaken};
ghost use Rattle.bson_met.specs.OpenedView.{extended_view, opened_nodes};
ghost use Rattle.bson_met.specs.Sizes.{count};
ghost use Rattle.bson_met.specs.Seen.{seen_nodes};

use crate::containers::{DocumentPlace, MetDocument};
use crate::met::Met;
use crate::opened::{Extended, First, Made, Opened, Place};
use crate::reading::{Reading, refused};
use crate::text::MetStr;
use bson_base::Iter;
use bson_rawdoc::RawIter;
use bson_values::Cause;
use std::alloc::Global;
use std::marker::Model;

/// The elements of a document, one after another. Contracts see what is left of them.
#[derive(Drop)]
pub struct Elements<'de> {
    levels: u32,
    // Whether their texts are mended.
    mends: bool,
    source: Source<'de>,
}

/// Where they come from.
#[derive(Drop)]
pub(crate) enum Source<'de> {
    /// A document of the input.
    Bytes(RawIter<'de>),
    /// A document of a tree.
    Pairs(Iter<'de>),
    /// A document that a value is opened to.
    Opened(Opened<'de>),
}

impl<'de> Model for Elements<'de> {
    ghost use Rattle.std.specs.Prelude.{◌<◌, ◌^◌};
    ghost use Rattle.bson_rawdoc.specs.Node.{Nodes};
    ghost use Rattle.bson_met.specs.Sizes.{count};
    ghost use Rattle.bson_met.specs.StoredNode.{coded_nodes};
    ghost use Rattle.bson_met.specs.ElementsView.{source_nodes};
    ghost use Rattle.bson_met.specs.Seen.{seen_nodes};

    ghost Value = { Nodes };

    ghost coded = { coded_nodes };

    ghost view = { λ e. seen_nodes e.mends (source_nodes e.levels e.source) };

    ghost invariant = { λ e. count (seen_nodes e.mends (source_nodes e.levels e.source)) < 2 ^ 64 };
}

/// A value with its key.
#[derive(Drop)]
pub struct Step<'de> {
    /// The key.
    pub key: MetStr<'de>,
    /// The value.
    pub value: Met<'de>,
}

impl<'de> Elements<'de> {
    /// Those of a document.
    #[inline(always)]
    pub fn of_document(document: MetDocument<'de>) -> Elements<'de>
        ensures elements { result ≡ document_elements document.entry }
    {
        Elements {
            levels: document.levels,
            mends: document.mends,
            source: source_of(document.place),
        }
    }

    /// Those of the document that a value is opened to.
    pub fn of_extended(value: Extended<'de>) -> Elements<'de>
        ensures opened { result ≡ opened (extended_view value.entry) }
    {
        let place = Place::Start;
        Elements {
            levels: 0,
            mends: false,
            source: Source::Opened(Opened { value, place }),
        }
    }

    /// A step that is before the first element. There are fewer elements than 2 ^ 64.
    #[inline(always)]
    pub fn start(&self) -> Step<'de>
        ensures few { count self.now < 2 ^ 64 }
    {
        let _levels = self.levels;
        Step {
            key: MetStr::elsewhere(""),
            value: Met::of_made(Made::True),
        }
    }

    /// Puts the next value with its key into the step, and says whether there is one; a fault that ends the list is a refusal.
    #[inline(always)]
    pub fn advance(&mut self, alloc: Global, step: &mut Step<'de>) -> Reading<bool>
        ensures advanced { IsAdvanced self.old result step.new self.new }
    {
        let (levels, mends) = (self.levels, self.mends);
        match &mut self.source {
            Source::Bytes(elements) => advance_in_bytes(alloc, levels, mends, elements, step),
            Source::Pairs(pairs) => Ok(advance_in_pairs(levels, mends, pairs, step)),
            Source::Opened(opened) => Ok(advance_in_opened(mends, opened, step)),
        }
    }
}

/// Where the elements of a document come from. There are fewer than 2 ^ 64.
#[inline(always)]
fn source_of<'de>(place: DocumentPlace<'de>) -> Source<'de>
    ensures elements { (levels : ℕ) → source_nodes levels result ≡ elements_at levels place.entry }
    ensures few { (levels : ℕ) → count (source_nodes levels result) < 2 ^ 64 }
{
    match place {
        DocumentPlace::Bytes(document) => Source::Bytes(document.iter_elements()),
        DocumentPlace::Pairs(document) => {
            // There are no more pairs than this.
            let _len = document.len();
            Source::Pairs(document.iter())
        }
        DocumentPlace::Opened(opened) => Source::Opened(opened),
    }
}

/// The next element of a document of the input, put into the step.
#[inline(always)]
fn advance_in_bytes<'de>(
    alloc: Global,
    levels: u32,
    mends: bool,
    elements: &mut RawIter<'de>,
    step: &mut Step<'de>,
) -> Reading<bool>
    ensures { IsAdvanced (seen_nodes mends (nodes_with (node_in levels) elements.old)) result step.new (seen_nodes mends (nodes_with (node_in levels) elements.new)) }
{
    match elements.next() {
        Some(Ok(element)) => {
            step.key = MetStr::key(mends, element.key());
            step.value = Met::of_seen(levels, mends, element);
            Ok(true)
        }
        Some(Err(fault)) => Err(refused(alloc, Cause::Raw(fault))),
        None => Ok(false),
    }
}

/// The next value of a document of a tree, put into the step.
#[inline(never)]
fn advance_in_pairs<'de>(
    levels: u32,
    mends: bool,
    pairs: &mut Iter<'de>,
    step: &mut Step<'de>,
) -> bool
    ensures { IsTaken (seen_nodes mends (pair_nodes from_memory pairs.old levels)) result step.new (seen_nodes mends (pair_nodes from_memory pairs.new levels)) }
{
    match pairs.next() {
        Some((key, value)) => {
            step.key = MetStr::elsewhere(key.as_str());
            step.value = Met::of_tree(levels, value).under(mends);
            true
        }
        None => false,
    }
}

/// The next value of a document that a value is opened to, put into the step.
#[inline(never)]
fn advance_in_opened<'de>(mends: bool, opened: &mut Opened<'de>, step: &mut Step<'de>) -> bool
    ensures { IsTaken (seen_nodes mends (opened_nodes opened.old)) result step.new (seen_nodes mends (opened_nodes opened.new)) }
{
    match opened.first() {
        Some(First { key, value, rest }) => {
            opened.place = rest;
            step.key = MetStr::elsewhere(key);
            step.value = value.under(mends);
            true
        }
        None => false,
    }
}
