// Documents and arrays as a reader meets them, before their elements are looked at.
ghost use Rattle.std.specs.Prelude.{◌≡◌};
ghost use Rattle.std.specs.Option.{option_map};
ghost use Rattle.bson_base.specs.BsonView.{pairs_of, trees_of};
ghost use Rattle.bson_base.specs.Tree as trees;
ghost use Rattle.bson_kinds.specs.declared.element_type.ElementType.TheVariants as kinds;
ghost use Rattle.bson_rawdoc.specs.DocumentView.{array_bytes, document_bytes};
ghost use Rattle.bson_rawdoc.specs.Node as node;
ghost use Rattle.bson_rawdoc.specs.Node.{of_tree, from_memory, inner_node, made_document, one_level, pair_nodes, tree_nodes};
ghost use Rattle.bson_kinds.specs.Piece.{borrowed};
ghost use Rattle.bson_laws.specs.Judged.{with_level};
ghost use Rattle.bson_laws.specs.ReadsRaw.{slice_of};
ghost use Rattle.bson_laws.specs.TreeRaw.{held_whole};
ghost use Rattle.bson_met.specs.ContainerView.{array_node, array_whole, document_node, document_whole, is_opening};
ghost use Rattle.bson_met.specs.Gives.{Reaches};
ghost use Rattle.bson_met.specs.OpenedView.{opened_nodes};

use crate::opened::Opened;
use crate::reading::{Reading, refused};
use bson_base::{Bson, Document};
use bson_rawdoc::{RawArray, RawDocument};
use bson_values::Cause;
use std::alloc::Global;

/// A document that a reader meets.
#[derive(Clone, Copy)]
pub struct MetDocument<'de> {
    // Those that are left for its values.
    pub(crate) levels: u32,
    // Whether its texts are mended.
    pub(crate) mends: bool,
    pub(crate) place: DocumentPlace<'de>,
}

/// Where it is.
#[derive(Clone, Copy)]
pub(crate) enum DocumentPlace<'de> {
    /// In the input.
    Bytes(RawDocument<'de>),
    /// In a tree.
    Pairs(&'de Document),
    /// Nowhere: a value is opened to it, or to a document that it is in.
    Opened(Opened<'de>),
}

/// An array that a reader meets.
#[derive(Clone, Copy)]
pub struct MetArray<'de> {
    // Those that are left for its values.
    pub(crate) levels: u32,
    // Whether its texts are mended.
    pub(crate) mends: bool,
    pub(crate) place: ArrayPlace<'de>,
}

/// Where it is.
#[derive(Clone, Copy)]
pub(crate) enum ArrayPlace<'de> {
    /// In the input.
    Bytes(RawArray<'de>),
    /// In a tree.
    Values(&'de Vec<Bson>),
}

impl<'de> MetDocument<'de> {
    /// One of the input, where a level is left for it.
    #[inline(always)]
    pub(crate) fn in_bytes(
        alloc: Global,
        levels: u32,
        document: RawDocument<'de>,
    ) -> Reading<MetDocument<'de>>
        ensures { Reaches document_node result
            (with_level (inner_node levels kinds.EmbeddedDocument (document_bytes document.entry))) }
    {
        if levels == 0 {
            return Err(refused(alloc, Cause::TooDeep));
        }
        Ok(MetDocument {
            levels: levels - 1,
            mends: false,
            place: DocumentPlace::Bytes(document),
        })
    }

    /// One of a tree, where a level is left for it.
    pub(crate) fn in_pairs(
        alloc: Global,
        levels: u32,
        document: &'de Document,
    ) -> Reading<MetDocument<'de>>
        ensures { Reaches document_node result
            (with_level (one_level kinds.EmbeddedDocument (of_tree (trees.document (pairs_of document.now))) (pair_nodes from_memory (pairs_of document.now)) levels)) }
    {
        if levels == 0 {
            return Err(refused(alloc, Cause::TooDeep));
        }
        Ok(MetDocument {
            levels: levels - 1,
            mends: false,
            place: DocumentPlace::Pairs(document),
        })
    }

    /// One that a value is opened to, or that is inside such a one.
    pub(crate) fn of_opened(opened: Opened<'de>) -> MetDocument<'de>
        ensures { document_node result ≡ made_document (opened_nodes opened.entry) }
    {
        MetDocument {
            levels: 0,
            mends: false,
            place: DocumentPlace::Opened(opened),
        }
    }

    /// The same document, whose texts are mended.
    #[tactic(auto, using(crate::proofs::SeenAlike::nodes_mended))]
    pub(crate) fn mended(self) -> MetDocument<'de>
        ensures { document_node result ≡ node.mended (document_node self.entry) }
    {
        MetDocument {
            levels: self.levels,
            mends: true,
            place: self.place,
        }
    }

    /// The document of a tree in memory that it is.
    pub fn tree(&self) -> Option<&'de Document>
        ensures tree { option_map (λ d. trees.document (pairs_of d.now)) result ≡ held_whole (document_whole self.now) }
    {
        match self.place {
            DocumentPlace::Pairs(document) => Some(document),
            DocumentPlace::Bytes(_) | DocumentPlace::Opened(_) => None,
        }
    }

    /// Whether a value is opened to it, or to a document that it is in.
    pub fn is_opened(&self) -> bool
        ensures opened { result ≡ is_opening (document_whole self.now) }
    {
        match self.place {
            DocumentPlace::Opened(_) => true,
            DocumentPlace::Bytes(_) | DocumentPlace::Pairs(_) => false,
        }
    }

    /// The document in its bytes, where they are in the input. Nothing in them is mended.
    #[inline(always)]
    pub fn borrow(self, alloc: Global) -> Reading<RawDocument<'de>>
        ensures borrowed { Reaches (λ d. borrowed (document_bytes d)) result (slice_of (document_whole self.entry)) }
    {
        match self.place {
            DocumentPlace::Bytes(document) => Ok(document),
            DocumentPlace::Pairs(_) | DocumentPlace::Opened(_) => {
                Err(refused(alloc, Cause::NotBorrowed))
            }
        }
    }
}

impl<'de> MetArray<'de> {
    /// One of the input, where a level is left for it.
    #[inline(always)]
    pub(crate) fn in_bytes(
        alloc: Global,
        levels: u32,
        array: RawArray<'de>,
    ) -> Reading<MetArray<'de>>
        ensures { Reaches array_node result
            (with_level (inner_node levels kinds.Array (array_bytes array.entry))) }
    {
        if levels == 0 {
            return Err(refused(alloc, Cause::TooDeep));
        }
        Ok(MetArray {
            levels: levels - 1,
            mends: false,
            place: ArrayPlace::Bytes(array),
        })
    }

    /// One of a tree, where a level is left for it.
    pub(crate) fn in_values(
        alloc: Global,
        levels: u32,
        values: &'de Vec<Bson>,
    ) -> Reading<MetArray<'de>>
        ensures { Reaches array_node result
            (with_level (one_level kinds.Array (of_tree (trees.array (trees_of values.now.items))) (tree_nodes from_memory 0 (trees_of values.now.items)) levels)) }
    {
        if levels == 0 {
            return Err(refused(alloc, Cause::TooDeep));
        }
        Ok(MetArray {
            levels: levels - 1,
            mends: false,
            place: ArrayPlace::Values(values),
        })
    }

    /// The same array, whose texts are mended.
    #[tactic(auto, using(crate::proofs::SeenAlike::nodes_mended))]
    pub(crate) fn mended(self) -> MetArray<'de>
        ensures { array_node result ≡ node.mended (array_node self.entry) }
    {
        MetArray {
            levels: self.levels,
            mends: true,
            place: self.place,
        }
    }

    /// The values of the array of a tree in memory that it is.
    pub fn tree(&self) -> Option<&'de Vec<Bson>>
        ensures tree { option_map (λ v. trees.array (trees_of v.now.items)) result ≡ held_whole (array_whole self.now) }
    {
        match self.place {
            ArrayPlace::Values(values) => Some(values),
            ArrayPlace::Bytes(_) => None,
        }
    }

    /// The array in its bytes, where they are in the input. Nothing in them is mended.
    #[inline(always)]
    pub fn borrow(self, alloc: Global) -> Reading<RawArray<'de>>
        ensures borrowed { Reaches (λ a. borrowed (array_bytes a)) result (slice_of (array_whole self.entry)) }
    {
        match self.place {
            ArrayPlace::Bytes(array) => Ok(array),
            ArrayPlace::Values(_) => Err(refused(alloc, Cause::NotBorrowed)),
        }
    }
}
