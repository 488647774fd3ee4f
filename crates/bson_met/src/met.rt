ghost use Rattle.std.specs.Prelude.{◌≡◌, false, IfSome};
ghost use Rattle.bson_base.specs.BsonView.{tree_of};
ghost use Rattle.bson_kinds.specs.declared.element_type.ElementType.TheVariants as kinds;
ghost use Rattle.bson_rawdoc.specs.DocumentView.{document_bytes};
ghost use Rattle.bson_rawdoc.specs.Node as node;
ghost use Rattle.bson_rawdoc.specs.Node.{from_memory, node_in, inner_node, tree_node};
ghost use Rattle.bson_laws.specs.Judged.{judged};
ghost use Rattle.bson_met.specs.Gives.{Reaches};
ghost use Rattle.bson_met.specs.Nulls.{is_null, is_null_kind};
ghost use Rattle.bson_met.specs.MetView.{what_node, document_at, array_at, integer_at};
ghost use Rattle.bson_met.specs.OpenedView.{made_node, scope_node};
ghost use Rattle.bson_met.specs.ScalarView.{IsSeen};
ghost use Rattle.bson_met.specs.Seen.{seen};
ghost use Rattle.bson_met.specs.ValueView.{value_view};

use crate::elements::Elements;
use crate::items::Items;
use crate::judge::{judge_beyond, judge_element};
use crate::mended::judge_mended;
use crate::opened::{Made, Names, Scope};
use crate::reading::Reading;
use crate::scalar::{Scalar, scalar_in};
use crate::value::Value;
use bson_base::{Bson, Document};
use bson_kinds::ElementType;
use bson_rawdoc::{RawDocument, RawElement};
use std::alloc::Global;
use std::marker::Model;

/// A value as a reader meets it. Contracts see it as its node.
#[derive(Drop)]
pub struct Met<'de> {
    levels: u32,
    // Whether its texts are mended.
    mends: bool,
    what: What<'de>,
}

/// Where it comes from.
#[derive(Drop)]
pub(crate) enum What<'de> {
    /// The value of an element in the input.
    Element(RawElement<'de>),
    /// A document of the input, whole or a scope.
    Document(RawDocument<'de>),
    /// A value of a tree.
    Tree(&'de Bson),
    /// A document of a tree, which is a scope.
    Pairs(&'de Document),
    /// A value in a document that another value is opened to.
    Made(Made<'de>),
}

impl<'de> Model for Met<'de> {
    ghost use Rattle.bson_rawdoc.specs.Node.{Node};
    ghost use Rattle.bson_met.specs.StoredNode.{coded_node};
    ghost use Rattle.bson_met.specs.MetView.{what_node};
    ghost use Rattle.bson_met.specs.Seen.{seen};

    ghost Value = { Node };

    ghost coded = { coded_node };

    ghost view = { λ m. seen m.mends (what_node m.levels m.what) };
}

impl<'de> Met<'de> {
    /// A document of the input, with so many levels left for it.
    pub fn of_document(levels: u32, document: RawDocument<'de>) -> Met<'de>
        ensures node { result ≡ inner_node levels kinds.EmbeddedDocument (document_bytes document.entry) }
    {
        Met {
            levels,
            mends: false,
            what: What::Document(document),
        }
    }

    /// A value of a tree, with so many levels left for it.
    pub fn of_tree(levels: u32, value: &'de Bson) -> Met<'de>
        ensures node { result ≡ tree_node from_memory (tree_of value.now) levels }
    {
        Met {
            levels,
            mends: false,
            what: What::Tree(value),
        }
    }

    /// The value of an element, with so many levels left for it.
    #[inline(always)]
    pub fn of_element(levels: u32, element: RawElement<'de>) -> Met<'de>
        ensures node { result ≡ node_in levels element.entry.kind element.entry.value }
    {
        Met::of_seen(levels, false, element)
    }

    /// The same, whose texts are mended where this is so.
    #[inline(always)]
    pub(crate) fn of_seen(levels: u32, mends: bool, element: RawElement<'de>) -> Met<'de>
        ensures node { result ≡ seen mends (node_in levels element.entry.kind element.entry.value) }
    {
        Met {
            levels,
            mends,
            what: What::Element(element),
        }
    }

    /// A value in a document that another value is opened to.
    pub(crate) fn of_made(made: Made<'de>) -> Met<'de>
        ensures node { result ≡ made_node made.entry }
    {
        Met {
            levels: 0,
            mends: false,
            what: What::Made(made),
        }
    }

    /// A scope.
    pub fn of_scope(scope: Scope<'de>) -> Met<'de>
        ensures node { result ≡ scope_node scope.entry }
    {
        let what = match scope.names {
            Names::Bytes(document) => What::Document(document),
            Names::Pairs(document) => What::Pairs(document),
        };
        let levels = scope.levels;
        let mends = scope.mends;
        Met {
            levels,
            mends,
            what,
        }
    }

    /// The element whose value it is, with the levels left for it; `None` where it is no value of an element.
    #[inline(always)]
    pub fn element(&self) -> Option<(u32, &RawElement<'de>)>
        ensures element { IfSome result (λ p. self.now ≡ node_in p.0 p.1.now.kind p.1.now.value) }
    {
        if self.mends {
            return None;
        }
        match &self.what {
            What::Element(element) => Some((self.levels, element)),
            _ => None,
        }
    }

    /// The whole document or the scope of the input that it is, with the levels left for it; `None` for anything else, also for a document that is
    /// the value of an element.
    #[inline(always)]
    pub fn raw_document(&self) -> Option<(u32, RawDocument<'de>)>
        ensures document { IfSome result (λ p. self.now ≡ inner_node p.0 kinds.EmbeddedDocument (document_bytes p.1)) }
    {
        if self.mends {
            return None;
        }
        match &self.what {
            What::Document(document) => Some((self.levels, *document)),
            _ => None,
        }
    }

    /// The same value, whose texts are mended.
    #[tactic(auto, using(crate::proofs::SeenAlike::seen_mended))]
    pub fn mended(&self) -> Met<'de>
        ensures mended { result ≡ node.mended self.now }
    {
        let what = match &self.what {
            What::Element(element) => What::Element(element.clone()),
            What::Document(document) => What::Document(*document),
            What::Tree(value) => What::Tree(*value),
            What::Pairs(document) => What::Pairs(*document),
            What::Made(made) => What::Made(*made),
        };
        Met {
            levels: self.levels,
            mends: true,
            what,
        }
    }

    /// The same value, whose texts are mended where this is so.
    pub(crate) fn under(self, mends: bool) -> Met<'de>
        ensures seen { result ≡ seen mends self.entry }
    {
        if mends {
            return self.mended();
        }
        self
    }

    /// Its kind.
    #[tactic(auto, using(crate::proofs::SeenAlike::seen_kind, crate::proofs::NodeKinds::kind_in, crate::proofs::NodeKinds::kind_inner, crate::proofs::NodeKinds::document_kind, crate::proofs::NodeKinds::kind_tree))]
    #[inline(always)]
    pub fn kind(&self) -> ElementType
        ensures kind { result ≡ node.kind_of self.now }
    {
        match &self.what {
            What::Element(element) => element.element_type(),
            What::Document(_) => ElementType::EmbeddedDocument,
            What::Tree(value) => value.element_type(),
            What::Pairs(_) => ElementType::EmbeddedDocument,
            What::Made(made) => made.kind(),
        }
    }

    /// Whether it is null.
    #[tactic(auto, using(crate::proofs::SeenAlike::seen_null, crate::proofs::NodeNulls::null_in, crate::proofs::NodeNulls::null_inner, crate::proofs::NodeNulls::null_document, crate::proofs::NodeNulls::null_tree, crate::proofs::NodeNulls::null_made))]
    #[inline(always)]
    pub fn is_null(&self) -> bool
        ensures null { result ≡ is_null self.now }
    {
        match &self.what {
            What::Element(element) => is_null_kind(element.element_type()),
            What::Document(_) => false,
            What::Tree(value) => is_null_kind(value.element_type()),
            What::Pairs(_) => false,
            What::Made(_) => false,
        }
    }

    /// The value, judged before any shape looks at it: it is refused for its fault, and then, where no level is left, for
    /// being a document or an array.
    ///
    /// # Errors
    ///
    /// `Stop::Refused` with the first fault of the value (`Cause::Raw`), or with `TooDeep` where it is a document or an array and no level is left. `Stop::NoMemory`
    /// where memory ran out.
    #[inline(always)]
    pub fn judge(&self, alloc: Global) -> Reading<Value<'de>>
        ensures judged { Reaches value_view result (judged self.now) }
    {
        if self.mends {
            return judge_mended(alloc, self.levels, &self.what);
        }
        if let What::Element(element) = &self.what {
            return judge_element(alloc, self.levels, element);
        }
        judge_beyond(alloc, self.levels, &self.what)
    }

    /// The value, judged, where it is a scalar of the input that JSON has too; else `Scalar::Other`, which tells nothing.
    ///
    /// # Errors
    ///
    /// Of an element of the input, where no text is mended: `Stop::Refused` with its first fault (`Cause::Raw`); `Stop::NoMemory` where memory ran out.
    #[inline(always)]
    pub fn scalar(&self, alloc: Global) -> Reading<Scalar<'de>>
        ensures scalar { IsSeen result (judged self.now) }
    {
        if self.mends {
            return Ok(Scalar::Other);
        }
        match &self.what {
            What::Element(element) => scalar_in(alloc, self.levels, element),
            _ => Ok(Scalar::Other),
        }
    }

    /// The number that it is.
    ///
    /// # Errors
    ///
    /// Those of [`Met::judge`]; then `InvalidType` of its kind where it is neither an Int32 nor an Int64.
    #[inline(always)]
    pub fn integer(&self, alloc: Global) -> Reading<i64>
        ensures integer { Reaches (λ n. n) result (integer_at self.now) }
    {
        match self.scalar(alloc)? {
            Scalar::Int32(number) => Ok(i64::from(number)),
            Scalar::Int64(number) => Ok(number),
            _ => self.other_integer(alloc),
        }
    }

    // The same, wherever it comes from.
    #[inline(never)]
    fn other_integer(&self, alloc: Global) -> Reading<i64>
        ensures { Reaches (λ n. n) result (integer_at self.now) }
    {
        self.judge(alloc)?.integer(alloc)
    }

    /// The elements of the array that it is.
    ///
    /// # Errors
    ///
    /// Those of [`Met::judge`]; then `InvalidType` of its kind where it is no array.
    #[inline(never)]
    pub fn array(&self, alloc: Global) -> Reading<Items<'de>>
        ensures array { Reaches (λ e. e) result (array_at self.now) }
    {
        self.judge(alloc)?.array(alloc)
    }

    /// The elements of the document that it is or is opened to.
    ///
    /// # Errors
    ///
    /// Those of [`Met::judge`]; then `InvalidType` of its kind where it is neither a document nor opened to one.
    #[inline(never)]
    pub fn document(&self, alloc: Global) -> Reading<Elements<'de>>
        ensures document { Reaches (λ e. e) result (document_at self.now) }
    {
        self.judge(alloc)?.document(alloc)
    }
}

/// Whether values of the kind are null.
#[inline(always)]
fn is_null_kind(kind: ElementType) -> bool
    ensures { result ≡ is_null_kind kind }
{
    matches!(kind, ElementType::Null)
}
