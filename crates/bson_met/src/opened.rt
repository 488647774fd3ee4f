// Values of kinds that serde's data model lacks, and the documents that they are opened to.
ghost use Rattle.std.specs.Prelude.{◌≡◌, Some};
ghost use Rattle.bson_rawdoc.specs.Node.{extended_kind, kind_of, string, made_document, mended, mended_value};
ghost use Rattle.bson_met.specs.First.{IsFirst};
ghost use Rattle.bson_met.specs.OpenedView.{extended_view, made_node, left_nodes, scope_node};
ghost use Rattle.bson_met.specs.PieceView.{met_text};

use crate::bytes::MetBytes;
use crate::met::Met;
use crate::text::MetText;
use bson_base::{BinarySubtype, DateTime, Document, ObjectId, Timestamp};
use bson_kinds::ElementType;
use bson_rawdoc::RawDocument;

/// A value of a kind that serde's data model lacks.
#[derive(Clone, Copy)]
pub enum Extended<'de> {
    /// Bytes of a subtype other than 0.
    Binary(BinarySubtype, MetBytes<'de>),
    /// The deprecated kind without a value.
    Undefined,
    /// Twelve bytes that name a document.
    ObjectId(MetBytes<'de>),
    /// A time.
    DateTime(DateTime),
    /// A pattern and its options.
    RegularExpression(MetText<'de>, MetText<'de>),
    /// A namespace and an ObjectId.
    DbPointer(MetText<'de>, ObjectId),
    /// JavaScript code.
    JavaScriptCode(MetText<'de>),
    /// A text of the deprecated kind Symbol.
    Symbol(MetText<'de>),
    /// JavaScript code with a document of its names.
    JavaScriptCodeWithScope(MetText<'de>, Scope<'de>),
    /// A time in seconds and an increment.
    Timestamp(Timestamp),
    /// A decimal floating point number of 128 bits.
    Decimal128(MetBytes<'de>),
    /// The value that is greater than every other.
    MaxKey,
    /// The value that is less than every other.
    MinKey,
}

/// The names that a code may use, as a document with so many levels left for it.
#[derive(Clone, Copy)]
pub struct Scope<'de> {
    pub(crate) levels: u32,
    // Whether its texts are mended.
    pub(crate) mends: bool,
    pub(crate) names: Names<'de>,
}

/// Where the names of a scope are.
#[derive(Clone, Copy)]
pub(crate) enum Names<'de> {
    /// In a document of the input.
    Bytes(RawDocument<'de>),
    /// In a document of a tree.
    Pairs(&'de Document),
}

/// What is left of a document that a value is opened to, or of one inside it.
#[derive(Clone, Copy)]
pub(crate) struct Opened<'de> {
    pub(crate) value: Extended<'de>,
    pub(crate) place: Place,
}

/// Where what is left begins.
#[derive(Clone, Copy)]
pub(crate) enum Place {
    /// At the first element of the document.
    Start,
    /// Behind its first element.
    Behind,
    /// At the first element of the document inside it.
    Inside,
    /// Behind the first element of the document inside it.
    InsideBehind,
    /// At the first element of the document inside that.
    Deep,
    /// At the end.
    End,
}

/// A value in a document that a value is opened to.
#[derive(Clone, Copy)]
pub(crate) enum Made<'de> {
    /// A text.
    Text(MetText<'de>),
    /// A byte string.
    Bytes(MetBytes<'de>),
    /// True.
    True,
    /// The number 1 as an Int32.
    One,
    /// A number as an Int64.
    Long(u32),
    /// A document inside.
    Document(Opened<'de>),
}

/// A value with its key, and what is left behind it.
#[derive(Drop)]
pub(crate) struct First<'de> {
    pub(crate) key: &'de str,
    pub(crate) value: Met<'de>,
    pub(crate) rest: Place,
}

impl<'de> Extended<'de> {
    /// The kind of the value.
    pub fn kind(self) -> ElementType
        ensures kind { result ≡ extended_kind (extended_view self.entry) }
    {
        match self {
            Extended::Binary(..) => ElementType::Binary,
            Extended::Undefined => ElementType::Undefined,
            Extended::ObjectId(_) => ElementType::ObjectId,
            Extended::DateTime(_) => ElementType::DateTime,
            Extended::RegularExpression(..) => ElementType::RegularExpression,
            Extended::DbPointer(..) => ElementType::DbPointer,
            Extended::JavaScriptCode(_) => ElementType::JavaScriptCode,
            Extended::Symbol(_) => ElementType::Symbol,
            Extended::JavaScriptCodeWithScope(..) => ElementType::JavaScriptCodeWithScope,
            Extended::Timestamp(_) => ElementType::Timestamp,
            Extended::Decimal128(_) => ElementType::Decimal128,
            Extended::MaxKey => ElementType::MaxKey,
            Extended::MinKey => ElementType::MinKey,
        }
    }
}

impl<'de> Extended<'de> {
    /// The same value, whose texts are mended.
    pub(crate) fn mended(self) -> Extended<'de>
        ensures { extended_view result ≡ mended_value (extended_view self.entry) }
    {
        match self {
            Extended::RegularExpression(pattern, options) => {
                Extended::RegularExpression(pattern.mended(), options.mended())
            }
            Extended::DbPointer(namespace, id) => Extended::DbPointer(namespace.mended(), id),
            Extended::JavaScriptCode(code) => Extended::JavaScriptCode(code.mended()),
            Extended::Symbol(text) => Extended::Symbol(text.mended()),
            Extended::JavaScriptCodeWithScope(code, scope) => {
                Extended::JavaScriptCodeWithScope(code.mended(), scope.mended())
            }
            other => other,
        }
    }
}

impl<'de> Scope<'de> {
    // The same names, whose texts are mended.
    #[tactic(auto, using(crate::proofs::SeenAlike::seen_mended))]
    fn mended(self) -> Scope<'de>
        ensures { scope_node result ≡ mended (scope_node self.entry) }
    {
        Scope {
            levels: self.levels,
            mends: true,
            names: self.names,
        }
    }
}

impl<'de> Made<'de> {
    /// The kind of the value.
    pub(crate) fn kind(&self) -> ElementType
        ensures kind { result ≡ kind_of (made_node self.now) }
    {
        match self {
            Made::Text(_) => ElementType::String,
            Made::Bytes(_) => ElementType::Binary,
            Made::True => ElementType::Boolean,
            Made::One => ElementType::Int32,
            Made::Long(_) => ElementType::Int64,
            Made::Document(_) => ElementType::EmbeddedDocument,
        }
    }
}

/// A value at a key, and what is left behind it.
fn value_at<'de>(key: &'de str, value: Made<'de>, rest: Place) -> First<'de>
    ensures key { result.key.now ≡ key.now }
    ensures value { result.value ≡ made_node value.entry }
    ensures rest { result.rest ≡ rest }
{
    let value = Met::of_made(value);
    First { key, value, rest }
}

/// A text at a key, and what is left behind it.
fn text_at<'de>(key: &'de str, text: MetText<'de>, rest: Place) -> First<'de>
    ensures key { result.key.now ≡ key.now }
    ensures value { result.value ≡ string (met_text text.entry) }
    ensures rest { result.rest ≡ rest }
{
    value_at(key, Made::Text(text), rest)
}

/// The document inside, at a key, behind which nothing is left.
fn document_at<'de>(key: &'de str, value: Extended<'de>) -> First<'de>
    ensures key { result.key.now ≡ key.now }
    ensures value { result.value ≡ made_document (left_nodes Place.Inside (extended_view value.entry)) }
    ensures rest { result.rest ≡ Place.End }
{
    let place = Place::Inside;
    value_at(key, Made::Document(Opened { value, place }), Place::End)
}

impl<'de> Opened<'de> {
    /// The first value, and what is left behind it.
    #[inline(never)]
    pub(crate) fn first(self) -> Option<First<'de>>
        ensures first { IsFirst self.entry.place (extended_view self.entry.value) result }
    {
        match self.place {
            Place::Start => Some(at_start(self.value)),
            Place::Behind => behind(self.value),
            Place::Inside => inside(self.value),
            Place::InsideBehind => inside_behind(self.value),
            Place::Deep => deep(self.value),
            Place::End => None,
        }
    }
}

/// The first value in the document that a value is opened to.
fn at_start<'de>(value: Extended<'de>) -> First<'de>
    ensures { IsFirst Place.Start (extended_view value.entry) (Some result) }
{
    match value {
        Extended::Binary(..) => document_at("$binary", value),
        Extended::Undefined => value_at("$undefined", Made::True, Place::End),
        Extended::ObjectId(bytes) => {
            value_at("$oid", Made::Text(MetText::Digits(bytes)), Place::End)
        }
        Extended::DateTime(_) => document_at("$date", value),
        Extended::RegularExpression(..) => document_at("$regularExpression", value),
        Extended::DbPointer(..) => document_at("$dbPointer", value),
        Extended::JavaScriptCode(code) => text_at("$code", code, Place::End),
        Extended::Symbol(text) => text_at("$symbol", text, Place::End),
        Extended::JavaScriptCodeWithScope(code, _) => text_at("$code", code, Place::Behind),
        Extended::Timestamp(_) => document_at("$timestamp", value),
        Extended::Decimal128(bytes) => {
            value_at("$numberDecimalBytes", Made::Bytes(bytes), Place::End)
        }
        Extended::MaxKey => value_at("$maxKey", Made::One, Place::End),
        Extended::MinKey => value_at("$minKey", Made::One, Place::End),
    }
}

/// The value behind the first: the scope of a code.
fn behind<'de>(value: Extended<'de>) -> Option<First<'de>>
    ensures { IsFirst Place.Behind (extended_view value.entry) result }
{
    let Extended::JavaScriptCodeWithScope(_, scope) = value else {
        return None;
    };
    Some(First {
        key: "$scope",
        value: Met::of_scope(scope),
        rest: Place::End,
    })
}

/// The first value in the document inside.
fn inside<'de>(value: Extended<'de>) -> Option<First<'de>>
    ensures { IsFirst Place.Inside (extended_view value.entry) result }
{
    match value {
        Extended::Binary(subtype, _) => {
            let text = Made::Text(MetText::Subtype(subtype));
            Some(value_at("subType", text, Place::InsideBehind))
        }
        Extended::DateTime(time) => {
            let text = Made::Text(MetText::Number(time));
            Some(value_at("$numberLong", text, Place::End))
        }
        Extended::RegularExpression(pattern, _) => {
            Some(text_at("pattern", pattern, Place::InsideBehind))
        }
        Extended::DbPointer(namespace, _) => {
            Some(text_at("$ref", namespace, Place::InsideBehind))
        }
        Extended::Timestamp(time) => {
            Some(value_at("t", Made::Long(time.time), Place::InsideBehind))
        }
        Extended::Undefined
        | Extended::ObjectId(_)
        | Extended::JavaScriptCode(_)
        | Extended::Symbol(_)
        | Extended::JavaScriptCodeWithScope(..)
        | Extended::Decimal128(_)
        | Extended::MaxKey
        | Extended::MinKey => None,
    }
}

/// The second value in the document inside.
fn inside_behind<'de>(value: Extended<'de>) -> Option<First<'de>>
    ensures { IsFirst Place.InsideBehind (extended_view value.entry) result }
{
    match value {
        Extended::Binary(_, bytes) => {
            let text = Made::Text(MetText::Base64(bytes));
            Some(value_at("base64", text, Place::End))
        }
        Extended::RegularExpression(_, options) => { Some(text_at("options", options, Place::End)) }
        Extended::DbPointer(..) => {
            let place = Place::Deep;
            let document = Made::Document(Opened { value, place });
            Some(value_at("$id", document, Place::End))
        }
        Extended::Timestamp(time) => Some(value_at("i", Made::Long(time.increment), Place::End)),
        Extended::Undefined
        | Extended::ObjectId(_)
        | Extended::DateTime(_)
        | Extended::JavaScriptCode(_)
        | Extended::Symbol(_)
        | Extended::JavaScriptCodeWithScope(..)
        | Extended::Decimal128(_)
        | Extended::MaxKey
        | Extended::MinKey => None,
    }
}

/// The value in the document inside that: the ObjectId of a DbPointer.
fn deep<'de>(value: Extended<'de>) -> Option<First<'de>>
    ensures { IsFirst Place.Deep (extended_view value.entry) result }
{
    let Extended::DbPointer(_, id) = value else {
        return None;
    };
    Some(value_at("$oid", Made::Text(MetText::Id(id)), Place::End))
}
