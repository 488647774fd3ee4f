//! Documents as they are in their bytes: the test of their envelope, their elements and values, without a copy.
#![tactic(auto)]

mod array;
mod document;
mod documents;
mod element;
pub mod extent;
mod get;
mod iter;
mod owned;
mod parts;
pub mod reading;
mod tree;
mod unjudged;
pub mod utf8;
mod value;

pub use array::RawArray;
pub use bson_faults::raw;
pub use bson_io::{
    Failed, Ledger, MemorySink, MemorySource, Out, ReadAdapter, Sink, Source, SteadySink,
    SteadySource, Steps, Tally, WriteAdapter,
};
pub use document::RawDocument;
pub use documents::RawDocuments;
pub use element::RawElement;
pub use iter::{RawIter, next_element};
pub use owned::{RawArrayBuf, RawDocumentBuf};
pub use unjudged::Unjudged;
pub use value::RawBsonRef;
