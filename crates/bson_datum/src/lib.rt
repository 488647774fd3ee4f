//! Values of serde's data model: what they hold, their copies and their equality.
#![tactic(auto)]

mod access;
mod clone;
mod datum;
mod equality;
mod raw_arr;
mod raw_doc;

pub use bson_base::MAX_NESTING_LEVEL;
pub use datum::{Datum, Entry, Field};
pub use raw_arr::RawArr;
pub use raw_doc::RawDoc;
