//! Recasting in one pass: each value is judged and written anew before the next one is looked at, and no datum is made.
//!
//! It takes the shapes and documents that are common. A value inside a document that it does not take is read and written by itself, and for a document that
//! it does not take it gives up: then the caller reads and writes in two steps.
#![tactic(auto)]

mod alone;
mod array;
mod document;
mod enumeration;
mod map;
mod structure;
mod tuple;
mod value;

pub use document::{recast_at_once, recast_at_once_utf8_lossy};
