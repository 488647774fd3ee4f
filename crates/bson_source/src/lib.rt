//! Bytes taken from a source: so many, or those of its first document; no more than are asked for, and in memory no more than came.
#![tactic(auto)]

mod document;
mod taking;

pub use document::take_document;
pub use taking::{TakeFault, take_up_to};
