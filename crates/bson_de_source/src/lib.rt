//! Reading one document from a source, at a shape.
#![tactic(auto)]

mod reading;

pub use reading::{from_reader_at, from_reader_utf8_lossy_at};
