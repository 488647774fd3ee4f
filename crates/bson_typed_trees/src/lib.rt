//! Types whose values are made into BSON values and documents, and read from them.
#![tactic(auto)]

mod reading;
mod writing;

pub use reading::{from_bson, from_bson_with_options, from_document, from_document_with_options};
pub use writing::{to_bson, to_bson_with_options, to_document, to_document_with_options};
