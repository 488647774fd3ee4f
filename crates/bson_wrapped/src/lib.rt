//! Values of the wrapper keys of extended JSON, and extended values as data.
#![tactic(auto)]

mod binaries;
mod bodies;
pub mod data;
mod fields;
mod values;

pub use binaries::{read_binary, read_uuid};
pub use bodies::read_body;
pub use values::id_of_text;
