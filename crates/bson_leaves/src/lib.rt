//! Reading a value that is met at a leaf of serde's data model, the entries of a map, and variants by their names.
#![tactic(auto)]

mod any;
mod entries;
mod leaf;
mod unit;

pub use entries::Entries;
pub use leaf::{is_extended, null, read_leaf};
pub use unit::{unit_of, variant_of};
