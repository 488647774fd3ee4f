//! The parts of reading a value at a shape that read no value at another one: the element that names a variant, what its contents are read from, and elements that no field has.
#![tactic(auto)]

mod enumeration;
mod from_tree;
mod unknown;

pub use enumeration::{at_key, content_items, naming_element, unit_named};
pub use from_tree::content_elements;
pub use unknown::pass_unknown;
