//! A document read at a shape and written anew by way of trees: the document of its bytes, the value that this is, the document that the value is made into.
#![tactic(auto)]

mod by_tree;
mod error;

pub use by_tree::recast_by_tree;
pub use error::RecastError;
