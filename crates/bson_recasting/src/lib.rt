//! The calls that read a document at a shape and write it anew.
#![tactic(auto)]

mod recasting;

pub use bson_tree_recast::{RecastError, recast_by_tree};
pub use recasting::{recast, recast_to_buf, recast_utf8_lossy};
