//! The structs of reserved names, by which values of kinds that serde's data model lacks are given: what their fields are accepted as.
#![tactic(auto)]

mod accepted;
mod list;
mod lists;
mod parts;
mod scoped;
mod unique_id;
mod unwrapping;

pub use accepted::Accepted;
pub use scoped::scoped_code;
pub use unique_id::{UuidBytes, uuid_bytes};
pub use unwrapping::unwrap;
