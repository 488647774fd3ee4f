//! The keys of maps and of documents, told apart. So many keys `n` take `n log n` steps at most, whatever the keys are.
#![tactic(auto)]

mod hashes;
mod met;
mod places;

pub use met::MetKeys;
pub use places::MapKeys;
