//! What may be wrong with the bytes of a document.
#![tactic(auto)]

pub mod raw;
