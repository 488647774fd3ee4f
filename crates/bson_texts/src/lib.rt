//! Texts and byte strings of values that are met, borrowed and owned; values that are dropped; the loops of readers.
#![tactic(auto)]

mod byte_string;
mod ignored;
mod text;

pub use byte_string::{borrow_bytes, buffer};
pub use ignored::ignore;
pub use text::{borrow_text, character, character_leaf, own_text};
