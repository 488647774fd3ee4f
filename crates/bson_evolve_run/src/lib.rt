//! The run of the program that compares two shapes.
#![tactic(auto)]

mod running;
mod shape_words;
mod status;

pub use running::run_check;
pub use status::CheckStatus;
