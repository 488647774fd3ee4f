//! What the programs of a command line share: the shape that a word asks for, an input read to its end, and an answer written to the two sinks.
#![tactic(auto)]

mod answer;
mod delivery;
mod endings;
mod input;
mod shape_word;
mod system;

pub use answer::Answer;
pub use delivery::finish;
pub use endings::{Endings, InputEndings};
pub use input::read_input;
pub use shape_word::shape_of_word;
pub use system::{BAD_ARGUMENTS, words};
