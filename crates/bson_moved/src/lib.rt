//! Values that are moved out of a tree in memory, at shapes of numbers, booleans, texts, options, sequences and structs.
#![tactic(auto)]

mod clean;
mod fitting;
mod known;
mod moving;
mod numbers;
mod shapes;

pub use clean::is_clean;
pub use fitting::has_view;
pub use moving::take;
pub use shapes::is_simple;
