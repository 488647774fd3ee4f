//! Values that are written at `any` or at `bson` as they were read: they are looked at once, so that a caller copies their bytes in one piece.
#![tactic(auto)]

mod elements;
mod keys;
mod untyped;
mod values;

pub use elements::{frame_len, is_itself};
pub use untyped::UntypedLeaf;
pub use values::{boolean_len, text_len};
