//! The fields of a struct while they are read: the place of a name among them, the next element for each of them, and the values that were read so far.
#![tactic(auto)]

mod index;
mod mode;
mod named;
mod next_item;
mod slots;

pub use index::{NameIndex, scan};
pub use mode::shape_for_reader;
pub use named::{named_field, named_struct, named_struct_variant};
pub use next_item::next_part;
pub use slots::Slots;
