//! Documents in which some elements are changed, by their paths, and all others stay as they are in their bytes.
#![tactic(auto)]

mod around;
mod bytes;
mod changes;
mod edit;
mod fault;
mod laws;
mod literal;
mod plan;

pub use bson_values::{Refused, Segment, Stop};
pub use changes::{Changes, NewValue};
pub use edit::edit_document;
pub use fault::EditFault;
pub use laws::{law_edit_again, law_edit_in_place, law_edit_kept};
pub use literal::Literal;
pub use plan::{Edit, Step};
