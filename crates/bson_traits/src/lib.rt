//! The types whose values are written and read: what each is as a value of serde's data model, its shape, and that it is read as it was written.
#![tactic(auto)]

mod binary;
mod extended;
mod known_trees;
mod map;
mod numbers;
mod option;
mod scalars;
mod sequence;
mod shapes;
mod sixteen;
mod structs;
mod texts;
mod traits;
mod trees;

pub use bson_type_data::{date_datum, id_datum, not_fitting, refuse, stamp_datum};
pub use shapes::{lossy_shape, readable_shape, shape_of};
pub use traits::{Deserialize, EqualByContents, NeverNull, RoundTrip, Serialize};
