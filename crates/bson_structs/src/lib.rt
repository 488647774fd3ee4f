//! What a type of one's own is written and read with: the fields of a struct, and the variants of an enum.
#![tactic(auto)]

mod reading;
mod shapes;
mod variants;
mod writing;

pub use reading::StructFields;
pub use shapes::{FieldShapes, VariantShapes};
pub use variants::{is_unit_variant, newtype_value};
pub use writing::{add_field, newtype_variant, struct_datum, unit_variant};
