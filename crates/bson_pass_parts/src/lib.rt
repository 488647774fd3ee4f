//! The parts of the pass: what is asked of a value before any of it is written, and what is written of it without a look at the values inside.
//!
//! A value is copied as it stands (`kept`), written anew as a leaf (`leaf`), or dropped (`dropped`). The pass itself is `bson_one_pass`.
#![tactic(auto)]

mod binary;
mod bytes;
mod dropped;
mod element;
mod extended;
mod found;
mod kept;
mod leaf;
mod named;
mod owned;
mod run;
mod taken;
mod variant;

pub use bytes::{close, put, put_front, set_kind};
pub use dropped::drop_value;
pub use element::value_of;
pub use found::{find_elements, is_free};
pub use kept::{MOST_NESTED, is_kept, is_leaf_kept};
pub use leaf::{recast_int32, recast_int64, recast_leaf};
pub use named::{named_front, named_len, named_variant, value_under};
pub use owned::{borrows_nothing, borrows_nothing_in};
pub use run::{element_len, put_element, put_run};
pub use taken::{is_integer, is_taken, names_taken, takes_keys};
pub use variant::recast_variant;
