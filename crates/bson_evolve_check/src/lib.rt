//! Whether each sound document that is written at one shape is read at another.
#![tactic(auto)]

mod checking;
mod content;
mod keys;
mod leaves;
mod met;
mod parts;
mod path;
mod peel;
mod place;
mod plain;
mod row;
mod search;
mod step;
mod tables;
mod variants;

pub use checking::{CheckError, Verdict, check};
// What a search for all differences is made of.
pub use content::{content_of, is_field, is_option, push_content, shape_of};
pub use met::Met;
pub use parts::{Part, Parts};
pub use path::path_of;
pub use place::{Place, Table};
pub use plain::is_plain;
pub use row::row_of;
pub use search::{Entry, Origin, Pending, Waiting, next_unmet, push_steps, start};
pub use step::{Answer, Inner, Step, Way};
