//! The texts of times: RFC 3339, read as milliseconds since the start of 1970 in UTC, and printed from them.
#![tactic(auto)]

mod printing;
mod reading;

pub use printing::{DateError, date_text};
pub use reading::date_of_text;
