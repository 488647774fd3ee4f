//! A file of documents read at a shape and written anew, and the run of the program that does it.
#![tactic(auto)]

mod migrating;
mod running;
mod status;

pub use migrating::{MigrateError, Migration, Refused, migrate};
pub use running::{lines_of, run_migrate};
pub use status::MigrateStatus;
