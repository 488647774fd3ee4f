//! The run of the program that reads a document at a shape and writes it anew.
#![tactic(auto)]

mod digits;
mod made_rows;
mod making;
mod options;
mod running;
mod status;
mod system;

pub use running::{law_run_again, run};
pub use status::Status;
pub use system::run_here;
