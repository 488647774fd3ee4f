//! The run of the program that answers the documents of its input one after another.
#![tactic(auto)]

mod laws;
mod recasts;
mod running;
mod system;

pub use laws::{law_migrate_in_parts, law_stream_is_migrate};
pub use recasts::Recasts;
pub use running::run_stream;
pub use system::run_stream_here;
