//! Documents one after another from a source: each is answered as soon as it is there, in memory for one document.
#![tactic(auto)]

mod answering;
mod closing;
mod due;
mod job;
mod next;
mod streaming;
mod taking;
mod waits;

pub use closing::Ending;
pub use job::Job;
pub use next::{Piece, next_document};
pub use streaming::stream;
pub use waits::Waits;
