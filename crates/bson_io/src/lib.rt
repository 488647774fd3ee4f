//! Where bytes come from and where they go: sources and sinks with a count of their faults, a
//! source that reads in large pieces, an output buffer whose bytes can be patched, and a counter of
//! steps that takes no room at run time.
#![tactic(auto)]

mod adapters;
mod buffered;
mod copy;
mod count;
mod ends;
mod memory;
mod out;
mod steady;
mod steps;
mod transfer;

pub use adapters::{ReadAdapter, WriteAdapter};
pub use buffered::Buffered;
pub use ends::{Failed, Sink, Source};
pub use memory::{MemorySink, MemorySource};
pub use out::Out;
pub use steady::{SteadySink, SteadySource};
pub use steps::{Ledger, Steps, Tally};
pub use transfer::{MOST, ReadFault, read_to_end, write_due};
