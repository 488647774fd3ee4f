// Sources that wait.
use bson_io::{Buffered, MemorySource, Source, SteadySource};

/// A source that tells whether its next call may wait for bytes that are still to come.
///
/// No contract says what it answers: it decides when something is written, and not what.
pub trait Waits: Source {
    /// Whether the next call may wait.
    fn may_wait(&self) -> bool;
}

impl<S: Source> Waits for Buffered<S> {
    fn may_wait(&self) -> bool {
        self.is_empty()
    }
}

/// Each call may wait: whoever is tested with it sees what is written before each call.
impl Waits for MemorySource {
    fn may_wait(&self) -> bool {
        true
    }
}

/// Its bytes are there.
impl Waits for SteadySource<'_> {
    fn may_wait(&self) -> bool {
        false
    }
}
