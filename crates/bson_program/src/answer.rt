ghost use Rattle.std.specs.Prelude.{◌≡◌, [], string_bytes};

use std::alloc::Global;

/// A status, with what must be written to the two sinks.
#[derive(Drop)]
pub struct Answer<S> {
    /// How the program ends once all is written.
    pub status: S,
    /// The bytes that must be written to the output.
    pub bytes: Vec<u8>,
    /// The lines that must be written to the output for lines.
    pub lines: String,
}

impl<S> Answer<S> {
    /// An answer that is a line alone.
    pub fn line(alloc: Global, status: S, line: String) -> Answer<S>
        ensures status { result.status ≡ status }
        ensures bytes { result.bytes.items ≡ [] }
        ensures lines { string_bytes result.lines ≡ string_bytes line }
    {
        Answer {
            status,
            bytes: Vec::new(alloc),
            lines: line,
        }
    }
}
