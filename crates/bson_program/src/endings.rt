// How a program ends where it has no answer of its own.

/// The statuses of each program where the answer is not written.
#[derive(Clone, Copy)]
pub struct Endings<S> {
    /// A call on one of the sinks failed.
    pub sink_fault: S,
    /// Memory ran out.
    pub no_memory: S,
}

/// The statuses of a program whose input is not read to its end.
#[derive(Clone, Copy)]
pub struct InputEndings<S> {
    /// A call on the input failed.
    pub source_fault: S,
    /// The input has more than [`bson_io::MOST`] bytes.
    pub too_long: S,
    /// The line that says so.
    pub too_long_line: &'static str,
}
