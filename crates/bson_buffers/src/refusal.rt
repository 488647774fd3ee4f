/// A refused document of a file, and where its text is. C reads it as it lies in memory.
#[repr(C)]
#[derive(Clone, Copy, Debug, PartialEq, Eq)]
pub struct Refusal {
    /// The number of the document in the file, counted from 0.
    pub index: u64,
    /// Where the document begins: a number of bytes from the start of the file.
    pub offset: usize,
    /// The number of the status: of `ReadRefused` or of `WriteRefused`.
    pub status: u32,
    /// Where its text begins in the text of the call: a number of bytes from the start.
    pub text_start: usize,
    /// How many bytes its text takes.
    pub text_length: usize,
    /// How many bytes of its text are before the cause: `error at PATH: `, or none.
    pub cause_start: usize,
}
