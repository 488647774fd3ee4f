ghost use Rattle.std.specs.Prelude.{◌≡◌};
ghost use Rattle.bson_buffers.specs.Number.{number_of};

/// How a call ended.
#[derive(Clone, Copy, Debug, PartialEq, Eq)]
pub enum Status {
    /// All that was asked for was done.
    Done,
    /// Some documents of a file were refused; the others were written.
    SomeRefused,
    /// The bytes that stand for a shape are the notation of none.
    ShapeRefused,
    /// The document is not read at the shape.
    ReadRefused,
    /// What was read is not written.
    WriteRefused,
    /// The file cannot be cut into documents, or not from the place on that was asked for.
    Broken,
    /// The file has no document at the place, since it ends there or before.
    End,
    /// The output takes more bytes than its buffer has.
    BufferTooSmall,
    /// Memory ran out.
    NoMemory,
    /// The shapes are not compatible.
    Different,
    /// The bytes that stand for the old of two shapes are the notation of none, or of one that is not plain.
    OldRefused,
    /// The same of the new one.
    NewRefused,
}

impl Status {
    /// The number that stands for the status outside: 0 to 11 in the order above.
    pub fn number(self) -> u32
        ensures number { result ≡ number_of self }
    {
        match self {
            Status::Done => 0,
            Status::SomeRefused => 1,
            Status::ShapeRefused => 2,
            Status::ReadRefused => 3,
            Status::WriteRefused => 4,
            Status::Broken => 5,
            Status::End => 6,
            Status::BufferTooSmall => 7,
            Status::NoMemory => 8,
            Status::Different => 9,
            Status::OldRefused => 10,
            Status::NewRefused => 11,
        }
    }
}
