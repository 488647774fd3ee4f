/// A time in seconds since 1970, and an increment that orders what happens within one second.
///
/// Source: bsonspec.org, version 1.1, `Timestamp`.
#[derive(Clone, Copy, Debug, PartialEq, Eq)]
pub struct Timestamp {
    /// Seconds since 1970.
    pub time: u32,
    /// The place within the second.
    pub increment: u32,
}
