/// A floating point number of 64 bits, by its eight bytes, the low byte first.
///
/// Two are equal exactly where their bytes are: a NaN equals itself, and the two zeros differ.
///
/// Source: bsonspec.org, version 1.1, `double`.
#[derive(Clone, Copy, Debug, PartialEq, Eq)]
pub struct Double(pub [u8; 8]);
