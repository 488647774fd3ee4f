/// A decimal floating point number of 128 bits, by its sixteen bytes, the low byte first.
///
/// Two are equal exactly where their bytes are.
///
/// Source: bsonspec.org, version 1.1, `decimal128`.
#[derive(Clone, Copy, Debug, PartialEq, Eq)]
pub struct Decimal128(pub [u8; 16]);
