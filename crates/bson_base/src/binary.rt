ghost use Rattle.std.specs.Prelude.{◌≡◌};

/// What the bytes of a binary value are.
///
/// Subtype 0 is bytes without a further meaning, 2 the old form of it, 4 a UUID.
///
/// Source: bsonspec.org, version 1.1, `subtype`.
#[derive(Clone, Copy, Debug, PartialEq, Eq)]
pub struct BinarySubtype(pub u8);

/// Bytes with a subtype.
///
/// Source: bsonspec.org, version 1.1, `binary`.
#[derive(Debug, Drop)]
pub struct Binary {
    /// What the bytes are.
    pub subtype: BinarySubtype,
    /// The bytes.
    pub bytes: Vec<u8>,
}

impl Binary {
    /// The binary of these parts. It takes no memory.
    pub fn from_parts(subtype: BinarySubtype, bytes: Vec<u8>) -> Binary
        ensures subtype { result.subtype ≡ subtype }
        ensures bytes { result.bytes ≡ bytes }
    {
        Binary { subtype, bytes }
    }
}
