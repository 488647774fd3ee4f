use std::hash::{BuildHasher, DefaultHasher, Hasher};

/// The seed of the hashes of a document's keys. No result depends on it, only how long a look-up takes.
///
/// A key is hashed by std's `DefaultHasher`, over the seed and then the key. Whoever wants to make keys with one hash has to know the seed first. So a document whose
/// keys come from outside is given the hash of all bytes in which they came: with other keys these are other bytes, and almost surely another seed.
#[derive(Clone, Copy, Debug, PartialEq, Eq)]
pub struct KeySeed(u64);

impl KeySeed {
    /// The seed 0, the same in every program: for keys that nobody outside chooses.
    pub fn new() -> KeySeed {
        KeySeed(0)
    }

    /// The seed of these bytes.
    pub fn of(bytes: &[u8]) -> KeySeed {
        let mut hasher = DefaultHasher::new();
        hasher.write(bytes);
        KeySeed(hasher.finish())
    }
}

impl BuildHasher for KeySeed {
    ghost use Rattle.std.specs.Int.{w64, to_le_bytes};
    ghost use Rattle.std.specs.Hash.DefaultHasher.{initial, write};

    type Hasher = DefaultHasher;

    ghost build_hasher = { λ s. write initial (to_le_bytes w64 s.0) };

    fn build_hasher(&self) -> DefaultHasher {
        let mut hasher = DefaultHasher::new();
        hasher.write(&self.0.to_le_bytes());
        hasher
    }
}
