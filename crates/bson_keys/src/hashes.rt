// The hashes of keys.
ghost use Rattle.std.specs.Prelude.{◌≡◌, map, IfOk};
ghost use Rattle.std.specs.Map.Iter.{deref};
ghost use Rattle.bson_keys.specs.Hashes.{hash_of, second_hash_of};

use std::alloc::{AllocError, Global};
use std::hash::{DefaultHasher, FoldHasher, Hasher};

// The hash of a key.
#[tactic(auto, unfolding(crate::specs::Hashes::hash_of))]
fn hash_of(key: &str) -> u64
    ensures { result ≡ hash_of key.now }
{
    let mut hasher = FoldHasher::default();
    hasher.write(key.as_bytes());
    hasher.finish()
}

// Another hash of a key. It takes longer; keys that were made to have the same first hash have different ones of these.
#[tactic(auto, unfolding(crate::specs::Hashes::second_hash_of))]
pub(crate) fn second_hash_of(key: &str) -> u64
    ensures { result ≡ second_hash_of key.now }
{
    let mut hasher = DefaultHasher::new();
    hasher.write(key.as_bytes());
    hasher.finish()
}

// The hashes of these keys.
pub(crate) fn hashes_of(keys: &[&str], alloc: Global) -> Result<Vec<u64>, AllocError>
    ensures { IfOk result (λ v. v.items ≡ map hash_of (map deref keys.now)) }
{
    let mut hashes = Vec::with_capacity(alloc, keys.len())?;
    for key in keys {
        hashes.push(hash_of(key))?;
    }
    Ok(hashes)
}

// The second hashes of these keys.
pub(crate) fn second_hashes_of(keys: &[&str], alloc: Global) -> Result<Vec<u64>, AllocError>
    ensures { IfOk result (λ v. v.items ≡ map second_hash_of (map deref keys.now)) }
{
    let mut hashes = Vec::with_capacity(alloc, keys.len())?;
    for key in keys {
        hashes.push(second_hash_of(key))?;
    }
    Ok(hashes)
}
