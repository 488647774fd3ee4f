// The keys of a document that were met.
ghost use Rattle.std.specs.Prelude.{◌≡◌, List, [], ◌∷◌, ◌++◌, map, IsTrue};
ghost use Rattle.std.specs.List.{IsDistinct};
ghost use Rattle.std.specs.List.Sorted.{IsStrictlyIncreasing};
ghost use Rattle.std.specs.Map.Iter.{deref};
ghost use Rattle.std.specs.Ordering.{eq_by_cmp, nat_cmp};
ghost use Rattle.std.specs.Str.{bytes_eq};
ghost use Rattle.bson_kinds.specs.Text.{Utf8};
ghost use Rattle.bson_keys.specs.New.{is_new};
ghost use Rattle.bson_keys.specs.Met.{HasKeys};

use crate::hashes::{hashes_of, second_hashes_of};
use arrayvec::ArrayVec;
use std::alloc::Global;

/// So many keys are each compared with those before it; where there are more, their hashes are put in order.
const MOST_COMPARED: usize = 16;

/// The keys of a document that were met: they are different, as far as they were compared.
#[derive(Drop)]
pub struct MetKeys<'a> {
    few: ArrayVec<&'a str, MOST_COMPARED>,
    // All keys, where there are more than a few.
    many: Vec<&'a str>,
}

impl<'a> MetKeys<'a> {
    /// No keys.
    pub fn new(alloc: Global) -> MetKeys<'a>
        ensures none { HasKeys result [] }
    {
        MetKeys {
            few: ArrayVec::new(),
            many: Vec::new(alloc),
        }
    }

    /// Adds a key. `false` where it is known to be among those that were met, or memory runs out.
    #[inline(always)]
    pub fn add(&mut self, key: &'a str) -> bool
        ensures added { IsTrue result → (keys : List Utf8) → HasKeys self.old keys → HasKeys self.new (keys ++ key.now ∷ []) }
    {
        if !self.many.is_empty() || self.few.is_full() {
            return self.add_to_many(key);
        }
        if !is_new(key, self.few.as_slice()) {
            return false;
        }
        self.few.push(key);
        true
    }

    // Adds a key to the others, where they are more than a few or become so.
    #[inline(never)]
    fn add_to_many(&mut self, key: &'a str) -> bool
        ensures added { IsTrue result → (keys : List Utf8) → HasKeys self.old keys → HasKeys self.new (keys ++ key.now ∷ []) }
    {
        if !self.many.is_empty() {
            return self.many.push(key).is_ok();
        }
        self.many.extend_from_slice(self.few.as_slice()).is_ok() && self.many.push(key).is_ok()
    }

    /// Whether the keys that were met are different. `false` says nothing of them.
    #[inline(always)]
    pub fn are_different(&self) -> bool
        ensures different { IsTrue result → (keys : List Utf8) → HasKeys self.now keys → IsDistinct bytes_eq keys }
    {
        self.many.is_empty() || are_different(self.many.as_slice(), *self.many.allocator())
    }
}

// Whether a key is none of these.
#[inline(always)]
fn is_new(key: &str, names: &[&str]) -> bool
    ensures { result ≡ is_new key.now (map deref names.now) }
{
    for name in names {
        if key == *name {
            return false;
        }
    }
    true
}

// Whether these keys are different, by their hashes. `false` says nothing of them.
#[inline(never)]
fn are_different(keys: &[&str], alloc: Global) -> bool
    ensures { IsTrue result → IsDistinct bytes_eq (map deref keys.now) }
{
    have_unlike_hashes(keys, alloc) || have_unlike_second_hashes(keys, alloc)
}

// Whether no two of these keys have the same hash.
fn have_unlike_hashes(keys: &[&str], alloc: Global) -> bool
    ensures { IsTrue result → IsDistinct bytes_eq (map deref keys.now) }
{
    match hashes_of(keys, alloc) {
        Ok(mut hashes) => are_unlike(&mut hashes),
        Err(_) => false,
    }
}

// Whether no two of these keys have the same second hash.
fn have_unlike_second_hashes(keys: &[&str], alloc: Global) -> bool
    ensures { IsTrue result → IsDistinct bytes_eq (map deref keys.now) }
{
    match second_hashes_of(keys, alloc) {
        Ok(mut hashes) => are_unlike(&mut hashes),
        Err(_) => false,
    }
}

// Whether no two of these numbers are the same. They are put in order.
fn are_unlike(numbers: &mut [u64]) -> bool
    ensures { IsTrue result → IsDistinct (eq_by_cmp nat_cmp) numbers.old }
{
    numbers.sort_unstable();
    are_ascending(numbers)
}

// Whether each of these numbers is less than the next one.
fn are_ascending(numbers: &[u64]) -> bool
    ensures { IsTrue result → IsStrictlyIncreasing numbers.now }
{
    for i in 1..numbers.len() {
        if numbers[i - 1] >= numbers[i] {
            return false;
        }
    }
    true
}
