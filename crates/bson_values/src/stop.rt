ghost use Rattle.std.specs.Prelude.{◌≡◌};
ghost use Rattle.bson_values.specs.Refusal.{at_index};
ghost use Rattle.bson_values.specs.PathView.{segment_view};
ghost use Rattle.bson_values.specs.Stop.{IsUnder, IsUnderKey, IsRefusedHere};
ghost use Rattle.bson_values.specs.declared.stop.Stop.TheVariants as stops;

use crate::path::Segment;
use std::alloc::{AllocError, AllocFailed, Global};

/// A fault on its way out of the values that it is in.
#[derive(Debug, Drop)]
pub struct Refused<F> {
    /// What is wrong.
    pub fault: F,
    /// The segments of the path to the value so far, the innermost first.
    pub segments: Vec<Segment>,
}

/// Why a reader or a writer stopped inside a document. A refusal is in a box, so that a result takes few bytes where
/// nothing is refused.
#[derive(Debug, Drop)]
pub enum Stop<F> {
    /// A value is refused.
    Refused(Box<Refused<F>>),
    /// Memory ran out.
    NoMemory,
}

impl<F: Drop> Stop<F> {
    /// A fault of the value itself; or `NoMemory`.
    pub fn here(alloc: Global, fault: F) -> Stop<F>
        ensures here { IsRefusedHere fault result }
    {
        let segments = Vec::new(alloc);
        match Box::new(alloc, Refused { fault, segments }) {
            Ok(refused) => Stop::Refused(refused),
            Err(_) => Stop::NoMemory,
        }
    }

    /// The same, seen from the document that has the value at this key; or `NoMemory`.
    pub fn under_key(self, key: &str) -> Stop<F>
        ensures under { IsUnderKey key.now self result }
    {
        let Stop::Refused(refused) = self else {
            return Stop::NoMemory;
        };
        match String::from_str(*refused.segments.allocator(), key) {
            Ok(key) => under(refused, Segment::Key(key)),
            Err(_) => Stop::NoMemory,
        }
    }

    /// The same, seen from the array that has the value at this index, from 0; or `NoMemory`.
    pub fn under_index(self, index: u64) -> Stop<F>
        ensures under { IsUnder (at_index index) self result }
    {
        match self {
            Stop::Refused(refused) => under(refused, Segment::Index(index)),
            Stop::NoMemory => Stop::NoMemory,
        }
    }
}

// The same, seen from the value that has the value at this segment; or `NoMemory`.
fn under<F: Drop>(mut refused: Box<Refused<F>>, segment: Segment) -> Stop<F>
    ensures { IsUnder (segment_view segment) (stops.Refused refused) result }
{
    match refused.segments.push(segment) {
        Ok(()) => Stop::Refused(refused),
        Err(_) => Stop::NoMemory,
    }
}

impl<F> From<AllocError> for Stop<F> {
    ghost use Rattle.bson_values.specs.Stop.{IsOutOfMemory};

    ghost from_gives = { λ _ s. IsOutOfMemory s };

    fn from(_e: AllocError) -> Stop<F> {
        Stop::NoMemory
    }
}

impl<F, T: Drop> From<AllocFailed<T>> for Stop<F> {
    ghost use Rattle.bson_values.specs.Stop.{IsOutOfMemory};

    ghost from_gives = { λ _ s. IsOutOfMemory s };

    fn from(_e: AllocFailed<T>) -> Stop<F> {
        Stop::NoMemory
    }
}
