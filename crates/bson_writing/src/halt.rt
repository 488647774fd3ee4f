// Why writing stopped before its end.
ghost use Rattle.std.specs.Prelude.{◌≡◌};
ghost use Rattle.bson_values.specs.Refusal.{unwritable, at_key, at_index};
ghost use Rattle.bson_values.specs.Stop.{IsPlaced};
ghost use Rattle.bson_values.specs.ErrorView.{cause_view, write_fault, write_failure};
ghost use Rattle.bson_writing.specs.Halting.{halt_view, IsHereOrMemory, IsUnder};

use bson_values::ser::{Error, Fault};
use bson_values::{Cause, Stop};
use std::alloc::{AllocError, Global};

/// Why writing stopped before its end.
#[derive(Debug, Drop)]
pub enum Halt {
    /// A value is refused, or memory ran out.
    Stopped(Stop<Fault>),
    /// A document would have more bytes than a document may.
    TooLong,
}

impl Halt {
    /// A fault of the value itself; or memory ran out.
    pub fn here(alloc: Global, fault: Fault) -> Halt
        ensures here { IsHereOrMemory (write_fault fault) result }
    {
        Halt::Stopped(Stop::here(alloc, fault))
    }

    /// A cause in the value itself; or memory ran out.
    pub fn caused(alloc: Global, cause: Cause) -> Halt
        ensures here { IsHereOrMemory (unwritable (cause_view cause)) result }
    {
        Halt::here(alloc, Fault::Cause(cause))
    }

    /// The same, seen from the document that has the value at this key; or memory ran out.
    pub fn under_key(self, key: &str) -> Halt
        ensures under { IsUnder (at_key key.now) self result }
    {
        match self {
            Halt::Stopped(stop) => Halt::Stopped(stop.under_key(key)),
            Halt::TooLong => Halt::TooLong,
        }
    }

    /// The same, seen from the array that has the value at this index, from 0; or memory ran out.
    pub fn under_index(self, index: u64) -> Halt
        ensures under { IsUnder (at_index index) self result }
    {
        match self {
            Halt::Stopped(stop) => Halt::Stopped(stop.under_index(index)),
            Halt::TooLong => Halt::TooLong,
        }
    }

    /// The error that a caller sees: a refusal with its path, or out of memory.
    pub fn into_error(self, alloc: Global) -> Error
        ensures placed { IsPlaced (halt_view self) (write_failure result) }
    {
        match self {
            Halt::Stopped(stop) => Error::from_stop(alloc, stop),
            Halt::TooLong => {
                Error::from_stop(alloc, Stop::here(alloc, Fault::Cause(Cause::TooLong)))
            }
        }
    }
}

impl From<AllocError> for Halt {
    ghost use Rattle.bson_writing.specs.Halting.{IsOutOfMemory};

    ghost from_gives = { λ _ h. IsOutOfMemory h };

    fn from(e: AllocError) -> Halt {
        Halt::Stopped(Stop::from(e))
    }
}
