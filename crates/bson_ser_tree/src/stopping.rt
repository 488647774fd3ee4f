// Why a writer of values stops before its end.
ghost use Rattle.std.specs.Prelude.{◌≡◌};
ghost use Rattle.bson_values.specs.Refusal.{unwritable, bare};
ghost use Rattle.bson_values.specs.Cause.{failed};
ghost use Rattle.bson_values.specs.Stop.{stop_view};
ghost use Rattle.bson_values.specs.ErrorView.{cause_view, write_fault, write_failure};
ghost use Rattle.bson_ser_tree.specs.Gives.{IsHereOrMemory, IsBare};

use bson_values::ser::{Error, Fault};
use bson_values::{Cause, Refused, Stop};
use std::alloc::Global;

/// What a writer inside a value returns: something, or why it stopped.
pub(crate) type Writing<T> = Result<T, Stop<Fault>>;

/// The value itself is refused for this fault; or memory ran out.
#[cold]
#[inline(never)]
pub(crate) fn refused(alloc: Global, fault: Fault) -> Stop<Fault>
    ensures { IsHereOrMemory (write_fault fault) (stop_view write_fault result) }
{
    Stop::here(alloc, fault)
}

/// The value itself is refused for this cause; or memory ran out.
#[cold]
#[inline(never)]
pub(crate) fn refused_for(alloc: Global, cause: Cause) -> Stop<Fault>
    ensures { IsHereOrMemory (unwritable (cause_view cause)) (stop_view write_fault result) }
{
    refused(alloc, Fault::Cause(cause))
}

/// The refusal without its path; or memory ran out.
pub(crate) fn without_path(stop: Stop<Fault>) -> Error
    ensures { IsBare (stop_view write_fault stop) (write_failure result) }
{
    let Stop::Refused(refused) = stop else {
        return Error::NoMemory;
    };
    let Refused { fault, .. } = Box::into_inner(refused);
    Error::from_fault(fault)
}

/// A call of the writer was refused before.
#[cold]
pub(crate) fn failed() -> Error
    ensures { write_failure result ≡ bare (unwritable failed) }
{
    Error::SerializationError {
        cause: Cause::Failed,
    }
}
