// What a writer answers where it is refused.
ghost use Rattle.std.specs.Prelude.{◌≡◌, take, Some};
ghost use Rattle.bson_values.specs.Cause.{failed};
ghost use Rattle.bson_values.specs.ErrorView.{cause_view, write_failure};
ghost use Rattle.bson_values.specs.Refusal.{here, unwritable};
ghost use Rattle.bson_values.specs.Stop.{IsPlaced};
ghost use Rattle.bson_writing.specs.Halting.{halt_view};

use bson_io::Out;
use bson_values::Cause;
use bson_values::ser::Error;
use bson_writing::Halt;
use std::alloc::Global;

/// Takes back what was appended from a place on, and says why.
pub(crate) fn take_back(out: &mut Out, start: usize, halt: Halt) -> Error
    ensures cut { out.new.bytes ≡ take start out.old.bytes }
    ensures placed { IsPlaced (halt_view halt) (write_failure result) }
{
    out.cut(start);
    halt.into_error(out.allocator())
}

/// The whole value is refused for this cause; or memory ran out.
pub(crate) fn refused_for(alloc: Global, cause: Cause) -> Error
    ensures { IsPlaced (Some (here (unwritable (cause_view cause)))) (write_failure result) }
{
    Halt::caused(alloc, cause).into_error(alloc)
}

/// A call of the writer was refused before; or memory ran out.
#[cold]
pub(crate) fn failed_before(alloc: Global) -> Error
    ensures { IsPlaced (Some (here (unwritable failed))) (write_failure result) }
{
    refused_for(alloc, Cause::Failed)
}
