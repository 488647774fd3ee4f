ghost use Rattle.bson_values.specs.Stop.{stop_view};
ghost use Rattle.bson_json_laws.specs.FailureView.{unread};
ghost use Rattle.bson_json_laws.specs.Gives.{IsHere};

use bson_json_laws::JsonFault;
use bson_values::Stop;
use std::alloc::Global;

/// What a reader inside a text returns: something, or why it stopped.
pub(crate) type Reading<T> = Result<T, Stop<JsonFault>>;

/// The value itself has this fault; or out of memory.
#[tactic(auto, using(bson_json_laws::proofs::Refusals::is_here))]
#[cold]
#[inline(never)]
pub(crate) fn refused(alloc: Global, fault: JsonFault) -> Stop<JsonFault>
    ensures here { IsHere (unread fault) (stop_view unread result) }
{
    Stop::here(alloc, fault)
}
