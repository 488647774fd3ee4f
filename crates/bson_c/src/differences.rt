ghost use Rattle.std.specs.Prelude.{◌≡◌, ◌⊎◌, []};
ghost use Rattle.bson_buffers.specs.Asked.{shape_of_bytes};
ghost use Rattle.bson_buffers.specs.Compares.{compared, CompatibleRow, DifferentRow, NewRefusedRow, OldRefusedRow};
ghost use Rattle.bson_buffers.specs.Number.{number_of};
ghost use Rattle.bson_buffers.specs.Buffers.{IsSilent};
ghost use Rattle.bson_buffers.specs.declared.status.Status.TheVariants as statuses;
ghost use Rattle.bson_c.specs.Crossing.{crossed_call};

use crate::report::Report;
use std::alloc::Global;

/// Tells why documents that are written at an old shape need not be read at a new one: `bson_buffers::differences_into`.
#[unsafe(no_mangle)]
pub extern "C" fn tbson_differences(
    alloc: Global,
    old: &[u8],
    new: &[u8],
    text: &mut [u8],
) -> Report
    ensures done { result.status ≡ number_of statuses.Done → CompatibleRow old.now new.now (crossed_call result [] [] text.old text.new) }
    ensures different { result.status ≡ number_of statuses.Different → DifferentRow old.now new.now (crossed_call result [] [] text.old text.new) }
    ensures old_refused { result.status ≡ number_of statuses.OldRefused → OldRefusedRow old.now new.now (crossed_call result [] [] text.old text.new) }
    ensures new_refused { result.status ≡ number_of statuses.NewRefused → NewRefusedRow old.now new.now (crossed_call result [] [] text.old text.new) }
    ensures no_memory { result.status ≡ number_of statuses.NoMemory → IsSilent (crossed_call result [] [] text.old text.new) }
    // The status is the one that must be returned, or out of memory.
    ensures complete { (result.status ≡ number_of (compared (shape_of_bytes old.now) (shape_of_bytes new.now))) ⊎ (result.status ≡ number_of statuses.NoMemory) }
{
    Report::crossed(bson_buffers::differences_into(alloc, old, new, text))
}
