// The front of an element: a place for its kind, and its key.
ghost use Rattle.std.specs.Prelude.{◌≡◌, ◌≤◌, ◌+◌, length, IsOk, OnOk};
ghost use Rattle.bson_io.specs.Output.{Appended};
ghost use Rattle.bson_ser_stream.specs.Writing.{front};
ghost use Rattle.bson_ser_stream.specs.Halting.{Grows};

use bson_io::{Ledger, Out, Steps};
use std::alloc::AllocError;

// The byte that holds the place of a kind until the value was written.
const KIND_PLACE: u8 = 0;

/// Appends the front of an element: a zero in the place of the byte of its kind, and its key closed by a zero.
///
/// # Errors
///
/// Memory ran out. What was appended before stays in `out`.
pub fn begin_element<L: Ledger>(
    out: &mut Out,
    steps: &mut Steps<L>,
    key: &str,
) -> Result<(), AllocError>
    ensures ok { OnOk result (Appended out.old out.new (front key.now) steps.old steps.new) }
    ensures free { length key.now + 2 ≤ out.old.spare → IsOk result }
    ensures grows { Grows out.old out.new steps.old steps.new }
{
    out.push(KIND_PLACE, steps)?;
    out.push_all(key.as_bytes(), steps)?;
    out.push(0, steps)?;
    Ok(())
}
