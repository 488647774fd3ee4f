// The beginning and the end of a document or an array that is written part by part.
ghost use Rattle.std.specs.Prelude.{◌≡◌, ◌≤◌, ◌+◌, ◌++◌, length, IfOk, OnOk, IfErr, OnErr};
ghost use Rattle.bson_values.specs.ErrorView.{write_failure};
ghost use Rattle.bson_values.specs.Refusal.{no_memory};
ghost use Rattle.bson_writing.specs.Levels.{in_whole};
ghost use Rattle.bson_ser_stream.specs.Writing.{length_place};
ghost use Rattle.bson_ser_stream.specs.Halting.{Grows, Ends, EndHalts};

use crate::refusal::take_back;
use bson_datum::MAX_NESTING_LEVEL;
use bson_io::{Ledger, Out, Steps};
use bson_ser_stream::Container;
use bson_values::Cause;
use bson_values::ser::Result;
use bson_writing::Halt;

// The bytes of a length.
const LENGTH_BYTES: usize = 4;

/// Begins a whole document or array: appends a place for its length.
///
/// # Errors
///
/// Memory ran out. Then the output is as it was.
pub(crate) fn begin_whole<L: Ledger>(out: &mut Out, steps: &mut Steps<L>) -> Result<Container>
    ensures place { IfOk result (λ c. c.start ≡ length out.old.bytes) }
    ensures levels { IfOk result (λ c. c.levels ≡ in_whole) }
    ensures bytes { OnOk result (out.new.bytes ≡ out.old.bytes ++ length_place) }
    ensures kept { OnErr result (out.new.bytes ≡ out.old.bytes) }
    ensures memory { IfErr result (λ e. write_failure e ≡ no_memory) }
{
    let start = out.len();
    match Container::begin(out, steps, MAX_NESTING_LEVEL) {
        Ok(document) => Ok(document),
        Err(halt) => Err(take_back(out, start, halt)),
    }
}

/// Ends a document or an array that was begun. The test before it never fails, since the writer alone has the output meanwhile.
pub(crate) fn end_begun<L: Ledger>(
    container: Container,
    out: &mut Out,
    steps: &mut Steps<L>,
) -> std::result::Result<(), Halt>
    ensures ok { OnOk result (Ends out.old out.new container.start steps.old steps.new) }
    ensures within { OnOk result (container.start + 4 ≤ length out.old.bytes) }
    ensures err { container.start + 4 ≤ length out.old.bytes → IfErr result (EndHalts out.old container.start) }
    ensures grows { OnErr result (Grows out.old out.new steps.old steps.new) }
{
    if out.len().saturating_sub(container.start) < LENGTH_BYTES {
        return Err(Halt::caused(out.allocator(), Cause::BadStep));
    }
    container.end(out, steps)
}
