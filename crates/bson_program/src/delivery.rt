// What a run writes to its two sinks.
ghost use Rattle.std.specs.Prelude.{◌≡◌, ◌≤◌, ◌⊎◌, IsOk, OnOk, OnErr};
ghost use Rattle.std.specs.Io.KnownBytes.{Appends, Keeps};
ghost use Rattle.bson_io.specs.Ends.{RoseOrLast, AppendsPrefix, FitsIn};
ghost use Rattle.bson_program.specs.Ends.{sink_change};
ghost use Rattle.bson_program.specs.Prepared.{IsFinished};

use crate::{Answer, Endings};
use bson_io::{Failed, Sink, write_due};
use std::alloc::AllocError;

/// Writes the answer, its bytes to `out` and then its lines to `err`. The error stands for a program that had no memory for one.
///
/// The status is that of the answer once all is written, else that of the endings. All memory was taken before: it takes none.
pub fn finish<S: Copy, O: Sink, E: Sink>(
    endings: Endings<S>,
    prepared: Result<Answer<S>, AllocError>,
    out: &mut O,
    err: &mut E,
) -> S
    ensures finished { IsFinished endings prepared (sink_change O.written O.room O.faults out.old out.new)
        (sink_change E.written E.room E.faults err.old err.new) result }
    ensures out_later { O.faults out.old ≤ O.faults out.new }
    ensures err_later { E.faults err.old ≤ E.faults err.new }
{
    let Ok(answer) = prepared else {
        return endings.no_memory;
    };
    match deliver(&answer.bytes, answer.lines.as_str(), out, err) {
        Ok(()) => answer.status,
        Err(_) => endings.sink_fault,
    }
}

// Writes bytes to `out`, and then text to `err`.
fn deliver<O: Sink, E: Sink>(
    bytes: &[u8],
    text: &str,
    out: &mut O,
    err: &mut E,
) -> Result<(), Failed>
    ensures out_all { OnOk result (Appends (O.written out.old) (O.written out.new) bytes.now) }
    ensures err_all { OnOk result (Appends (E.written err.old) (E.written err.new) text.now) }
    ensures out_part { AppendsPrefix (O.written out.old) (O.written out.new) bytes.now }
    ensures err_part { AppendsPrefix (E.written err.old) (E.written err.new) text.now }
    ensures order { Appends (O.written out.old) (O.written out.new) bytes.now ⊎ Keeps (E.written err.old) (E.written err.new) }
    ensures out_later { O.faults out.old ≤ O.faults out.new }
    ensures err_later { E.faults err.old ≤ E.faults err.new }
    ensures room { FitsIn (O.room out.old) bytes.now → FitsIn (E.room err.old) text.now → IsOk result }
    ensures out_quiet { OnOk result (O.faults out.new ≡ O.faults out.old) }
    ensures err_quiet { OnOk result (E.faults err.new ≡ E.faults err.old) }
    ensures cause { OnErr result (RoseOrLast (O.faults out.old) (O.faults out.new) ⊎ RoseOrLast (E.faults err.old) (E.faults err.new)) }
{
    write_due(out, bytes)?;
    write_due(err, text.as_bytes())
}
