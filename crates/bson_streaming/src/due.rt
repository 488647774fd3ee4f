// What is due to the output: it is held until it is much, or must be seen.
ghost use Rattle.std.specs.Prelude.{◌≡◌, ◌≤◌, [], OnOk};
ghost use Rattle.bson_program.specs.Ends.{sink_change};
ghost use Rattle.bson_streaming.specs.Due.{IsFlushed};

use bson_io::{Failed, Out, Sink, write_due};

/// So many bytes are much.
const MUCH: usize = 65536;

// Writes all that is due.
pub(crate) fn flush<O: Sink>(due: &mut Out, out: &mut O) -> Result<(), Failed>
    ensures flushed { IsFlushed (sink_change O.written O.room O.faults out.old out.new) due.old.bytes due.new.bytes result }
    ensures all { OnOk result (due.new.bytes ≡ []) }
    ensures later { O.faults out.old ≤ O.faults out.new }
{
    write_due(out, due.as_bytes())?;
    due.cut(0);
    Ok(())
}

// The same where it is wanted.
pub(crate) fn flush_if<O: Sink>(wanted: bool, due: &mut Out, out: &mut O) -> Result<(), Failed>
    ensures flushed { IsFlushed (sink_change O.written O.room O.faults out.old out.new) due.old.bytes due.new.bytes result }
    ensures later { O.faults out.old ≤ O.faults out.new }
{
    if !wanted {
        return Ok(());
    }
    flush(due, out)
}

// The same where much is due.
pub(crate) fn flush_much<O: Sink>(due: &mut Out, out: &mut O) -> Result<(), Failed>
    ensures flushed { IsFlushed (sink_change O.written O.room O.faults out.old out.new) due.old.bytes due.new.bytes result }
    ensures later { O.faults out.old ≤ O.faults out.new }
{
    let much = MUCH <= due.len();
    flush_if(much, due, out)
}
