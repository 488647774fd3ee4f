// One document of a stream.
ghost use Rattle.std.specs.Prelude.{◌≡◌, ◌≤◌, IfOk, string_bytes};
ghost use Rattle.bson_program.specs.Ends.{sink_change};
ghost use Rattle.bson_streaming.specs.Answers.{line_of};
ghost use Rattle.bson_streaming.specs.Turn.{IsTold, IsTurn};

use crate::due::{flush, flush_much};
use crate::job::Job;
use bson_io::{Failed, Out, Sink, write_due};
use std::alloc::{AllocError, Global};

// Why a document was not answered.
#[derive(Clone, Copy)]
pub(crate) enum Stop {
    SinkFault,
    NoMemory,
}

impl From<Failed> for Stop {
    ghost use Rattle.bson_streaming.specs.declared.answering.Stop.TheVariants.{SinkFault as SinkFaultStop};

    ghost from_gives = { λ _ s. s ≡ SinkFaultStop };

    fn from(_failed: Failed) -> Stop {
        Stop::SinkFault
    }
}

impl From<AllocError> for Stop {
    ghost use Rattle.bson_streaming.specs.declared.answering.Stop.TheVariants.{NoMemory as NoMemoryStop};

    ghost from_gives = { λ _ s. s ≡ NoMemoryStop };

    fn from(_error: AllocError) -> Stop {
        Stop::NoMemory
    }
}

// The line for a document that is refused.
fn line(alloc: Global, number: u64, text: &str) -> Result<String, AllocError>
    ensures { IfOk result (λ l. string_bytes l ≡ line_of number text.now) }
{
    format!(in alloc; "document {number}: {text}\n")
}

// Writes what is due, and then the line for a document that is refused.
fn tell<O: Sink, E: Sink>(
    alloc: Global,
    number: u64,
    text: &str,
    due: &mut Out,
    out: &mut O,
    err: &mut E,
) -> Result<(), Stop>
    ensures told { IsTold (line_of number text.now) (sink_change O.written O.room O.faults out.old out.new) (sink_change E.written E.room E.faults err.old err.new)
        due.old.bytes due.new.bytes result }
    ensures out_later { O.faults out.old ≤ O.faults out.new }
    ensures err_later { E.faults err.old ≤ E.faults err.new }
{
    let line = line(alloc, number, text)?;
    flush(due, out)?;
    write_due(err, line.as_bytes())?;
    Ok(())
}

// Answers one document, with its number: its bytes are due then, or a line was written to `err`. Whether it was refused.
pub(crate) fn answer_one<J: Job, O: Sink, E: Sink>(
    alloc: Global,
    job: &mut J,
    document: &[u8],
    number: u64,
    due: &mut Out,
    out: &mut O,
    err: &mut E,
) -> Result<bool, Stop>
    ensures turn { IsTurn (λ a. J.gives job.old document.now a job.new) number (sink_change O.written O.room O.faults out.old out.new) (sink_change E.written E.room E.faults err.old err.new)
        due.old.bytes due.new.bytes result }
    ensures out_later { O.faults out.old ≤ O.faults out.new }
    ensures err_later { E.faults err.old ≤ E.faults err.new }
{
    match job.answer(alloc, document, due)? {
        Ok(()) => {
            flush_much(due, out)?;
            Ok(false)
        }
        Err(text) => {
            tell(alloc, number, text.as_str(), due, out, err)?;
            Ok(true)
        }
    }
}
