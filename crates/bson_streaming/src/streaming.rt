// A stream of documents.
ghost use Rattle.std.specs.Prelude.{◌≡◌, ◌≤◌, [], length};
ghost use Rattle.bson_program.specs.Ends.{source_change, sink_change};
ghost use Rattle.bson_streaming.specs.Halted.{IsHalted};
ghost use Rattle.bson_streaming.specs.Streamed.{IsStreamed};

use crate::answering::{Stop, answer_one};
use crate::closing::{Ending, Halt, close};
use crate::due::flush_if;
use crate::job::Job;
use crate::next::{Piece, next_document};
use crate::waits::Waits;
use bson_io::{Failed, Out, Sink};
use bson_source::TakeFault;
use std::alloc::Global;

/// Answers each document of a source, one after another: its bytes go to `out`, or a line with its number, counted from 0, to `err`.
///
/// Memory holds one document, and the answers that are due: these are written before they are 65536 bytes and one answer more, before the source may wait, before each line, and at the end.
/// So what is on both sinks is in the order of the documents. A file may have as many bytes as a `u64` counts. The result says how it ended:
///
/// - `Done`: all of the source came, and each document was answered with bytes.
/// - `SomeRefused`: the same, but that some were answered with a text.
/// - `Broken`: at the place that the last line tells no document begins. Those before it were answered.
/// - `TooLong`: another document would end behind byte 2^64 - 1, as the last line tells.
/// - `SourceFault`: a call on the source failed, as the last line tells.
/// - `SinkFault`: a call on a sink failed. Each got a first part of what is due to it.
/// - `NoMemory`: memory ran out. The documents before were answered, each in whole, and there is no last line.
pub fn stream<J: Job, I: Waits, O: Sink, E: Sink>(
    alloc: Global,
    job: &mut J,
    input: &mut I,
    out: &mut O,
    err: &mut E,
) -> Ending
    ensures streamed { IsStreamed J.gives job.old job.new (source_change I.left I.faults input.old input.new) (sink_change O.written O.room O.faults out.old out.new)
        (sink_change E.written E.room E.faults err.old err.new) result }
    ensures input_later { I.faults input.old ≤ I.faults input.new }
    ensures out_later { O.faults out.old ≤ O.faults out.new }
    ensures err_later { E.faults err.old ≤ E.faults err.new }
{
    let mut due = Out::new(alloc);
    match answer_all(alloc, job, input, &mut due, out, err) {
        Ok(halt) => close(alloc, halt, &mut due, out, err),
        Err(Failed) => Ending::SinkFault,
    }
}

// Answers each document, until no more are taken. Why none are. The error means that a call on a sink failed.
fn answer_all<J: Job, I: Waits, O: Sink, E: Sink>(
    alloc: Global,
    job: &mut J,
    input: &mut I,
    due: &mut Out,
    out: &mut O,
    err: &mut E,
) -> Result<Halt, Failed>
    requires { due.old.bytes ≡ [] }
    ensures halted { IsHalted J.gives job.old job.new (source_change I.left I.faults input.old input.new) (sink_change O.written O.room O.faults out.old out.new)
        (sink_change E.written E.room E.faults err.old err.new) due.new.bytes result }
    ensures input_later { I.faults input.old ≤ I.faults input.new }
    ensures out_later { O.faults out.old ≤ O.faults out.new }
    ensures err_later { E.faults err.old ≤ E.faults err.new }
{
    let mut bytes = Vec::new(alloc);
    let mut place = 0u64;
    let mut number = 0u64;
    let mut refused = false;
    loop {
        let waits = input.may_wait();
        flush_if(waits, due, out)?;
        match next_document(&mut bytes, input) {
            Ok(Piece::End) => return Ok(Halt::End(refused)),
            Ok(Piece::Broken) => return Ok(Halt::Broken(place)),
            Ok(Piece::Document) => {}
            Err(TakeFault::Failed) => return Ok(Halt::SourceFault),
            Err(TakeFault::NoMemory) => return Ok(Halt::NoMemory),
        }
        let Some(next) = place.checked_add(bytes.len() as u64) else {
            return Ok(Halt::TooLong);
        };
        match answer_one(alloc, job, &bytes, number, due, out, err) {
            Ok(was_refused) => refused |= was_refused,
            Err(Stop::SinkFault) => return Err(Failed),
            Err(Stop::NoMemory) => return Ok(Halt::NoMemory),
        }
        place = next;
        number += 1;
    }
}
