// A salvage of a file.
ghost use Rattle.std.specs.Prelude.{◌≡◌, ◌≤◌, ◌-◌, true, length, IfOk, string_bytes};
ghost use Rattle.bson_program.specs.Ends.{source_change, sink_change};
ghost use Rattle.bson_streaming.specs.Streamed.{last_line};
ghost use Rattle.bson_salvaging.specs.Halted.{ending_of, IsClosed, IsHalted, WritesStretch};
ghost use Rattle.bson_salvaging.specs.Salvaged.{line_for, IsSalvaged};

use crate::finding::Stop;
use crate::stepping::next_stretch;
use crate::window::Window;
use bson_io::{Failed, Sink, Source, write_due};
use bson_source::TakeFault;
use bson_streaming::Ending;
use std::alloc::{AllocError, Global};

/// The looks that are allowed for a file, beside those for each byte.
const FIRST_LOOKS: u64 = 1073741824;

// Why no more stretches are told.
#[derive(Clone, Copy)]
pub(crate) enum Halt {
    // None are left. Whether some bytes were left out.
    End(bool),
    TooLong,
    SourceFault,
    NoMemory,
}

// Why a stretch was not written.
#[derive(Clone, Copy)]
pub(crate) enum Unwritten {
    SinkFault,
    NoMemory,
}

/// Saves the documents of a source that may have damage: they are written to `out`, and a line for each stretch of bytes that is left out to `err`.
///
/// At the place that is due a document of any length is kept where its elements have no fault; one that has a fault, and behind which the file goes on, is left out alone. After other damage the bytes up
/// to the next place that counts are left out: a document begins there with no fault in it, nor in a document or array inside, of at most 16793600 bytes, and behind it the file ends or another such
/// document begins. So what is inside a damaged document is not taken for one of the file.
///
/// It takes a look at each element; for a file 2^30 looks are allowed at documents that are not kept, and 64 for each byte. Where no more are left, a place does not count, and behind a document that is due
/// and has a fault the rest is left out. Memory holds the largest document that is announced at a place, with what is behind it. The result says how it ended:
///
/// - `Done`: all of the source came, and all of it is documents that were kept.
/// - `SomeRefused`: all of the source came, and some of it was left out.
/// - `TooLong`, `SourceFault`, `NoMemory`: as in [`bson_streaming::stream`]. What was written until then are whole documents.
/// - `SinkFault`: a call on a sink failed. It got a first part of what is due to it, and the other got all.
pub fn salvage<I: Source, O: Sink, E: Sink>(
    alloc: Global,
    input: &mut I,
    out: &mut O,
    err: &mut E,
) -> Ending
    ensures salvaged { IsSalvaged (source_change I.left I.faults input.old input.new) (sink_change O.written O.room O.faults out.old out.new)
        (sink_change E.written E.room E.faults err.old err.new) result }
    ensures input_later { I.faults input.old ≤ I.faults input.new }
    ensures out_later { O.faults out.old ≤ O.faults out.new }
    ensures err_later { E.faults err.old ≤ E.faults err.new }
{
    match save_all(alloc, input, out, err) {
        Ok(halt) => close(halt, err),
        Err(Failed) => Ending::SinkFault,
    }
}

fn ending_of(halt: Halt) -> Ending
    ensures { result ≡ ending_of halt }
{
    match halt {
        Halt::End(false) => Ending::Done,
        Halt::End(true) => Ending::SomeRefused,
        Halt::TooLong => Ending::TooLong,
        Halt::SourceFault => Ending::SourceFault,
        Halt::NoMemory => Ending::NoMemory,
    }
}

// The last line, or no text where there is none.
fn line_of(halt: Halt) -> &'static str
    ensures { result.now ≡ last_line (ending_of halt) 0 }
{
    match halt {
        Halt::TooLong => "input too long\n",
        Halt::SourceFault => "source fault\n",
        Halt::End(false) | Halt::End(true) | Halt::NoMemory => "",
    }
}

// Writes the last line.
fn close<E: Sink>(halt: Halt, err: &mut E) -> Ending
    ensures closed { IsClosed halt (sink_change E.written E.room E.faults err.old err.new) result }
    ensures later { E.faults err.old ≤ E.faults err.new }
{
    match write_due(err, line_of(halt).as_bytes()) {
        Ok(()) => ending_of(halt),
        Err(_) => Ending::SinkFault,
    }
}

// The line for a stretch that is left out.
fn line_for(alloc: Global, from: u64, to: u64) -> Result<String, AllocError>
    ensures { IfOk result (λ l. string_bytes l ≡ line_for from to) }
{
    format!(in alloc; "bytes {from} to {to} left out\n")
}

// Writes a document that is kept, and passes it; or tells the bytes that are left out.
fn write_stretch<O: Sink, E: Sink>(
    alloc: Global,
    keeps: bool,
    from: u64,
    to: u64,
    window: &mut Window,
    out: &mut O,
    err: &mut E,
) -> Result<(), Unwritten>
    requires order { from ≤ to }
    requires there { keeps ≡ true → to - from ≤ length window.old.bytes }
    ensures writes { WritesStretch keeps (to - from) from to window.old window.new (sink_change O.written O.room O.faults out.old out.new)
        (sink_change E.written E.room E.faults err.old err.new) result }
    ensures out_later { O.faults out.old ≤ O.faults out.new }
    ensures err_later { E.faults err.old ≤ E.faults err.new }
{
    if keeps {
        let count = (to - from) as usize;
        if write_due(out, &window.bytes()[..count]).is_err() {
            return Err(Unwritten::SinkFault);
        }
        window.pass(count);
        return Ok(());
    }
    let Ok(line) = line_for(alloc, from, to) else {
        return Err(Unwritten::NoMemory);
    };
    match write_due(err, line.as_bytes()) {
        Ok(()) => Ok(()),
        Err(_) => Err(Unwritten::SinkFault),
    }
}

// Writes and tells each stretch, until no more are told. Why none are. The error means that a call on a sink failed.
fn save_all<I: Source, O: Sink, E: Sink>(
    alloc: Global,
    input: &mut I,
    out: &mut O,
    err: &mut E,
) -> Result<Halt, Failed>
    ensures halted { IsHalted (source_change I.left I.faults input.old input.new) (sink_change O.written O.room O.faults out.old out.new)
        (sink_change E.written E.room E.faults err.old err.new) result }
    ensures input_later { I.faults input.old ≤ I.faults input.new }
    ensures out_later { O.faults out.old ≤ O.faults out.new }
    ensures err_later { E.faults err.old ≤ E.faults err.new }
{
    let mut window = Window::new(alloc);
    let mut place = 0u64;
    let mut looks = FIRST_LOOKS;
    let mut left_out = false;
    loop {
        match window.fill(1, input) {
            Ok(()) => {}
            Err(TakeFault::Failed) => return Ok(Halt::SourceFault),
            Err(TakeFault::NoMemory) => return Ok(Halt::NoMemory),
        }
        if window.bytes().len() == 0 {
            return Ok(Halt::End(left_out));
        }
        let stretch = match next_stretch(&mut window, looks, input) {
            Ok(stretch) => stretch,
            Err(Stop::SourceFault) => return Ok(Halt::SourceFault),
            Err(Stop::TooLong) => return Ok(Halt::TooLong),
            Err(Stop::NoMemory) => return Ok(Halt::NoMemory),
        };
        let Some(next) = place.checked_add(stretch.count) else {
            return Ok(Halt::TooLong);
        };
        match write_stretch(alloc, stretch.keeps, place, next, &mut window, out, err) {
            Ok(()) => {}
            Err(Unwritten::SinkFault) => return Err(Failed),
            Err(Unwritten::NoMemory) => return Ok(Halt::NoMemory),
        }
        left_out |= !stretch.keeps;
        place = next;
        looks = stretch.left;
    }
}
