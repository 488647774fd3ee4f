// How a stream ends.
ghost use Rattle.std.specs.Prelude.{◌≡◌, ◌≤◌, IfOk, string_bytes};
ghost use Rattle.bson_program.specs.Ends.{sink_change};
ghost use Rattle.bson_streaming.specs.Closing.{ending_of, line_of, IsClosed};

use crate::due::flush;
use bson_io::{Out, Sink, write_due};
use std::alloc::{AllocError, Global};

/// How a stream ended.
#[derive(Clone, Copy, Debug, PartialEq, Eq)]
pub enum Ending {
    /// Every document was answered with bytes.
    Done,
    /// Every document was answered, some of them with a text.
    SomeRefused,
    /// No document begins where those before it end.
    Broken,
    /// There are more bytes than a `u64` counts.
    TooLong,
    /// A call on the source failed.
    SourceFault,
    /// A call on one of the sinks failed.
    SinkFault,
    /// Memory ran out.
    NoMemory,
}

// Why no more documents are taken.
#[derive(Clone, Copy)]
pub(crate) enum Halt {
    // None are left. Whether some were refused.
    End(bool),
    // At this place none begins.
    Broken(u64),
    TooLong,
    SourceFault,
    NoMemory,
}

// The last line, or no text where there is none.
fn line_of(alloc: Global, halt: Halt) -> Result<String, AllocError>
    ensures { IfOk result (λ l. string_bytes l ≡ line_of halt) }
{
    match halt {
        Halt::Broken(place) => format!(in alloc; "broken at {place}\n"),
        Halt::TooLong => String::from_str(alloc, "input too long\n"),
        Halt::SourceFault => String::from_str(alloc, "source fault\n"),
        Halt::End(_) | Halt::NoMemory => Ok(String::new(alloc)),
    }
}

fn ending_of(halt: Halt) -> Ending
    ensures { result ≡ ending_of halt }
{
    match halt {
        Halt::End(false) => Ending::Done,
        Halt::End(true) => Ending::SomeRefused,
        Halt::Broken(_) => Ending::Broken,
        Halt::TooLong => Ending::TooLong,
        Halt::SourceFault => Ending::SourceFault,
        Halt::NoMemory => Ending::NoMemory,
    }
}

// Writes what is due, and then the last line.
pub(crate) fn close<O: Sink, E: Sink>(
    alloc: Global,
    halt: Halt,
    due: &mut Out,
    out: &mut O,
    err: &mut E,
) -> Ending
    ensures closed { IsClosed (line_of halt) (ending_of halt) (sink_change O.written O.room O.faults out.old out.new) (sink_change E.written E.room E.faults err.old err.new)
        due.old.bytes result }
    ensures out_later { O.faults out.old ≤ O.faults out.new }
    ensures err_later { E.faults err.old ≤ E.faults err.new }
{
    if flush(due, out).is_err() {
        return Ending::SinkFault;
    }
    let Ok(line) = line_of(alloc, halt) else {
        return Ending::NoMemory;
    };
    match write_due(err, line.as_bytes()) {
        Ok(()) => ending_of(halt),
        Err(_) => Ending::SinkFault,
    }
}
