// The run: the words are judged, and then each document is answered as it comes.
ghost use Rattle.std.specs.Prelude.{◌≡◌, ◌≤◌, ◌<◌, ◌^◌, ◌↔◌, [], ◌∷◌, length, map, string_bytes, IfOk, IsTrue, Some};
ghost use Rattle.bson_kinds.specs.Text.{Bytes};
ghost use Rattle.bson_program.specs.Command.{Asked};
ghost use Rattle.bson_program.specs.Ends.{source_change, sink_change};
ghost use Rattle.bson_program.specs.Run.{run_of, AllQuiet};
ghost use Rattle.bson_shape.specs.Form.{Form};
ghost use Rattle.bson_shape.specs.Makers.{IsShape};
ghost use Rattle.bson_shape.specs.Notation.{text};
ghost use Rattle.bson_stream_run.specs.Migrates.{Migrates};
ghost use Rattle.bson_stream_run.specs.Rows.{status_of, IsRun, IsShapeRun, SalvageRow};
ghost use Rattle.bson_stream_run.specs.Words.{stream_command};

use crate::recasts::Recasts;
use bson_io::Sink;
use bson_migrate_run::MigrateStatus;
use bson_program::{Answer, Endings, finish, shape_of_word};
use bson_salvaging::salvage;
use bson_shape::Shape;
use bson_streaming::{Ending, Waits, stream};
use std::alloc::{AllocError, Global};

/// The line for words that ask for nothing.
const USAGE: &str = "usage: bson_stream SHAPE | --salvage\n";

const ENDINGS: Endings<MigrateStatus> = Endings {
    sink_fault: MigrateStatus::SinkFault,
    no_memory: MigrateStatus::NoMemory,
};

// How the program ends.
fn status_of(ending: Ending) -> MigrateStatus
    ensures { result ≡ status_of ending }
{
    match ending {
        Ending::Done => MigrateStatus::Done,
        Ending::SomeRefused => MigrateStatus::SomeRefused,
        Ending::Broken | Ending::TooLong => MigrateStatus::Broken,
        Ending::SourceFault => MigrateStatus::SourceFault,
        Ending::SinkFault => MigrateStatus::SinkFault,
        Ending::NoMemory => MigrateStatus::NoMemory,
    }
}

// Whether there is one word, which is this.
fn is_word(words: &[String], word: &str) -> bool
    ensures { IsTrue result ↔ (map string_bytes words.now ≡ word.now ∷ []) }
{
    match words {
        [only] => only.as_str() == word,
        _ => false,
    }
}

// The shape that the words ask for, or the line that refuses them. The outer error means out of memory.
fn asked(alloc: Global, words: &[String]) -> Result<Result<Shape, String>, AllocError>
    ensures { IfOk result (Asked stream_command (map string_bytes words.now)) }
{
    match words {
        [word] => shape_of_word(alloc, word.as_str()),
        _ => Ok(Err(String::from_str(alloc, USAGE)?)),
    }
}

/// Judges the words, and answers the documents of the input one after another, each as soon as it is there.
///
/// One word that is the notation of a shape asks for the recast of each document at it ([`stream`]); `--salvage` for the documents of a file with damage, and a line for each stretch of bytes that is left
/// out ([`salvage`]). The status says how it ended:
///
/// - `Done`: every document was written to `out`, and nothing to `err`.
/// - `SomeRefused`: some documents are not recast, or some bytes were left out, and `err` has a line for each. The others were written to `out`.
/// - `Broken`: at a place no document begins, or another document would end behind byte 2^64 - 1. What is before it was written, and a line tells the place.
/// - `Usage`: the words ask for nothing. The input is not touched, and a line tells why.
/// - `SourceFault`: a call on the input failed. What came before was written, and a line says so.
/// - `SinkFault`: a call on `out` or `err` failed. Each got a first part of what had to be written.
/// - `NoMemory`: memory ran out. What was written are whole answers to the documents before.
pub fn run_stream<I: Waits, O: Sink, E: Sink>(
    alloc: Global,
    words: &[String],
    input: &mut I,
    out: &mut O,
    err: &mut E,
) -> MigrateStatus
    // What each run does, by its words.
    ensures runs { IsRun (run_of (map string_bytes words.now) (source_change I.left I.faults input.old input.new)
        (sink_change O.written O.room O.faults out.old out.new) (sink_change E.written E.room E.faults err.old err.new) result) }
    // Given the notation of a shape and a file, it writes what the migration of the file comes to, or reports that memory ran out.
    ensures migrates { let r = run_of (map string_bytes words.now) (source_change I.left I.faults input.old input.new)
        (sink_change O.written O.room O.faults out.old out.new) (sink_change E.written E.room E.faults err.old err.new) result in
        (s : Form) (file : Bytes) → IsShape s → r.words ≡ text s ∷ [] → r.input.before ≡ Some file → length file < 2 ^ 64 → AllQuiet r → Migrates s file r }
    ensures input_later { I.faults input.old ≤ I.faults input.new }
    ensures out_later { O.faults out.old ≤ O.faults out.new }
    ensures err_later { E.faults err.old ≤ E.faults err.new }
{
    run_by_words(alloc, words, input, out, err)
}

// `run_stream`, but for its other promise.
fn run_by_words<I: Waits, O: Sink, E: Sink>(
    alloc: Global,
    words: &[String],
    input: &mut I,
    out: &mut O,
    err: &mut E,
) -> MigrateStatus
    ensures runs { IsRun (run_of (map string_bytes words.now) (source_change I.left I.faults input.old input.new)
        (sink_change O.written O.room O.faults out.old out.new) (sink_change E.written E.room E.faults err.old err.new) result) }
    ensures input_later { I.faults input.old ≤ I.faults input.new }
    ensures out_later { O.faults out.old ≤ O.faults out.new }
    ensures err_later { E.faults err.old ≤ E.faults err.new }
{
    if is_word(words, "--salvage") {
        return run_salvages(alloc, input, out, err);
    }
    run_recasts(alloc, words, input, out, err)
}

// The run that recasts each document, or that is refused.
fn run_recasts<I: Waits, O: Sink, E: Sink>(
    alloc: Global,
    words: &[String],
    input: &mut I,
    out: &mut O,
    err: &mut E,
) -> MigrateStatus
    ensures runs { IsShapeRun (run_of (map string_bytes words.now) (source_change I.left I.faults input.old input.new)
        (sink_change O.written O.room O.faults out.old out.new) (sink_change E.written E.room E.faults err.old err.new) result) }
    ensures input_later { I.faults input.old ≤ I.faults input.new }
    ensures out_later { O.faults out.old ≤ O.faults out.new }
    ensures err_later { E.faults err.old ≤ E.faults err.new }
{
    let Ok(asked) = asked(alloc, words) else {
        return MigrateStatus::NoMemory;
    };
    match asked {
        Ok(shape) => {
            let mut job = Recasts::at(shape);
            status_of(stream(alloc, &mut job, input, out, err))
        }
        Err(line) => {
            let answer = Answer::line(alloc, MigrateStatus::Usage, line);
            finish(ENDINGS, Ok(answer), out, err)
        }
    }
}

// The run that saves the documents of a file with damage.
fn run_salvages<I: Waits, O: Sink, E: Sink>(
    alloc: Global,
    input: &mut I,
    out: &mut O,
    err: &mut E,
) -> MigrateStatus
    ensures runs { SalvageRow (source_change I.left I.faults input.old input.new) (sink_change O.written O.room O.faults out.old out.new)
        (sink_change E.written E.room E.faults err.old err.new) result }
    ensures input_later { I.faults input.old ≤ I.faults input.new }
    ensures out_later { O.faults out.old ≤ O.faults out.new }
    ensures err_later { E.faults err.old ≤ E.faults err.new }
{
    status_of(salvage(alloc, input, out, err))
}
