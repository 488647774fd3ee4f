// The run: the words are judged, the input is read to its end, its documents are migrated, and all is written.
ghost use Rattle.std.specs.Prelude.{◌≡◌, ◌≤◌, ◌⊎◌, List, [], ◌∷◌, length, map, string_bytes, IfOk, Some};
ghost use Rattle.bson_base.specs.Sound.{max_bytes};
ghost use Rattle.bson_kinds.specs.Text.{Bytes};
ghost use Rattle.bson_shape.specs.Form.{Form};
ghost use Rattle.bson_shape.specs.Makers.{IsShape};
ghost use Rattle.bson_shape.specs.Notation.{text};
ghost use Rattle.bson_program.specs.Command.{Asked};
ghost use Rattle.bson_program.specs.Ends.{source_change, sink_change};
ghost use Rattle.bson_program.specs.Prepared.{Says};
ghost use Rattle.bson_program.specs.Program.{IsExpected, IsAnswered};
ghost use Rattle.bson_program.specs.Run.{run_of, AllQuiet, AreKept};
ghost use Rattle.bson_migrate_run.specs.declared.status.MigrateStatus.TheVariants as statuses;
ghost use Rattle.bson_migrate_run.specs.Lines.{refused_lines};
ghost use Rattle.bson_migrate_run.specs.Migrating.{NotRecast, migrated, migration_of};
ghost use Rattle.bson_migrate_run.specs.Rows.{AnswersMigration, listed_status, migrate_program, WritesMigrated};

use crate::migrating::{MigrateError, Refused, migrate};
use crate::status::MigrateStatus;
use bson_io::{Sink, Source};
use bson_program::{Answer, Endings, InputEndings, finish, read_input, shape_of_word};
use bson_shape::Shape;
use std::alloc::{AllocError, Global};

/// The line for words that ask for no migration.
const USAGE: &str = "usage: bson_migrate SHAPE\n";

const ENDINGS: Endings<MigrateStatus> = Endings {
    sink_fault: MigrateStatus::SinkFault,
    no_memory: MigrateStatus::NoMemory,
};

const INPUT_ENDINGS: InputEndings<MigrateStatus> = InputEndings {
    source_fault: MigrateStatus::SourceFault,
    too_long: MigrateStatus::Broken,
    too_long_line: "input too long\n",
};

// The shape that the words ask for, or the line that refuses them. The outer error means out of memory.
fn asked(alloc: Global, words: &[String]) -> Result<Result<Shape, String>, AllocError>
    ensures { IfOk result (Asked migrate_program.command (map string_bytes words.now)) }
{
    match words {
        [word] => shape_of_word(alloc, word.as_str()),
        _ => Ok(Err(String::from_str(alloc, USAGE)?)),
    }
}

/// A line for each refused document, with its number and its refusal.
///
/// # Errors
///
/// Memory ran out.
pub fn lines_of(alloc: Global, refused: &[Refused]) -> Result<String, AllocError>
    ensures lines { IfOk result (λ l. string_bytes l ≡ refused_lines refused.now) }
{
    let mut lines = String::new(alloc);
    for document in refused {
        let line = format!(in alloc; "{document}\n")?;
        lines.push_str(line.as_str())?;
    }
    Ok(lines)
}

// The status where these documents are refused.
fn status_of(refused: &[Refused]) -> MigrateStatus
    ensures { result ≡ listed_status refused.now }
{
    match refused {
        [] => MigrateStatus::Done,
        [..] => MigrateStatus::SomeRefused,
    }
}

// What must be written for an input that was read to its end. An error means out of memory.
fn answer_to(
    alloc: Global,
    shape: &Shape,
    bytes: &[u8],
) -> Result<Answer<MigrateStatus>, AllocError>
    ensures { IfOk result (Says (AnswersMigration (migration_of shape.now bytes.now))) }
{
    let migration = match migrate(alloc, shape, bytes) {
        Ok(migration) => migration,
        Err(MigrateError::Broken(place)) => {
            let line = format!(in alloc; "broken at {place}\n")?;
            return Ok(Answer::line(alloc, MigrateStatus::Broken, line));
        }
        Err(MigrateError::NoMemory) => return Err(AllocError),
    };
    let lines = lines_of(alloc, &migration.refused)?;
    Ok(Answer {
        status: status_of(&migration.refused),
        bytes: migration.output,
        lines,
    })
}

// What must be written for these words on this input. An error means out of memory.
fn prepare<I: Source>(
    alloc: Global,
    words: &[String],
    input: &mut I,
) -> Result<Answer<MigrateStatus>, AllocError>
    ensures expected { IfOk result (Says (IsExpected migrate_program (map string_bytes words.now) (source_change I.left I.faults input.old input.new))) }
    ensures later { I.faults input.old ≤ I.faults input.new }
{
    let shape = match asked(alloc, words)? {
        Ok(shape) => shape,
        Err(line) => return Ok(Answer::line(alloc, MigrateStatus::Usage, line)),
    };
    match read_input(alloc, INPUT_ENDINGS, input)? {
        Ok(bytes) => answer_to(alloc, &shape, &bytes),
        Err(answer) => Ok(answer),
    }
}

/// Judges the words, reads the input to its end, recasts its documents one by one, and writes the answer.
///
/// The words ask for a migration where they are exactly one word, which is the notation of a shape. All memory is taken before the first write, and `out` is written before `err`. The status says how it ended:
///
/// - `Done`: every document was recast and written to `out`, and nothing to `err`.
/// - `SomeRefused`: some documents are not recast, and `err` has a line for each, with its number, counted from 0. The others were written to `out`.
/// - `Broken`: the input cannot be cut into documents, or has more than 2147483647 bytes.
/// - `Usage`: the words ask for no migration. The input is not touched.
/// - `SourceFault`: a call on the input failed. For these three a line tells why on `err`, and `out` is unchanged.
/// - `SinkFault`: a call on `out` or `err` failed. Each got a first part of what had to be written.
/// - `NoMemory`: memory ran out. `out` and `err` are unchanged.
pub fn run_migrate<I: Source, O: Sink, E: Sink>(
    alloc: Global,
    words: &[String],
    input: &mut I,
    out: &mut O,
    err: &mut E,
) -> MigrateStatus
    // Given the notation of a shape and a whole file, it writes the documents that are recast, and a line for each that is not, or reports that memory ran
    // out.
    ensures migrates { let r = run_of (map string_bytes words.now) (source_change I.left I.faults input.old input.new)
        (sink_change O.written O.room O.faults out.old out.new) (sink_change E.written E.room E.faults err.old err.new) result in
        (s : Form) (file output : Bytes) (refused : List NotRecast) → IsShape s → r.words ≡ text s ∷ [] → r.input.before ≡ Some file
        → length file ≤ max_bytes → migration_of s file ≡ migrated output refused → AllQuiet r
        → WritesMigrated r output refused ⊎ ((r.status ≡ statuses.NoMemory) × AreKept r.out r.err) }

    // The table of answers: each status only where its row holds, with exactly what the row says on the two sinks; and where the input tells its
    // bytes, no count rose and no sink's count is at its last value, the status whose row holds, or out of memory.
    ensures answers { IsAnswered migrate_program (run_of (map string_bytes words.now) (source_change I.left I.faults input.old input.new)
        (sink_change O.written O.room O.faults out.old out.new) (sink_change E.written E.room E.faults err.old err.new) result) }
{
    let prepared = prepare(alloc, words, input);
    finish(ENDINGS, prepared, out, err)
}
