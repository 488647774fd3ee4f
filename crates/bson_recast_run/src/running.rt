// The run: the words are judged, the input is read to its end, the recast runs, and all is written.
ghost use Rattle.std.specs.Prelude.{◌≡◌, ◌≤◌, [], ◌∷◌, length, map, string_bytes, IfOk, Some, Ok};
ghost use Rattle.bson_base.specs.Sound.{IsSound, max_bytes};
ghost use Rattle.bson_kinds.specs.Text.{Bytes, AreBytes};
ghost use Rattle.bson_base.specs.Tree.{Tree, enc};
ghost use Rattle.bson_shape.specs.Form.{Form, no_fields};
ghost use Rattle.bson_shape.specs.Makers.{IsShape};
ghost use Rattle.bson_shape.specs.Notation.{text};
ghost use Rattle.bson_values.specs.Value.{Value};
ghost use Rattle.bson_laws.specs.Recursive.{view};
ghost use Rattle.bson_laws.specs.Means.{means};
ghost use Rattle.bson_laws.specs.Plain.{IsPlain};
ghost use Rattle.bson_laws.specs.Settled.{IsSettled};
ghost use Rattle.bson_program.specs.Command.{Asked};
ghost use Rattle.bson_program.specs.OneShape.{one_shape};
ghost use Rattle.bson_program.specs.Ends.{source_change, sink_change};
ghost use Rattle.bson_program.specs.Input.{OnInput};
ghost use Rattle.bson_program.specs.Prepared.{Says};
ghost use Rattle.bson_program.specs.Program.{IsExpected, IsAnswered};
ghost use Rattle.bson_program.specs.Run.{Run, run_of, AllQuiet};
ghost use Rattle.bson_recast_run.specs.PrintedLines.{recast_usage};
ghost use Rattle.bson_recast_run.specs.Making.{max_rows};
ghost use Rattle.bson_recast_run.specs.Options.{AskForDigits, IsByValue, job_command, request, recast_with};
ghost use Rattle.bson_recast_run.specs.Rows.{AnswersRecast, AnswersNotDigits, AnswersJob, AnswersRows, recast_input, recast_program, WritesExactly};
ghost use Rattle.bson_recast_run.specs.declared.options.Job.{Job};
ghost use Rattle.bson_recast_run.specs.declared.options.Request.TheVariants as requests;
ghost use Rattle.bson_recast_run.specs.declared.status.Status.{Status};
ghost use Rattle.bson_recast_run.specs.declared.status.Status.TheVariants as statuses;

use crate::digits::{bytes_of_digits, shown};
use crate::making::made_line;
use crate::options::{Job, Request, leading_options, rows_asked};
use crate::status::Status;
use bson_io::{Sink, Source};
use bson_program::{Answer, Endings, InputEndings, finish, read_input, shape_of_word};
use bson_shape::Shape;
use bson_tree_recast::RecastError;
use std::alloc::{AllocError, Global};

/// The line for words that ask for nothing.
const USAGE: &str = "usage: bson_recast [OPTIONS] SHAPE\n";

/// The line for an input that is to be hexadecimal digits and is not.
const NOT_DIGITS: &str = "read refused: not hexadecimal\n";

const ENDINGS: Endings<Status> = Endings {
    sink_fault: Status::SinkFault,
    no_memory: Status::NoMemory,
};

const INPUT_ENDINGS: InputEndings<Status> = InputEndings {
    source_fault: Status::SourceFault,
    too_long: Status::ReadRefused,
    too_long_line: "read refused: input too long\n",
};

// The shape that the words behind the options ask for, or the line that refuses them. The outer error means out of memory.
fn asked_shape(alloc: Global, words: &[String]) -> Result<Result<Shape, String>, AllocError>
    ensures { IfOk result (Asked (one_shape recast_usage) (map string_bytes words.now)) }
{
    match words {
        [word] if !word.as_str().starts_with("--") => shape_of_word(alloc, word.as_str()),
        _ => Ok(Err(String::from_str(alloc, USAGE)?)),
    }
}

// The recast of an input that the words ask for, or the line that refuses them. The outer error means out of memory.
fn asked_job(alloc: Global, words: &[String]) -> Result<Result<Job, String>, AllocError>
    ensures { IfOk result (Asked job_command (map string_bytes words.now)) }
{
    let (options, rest) = leading_options(words);
    match asked_shape(alloc, rest)? {
        Ok(shape) => Ok(Ok(Job { options, shape })),
        Err(line) => Ok(Err(line)),
    }
}

// What the words ask for, or the line that refuses them. The outer error means out of memory.
fn asked(alloc: Global, words: &[String]) -> Result<Result<Request, String>, AllocError>
    ensures { IfOk result (Asked recast_program.command (map string_bytes words.now)) }
{
    if let Some(rows) = rows_asked(words) {
        return Ok(Ok(Request::Make(rows)));
    }
    match asked_job(alloc, words)? {
        Ok(job) => Ok(Ok(Request::Recast(job))),
        Err(line) => Ok(Err(line)),
    }
}

// What must be written for a document. An error means out of memory.
fn answer_to(alloc: Global, job: &Job, document: &[u8]) -> Result<Answer<Status>, AllocError>
    ensures { IfOk result (Says (AnswersRecast job.now.options.hex (recast_with job.now.options.way job.now.shape document.now))) }
{
    match job.recast(alloc, document) {
        Ok(written) => Ok(Answer {
            status: Status::Done,
            bytes: shown(alloc, job.options.hex, written)?,
            lines: String::new(alloc),
        }),
        Err(RecastError::Read(e)) => {
            let line = format!(in alloc; "read refused: {e}\n")?;
            Ok(Answer::line(alloc, Status::ReadRefused, line))
        }
        Err(RecastError::Write(e)) => {
            let line = format!(in alloc; "write refused: {e}\n")?;
            Ok(Answer::line(alloc, Status::WriteRefused, line))
        }
        Err(RecastError::NoMemory) => Err(AllocError),
    }
}

// What must be written for an input that is to be digits and is not. An error means out of memory.
fn not_digits(alloc: Global) -> Result<Answer<Status>, AllocError>
    ensures { IfOk result (Says AnswersNotDigits) }
{
    let line = String::from_str(alloc, NOT_DIGITS)?;
    Ok(Answer::line(alloc, Status::ReadRefused, line))
}

// What must be written for an input that was read to its end. An error means out of memory.
fn answer_to_input(alloc: Global, job: &Job, bytes: Vec<u8>) -> Result<Answer<Status>, AllocError>
    ensures { IfOk result (Says (AnswersJob job.now bytes.items)) }
{
    if !job.options.hex {
        return answer_to(alloc, job, &bytes);
    }
    match bytes_of_digits(alloc, bytes)? {
        Some(document) => answer_to(alloc, job, &document),
        None => not_digits(alloc),
    }
}

// What must be written for a recast of an input. An error means out of memory.
fn answer_to_job<I: Source>(
    alloc: Global,
    job: &Job,
    input: &mut I,
) -> Result<Answer<Status>, AllocError>
    ensures expected { IfOk result (Says (OnInput recast_input (AnswersJob job.now) (source_change I.left I.faults input.old input.new))) }
    ensures later { I.faults input.old ≤ I.faults input.new }
{
    match read_input(alloc, INPUT_ENDINGS, input)? {
        Ok(bytes) => answer_to_input(alloc, job, bytes),
        Err(answer) => Ok(answer),
    }
}

// What must be written for so many rows. An error means out of memory.
fn answer_to_rows(alloc: Global, rows: u32) -> Result<Answer<Status>, AllocError>
    requires { rows ≤ max_rows }
    ensures { IfOk result (Says (AnswersRows rows)) }
{
    Ok(Answer {
        status: Status::Done,
        bytes: made_line(alloc, rows)?.into_bytes(),
        lines: String::new(alloc),
    })
}

// What must be written for these words on this input. An error means out of memory.
fn prepare<I: Source>(
    alloc: Global,
    words: &[String],
    input: &mut I,
) -> Result<Answer<Status>, AllocError>
    ensures expected { IfOk result (Says (IsExpected recast_program (map string_bytes words.now) (source_change I.left I.faults input.old input.new))) }
    ensures later { I.faults input.old ≤ I.faults input.new }
{
    match asked(alloc, words)? {
        Ok(Request::Recast(job)) => answer_to_job(alloc, &job, input),
        Ok(Request::Make(rows)) => answer_to_rows(alloc, rows),
        Err(line) => Ok(Answer::line(alloc, Status::Usage, line)),
    }
}

/// What a run wrote, given to a run with the same words, is written again as the same bytes, or memory runs out.
///
/// The words ask for a recast without `--tree`, at a shape that does not depend on whether the reader is human. The first run ended as `Done`, its input was `given`, and its
/// output, which was empty, holds `out` now. It says so of the table of answers that each `run` meets (*answers*). With `--hex` the output may have more bytes
/// than an input may; without it that is never so. The call does nothing.
pub fn law_run_again()
    ensures again { (first second : Run Status) (job : Job) (given out : Bytes) → request first.words ≡ Ok (requests.Recast job) → IsByValue job.options.way → IsSettled job.shape
        → IsAnswered recast_program first → first.status ≡ statuses.Done → AreBytes given → first.input.before ≡ Some given → first.out.before ≡ Some [] → first.out.after ≡ Some out
        → (AskForDigits first.words → length out ≤ max_bytes) → IsAnswered recast_program second → second.words ≡ first.words → second.input.before ≡ Some out
        → AllQuiet second → WritesExactly second out }
{}

/// Judges the words, reads the input to its end, recasts it, and writes the answer; or makes a document of rows, recasts it, and writes a line that tells of it.
///
/// The words ask for a recast where they are options, each at most once and in any order, and behind them exactly one word, which does not begin with
/// `--` and is the notation of a shape. With `--lossy` the texts of the document are mended, as `recast_utf8_lossy` does; with `--tree` the document is recast by way of
/// trees, as `recast_by_tree` does; both together are no options. With `--hex` the input is
/// hexadecimal digits, in either case, between which spaces, tabs, carriage returns and line feeds may stand, and the output is lower-case digits and one
/// line feed.
///
/// Or the words are `--make` and a number from 0 to 100000 in decimal digits, without a zero in front. Then the input is not touched: a document of so many rows is
/// made, and recast at `{rows:[{n:u32,name:string}]}`. It has one field `rows`, an array of documents: that of the number `i`, from 0, has `n`, the Int32 `i`, `name`, the String
/// `row` with the decimal digits of `i` behind it, and `ok`, which is true. The line on `out` has the number of rows, the lengths of the document and of its recast in bytes, and
/// the sum of the bytes of the recast. The status is `Done`, `SinkFault` or `NoMemory`.
///
/// All memory is taken before the first write. The status says how it ended:
///
/// - `Done`: the document, or the line for the rows, was written to `out`, and nothing to `err`.
/// - `Usage`: the words ask for nothing. The input is not touched.
/// - `ReadRefused`: the input is no document that can be read at the shape, or is to be an even number of digits and is not, or has more than 2147483647
///   bytes, digits or not.
/// - `WriteRefused`: what was read cannot be written.
/// - `SourceFault`: a call on the input failed. For these four a line tells why on `err`, and `out` is unchanged.
/// - `SinkFault`: a call on `out` or `err` failed. Each got a first part of what had to be written.
/// - `NoMemory`: memory ran out. `out` and `err` are unchanged.
pub fn run<I: Source, O: Sink, E: Sink>(
    alloc: Global,
    words: &[String],
    input: &mut I,
    out: &mut O,
    err: &mut E,
) -> Status
    // Given the notation of a plain shape and the bytes of a sound document whose value at the shape means a sound document, it
    // writes exactly the bytes of that document, or reports that memory ran out.
    ensures headline { let r = run_of (map string_bytes words.now) (source_change I.left I.faults input.old input.new)
        (sink_change O.written O.room O.faults out.old out.new) (sink_change E.written E.room E.faults err.old err.new) result in
        (s : Form) (t u : Tree) (d : Value) → IsShape s → IsPlain s → IsSound t → view no_fields s t ≡ Some d → means d ≡ Some u → IsSound u
        → r.words ≡ text s ∷ [] → r.input.before ≡ Some (enc t) → AllQuiet r → WritesExactly r (enc u) }

    // The table of answers: each status only where its row holds, with exactly what the row says on the two sinks; and where the input tells its
    // bytes, no count rose and no sink's count is at its last value, the status whose row holds, or out of memory.
    ensures answers { IsAnswered recast_program (run_of (map string_bytes words.now) (source_change I.left I.faults input.old input.new)
        (sink_change O.written O.room O.faults out.old out.new) (sink_change E.written E.room E.faults err.old err.new) result) }
{
    let prepared = prepare(alloc, words, input);
    finish(ENDINGS, prepared, out, err)
}
