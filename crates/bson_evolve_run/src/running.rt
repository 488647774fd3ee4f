// The run: the words are judged, the two shapes are compared, and the verdict is written.
ghost use Rattle.std.specs.Prelude.{◌≡◌, ◌⊎◌, ◌∷◌, [], map, string_bytes, Err, IfOk, Ok, Some};
ghost use Rattle.bson_kinds.specs.Text.{Utf8};
ghost use Rattle.bson_shape.specs.Form.{Form};
ghost use Rattle.bson_shape.specs.Makers.{IsShape};
ghost use Rattle.bson_shape.specs.Notation.{text};
ghost use Rattle.bson_laws.specs.Plain.{IsPlain};
ghost use Rattle.bson_program.specs.Ends.{sink_change};
ghost use Rattle.bson_program.specs.Prepared.{Says};
ghost use Rattle.bson_program.specs.Program.{IsExpected, IsAnswered};
ghost use Rattle.bson_program.specs.Run.{run_of, AllQuiet, AreKept};
ghost use Rattle.bson_values.specs.PathView.{path_view};
ghost use Rattle.bson_evolve_check.specs.Checks.{Checks, IsVerdict};
ghost use Rattle.bson_evolve_run.specs.Lines.{old_word, verdict_line};
ghost use Rattle.bson_evolve_run.specs.Rows.{check_program, no_input, Answers, IsExpectedFor, IsRefusal, WritesVerdict};
ghost use Rattle.bson_evolve_run.specs.TwoShapes.{shapes_of, AreGood, IsShapeOf};
ghost use Rattle.bson_evolve_run.specs.declared.status.CheckStatus.TheVariants as statuses;

use crate::shape_words::shape_of;
use crate::status::CheckStatus;
use bson_evolve_check::{CheckError, Verdict, check};
use bson_io::Sink;
use bson_program::{Answer, Endings, finish};
use bson_shape::Shape;
use bson_values::Path;
use std::alloc::{AllocError, Global};

/// The line for words that are not two.
const USAGE: &str = "usage: bson_evolve OLD NEW\n";

/// The lines for shapes that are not plain.
const OLD_NOT_PLAIN: &str = "shape old is not plain\n";

const NEW_NOT_PLAIN: &str = "shape new is not plain\n";

const ENDINGS: Endings<CheckStatus> = Endings {
    sink_fault: CheckStatus::SinkFault,
    no_memory: CheckStatus::NoMemory,
};

// A line alone, which tells why the words are no two plain shapes.
fn refusal(alloc: Global, line: &str) -> Result<Answer<CheckStatus>, AllocError>
    ensures { IfOk result (Says (IsRefusal line.now)) }
{
    let line = String::from_str(alloc, line)?;
    Ok(Answer::line(alloc, CheckStatus::Usage, line))
}

// A text alone, which is written to the output.
fn written(alloc: Global, status: CheckStatus, text: String) -> Answer<CheckStatus>
    ensures status { result.status ≡ status }
    ensures bytes { result.bytes.items ≡ string_bytes text }
    ensures lines { string_bytes result.lines ≡ [] }
{
    Answer {
        status,
        bytes: text.into_bytes(),
        lines: String::new(alloc),
    }
}

// The line for shapes that are not compatible.
fn no_at(alloc: Global, path: &Path) -> Result<String, AllocError>
    ensures { IfOk result (λ l. string_bytes l ≡ verdict_line (Some (path_view path.now))) }
{
    format!(in alloc; "no at {path}\n")
}

// What must be written for two plain shapes of which this is the verdict. An error means out of memory.
fn answer_to_verdict(alloc: Global, verdict: Verdict) -> Result<Answer<CheckStatus>, AllocError>
    ensures { IfOk result (λ a. (old new : Form) → IsVerdict verdict old new → AreGood (shapes_of old new) → Says (Answers (shapes_of old new)) a) }
{
    match verdict {
        Verdict::Yes => {
            let text = String::from_str(alloc, "yes\n")?;
            Ok(written(alloc, CheckStatus::Yes, text))
        }
        Verdict::No(path) => {
            let text = no_at(alloc, &path)?;
            Ok(written(alloc, CheckStatus::No, text))
        }
    }
}

// What must be written for two shapes that are not compared. An error means out of memory.
fn answer_to_error(alloc: Global, error: CheckError) -> Result<Answer<CheckStatus>, AllocError>
    ensures { IfOk result (λ a. (old new : Form) → Checks (Err error) old new → Says (IsExpectedFor old new) a) }
{
    match error {
        CheckError::OldNotPlain => refusal(alloc, OLD_NOT_PLAIN),
        CheckError::NewNotPlain => refusal(alloc, NEW_NOT_PLAIN),
        CheckError::NoMemory => Err(AllocError),
    }
}

// What must be written for two shapes. An error means out of memory.
fn answer_to(alloc: Global, old: &Shape, new: &Shape) -> Result<Answer<CheckStatus>, AllocError>
    ensures { IfOk result (Says (IsExpectedFor old.now new.now)) }
{
    old.known();
    new.known();
    match check(alloc, old, new) {
        Ok(verdict) => answer_to_verdict(alloc, verdict),
        Err(error) => answer_to_error(alloc, error),
    }
}

// What must be written for the first word, which is the notation of a shape, and the second word. An error means out of memory.
fn answer_to_second(
    alloc: Global,
    old: &Shape,
    word: &str,
) -> Result<Answer<CheckStatus>, AllocError>
    ensures { IfOk result (λ a. (first : Utf8) → IsShapeOf old_word first (Ok old.now) → Says (IsExpected check_program (first ∷ word.now ∷ []) no_input) a) }
{
    match shape_of(alloc, "new", word)? {
        Ok(new) => answer_to(alloc, old, &new),
        Err(line) => Ok(Answer::line(alloc, CheckStatus::Usage, line)),
    }
}

// What must be written for two words: both are read, the old one first, before they are compared. An error means out of memory.
fn answer_to_words(alloc: Global, old: &str, new: &str) -> Result<Answer<CheckStatus>, AllocError>
    ensures { IfOk result (Says (IsExpected check_program (old.now ∷ new.now ∷ []) no_input)) }
{
    match shape_of(alloc, "old", old)? {
        Ok(shape) => answer_to_second(alloc, &shape, new),
        Err(line) => Ok(Answer::line(alloc, CheckStatus::Usage, line)),
    }
}

// What must be written for these words. An error means out of memory.
fn prepare(alloc: Global, words: &[String]) -> Result<Answer<CheckStatus>, AllocError>
    ensures { IfOk result (Says (IsExpected check_program (map string_bytes words.now) no_input)) }
{
    if words.len() != 2 {
        return refusal(alloc, USAGE);
    }
    answer_to_words(alloc, words[0].as_str(), words[1].as_str())
}

/// Compares two shapes, an old one and a new one, and writes whether each sound document that is written at the old one is read at the new one: the line `yes`, or `no at` and the
/// path to the first pair of parts that does not pass (`check`).
///
/// The words are to be the notations of two plain shapes. All memory is taken before the first write, and `out` is written before `err`. The status says how it
/// ended:
///
/// - `Yes`: the shapes are compatible, and `out` has the line `yes`.
/// - `No`: they are not, and `out` has the line `no at PATH`.
/// - `Usage`: there are not two words, or one is refused as a shape, the old one first, or a shape is not plain, the old one first. A line tells why on `err`, and `out`
///   is unchanged.
/// - `SinkFault`: a call on `out` or `err` failed. Each got a first part of what had to be written.
/// - `NoMemory`: memory ran out. `out` and `err` are unchanged.
pub fn run_check<O: Sink, E: Sink>(
    alloc: Global,
    words: &[String],
    out: &mut O,
    err: &mut E,
) -> CheckStatus
    // Given the notations of two plain shapes, it writes the verdict on them, or reports that memory ran out.
    ensures checks { let r = run_of (map string_bytes words.now) no_input
        (sink_change O.written O.room O.faults out.old out.new) (sink_change E.written E.room E.faults err.old err.new) result in
        (old new : Form) → IsShape old → IsShape new → IsPlain old → IsPlain new → r.words ≡ text old ∷ text new ∷ [] → AllQuiet r
        → WritesVerdict r old new ⊎ ((r.status ≡ statuses.NoMemory) × AreKept r.out r.err) }

    // The table of answers: each status only where its row holds, with exactly what the row says on the two sinks; and where no count rose and
    // no sink's count is at its last value, the status whose row holds, or out of memory.
    ensures answers { IsAnswered check_program (run_of (map string_bytes words.now) no_input
        (sink_change O.written O.room O.faults out.old out.new) (sink_change E.written E.room E.faults err.old err.new) result) }
{
    let prepared = prepare(alloc, words);
    finish(ENDINGS, prepared, out, err)
}
