// The run: there is to be no word, the input is read to its end, the shape of its documents is inferred, and all is written.
ghost use Rattle.std.specs.Prelude.{◌≡◌, ◌≤◌, ◌⊎◌, [], length, map, string_bytes, IfOk, Some};
ghost use Rattle.bson_base.specs.Sound.{max_bytes};
ghost use Rattle.bson_kinds.specs.Text.{Bytes};
ghost use Rattle.bson_base.specs.Tree.{Trees};
ghost use Rattle.bson_shape.specs.Form.{Form};
ghost use Rattle.bson_program.specs.Ends.{source_change, sink_change};
ghost use Rattle.bson_program.specs.Prepared.{Says};
ghost use Rattle.bson_program.specs.Program.{IsExpected, IsAnswered};
ghost use Rattle.bson_program.specs.Run.{run_of, AllQuiet, AreKept};
ghost use Rattle.bson_infer_laws.specs.Encodings.{encodings};
ghost use Rattle.bson_infer_laws.specs.Inferred.{inferred};
ghost use Rattle.bson_infer_run.specs.Files.{found, inferring_of};
ghost use Rattle.bson_infer_run.specs.Infer.{AreSound};
ghost use Rattle.bson_infer_run.specs.Rows.{Answers, infer_program, WritesShape};
ghost use Rattle.bson_infer_run.specs.declared.status.InferStatus.TheVariants as statuses;

use crate::file::{FileError, infer_file};
use crate::status::InferStatus;
use bson_io::{Sink, Source};
use bson_program::{Answer, Endings, InputEndings, finish, read_input};
use std::alloc::{AllocError, Global};

/// The line for words, of which there are to be none.
const USAGE: &str = "usage: bson_infer\n";

const ENDINGS: Endings<InferStatus> = Endings {
    sink_fault: InferStatus::SinkFault,
    no_memory: InferStatus::NoMemory,
};

const INPUT_ENDINGS: InputEndings<InferStatus> = InputEndings {
    source_fault: InferStatus::SourceFault,
    too_long: InferStatus::Broken,
    too_long_line: "input too long\n",
};

// What must be written for an input that was read to its end. An error means out of memory.
fn answer_to(alloc: Global, bytes: &[u8]) -> Result<Answer<InferStatus>, AllocError>
    ensures { IfOk result (Says (Answers (inferring_of bytes.now))) }
{
    let shape = match infer_file(alloc, bytes) {
        Ok(shape) => shape,
        Err(FileError::Broken(place)) => {
            let line = format!(in alloc; "broken at {place}\n")?;
            return Ok(Answer::line(alloc, InferStatus::Broken, line));
        }
        Err(FileError::Faulty(number, error)) => {
            let line = format!(in alloc; "document {number}: {error}\n")?;
            return Ok(Answer::line(alloc, InferStatus::DocumentRefused, line));
        }
        Err(FileError::NotSound(number)) => {
            let line = format!(in alloc; "document {number}: not sound\n")?;
            return Ok(Answer::line(alloc, InferStatus::DocumentRefused, line));
        }
        Err(FileError::NoMemory) => return Err(AllocError),
    };
    let mut text = shape.print(alloc)?;
    text.push('\n')?;
    Ok(Answer {
        status: InferStatus::Done,
        bytes: text.into_bytes(),
        lines: String::new(alloc),
    })
}

// What must be written for these words on this input. An error means out of memory.
fn prepare<I: Source>(
    alloc: Global,
    words: &[String],
    input: &mut I,
) -> Result<Answer<InferStatus>, AllocError>
    ensures expected { IfOk result (Says (IsExpected infer_program (map string_bytes words.now) (source_change I.left I.faults input.old input.new))) }
    ensures later { I.faults input.old ≤ I.faults input.new }
{
    if !words.is_empty() {
        let line = String::from_str(alloc, USAGE)?;
        return Ok(Answer::line(alloc, InferStatus::Usage, line));
    }
    match read_input(alloc, INPUT_ENDINGS, input)? {
        Ok(bytes) => answer_to(alloc, &bytes),
        Err(answer) => Ok(answer),
    }
}

/// Reads the input to its end, infers the shape of its documents, and writes its notation and a line feed.
///
/// There is to be no word. All memory is taken before the first write, and `out` is written before `err`. The status says how it ended:
///
/// - `Done`: every document is sound, and the shape was written to `out`, and nothing to `err`.
/// - `DocumentRefused`: a document has a fault, or else one is not sound: the first is told with its number, counted from 0.
/// - `Broken`: the input cannot be cut into documents, or has more than 2147483647 bytes.
/// - `Usage`: there is a word. The input is not touched.
/// - `SourceFault`: a call on the input failed. For these four a line tells why on `err`, and `out` is unchanged.
/// - `SinkFault`: a call on `out` or `err` failed. Each got a first part of what had to be written.
/// - `NoMemory`: memory ran out. `out` and `err` are unchanged.
pub fn run_infer<I: Source, O: Sink, E: Sink>(
    alloc: Global,
    words: &[String],
    input: &mut I,
    out: &mut O,
    err: &mut E,
) -> InferStatus
    // Given no word and the bytes of sound documents, one behind another, it writes the notation of the join of their forms, or reports that memory ran out.
    ensures documents { let r = run_of (map string_bytes words.now) (source_change I.left I.faults input.old input.new)
        (sink_change O.written O.room O.faults out.old out.new) (sink_change E.written E.room E.faults err.old err.new) result in
        (ts : Trees) → AreSound ts → r.words ≡ [] → r.input.before ≡ Some (encodings ts) → length (encodings ts) ≤ max_bytes → AllQuiet r
        → WritesShape r (inferred ts) ⊎ ((r.status ≡ statuses.NoMemory) × AreKept r.out r.err) }

    // The same of each file that all documents are found in and are sound, however their bytes are made.
    ensures infers { let r = run_of (map string_bytes words.now) (source_change I.left I.faults input.old input.new)
        (sink_change O.written O.room O.faults out.old out.new) (sink_change E.written E.room E.faults err.old err.new) result in
        (file : Bytes) (s : Form) → r.words ≡ [] → r.input.before ≡ Some file → length file ≤ max_bytes → inferring_of file ≡ found s → AllQuiet r
        → WritesShape r s ⊎ ((r.status ≡ statuses.NoMemory) × AreKept r.out r.err) }

    // The table of answers: each status only where its row holds, with exactly what the row says on the two sinks; and where the input tells its
    // bytes, no count rose and no sink's count is at its last value, the status whose row holds, or out of memory.
    ensures answers { IsAnswered infer_program (run_of (map string_bytes words.now) (source_change I.left I.faults input.old input.new)
        (sink_change O.written O.room O.faults out.old out.new) (sink_change E.written E.room E.faults err.old err.new) result) }
{
    let prepared = prepare(alloc, words, input);
    finish(ENDINGS, prepared, out, err)
}
