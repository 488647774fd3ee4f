// Runs of the program whose ends fail.
use bson_io::{MemorySink, MemorySource};
use bson_lines::Lines;
use bson_recast_run::run;
use std::alloc::{AllocError, Global};

/// The document with the field `i`, an Int32 1.
const DOCUMENT: &[u8; 12] = b"\x0c\0\0\0\x10i\0\x01\0\0\0\0";

/// A source of the document, of which this call fails, counted from 1, and each gives at most one byte.
fn source(alloc: Global, failing: u64) -> Result<MemorySource, AllocError> {
    let bytes = DOCUMENT.to_vec(alloc)?;
    let failing = [failing].to_vec(alloc)?;
    let limits = [1; 13].to_vec(alloc)?;
    Ok(MemorySource::new(bytes, failing, limits))
}

/// A sink with ample room, of which this call fails, counted from 1, and each takes at most one byte.
fn sink(alloc: Global, failing: u64) -> Result<MemorySink, AllocError> {
    let failing = [failing].to_vec(alloc)?;
    let limits = [1; 12].to_vec(alloc)?;
    MemorySink::new(alloc, 99, failing, limits)
}

/// The ends of a run.
#[derive(Drop)]
struct Ends {
    input: MemorySource,
    out: MemorySink,
    err: MemorySink,
}

/// Ends of which these calls fail; 0 is no call.
fn failing_ends(alloc: Global, read: u64, written: u64, told: u64) -> Result<Ends, AllocError> {
    let input = source(alloc, read)?;
    let out = sink(alloc, written)?;
    let err = sink(alloc, told)?;
    Ok(Ends { input, out, err })
}

/// Adds how a run over ends ended, what it wrote and what it told.
fn add_over(lines: &mut Lines, alloc: Global, words: &Vec<String>, ends: &mut Ends) {
    let status = run(alloc, words, &mut ends.input, &mut ends.out, &mut ends.err);
    lines.debug("status", &status);
    lines.hex("written", ends.out.written());
    lines.hex("told", ends.err.written());
}

/// Adds what came of a run over ends of which these calls fail.
fn add_run(
    lines: &mut Lines,
    alloc: Global,
    words: &Vec<String>,
    read: u64,
    written: u64,
    told: u64,
) {
    match failing_ends(alloc, read, written, told) {
        Ok(mut ends) => add_over(lines, alloc, words, &mut ends),
        Err(error) => lines.text("no ends", &error),
    }
}

/// Inputs that fail at each of their calls, and outputs that do.
fn add_runs(lines: &mut Lines, alloc: Global, words: &Vec<String>) {
    for call in 1..14 {
        add_run(lines, alloc, words, call, 0, 0);
    }
    for call in 1..13 {
        add_run(lines, alloc, words, 0, call, 0);
    }
}

/// A list of one word.
fn one_word(alloc: Global, word: &str) -> Result<Vec<String>, AllocError> {
    Ok(vec![in alloc; String::from_str(alloc, word)?]?)
}

/// Inputs and outputs that fail.
fn add_input_and_output(lines: &mut Lines, alloc: Global) {
    match one_word(alloc, "{i:i32}") {
        Ok(words) => add_runs(lines, alloc, &words),
        Err(error) => lines.text("no words", &error),
    }
}

/// An error output that fails.
fn add_error_output(lines: &mut Lines, alloc: Global) {
    match one_word(alloc, "{i:i33}") {
        Ok(words) => add_run(lines, alloc, &words, 0, 0, 1),
        Err(error) => lines.text("no words", &error),
    }
}

/// Runs whose ends fail.
pub fn add_faults(lines: &mut Lines, alloc: Global) {
    add_input_and_output(lines, alloc);
    add_error_output(lines, alloc);
}
