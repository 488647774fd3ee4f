// Files are migrated, and their refused documents listed.
use crate::reports::{FILE, add_report};
use bson_buffers::{Refusal, migrate_and_list, migrate_into};
use bson_lines::Lines;
use std::alloc::Global;

/// Migrates a file.
fn add_file(lines: &mut Lines, alloc: Global, file: &[u8], output: &mut [u8], text: &mut [u8]) {
    let report = migrate_into(alloc, b"{n:u32}", file, output, text);
    add_report(lines, "file", &report, output, text);
}

/// A file with a refused document, where the buffer is too small, where it is larger, and where the text does not fit; one without; and a file that is
/// broken.
pub fn add_migrated(lines: &mut Lines, alloc: Global) {
    add_file(lines, alloc, &FILE, &mut [255; 15], &mut [b'.'; 64]);
    add_file(lines, alloc, &FILE, &mut [255; 18], &mut [b'.'; 64]);
    add_file(lines, alloc, &FILE, &mut [255; 18], &mut [b'.'; 10]);
    add_file(lines, alloc, &FILE[..12], &mut [255; 18], &mut [b'.'; 64]);
    add_file(lines, alloc, &FILE[..13], &mut [255; 18], &mut [b'.'; 64]);
}

/// A record that no call wrote.
const UNWRITTEN: Refusal = Refusal {
    index: 9,
    offset: 9,
    status: 9,
    text_start: 9,
    text_length: 9,
    cause_start: 9,
};

/// Migrates the file and lists its refused documents.
fn add_list(
    lines: &mut Lines,
    alloc: Global,
    output: &mut [u8],
    text: &mut [u8],
    refusals: &mut [Refusal],
) {
    let listed = migrate_and_list(alloc, b"{n:u32}", &FILE, output, text, refusals);
    add_report(lines, "list", &listed.report, output, text);
    lines.debug("written", &listed.refusals_written);
    lines.debug("needed", &listed.refusals_needed);
    for refusal in refusals.iter() {
        lines.debug("refusal", refusal);
    }
}

/// The file with its refused document listed, in an array with room for it and for another, and in an array without room.
pub fn add_listed(lines: &mut Lines, alloc: Global) {
    let mut refusals = [UNWRITTEN, UNWRITTEN];
    add_list(lines, alloc, &mut [255; 18], &mut [b'.'; 64], &mut refusals);
    add_list(lines, alloc, &mut [], &mut [b'.'; 64], &mut []);
}
