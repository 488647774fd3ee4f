// What is given to the calls, and what they report.
use bson_buffers::Report;
use bson_lines::Lines;

/// The document {n: 7}, its 7 an Int32.
pub const SEVEN: [u8; 12] = [12, 0, 0, 0, 16, 110, 0, 7, 0, 0, 0, 0];

/// `SEVEN` and an empty document.
pub const FILE: [u8; 17] = [12, 0, 0, 0, 16, 110, 0, 7, 0, 0, 0, 0, 5, 0, 0, 0, 0];

/// Adds what a call reports, and what its buffers hold then.
pub fn add_report(lines: &mut Lines, what: &str, report: &Report, output: &[u8], text: &[u8]) {
    lines.debug(what, report);
    lines.hex("output", output);
    lines.debug("text", &str::from_utf8(text));
}
