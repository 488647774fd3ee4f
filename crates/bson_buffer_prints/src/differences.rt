// Shapes are compared.
use crate::reports::add_report;
use bson_buffers::differences_into;
use bson_lines::Lines;
use std::alloc::Global;

/// Compares two shapes.
fn add_pair(lines: &mut Lines, alloc: Global, old: &str, new: &str, text: &mut [u8]) {
    let report = differences_into(alloc, old.as_bytes(), new.as_bytes(), text);
    add_report(lines, new, &report, &[], text);
}

/// Compatible shapes; two that differ in two fields, whose texts fit and do not fit; and shapes that are refused: the old one, the new one, and one of them that is not plain.
pub fn add_differences(lines: &mut Lines, alloc: Global) {
    add_pair(lines, alloc, "{n:i32}", "{n:i64}", &mut [b'.'; 16]);
    add_pair(lines, alloc, "{n:i64}", "{n:i32,m:bool}", &mut [b'.'; 160]);
    add_pair(lines, alloc, "{n:i64}", "{n:i32,m:bool}", &mut [b'.'; 10]);
    add_pair(lines, alloc, "{n:i33}", "{n:i32}", &mut [b'.'; 16]);
    add_pair(lines, alloc, "{n:i32}", "{n:i33}", &mut [b'.'; 16]);
    add_pair(lines, alloc, "rawdoc", "{n:i32}", &mut [b'.'; 32]);
    add_pair(lines, alloc, "{n:i32}", "rawdoc", &mut [b'.'; 32]);
}
