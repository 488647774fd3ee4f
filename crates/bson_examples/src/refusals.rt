// The examples over refusals and their places.
use crate::bson::{Shape, from_slice_at};
use crate::places::{refusal, refused_key};
use crate::printing::ADA;
use bson_lines::Lines;
use std::alloc::Global;

/// Adds what is wrong with a shape, or with the document at it.
fn add_refusal(lines: &mut Lines, alloc: Global, notation: &str) {
    lines.made("refusal", refusal(alloc, notation, ADA));
}

/// Adds the key of a value that is refused at a shape.
fn add_key(lines: &mut Lines, alloc: Global, shape: &Shape) {
    match from_slice_at(alloc, shape, ADA) {
        Ok(_) => lines.line("no refusal"),
        Err(error) => lines.debug("refused_key", &refused_key(&error)),
    }
}

/// Refusals have their places.
pub fn add_refusals(lines: &mut Lines, alloc: Global) {
    add_refusal(lines, alloc, "{age:i33}");
    add_refusal(lines, alloc, "{name:u8}");
    add_refusal(lines, alloc, "{age:u8}");
    add_refusal(lines, alloc, "{!age:u8}");
    match Shape::parse(alloc, "{name:u8}") {
        Ok(shape) => add_key(lines, alloc, &shape),
        Err(error) => lines.text("no shape", &error),
    }
}
