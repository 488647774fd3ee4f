// The shapes that two words of a command line ask for.
ghost use Rattle.std.specs.Prelude.{◌≡◌, string_bytes, IfOk, Some};
ghost use Rattle.bson_evolve_run.specs.Lines.{line_at, line_for};
ghost use Rattle.bson_evolve_run.specs.TwoShapes.{IsShapeOf};

use bson_shape::{ParseError, Shape};
use std::alloc::{AllocError, Global};

// The line for the word of this name, which is refused at a place.
fn line_at(alloc: Global, which: &str, place: usize, e: &ParseError) -> Result<String, AllocError>
    ensures { IfOk result (λ l. string_bytes l ≡ line_at which.now place e.now) }
{
    format!(in alloc; "shape {which} refused at {place}: {e}\n")
}

// The line for the word of this name, which is refused. Out of memory has none.
fn line_of(alloc: Global, which: &str, e: &ParseError) -> Result<String, AllocError>
    ensures { IfOk result (λ l. line_for which.now e.now ≡ Some (string_bytes l)) }
{
    match e {
        ParseError::NoMemory => Err(AllocError),
        ParseError::NotNotation(place) | ParseError::Refused(place, _) => {
            line_at(alloc, which, *place, e)
        }
    }
}

/// The shape that the word of this name is the notation of, or the line that refuses it.
///
/// # Errors
///
/// The outer error means out of memory.
pub(crate) fn shape_of(
    alloc: Global,
    which: &str,
    word: &str,
) -> Result<Result<Shape, String>, AllocError>
    ensures exact { IfOk result (IsShapeOf which.now word.now) }
{
    match Shape::parse(alloc, word) {
        Ok(shape) => {
            shape.known();
            Ok(Ok(shape))
        }
        Err(e) => Ok(Err(line_of(alloc, which, &e)?)),
    }
}
