// The shape that a word of a command line asks for.
ghost use Rattle.std.specs.Prelude.{◌≡◌, [], ◌∷◌, false, string_bytes, IfOk, Some};
ghost use Rattle.bson_program.specs.Command.{Asked};
ghost use Rattle.bson_program.specs.OneShape.{one_shape, Usage};
ghost use Rattle.bson_program.specs.ShapeWord.{IsShapeOf, line_at, line_for};

use bson_shape::{ParseError, Shape};
use std::alloc::{AllocError, Global};

// The line for a shape word that is refused at a place.
fn line_at(alloc: Global, place: usize, e: &ParseError) -> Result<String, AllocError>
    ensures { IfOk result (λ l. string_bytes l ≡ line_at place e.now) }
{
    format!(in alloc; "shape refused at {place}: {e}\n")
}

// The line for a shape word that is refused. Out of memory has none.
fn line_of(alloc: Global, e: &ParseError) -> Result<String, AllocError>
    ensures { IfOk result (λ l. line_for e.now ≡ Some (string_bytes l)) }
{
    match e {
        ParseError::NoMemory => Err(AllocError),
        ParseError::NotNotation(place) | ParseError::Refused(place, _) => line_at(alloc, *place, e),
    }
}

// The shape that a word is the notation of, or the line that refuses it.
fn parse_word(alloc: Global, word: &str) -> Result<Result<Shape, String>, AllocError>
    ensures exact { IfOk result (IsShapeOf word.now) }
{
    match Shape::parse(alloc, word) {
        Ok(shape) => {
            shape.known();
            Ok(Ok(shape))
        }
        Err(e) => Ok(Err(line_of(alloc, &e)?)),
    }
}

/// The shape that a word of a command line is the notation of, or the line that refuses the word: with the place and the refusal.
///
/// It is what the word asks for, where it is no option and stands alone on the command line of a program that takes one shape.
///
/// # Errors
///
/// The outer error means out of memory.
pub fn shape_of_word(alloc: Global, word: &str) -> Result<Result<Shape, String>, AllocError>
    ensures exact { IfOk result (IsShapeOf word.now) }
    ensures asks { (usage : Usage) → usage.is_option word.now ≡ false → IfOk result (Asked (one_shape usage) (word.now ∷ [])) }
{
    parse_word(alloc, word)
}
