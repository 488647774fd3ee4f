// The forms around the one that is read.
ghost use Rattle.std.specs.Prelude.{◌≡◌, ℕ, Result};
ghost use Rattle.bson_shape.specs.Form.{Form};
ghost use Rattle.bson_shape.specs.Makers.{made_form, Makes};
ghost use Rattle.bson_shape.specs.declared.error.ShapeError.{ShapeError};
ghost use Rattle.bson_shape.specs.Machine as machine;
ghost use Rattle.bson_shape.specs.ParserView.{prefix_view, levels_view, ended_view};
ghost use Rattle.bson_shape.specs.Answers.{Gives};

use crate::group::Group;
use crate::{FieldShape, ParseError, Shape, ShapeError};
use std::alloc::Global;

/// What is before a form and ends where that form ends.
#[derive(Drop)]
pub(crate) enum Prefix {
    /// `?`.
    Option,
    /// `~`.
    Lossy,
    /// `^`.
    Readable,
    /// A newtype's name and `=`.
    Newtype(String),
    /// `&` and definitions.
    Definitions(Vec<FieldShape>),
}

/// A form around the one that is read.
#[derive(Drop)]
pub(crate) enum Level {
    /// A form that begins at this place with the prefix.
    InPrefix(usize, Prefix),
    /// A sequence that begins at this place, or a map, before its colon.
    InBrackets(usize),
    /// Two forms that begin at this place, before their comma.
    InPair(usize),
    /// Two forms that begin at this place, behind their comma, and the readable one.
    InCompact(usize, Shape),
    /// A map that begins at this place, behind its colon, and its key.
    InMap(usize, Shape),
    /// A group, and the name of the item; a part has the empty one.
    InItem(Group, String),
}

/// A form that has ended, and the level around it, if there is one.
#[derive(Drop)]
pub(crate) struct Ended {
    pub(crate) shape: Shape,
    pub(crate) around: Option<Level>,
}

/// What the maker answered, for a form that begins at the place.
pub(crate) fn made(place: usize, answer: Result<Shape, ShapeError>) -> Result<Shape, ParseError>
    ensures { (read : ℕ) → (due : Result Form ShapeError) → Makes answer due → Gives (λ s. s) result (machine.maker_answer read place due) }
{
    match answer {
        Ok(shape) => Ok(shape),
        Err(ShapeError::NoMemory) => Err(ParseError::NoMemory),
        Err(cause) => Err(ParseError::Refused(place, cause)),
    }
}

/// The form with the prefix before it.
fn prefixed(alloc: Global, prefix: Prefix, shape: Shape) -> Result<Shape, ShapeError>
    ensures { Makes result (made_form (machine.prefixed (prefix_view prefix) shape)) }
{
    match prefix {
        Prefix::Option => Shape::option(alloc, shape),
        Prefix::Lossy => Shape::lossy(alloc, shape),
        Prefix::Readable => Shape::readable(alloc, shape),
        Prefix::Newtype(name) => Shape::newtype(alloc, name, shape),
        Prefix::Definitions(table) => Shape::definitions(alloc, table, shape),
    }
}

/// A form that has ended, with the prefixes around it, which end with it.
///
/// The level around these is taken off, too.
#[tactic(auto, unfolding(crate::specs::Machine::wrapped))]
pub(crate) fn wrapped(
    alloc: Global,
    shape: Shape,
    levels: &mut Vec<Level>,
) -> Result<Ended, ParseError>
    ensures { (read : ℕ) → Gives (λ e. ended_view e (levels_view levels.new.items)) result (machine.wrapped read shape (levels_view levels.old.items)) }
{
    let mut shape = shape;
    while let Some(level) = levels.pop() {
        shape = match level {
            Level::InPrefix(place, prefix) => made(place, prefixed(alloc, prefix, shape))?,
            Level::InBrackets(_)
            | Level::InPair(_)
            | Level::InCompact(_, _)
            | Level::InMap(_, _)
            | Level::InItem(_, _) => {
                return Ok(Ended {
                    shape,
                    around: Some(level),
                });
            }
        };
    }
    Ok(Ended {
        shape,
        around: None,
    })
}
