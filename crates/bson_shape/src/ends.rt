// What follows a form.
ghost use Rattle.bson_shape.specs.Machine as machine;
ghost use Rattle.bson_shape.specs.ParserView.{levels_view, Reaches};
ghost use Rattle.bson_shape.specs.Answers.{Gives};

use crate::group::{form_closed, grown, item_ended};
use crate::levels::{Ended, Level, wrapped};
use crate::mode::Mode;
use crate::{ParseError, Shape};
use std::alloc::Global;

/// Behind the first form between brackets that begin at the place: the item of a sequence, or the key of a map.
fn key_ended(
    alloc: Global,
    place: usize,
    item: Shape,
    levels: &mut Vec<Level>,
    at: usize,
    b: u8,
) -> Result<Mode, ParseError>
    ensures { Reaches result levels.new.items (machine.key_ended at place item (levels_view levels.old.items) b) }
{
    match b {
        b']' => form_closed(place, Shape::seq(alloc, item)),
        b':' => {
            levels.push(Level::InMap(place, item))?;
            Ok(Mode::FormDue)
        }
        _ => Err(ParseError::NotNotation(at)),
    }
}

/// Behind the value of a map that begins at the place.
fn value_ended(
    alloc: Global,
    place: usize,
    key: Shape,
    value: Shape,
    levels: &Vec<Level>,
    at: usize,
    b: u8,
) -> Result<Mode, ParseError>
    ensures { Reaches result levels.now.items (machine.value_ended at place key value (levels_view levels.now.items) b) }
{
    if b != b']' {
        return Err(ParseError::NotNotation(at));
    }
    form_closed(place, Shape::map(alloc, key, value))
}

/// Behind the readable of two forms that begin at the place.
fn readable_ended(
    place: usize,
    readable: Shape,
    levels: &mut Vec<Level>,
    at: usize,
    b: u8,
) -> Result<Mode, ParseError>
    ensures { Reaches result levels.new.items (machine.readable_ended at place readable (levels_view levels.old.items) b) }
{
    if b != b',' {
        return Err(ParseError::NotNotation(at));
    }
    levels.push(Level::InCompact(place, readable))?;
    Ok(Mode::FormDue)
}

/// Behind the compact of two forms that begin at the place.
fn compact_ended(
    alloc: Global,
    place: usize,
    readable: Shape,
    compact: Shape,
    levels: &Vec<Level>,
    at: usize,
    b: u8,
) -> Result<Mode, ParseError>
    ensures { Reaches result levels.now.items (machine.compact_ended at place readable compact (levels_view levels.now.items) b) }
{
    if b != b')' {
        return Err(ParseError::NotNotation(at));
    }
    form_closed(place, Shape::mode(alloc, readable, compact))
}

/// Behind a form.
#[tactic(auto, unfolding(crate::specs::Machine::form_ended))]
pub(crate) fn form_ended(
    alloc: Global,
    shape: Shape,
    levels: &mut Vec<Level>,
    at: usize,
    b: u8,
) -> Result<Mode, ParseError>
    ensures { Reaches result levels.new.items (machine.form_ended at shape (levels_view levels.old.items) b) }
{
    let Ended { shape, around } = wrapped(alloc, shape, levels)?;
    match around {
        Some(Level::InBrackets(place)) => key_ended(alloc, place, shape, levels, at, b),
        Some(Level::InMap(place, key)) => value_ended(alloc, place, key, shape, levels, at, b),
        Some(Level::InPair(place)) => readable_ended(place, shape, levels, at, b),
        Some(Level::InCompact(place, readable)) => {
            compact_ended(alloc, place, readable, shape, levels, at, b)
        }
        Some(Level::InItem(group, name)) => {
            item_ended(alloc, grown(group, name, shape)?, levels, at, b)
        }
        Some(Level::InPrefix(_, _)) | None => Err(ParseError::NotNotation(at)),
    }
}

/// Behind a form that no further byte belongs to.
pub(crate) fn no_more(
    alloc: Global,
    shape: Shape,
    levels: &mut Vec<Level>,
    at: usize,
) -> Result<Mode, ParseError>
    ensures { Reaches result levels.new.items (machine.no_more at shape (levels_view levels.old.items)) }
{
    wrapped(alloc, shape, levels)?;
    Err(ParseError::NotNotation(at))
}

/// The last form, which no other may be around.
pub(crate) fn last(
    alloc: Global,
    shape: Shape,
    levels: &mut Vec<Level>,
    at: usize,
) -> Result<Shape, ParseError>
    ensures { Gives (λ s. s) result (machine.last at shape (levels_view levels.old.items)) }
{
    let Ended { shape, around } = wrapped(alloc, shape, levels)?;
    match around {
        None => Ok(shape),
        Some(_) => Err(ParseError::NotNotation(at)),
    }
}
