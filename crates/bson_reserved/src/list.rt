ghost use Rattle.std.specs.Prelude.{◌≡◌, ◌<◌, ◌≤◌, [], ◌∷◌, length, max, MatchOption, IfSome};
ghost use Rattle.bson_values.specs.TextView.{text_view};
ghost use Rattle.bson_datum.specs.View.{view, fields_view};
ghost use Rattle.bson_datum.specs.declared.datum.Datum.TheViews.{size-Datum, size-Field};
ghost use Rattle.bson_laws.specs.Unwrap.{a_key, listed, listed_part};
ghost use Rattle.bson_reserved.specs.ListView.{part_view, parts_view};
ghost use Rattle.bson_reserved.specs.Listed.{Lists, max_parts};
ghost use Rattle.bson_reserved.specs.Prover.Sized.{fields_size, part_size, parts_size};

use arrayvec::ArrayVec;
use bson_datum::{Datum, Field};

// A part of the list of a struct's fields: a key, or a value that is no struct and has one form.
#[derive(Clone, Copy)]
pub(crate) enum Part<'a, 'b> {
    // The name of a field.
    Key(&'a str),
    // A value.
    Value(&'a Datum<'b>),
}

// What is where a list has room left.
impl<'a, 'b> Default for Part<'a, 'b> {
    fn default() -> Part<'a, 'b> {
        Part::Key("")
    }
}

// The list of a struct's fields, in place: it has six parts at the most, and no list that is accepted has more.
pub(crate) type Parts<'a, 'b> = ArrayVec<Part<'a, 'b>, 6>;

// The list would have more parts than any that is accepted.
#[derive(Clone, Copy)]
struct Full;

// Puts one part behind the list.
fn push<'a, 'b>(list: &mut Parts<'a, 'b>, part: Part<'a, 'b>) -> Result<(), Full>
    ensures value { Lists result list.old.items list.new.items (λ rest. part_view part.entry ∷ rest) }
    ensures size { parts_size list.new.items ≤ max (parts_size list.old.items) (part_size part.entry) }
{
    match list.try_push(part) {
        Ok(()) => Ok(()),
        Err(_) => Err(Full),
    }
}

// Puts the list of the fields behind the list.
#[cycle(put)]
fn put_fields<'a, 'b>(list: &mut Parts<'a, 'b>, fields: &'a [Field<'b>]) -> Result<(), Full>
    ensures value { Lists result list.old.items list.new.items (listed (fields_view fields.now)) }
    ensures size { parts_size list.new.items ≤ max (parts_size list.old.items) (fields_size fields.now) }
{
    for field in fields {
        put_field(list, field)?;
    }
    Ok(())
}

// Puts the key of a field behind the list, and then what stands for its value.
#[cycle(put)]
fn put_field<'a, 'b>(list: &mut Parts<'a, 'b>, field: &'a Field<'b>) -> Result<(), Full>
    ensures value { Lists result list.old.items list.new.items (λ rest. a_key (text_view field.now.name) ∷ listed_part (view field.now.value) rest) }
    ensures size { parts_size list.new.items ≤ max (parts_size list.old.items) (size-Field field.now) }
{
    push(list, Part::Key(field.name.as_str()))?;
    put_value(list, &field.value)
}

// Puts what stands for the value behind the list: of a struct the list of its fields, of a value with two forms its compact one.
#[cycle(put)]
fn put_value<'a, 'b>(list: &mut Parts<'a, 'b>, value: &'a Datum<'b>) -> Result<(), Full>
    ensures value { Lists result list.old.items list.new.items (listed_part (view value.now)) }
    ensures size { parts_size list.new.items ≤ max (parts_size list.old.items) (size-Datum value.now) }
{
    match value {
        Datum::Struct { fields, .. } => put_fields(list, fields),
        Datum::Mode { compact, .. } => put_value(list, compact),
        _ => push(list, Part::Value(value)),
    }
}

// The list of the fields; `None` where it has more than six parts.
pub(crate) fn parts_of<'a, 'b>(fields: &'a [Field<'b>]) -> Option<Parts<'a, 'b>>
    ensures value { MatchOption result (max_parts < length (listed (fields_view fields.now) [])) (λ list. parts_view list.items ≡ listed (fields_view fields.now) []) }
    ensures size { IfSome result (λ list. parts_size list.items ≤ fields_size fields.now) }
{
    let mut list = ArrayVec::new();
    match put_fields(&mut list, fields) {
        Ok(()) => Some(list),
        Err(Full) => None,
    }
}
