ghost use Rattle.std.specs.Prelude.{◌≡◌, ◌<◌, ◌≤◌, ◌+◌, [], ◌∷◌, length, false, if◌then◌else◌, Some, None, is_some, option_map, string_bytes, IfOk, List, Option};
ghost use Rattle.std.specs.Bool.{OnTrue};
ghost use Rattle.bson_shape.specs.ShapeView.{fields_of};
ghost use Rattle.bson_kinds.specs.Piece.{Piece};
ghost use Rattle.bson_datum.specs.MarkedView.{marked};
ghost use Rattle.bson_values.specs.Value.{none};
ghost use Rattle.bson_datum.specs.declared.datum.Datum.{Datum};
ghost use Rattle.bson_laws.specs.ReadsFrom.{slots_for};
ghost use Rattle.bson_laws.specs.Settled.{settled};
ghost use Rattle.bson_laws.specs.Slots as laws;
ghost use Rattle.bson_laws.specs.declared.origin.Reader as for_reader;
ghost use Rattle.bson_laws.specs.Views.{absent};
ghost use Rattle.bson_slots.specs.FieldSlots.{AreFirst, AreFirst-prop, field_slots, fields_marked, value_at, with_value};
ghost use Rattle.bson_met.specs.Gives.{Reaches};

use crate::mode::shape_for_reader;
use crate::named::named_field;
use bson_datum::{Datum, Field};
use bson_laws::Reader;
use bson_met::{Reading, refused};
use bson_shape::{FieldShape, Form, Shape};
use bson_values::Cause;
use std::alloc::{AllocError, Global};
use std::mem;

/// The fields of a struct in the shape's order, each with the value that was read for it, if one was.
///
/// Values that come in the shape's order are written at once where they stay in the result. There is room for others only
/// once one comes out of order.
#[derive(Drop)]
pub struct Slots<'s, 'de> {
    /// The fields, in the shape's order.
    pub fields: &'s [FieldShape],
    /// For whom they are read, and from what.
    pub reader: &'s Reader<'s>,
    /// The first of them, with the values that came in order.
    first: Vec<Field<'de>>,
    /// The values of the fields behind the first, once one came out of order; those behind these have none.
    later: Vec<Option<Datum<'de>>>,
    ghost named: { AreFirst fields.now first.items } by { AreFirst-prop fields.now first.items },
    ghost within: { length first.items + length later.items ≤ length fields.now },
}

impl<'s, 'de> Slots<'s, 'de> {
    ghost use Rattle.bson_slots.specs.SlotsView.{slots_view};

    /// The slots of these fields, of which none has a value.
    ///
    /// # Errors
    ///
    /// Memory ran out.
    #[tactic(auto, using(crate::proofs::Finished::none_yet))]
    pub fn new(
        alloc: Global,
        fields: &'s [FieldShape],
        reader: &'s Reader<'s>,
    ) -> Result<Slots<'s, 'de>, AllocError>
        ensures empty { IfOk result (λ s. slots_view s ≡ slots_for reader.now (fields_of fields.now)) }
        ensures fields { IfOk result (λ s. s.fields ≡ fields.entry) }
        ensures reader { IfOk result (λ s. s.reader ≡ reader.entry) }
    {
        let first = Vec::with_capacity(alloc, fields.len())?;
        let later = Vec::new(alloc);
        Ok(Slots {
            fields,
            reader,
            first,
            later,
        })
    }

    /// Whether a value was read for the field at the place.
    pub fn is_filled(&self, place: usize) -> bool
        requires { place < length self.now.fields.now }
        ensures { result ≡ is_some (value_at (slots_view self.now) place) }
    {
        if place < self.first.len() {
            return true;
        }
        match self.later.get(place - self.first.len()) {
            Some(value) => value.is_some(),
            None => false,
        }
    }

    /// Keeps the value that was read for the field at the place, which has none yet.
    ///
    /// # Errors
    ///
    /// Memory ran out.
    pub fn put(&mut self, alloc: Global, place: usize, value: Datum<'de>) -> Result<(), AllocError>
        requires within { place < length self.old.fields.now }
        requires unfilled { is_some (value_at (slots_view self.old) place) ≡ false }
        ensures put { IfOk result (λ _. slots_view self.new
            ≡ with_value (slots_view self.old) place (marked value.entry)) }
        ensures fields { self.new.fields ≡ self.old.fields }
        ensures reader { self.new.reader ≡ self.old.reader }
    {
        if self.is_next(place) {
            return push(alloc, self.fields, &mut self.first, value);
        }
        let behind = place - self.first.len();
        self.put_later(behind, value)
    }

    /// Whether the field at the place is the one behind the first, and no value came out of order.
    fn is_next(&self, place: usize) -> bool
        ensures place { OnTrue result (place ≡ length self.now.first.items) }
        ensures later { OnTrue result (self.now.later.items ≡ []) }
    {
        place == self.first.len() && self.later.is_empty()
    }

    /// Keeps the value of the field that is at this place behind the first.
    #[inline(never)]
    fn put_later(&mut self, place: usize, value: Datum<'de>) -> Result<(), AllocError>
        requires { length self.old.first.items + place < length self.old.fields.now }
        ensures put { IfOk result (λ _. slots_view self.new
            ≡ with_value (slots_view self.old) (length self.old.first.items + place) (marked value.entry)) }
        ensures fields { self.new.fields ≡ self.old.fields }
        ensures reader { self.new.reader ≡ self.old.reader }
    {
        match self.reach(place) {
            Ok(()) => {
                drop(mem::replace(&mut self.later[place], Some(value)));
                Ok(())
            }
            Err(error) => {
                drop(value);
                Err(error)
            }
        }
    }

    /// Makes room for the value of the field that is at this place behind the first.
    fn reach(&mut self, place: usize) -> Result<(), AllocError>
        requires { length self.old.first.items + place < length self.old.fields.now }
        ensures reached { IfOk result (λ _. place < length self.new.later.items) }
        ensures slots { slots_view self.new ≡ slots_view self.old }
        ensures first { self.new.first ≡ self.old.first }
        ensures fields { self.new.fields ≡ self.old.fields }
        ensures reader { self.new.reader ≡ self.old.reader }
    {
        while self.later.len() <= place {
            self.later.push(None)?;
        }
        Ok(())
    }

    /// All fields with their values, in the shape's order. A field that has no value is none, where its shape is an option, or the one of two shapes that applies
    /// is one.
    ///
    /// The struct is refused for `MissingField`, with the name of the first field that has no value and is no such option.
    /// Returns `NoMemory` where memory runs out.
    pub fn finish(self, alloc: Global) -> Reading<Vec<Field<'de>>>
        ensures exact { Reaches (λ v. fields_marked v.items) result (laws.finish (slots_view self.entry)) }
    {
        if self.first.len() == self.fields.len() {
            return Ok(self.first);
        }
        self.finish_later(alloc)
    }

    /// The same, where a value came out of order or a field has none.
    #[inline(never)]
    fn finish_later(self, alloc: Global) -> Reading<Vec<Field<'de>>>
        ensures exact { Reaches (λ v. fields_marked v.items) result (laws.finish (slots_view self.entry)) }
    {
        let (fields, readable) = (self.fields, self.reader.readable);
        let mut first = self.first;
        for value in self.later {
            let value = value_or_missing(alloc, &fields[first.len()], readable, value)?;
            push(alloc, fields, &mut first, value)?;
        }
        while let Some(field) = fields.get(first.len()) {
            let value = value_or_missing(alloc, field, readable, None)?;
            push(alloc, fields, &mut first, value)?;
        }
        Ok(first)
    }
}

/// Adds the value of the field behind the first.
#[tactic(auto, using(crate::proofs::Finished::first_more, crate::proofs::Finished::named_more))]
#[inline(always)]
fn push<'de>(
    alloc: Global,
    fields: &[FieldShape],
    first: &mut Vec<Field<'de>>,
    value: Datum<'de>,
) -> Result<(), AllocError>
    requires within { length first.old.items < length fields.now }
    requires named { AreFirst fields.now first.old.items }
    ensures pushed { IfOk result (λ _. (reader : for_reader.Reader) (later : List (Option Datum)) → field_slots reader fields.now first.new.items later
        ≡ field_slots reader fields.now first.old.items (Some value.entry ∷ later)) }
    ensures named { AreFirst fields.now first.new.items }
    ensures within { length first.new.items ≤ length first.old.items + 1 }
    ensures grown { IfOk result (λ _. length first.new.items ≡ length first.old.items + 1) }
{
    let field = named_field(alloc, fields[first.len()].name.as_str(), value)?;
    first.push(field)?;
    Ok(())
}

/// The value that was read for a field. Where none was read, the default of a missing one: an option is none.
/// Where nothing does, the struct is refused.
fn value_or_missing<'de>(
    alloc: Global,
    field: &FieldShape,
    readable: bool,
    value: Option<Datum<'de>>,
) -> Reading<Datum<'de>>
    ensures exact { Reaches marked result
        (laws.value_or (string_bytes field.now.name) (laws.missing_value (settled readable field.now.shape)) (option_map marked value.entry)) }
{
    if let Some(value) = value {
        return Ok(value);
    }
    if may_be_missing(&field.shape, readable) {
        return Ok(Datum::None);
    }
    let name = String::from_str(alloc, field.name.as_str())?;
    Err(refused(alloc, Cause::MissingField(name)))
}

/// Whether a field of the shape may be missing: where it is an option, or the one of two shapes that applies is one. It is looked through two shapes once.
fn may_be_missing(shape: &Shape, readable: bool) -> bool
    ensures missing { laws.missing_value {T = Piece} (settled readable shape.now) ≡ (if result then Some none else None) }
{
    match shape.form() {
        Form::Option(_) => true,
        Form::Mode(human, compact) => is_option(shape_for_reader(readable, human, compact)),
        _ => false,
    }
}

/// Whether the shape is an option.
fn is_option(shape: &Shape) -> bool
    ensures absent { absent {T = Piece} shape.now ≡ (if result then Some none else None) }
{
    matches!(shape.form(), Form::Option(_))
}
