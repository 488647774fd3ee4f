// Structs of one field and of two, whose values are not kept as data.
ghost use Rattle.std.specs.Prelude.{◌≡◌, [], None, option_map, pos, string_bytes, codes, IfOk};
ghost use Rattle.bson_kinds.specs.Text.{Utf8};
ghost use Rattle.bson_kinds.specs.Piece.{Piece, made};
ghost use Rattle.bson_shape.specs.Form as forms;
ghost use Rattle.bson_shape.specs.Form.{Form};
ghost use Rattle.bson_shape.specs.declared.leaf.Leaf.TheVariants as leaves;
ghost use Rattle.bson_values.specs.Marked.{Marked};
ghost use Rattle.bson_values.specs.Value as values;
ghost use Rattle.bson_laws.specs.Datum.{one, two};
ghost use Rattle.bson_laws.specs.Leaves.{numbers};
ghost use Rattle.bson_laws.specs.ReadsLeaf.{no_extended};
ghost use Rattle.bson_laws.specs.Shaped.{reads};
ghost use Rattle.bson_laws.specs.Slots.{fill_slot, value_or};
ghost use Rattle.bson_laws.specs.Views.{absent};
ghost use Rattle.bson_laws.specs.Wrapped.{with_field};
ghost use Rattle.bson_texts.specs.Leaves.{number_as};
ghost use Rattle.bson_met.specs.Gives.{Reaches};
ghost use Rattle.bson_met.specs.PieceView.{str_piece};
ghost use Rattle.bson_slots.specs.FieldsRead.{fields_read, fields_by_key};
ghost use Rattle.bson_laws.specs.Containers.{next_value, behind_first};
ghost use Rattle.bson_wrapped.specs.Fields.{field_slot, one_slot, two_slots, drop_at};

use bson_met::{Elements, Items, Met, Reading, Step, Value, refused};
use bson_slots::next_part;
use bson_texts::{ignore, own_text};
use bson_values::Cause;
use std::alloc::Global;

/// A value that a field has.
pub(crate) trait FieldValue: Drop {
    ghost form: { Form };

    ghost seen: { Self → Marked };

    ghost required: { absent {T = Piece} form ≡ None };

    /// The value at its shape.
    fn read(alloc: Global, value: &Met<'_>) -> Reading<Self>
        ensures exact { Reaches seen result (reads no_extended form value.now) };
}

impl FieldValue for String {
    ghost form = { forms.leaf leaves.String };

    ghost seen = { λ s. values.str (made (string_bytes s)) };

    ghost required = { λ _. None };

    fn read(alloc: Global, value: &Met<'_>) -> Reading<String> {
        own_text(alloc, value)
    }
}

impl FieldValue for u8 {
    ghost form = { forms.leaf leaves.U8 };

    ghost seen = { λ n. values.integer values.u8 (pos n) };

    ghost required = { λ _. None };

    fn read(alloc: Global, value: &Met<'_>) -> Reading<u8> {
        let number = value.integer(alloc)?;
        match as_u8(number) {
            Some(number) => Ok(number),
            None => Err(refused(alloc, Cause::OutOfRange(number))),
        }
    }
}

impl FieldValue for u32 {
    ghost form = { forms.leaf leaves.U32 };

    ghost seen = { λ n. values.integer values.u32 (pos n) };

    ghost required = { λ _. None };

    fn read(alloc: Global, value: &Met<'_>) -> Reading<u32> {
        let number = value.integer(alloc)?;
        match as_u32(number) {
            Some(number) => Ok(number),
            None => Err(refused(alloc, Cause::OutOfRange(number))),
        }
    }
}

/// The number, where it lies in the range of a `u8`.
fn as_u8(number: i64) -> Option<u8>
    ensures { option_map (λ n. values.integer values.u8 (pos n)) result ≡ number_as (numbers values.u8) number }
{
    u8::try_from(number).ok()
}

/// The number, where it lies in the range of a `u32`.
fn as_u32(number: i64) -> Option<u32>
    ensures { option_map (λ n. values.integer values.u32 (pos n)) result ≡ number_as (numbers values.u32) number }
{
    u32::try_from(number).ok()
}

/// The digits of an ObjectId in a struct of its own.
#[derive(Drop)]
pub(crate) struct Id(pub(crate) String);

impl FieldValue for Id {
    ghost form = { with_field (codes "$oid") (forms.leaf leaves.String) };

    ghost seen = { λ id. values.structure (made []) (one made (codes "$oid") (values.str (made (string_bytes id.0)))) };

    ghost required = { λ _. None };

    fn read(alloc: Global, value: &Met<'_>) -> Reading<Id> {
        Ok(Id(one_field(alloc, "$oid", value)?))
    }
}

/// The value of a struct's one field, from the elements of a document by its name or from those of an array by its place.
pub(crate) fn one_field<T: FieldValue>(alloc: Global, name: &str, value: &Met<'_>) -> Reading<T>
    ensures exact { Reaches (λ x. one made name.now (T.seen x)) result (fields_read (one_slot T.form name.now) value.now) }
{
    match value.judge(alloc)? {
        Value::Array(array) => next_item(alloc, 0, &mut Items::of_array(array)),
        other => {
            let elements = other.document(alloc)?;
            one_by_key(alloc, name, elements)
        }
    }
}

/// The values of a struct's two fields.
pub(crate) fn two_fields<A: FieldValue, B: FieldValue>(
    alloc: Global,
    first: &str,
    second: &str,
    value: &Met<'_>,
) -> Reading<(A, B)>
    ensures exact { Reaches (λ p. two made first.now (A.seen p.0) second.now (B.seen p.1)) result
        (fields_read (two_slots A.form first.now B.form second.now) value.now) }
{
    match value.judge(alloc)? {
        Value::Array(array) => {
            let mut items = Items::of_array(array);
            let first = next_item(alloc, 0, &mut items)?;
            let second = next_item(alloc, 1, &mut items)?;
            Ok((first, second))
        }
        other => {
            let elements = other.document(alloc)?;
            two_by_key(alloc, first, second, elements)
        }
    }
}

/// The value of the next element of an array, which is at this index.
fn next_item<T: FieldValue>(alloc: Global, index: u64, items: &mut Items<'_>) -> Reading<T>
    ensures rest { IfOk result (λ _. items.new ≡ behind_first items.old) }
    ensures value { Reaches T.seen result (next_value index (reads no_extended T.form) items.old) }
{
    let value = next_part(alloc, index, items)?;
    match T::read(alloc, &value) {
        Ok(value) => Ok(value),
        Err(stop) => Err(stop.under_index(index)),
    }
}

/// The value of the one field from the elements of a document.
fn one_by_key<T: FieldValue>(alloc: Global, name: &str, mut elements: Elements<'_>) -> Reading<T>
    ensures exact { Reaches (λ x. one made name.now (T.seen x)) result
        (fields_by_key forms.dropped (one_slot T.form name.now) elements.entry) }
{
    let mut found = None;
    let mut step = elements.start();
    'step: while elements.advance(alloc, &mut step)? {
        if name == step.key.text {
            put_value(alloc, &step, &mut found)?;
        } else {
            drop_value(alloc, &step)?;
        }
    }
    value_of(alloc, name, found)
}

/// The values of the two fields from the elements of a document.
fn two_by_key<A: FieldValue, B: FieldValue>(
    alloc: Global,
    first: &str,
    second: &str,
    mut elements: Elements<'_>,
) -> Reading<(A, B)>
    ensures exact { Reaches (λ p. two made first.now (A.seen p.0) second.now (B.seen p.1)) result
        (fields_by_key forms.dropped (two_slots A.form first.now B.form second.now) elements.entry) }
{
    let mut one = None;
    let mut other = None;
    let mut step = elements.start();
    'step: while elements.advance(alloc, &mut step)? {
        if first == step.key.text {
            put_value(alloc, &step, &mut one)?;
        } else if second == step.key.text {
            put_value(alloc, &step, &mut other)?;
        } else {
            drop_value(alloc, &step)?;
        }
    }
    let one = value_of(alloc, first, one)?;
    let other = value_of(alloc, second, other)?;
    Ok((one, other))
}

/// The value of an element, kept for its field, which has none yet.
fn put_value<T: FieldValue>(alloc: Global, step: &Step<'_>, kept: &mut Option<T>) -> Reading<()>
    ensures exact { (name : Utf8) → Reaches (λ _. field_slot T.form name (option_map T.seen kept.new)) result
        (fill_slot (str_piece step.now.key).bytes step.now.value (field_slot T.form name (option_map T.seen kept.old)) (option_map T.seen kept.old)) }
{
    let key = step.key.text;
    if kept.is_some() {
        let cause = Cause::DuplicateField(String::from_str(alloc, key)?);
        return Err(refused(alloc, cause));
    }
    match T::read(alloc, &step.value) {
        Ok(value) => {
            *kept = Some(value);
            Ok(())
        }
        Err(stop) => Err(stop.under_key(key)),
    }
}

/// Drops the value of an element that no field has.
fn drop_value(alloc: Global, step: &Step<'_>) -> Reading<()>
    ensures exact { Reaches (λ u. u) result (drop_at (str_piece step.now.key).bytes step.now.value) }
{
    match ignore(alloc, &step.value) {
        Ok(()) => Ok(()),
        Err(stop) => Err(stop.under_key(step.key.text)),
    }
}

/// The value that was kept for the field of this name.
fn value_of<T: FieldValue>(alloc: Global, name: &str, kept: Option<T>) -> Reading<T>
    ensures exact { Reaches T.seen result (value_or name.now None (option_map T.seen kept)) }
{
    match kept {
        Some(value) => Ok(value),
        None => {
            let name = String::from_str(alloc, name)?;
            Err(refused(alloc, Cause::MissingField(name)))
        }
    }
}
