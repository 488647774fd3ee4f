// The join of two summaries: the rows of the join of forms.
ghost use Rattle.std.specs.Prelude.{◌≡◌, ◌+◌, ◌||◌, false, IfOk, OnOk, string_bytes};
ghost use Rattle.bson_shape.specs.Form as form;
ghost use Rattle.bson_infer_laws.specs.Join as forms;
ghost use Rattle.bson_infer_laws.specs.Join.{is_nothing, is_unit, same_leaf};
ghost use Rattle.bson_infer_run.specs.Counted.{put, puts};
ghost use Rattle.bson_infer_run.specs.SummaryView.{counted_of, counted_field, kind_form, struct_form, summary_form, IsEven, IsSome, IsSummary};

use crate::summary::{FieldSummary, Kind, StructSummary, Summary};
use bson_shape::Leaf;
use std::alloc::{AllocError, Global};
use std::mem;

/// The join of two summaries.
///
/// # Errors
///
/// Memory ran out, or more than `u64::MAX` documents were joined.
#[cycle(join)]
pub(crate) fn joined(alloc: Global, first: Summary, second: Summary) -> Result<Summary, AllocError>
    ensures { IfOk result (λ s. s ≡ forms.join first second) }
{
    let Summary {
        or_null: first_null,
        kind: first_kind,
    } = first;
    let Summary {
        or_null: second_null,
        kind: second_kind,
    } = second;
    if first_null && !second_null && is_null_or_nothing(&second_kind) {
        return Ok(Summary {
            or_null: true,
            kind: first_kind,
        });
    }
    if second_null && !first_null && is_null_or_nothing(&first_kind) {
        return Ok(Summary {
            or_null: true,
            kind: second_kind,
        });
    }
    let joined = join_kinds(alloc, first_kind, second_kind)?;
    if first_null || second_null {
        return Ok(joined.or_null());
    }
    Ok(joined)
}

// Whether there is no value but null.
fn is_null_or_nothing(kind: &Kind) -> bool
    ensures { result ≡ (is_nothing (kind_form kind.now) || is_unit (kind_form kind.now)) }
{
    is_nothing(kind) || is_unit(kind)
}

// Whether there is no value.
fn is_nothing(kind: &Kind) -> bool
    ensures { result ≡ is_nothing (kind_form kind.now) }
{
    matches!(kind, Kind::Nothing)
}

// Whether each value is null.
fn is_unit(kind: &Kind) -> bool
    ensures { result ≡ is_unit (kind_form kind.now) }
{
    match kind {
        Kind::Leaf(leaf) => *leaf == Leaf::Unit,
        _ => false,
    }
}

// The join of what is no option.
#[cycle(join)]
fn join_kinds(alloc: Global, first: Kind, second: Kind) -> Result<Summary, AllocError>
    requires first { IsSummary false first }
    requires second { IsSummary false second }
    ensures { IfOk result (λ s. s ≡ forms.join (kind_form first) (kind_form second)) }
{
    match first {
        Kind::Nothing => Ok(Summary::of(second)),
        Kind::Leaf(leaf) => match second {
            Kind::Leaf(other) => Ok(join_leaves(leaf, other)),
            other => Ok(join_unlike(Kind::Leaf(leaf), other)),
        },
        Kind::Sequence(item) => match second {
            Kind::Sequence(other) => join_items(alloc, item, other),
            other => Ok(join_unlike(Kind::Sequence(item), other)),
        },
        Kind::Structure(fields) => match second {
            Kind::Structure(others) => join_structs(alloc, fields, others),
            other => Ok(join_unlike(Kind::Structure(fields), other)),
        },
    }
}

// Two forms that are no options and are unlike in their outer form: null makes an option of the other.
fn join_unlike(first: Kind, second: Kind) -> Summary
    requires first { IsSummary false first }
    requires second { IsSummary false second }
    ensures { result ≡ forms.join_unlike (kind_form first) (kind_form second) }
{
    if is_nothing(&first) {
        return Summary::of(second);
    }
    if is_nothing(&second) {
        return Summary::of(first);
    }
    if is_unit(&first) {
        return Summary::of(second).or_null();
    }
    if is_unit(&second) {
        return Summary::of(first).or_null();
    }
    Summary::leaf(Leaf::Bson)
}

// Two leaves: the one that takes the values of both.
fn join_leaves(first: Leaf, second: Leaf) -> Summary
    ensures { result ≡ forms.join_leaves first second }
{
    if is_within(second, first) {
        return Summary::leaf(first);
    }
    if is_within(first, second) {
        return Summary::leaf(second);
    }
    join_unlike(Kind::Leaf(first), Kind::Leaf(second))
}

// Whether the second leaf takes each value of the first.
pub(crate) fn is_within(first: Leaf, second: Leaf) -> bool
    ensures { result ≡ forms.within first second }
{
    first == second || grown(first) == second || second == Leaf::Bson
}

// The leaf that a leaf grows to.
fn grown(leaf: Leaf) -> Leaf
    ensures { result ≡ forms.grown leaf }
{
    match leaf {
        Leaf::I32 => Leaf::I64,
        Leaf::ByteBuf => Leaf::Binary,
        leaf => leaf,
    }
}

// Two arrays.
#[cycle(join)]
fn join_items(
    alloc: Global,
    first: Box<Summary>,
    second: Box<Summary>,
) -> Result<Summary, AllocError>
    ensures { IfOk result (λ s. s ≡ form.sequence (forms.join first.value second.value)) }
{
    let item = joined(alloc, Box::into_inner(first), Box::into_inner(second))?;
    Summary::sequence(alloc, item)
}

// Two structs.
#[cycle(join)]
fn join_structs(
    alloc: Global,
    first: Box<StructSummary>,
    second: Box<StructSummary>,
) -> Result<Summary, AllocError>
    requires first { IsSummary false (Kind.Structure first) }
    requires second { IsSummary false (Kind.Structure second) }
    ensures { IfOk result (λ s. s ≡ forms.join (struct_form first.value) (struct_form second.value)) }
{
    let mut first = first;
    join_fields(alloc, &mut first, Box::into_inner(second))?;
    Ok(Summary::of(Kind::Structure(first)))
}

// Adds the documents of the second to the first.
#[cycle(join)]
fn join_fields(
    alloc: Global,
    first: &mut StructSummary,
    second: StructSummary,
) -> Result<(), AllocError>
    requires first { IsEven first.old }
    requires second { IsEven second }
    ensures even { OnOk result (IsEven first.new) }
    ensures count { OnOk result (first.new.count ≡ first.old.count + second.count) }
    ensures fields { OnOk result (counted_of first.new ≡ puts (counted_of first.old) (counted_of second)) }
{
    let StructSummary {
        count,
        names,
        fields,
    } = second;
    let Some(total) = first.count.checked_add(count) else {
        return Err(AllocError);
    };
    first.count = total;
    let mut place = 0;
    for field in fields {
        join_field(alloc, first, names.name(place), field, place)?;
        place += 1;
    }
    Ok(())
}

// Adds what is at a key, which is looked for at the expected index first.
#[cycle(join)]
fn join_field(
    alloc: Global,
    fields: &mut StructSummary,
    name: &str,
    field: FieldSummary,
    expected: usize,
) -> Result<(), AllocError>
    requires { IsEven fields.old }
    ensures even { OnOk result (IsEven fields.new) }
    ensures count { OnOk result (fields.new.count ≡ fields.old.count) }
    ensures field { OnOk result (counted_of fields.new ≡ put (counted_field name.now field) (counted_of fields.old)) }
{
    let place = fields.place_of(alloc, name, expected)?;
    let known = mem::replace(&mut fields.fields[place], FieldSummary::new());
    let Some(count) = known.count.checked_add(field.count) else {
        return Err(AllocError);
    };
    let summary = joined(alloc, known.summary, field.summary)?;
    fields.fields[place] = FieldSummary { count, summary };
    Ok(())
}
