// The shape of a summary, made once.
ghost use Rattle.std.specs.Prelude.{◌≡◌, nat_lt, Ok};
ghost use Rattle.bson_shape.specs.Makers.{IsShape, Makes};
ghost use Rattle.bson_infer_run.specs.Counted.{opt_if};
ghost use Rattle.bson_infer_run.specs.SummaryView.{kind_form, struct_form, IsEven, IsKind};

use crate::summary::{FieldSummary, Kind, StructSummary, Summary};
use bson_shape::{FieldShape, Shape, ShapeError};
use std::alloc::Global;

/// The shape of a summary.
///
/// # Errors
///
/// Memory ran out.
#[cycle(shape)]
pub(crate) fn shape_of(alloc: Global, summary: &Summary) -> Result<Shape, ShapeError>
    requires { IsShape summary.now }
    ensures { Makes result (Ok summary.now) }
{
    let shape = shape_of_kind(alloc, &summary.kind)?;
    if summary.or_null {
        return Shape::option(alloc, shape);
    }
    Ok(shape)
}

// The shape of what is no option.
#[cycle(shape)]
fn shape_of_kind(alloc: Global, kind: &Kind) -> Result<Shape, ShapeError>
    requires kind { IsKind kind.now }
    requires shape { IsShape (kind_form kind.now) }
    ensures { Makes result (Ok (kind_form kind.now)) }
{
    match kind {
        Kind::Nothing => Shape::enumeration(Vec::new(alloc)),
        Kind::Leaf(leaf) => Ok(Shape::leaf(*leaf)),
        Kind::Sequence(item) => {
            let item = shape_of(alloc, item)?;
            Shape::seq(alloc, item)
        }
        Kind::Structure(fields) => shape_of_struct(alloc, fields),
    }
}

// The shape of a struct: a field that was not in all documents is an option.
#[cycle(shape)]
fn shape_of_struct(alloc: Global, summary: &StructSummary) -> Result<Shape, ShapeError>
    requires even { IsEven summary.now }
    requires shape { IsShape (struct_form summary.now) }
    ensures { Makes result (Ok (struct_form summary.now)) }
{
    let mut fields = Vec::with_capacity(alloc, summary.fields.len())?;
    for (i, field) in summary.fields.iter().enumerate() {
        let name = String::from_str(alloc, summary.names.name(i))?;
        let shape = shape_of_field(alloc, field, summary.count)?;
        fields.push(FieldShape { name, shape })?;
    }
    Shape::structure(String::new(alloc), fields)
}

// The shape of a field among so many documents.
#[cycle(shape)]
fn shape_of_field(alloc: Global, field: &FieldSummary, count: u64) -> Result<Shape, ShapeError>
    requires { IsShape (opt_if (nat_lt field.now.count count) field.now.summary) }
    ensures { Makes result (Ok (opt_if (nat_lt field.now.count count) field.now.summary)) }
{
    let shape = shape_of(alloc, &field.summary)?;
    if field.count < count && !field.summary.is_option() {
        return Shape::option(alloc, shape);
    }
    Ok(shape)
}
