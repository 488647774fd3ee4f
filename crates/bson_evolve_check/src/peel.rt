// What a part is, seen through newtypes, marks, references and definitions.
ghost use Rattle.std.specs.Prelude.{◌≡◌, List, IfOk};
ghost use Rattle.bson_shape.specs.Form.{reference, Fields};
ghost use Rattle.bson_evolve_laws.specs.Placed.{peel};
ghost use Rattle.bson_evolve_check.specs.Peels.{IsFurther, Leads};
ghost use Rattle.bson_evolve_check.specs.Placing.{place_view, tables_in, AreDifferent, IsMore, IsTable};

use crate::place::Place;
use crate::tables::Tables;
use bson_shape::{FieldShape, Form, Shape, definition};
use std::alloc::AllocError;

/// A part that is seen through, and how many names of the definitions around it may follow.
#[derive(Clone, Copy)]
struct Seeing<'s> {
    place: Place<'s>,
    left: usize,
}

/// What a form is, seen through one step further.
#[derive(Clone, Copy)]
enum Ahead<'s> {
    /// The form itself.
    Here,
    /// What this form is.
    Inner(&'s Shape),
    /// What this name means.
    Name(&'s str),
    /// What this form is, in these definitions.
    Table(&'s [FieldShape], &'s Shape),
}

/// What a part is, seen through. A chain of references comes to its end in as many steps as there are definitions, and one more.
///
/// # Errors
///
/// Memory ran out.
pub(crate) fn peel<'s>(tables: &mut Tables<'s>, place: Place<'s>) -> Result<Place<'s>, AllocError>
    requires different { AreDifferent (tables_in tables.old) }
    requires number { IsTable (tables_in tables.old) place.table }
    ensures more { IfOk result (λ p. IsMore (tables_in tables.old) (tables_in tables.new)) }
    ensures number { IfOk result (λ p. IsTable (tables_in tables.new) p.table) }
    ensures peeled { IfOk result (λ p. place_view p ≡ peel (place_view place.entry)) }
{
    let mut at = Seeing {
        place,
        left: place.table.definitions.len() + 1,
    };
    while let Some(next) = further(tables, at)? {
        at = next;
    }
    Ok(at.place)
}

// One step further; `None` where there is none.
fn further<'s>(tables: &mut Tables<'s>, at: Seeing<'s>) -> Result<Option<Seeing<'s>>, AllocError>
    requires different { AreDifferent (tables_in tables.old) }
    requires number { IsTable (tables_in tables.old) at.place.table }
    ensures more { IfOk result (λ o. IsMore (tables_in tables.old) (tables_in tables.new)) }
    ensures further { IfOk result (λ o. IsFurther (tables_in tables.new) at.entry o) }
{
    match look_ahead(at.place.shape) {
        Ahead::Here => Ok(None),
        Ahead::Inner(inner) => Ok(Some(beside(at, inner))),
        Ahead::Name(name) => Ok(follow(at, name)),
        Ahead::Table(definitions, body) => {
            let table = tables.table(definitions)?;
            Ok(Some(Seeing {
                place: Place { table, shape: body },
                left: definitions.len() + 1,
            }))
        }
    }
}

// Where the form leads to.
fn look_ahead(shape: &Shape) -> Ahead<'_>
    ensures { Leads result shape.now }
{
    match shape.form() {
        Form::Newtype(_, inner) | Form::Lossy(inner) => Ahead::Inner(inner),
        Form::Reference(name) => Ahead::Name(name),
        Form::Definitions(definitions, body) => Ahead::Table(definitions, body),
        Form::Leaf(_)
        | Form::Option(_)
        | Form::Readable(_)
        | Form::Seq(_)
        | Form::Map(_, _)
        | Form::Mode(_, _)
        | Form::Tuple(_)
        | Form::TupleStruct(_, _)
        | Form::UnitStruct(_)
        | Form::Struct(_, _)
        | Form::ClosedStruct(_, _)
        | Form::Enum(_) => Ahead::Here,
    }
}

// The definition of the name that the part is a reference to; `None` where no name may follow any more, or it has no definition.
fn follow<'s>(at: Seeing<'s>, name: &str) -> Option<Seeing<'s>>
    requires { at.place.shape.now ≡ reference name.now }
    ensures { (tables : List Fields) → IsTable tables at.entry.place.table → IsFurther tables at.entry result }
{
    if at.left == 0 {
        return None;
    }
    match definition(at.place.table.definitions, name) {
        Some(shape) => Some(Seeing {
            place: Place {
                table: at.place.table,
                shape,
            },
            left: at.left - 1,
        }),
        None => None,
    }
}

// Another part in the same definitions.
fn beside<'s>(at: Seeing<'s>, shape: &'s Shape) -> Seeing<'s>
    ensures { result ≡ record { place = record { table = at.entry.place.table; shape = shape.entry }; left = at.entry.left } }
{
    Seeing {
        place: Place {
            table: at.place.table,
            shape,
        },
        left: at.left,
    }
}
