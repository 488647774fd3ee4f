// Whether a name of definitions leads back to itself.
ghost use Rattle.std.specs.Prelude.{◌≡◌, true, false, option_copied};
ghost use Rattle.bson_kinds.specs.Text.{Utf8};
ghost use Rattle.bson_shape.specs.Form as form;
ghost use Rattle.bson_shape.specs.Guarded as guarded;
ghost use Rattle.bson_shape.specs.ShapeView.{fields_of};

use crate::search::is_guarded_by_search;
use crate::{FieldShape, Form, Shape};
use std::alloc::Global;

/// Whether no name leads back to itself without a step into a value.
///
/// It takes memory for a search. Where that is refused the answer is the same, and takes longer.
pub(crate) fn is_guarded(alloc: Global, table: &[FieldShape]) -> bool
    ensures { result ≡ guarded.is_guarded (fields_of table.now) }
{
    match is_guarded_by_search(alloc, table) {
        Ok(guarded) => guarded,
        Err(_) => is_guarded_by_chains(table),
    }
}

/// Whether no name leads back to itself: each chain of references is followed to its end.
fn is_guarded_by_chains(table: &[FieldShape]) -> bool
    ensures { result ≡ guarded.is_guarded (fields_of table.now) }
{
    let most = table.len() + 1;
    for definition in table {
        if !name_ends(table, most, definition.name.as_str()) {
            return false;
        }
    }
    true
}

/// Whether a chain of references from this name has no more names than so many.
#[cycle(ends)]
fn name_ends(table: &[FieldShape], most: usize, name: &str) -> bool
    ensures { result ≡ guarded.ends (fields_of table.now) most name.now }
{
    if most == 0 {
        return false;
    }
    match definition(table, name) {
        None => true,
        Some(shape) => all_lead_to_ends(table, most - 1, shape),
    }
}

/// Whether this holds of each name that the shape leads to.
#[cycle(ends)]
fn all_lead_to_ends(table: &[FieldShape], most: usize, shape: &Shape) -> bool
    ensures { result ≡ guarded.leading (guarded.ends (fields_of table.now) most) shape.now }
{
    match shape.form() {
        Form::Reference(name) => name_ends(table, most, name),
        Form::Option(inner)
        | Form::Lossy(inner)
        | Form::Readable(inner)
        | Form::Newtype(_, inner) => all_lead_to_ends(table, most, inner),
        Form::Mode(readable, compact) => {
            all_lead_to_ends(table, most, readable) && all_lead_to_ends(table, most, compact)
        }
        Form::Leaf(_)
        | Form::Seq(_)
        | Form::Map(_, _)
        | Form::Tuple(_)
        | Form::TupleStruct(_, _)
        | Form::UnitStruct(_)
        | Form::Struct(_, _)
        | Form::ClosedStruct(_, _)
        | Form::Enum(_)
        | Form::Definitions(_, _) => true,
    }
}

/// The first definition of this name.
pub fn definition<'t>(table: &'t [FieldShape], name: &str) -> Option<&'t Shape>
    ensures { option_copied result ≡ guarded.definition (fields_of table.now) name.now }
{
    for field in table {
        if field.name.as_str() == name {
            return Some(&field.shape);
        }
    }
    None
}

/// Tells a contract that definitions pass the test exactly where no name leads back to itself, and that chains of references then end. It does nothing.
pub fn law_guarded()
    ensures guarded { (h : form.Fields) → guarded.is_guarded h ≡ true → (name : Utf8) → guarded.LeadsBack h name → ⊥ }
    ensures unguarded { (h : form.Fields) → guarded.is_guarded h ≡ false → (name : Utf8) × guarded.LeadsBack h name }
    ensures ends { (h : form.Fields) → guarded.is_guarded h ≡ true → guarded.IsGuarded h }
{}
