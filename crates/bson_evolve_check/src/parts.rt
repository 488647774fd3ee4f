// Numbers of parts: those of equal forms in equal definitions have one number.
ghost use Rattle.std.specs.Prelude.{◌≡◌, [], IfOk};
ghost use Rattle.std.specs.Bool.{OnTrue};
ghost use Rattle.bson_evolve_check.specs.Numbering.{parts_in, AreGood, AreMore, IsPart, IsPartKey};
ghost use Rattle.bson_evolve_check.specs.Placing.{place_view, tables_in, IsAt, IsTable};

use crate::peel::peel;
use crate::place::{Place, Table, no_definitions};
use crate::tables::Tables;
use bson_shape::{Form, Shape, law_text};
use std::alloc::{AllocError, Global};
use std::collections::BTreeMap;

/// A part, and what it is seen through, with the number of that.
#[derive(Clone, Copy)]
pub struct Part<'s> {
    pub place: Place<'s>,
    pub seen: Place<'s>,
    pub number: usize,
}

/// What tells a part from others: the number of the definitions around it, and its notation.
type PartKey = (usize, String);

/// Where a part was found: the number of the part that it was found in, how many were found there before it, and its kind.
type Origin = (usize, usize, u8);

/// Parts that were seen through, each at its number, and the part that was found last at each origin.
#[derive(Drop)]
pub struct Parts<'s> {
    tables: Tables<'s>,
    known: Vec<Place<'s>>,
    numbers: BTreeMap<PartKey, usize>,
    found: BTreeMap<Origin, Part<'s>>,
}

impl<'s> Parts<'s> {
    /// No parts have a number.
    pub fn new(alloc: Global) -> Parts<'s>
        ensures { AreGood result }
    {
        Parts {
            tables: Tables::new(alloc),
            known: Vec::new(alloc),
            numbers: BTreeMap::new(alloc),
            found: BTreeMap::new(alloc),
        }
    }

    /// No definitions, with their number.
    ///
    /// # Errors
    ///
    /// Memory ran out.
    pub fn outside(&mut self) -> Result<Table<'s>, AllocError>
        requires { AreGood self.old }
        ensures more { IfOk result (λ t. AreMore self.old self.new) }
        ensures number { IfOk result (λ t. IsTable (tables_in self.new.tables) t) }
        ensures definitions { IfOk result (λ t. t.definitions.now ≡ []) }
    {
        let table = self.tables.table(no_definitions())?;
        Ok(table)
    }

    /// The part, seen through, with its number, which it is given where it has none.
    ///
    /// Where a part was found, the same is mostly found again: the one that was found there last is tried first, so that no notation is made of it.
    ///
    /// # Errors
    ///
    /// Memory ran out.
    pub fn part(
        &mut self,
        alloc: Global,
        place: Place<'s>,
        around: usize,
        before: usize,
    ) -> Result<Part<'s>, AllocError>
        requires good { AreGood self.old }
        requires table { IsTable (tables_in self.old.tables) place.table }
        ensures more { IfOk result (λ s. AreMore self.old self.new) }
        ensures part { IfOk result (λ s. IsPart (tables_in self.new.tables) (parts_in self.new) s) }
        ensures place { IfOk result (λ s. place_view s.place ≡ place_view place.entry) }
    {
        let origin = (around, before, kind(place.shape));
        if let Some(part) = self.found.get(&origin).copied() {
            if is_same(part.place, place) {
                return Ok(part);
            }
        }
        let seen = peel(&mut self.tables, place)?;
        let number = self.number(alloc, seen)?;
        let part = Part {
            place,
            seen,
            number,
        };
        self.found.insert(origin, part)?;
        Ok(part)
    }

    // The number of a part that was seen through.
    fn number(&mut self, alloc: Global, seen: Place<'s>) -> Result<usize, AllocError>
        requires good { AreGood self.old }
        requires table { IsTable (tables_in self.old.tables) seen.table }
        ensures more { IfOk result (λ n. AreMore self.old self.new) }
        ensures number { IfOk result (λ n. IsAt (parts_in self.new) n (place_view seen.entry)) }
    {
        law_text();
        let key = part_key(alloc, seen)?;
        if let Some(number) = self.numbers.get(&key).copied() {
            return Ok(number);
        }
        let number = self.known.len();
        self.known.push(seen)?;
        self.numbers.insert(key, number)?;
        Ok(number)
    }
}

// What tells a part from others.
fn part_key(alloc: Global, place: Place<'_>) -> Result<PartKey, AllocError>
    ensures { IfOk result (λ k. IsPartKey place.entry k) }
{
    place.shape.known();
    Ok((place.table.number, place.shape.print(alloc)?))
}

// Whether the places have one form, in definitions of one number.
fn is_same(a: Place<'_>, b: Place<'_>) -> bool
    ensures number { OnTrue result (a.entry.table.number ≡ b.entry.table.number) }
    ensures form { OnTrue result (a.entry.shape.now ≡ b.entry.shape.now) }
{
    a.table.number == b.table.number && *a.shape == *b.shape
}

// A number for each kind of forms.
fn kind(shape: &Shape) -> u8 {
    match shape.form() {
        Form::Leaf(_) => 0,
        Form::Option(_) => 1,
        Form::Lossy(_) => 2,
        Form::Readable(_) => 3,
        Form::Seq(_) => 4,
        Form::Map(_, _) => 5,
        Form::Mode(_, _) => 6,
        Form::Tuple(_) => 7,
        Form::TupleStruct(_, _) => 8,
        Form::Newtype(_, _) => 9,
        Form::UnitStruct(_) => 10,
        Form::Struct(_, _) => 11,
        Form::ClosedStruct(_, _) => 12,
        Form::Enum(_) => 13,
        Form::Reference(_) => 14,
        Form::Definitions(_, _) => 15,
    }
}
