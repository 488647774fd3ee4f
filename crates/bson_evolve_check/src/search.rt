// The search over pairs of parts for the first that passes no row.
ghost use Rattle.std.specs.Prelude.{◌≡◌, ◌++◌, [], map, reverse, IfOk, List, OnOk};
ghost use Rattle.std.specs.BTreeSet.{btree_set_len};
ghost use Rattle.bson_shape.specs.Form.{leaf, Form};
ghost use Rattle.bson_shape.specs.declared.leaf.Leaf.TheVariants.{Bson};
ghost use Rattle.bson_evolve_laws.specs.First.{Pair};
ghost use Rattle.bson_evolve_check.specs.Checks.{ArePlain};
ghost use Rattle.bson_evolve_check.specs.Numbering.{AreGood};
ghost use Rattle.bson_evolve_check.specs.Placing.{tables_in};
ghost use Rattle.bson_evolve_check.specs.Searching.{pending_at, pending_list, pending_of, AreKnown, ComesNext, Enters, Finds, GoesOn};
ghost use Rattle.bson_evolve_check.specs.declared.step.Way.{Way as WayView};
ghost use Rattle.bson_evolve_check.specs.Steps.{way_path};

use crate::met::{Met, meet};
use crate::parts::Parts;
use crate::path::path_of;
use crate::place::{Place, Table};
use crate::row::row_of;
use crate::step::{Step, Way};
use bson_shape::Shape;
use bson_values::Path;
use std::alloc::{AllocError, Global};
use std::collections::BTreeSet;

/// A pair that is still to be entered: how many ways of the route lead to the pair whose row names it, and the way from there.
#[derive(Clone, Copy)]
pub struct Pending<'s> {
    pub level: usize,
    pub way: Way<'s>,
    pub old: Place<'s>,
    pub new: Place<'s>,
}

/// Where a pair was found: the numbers of the parts whose row names it, and how many it names before it.
#[derive(Clone, Copy)]
pub struct Origin {
    old: usize,
    new: usize,
    before: usize,
}

/// A pair that is still to be entered, and where it was found.
#[derive(Clone, Copy)]
pub struct Waiting<'s> {
    pub pending: Pending<'s>,
    pub origin: Origin,
}

/// A pair that is entered, each part of it seen through, and the numbers of its parts.
#[derive(Clone, Copy)]
pub struct Entry<'s> {
    pub pending: Pending<'s>,
    pub old: usize,
    pub new: usize,
}

/// The path to the first pair, in depth-first order, that passes no row; `None` where each one passes. The last shape is `bson`.
///
/// Each pair is entered once. The pairs that are still to be entered are on a list, so the stack does not grow with the way to a pair. The route leads to the pair that was entered last.
///
/// # Errors
///
/// Memory ran out.
pub(crate) fn first_fault<'s>(
    alloc: Global,
    old: &'s Shape,
    new: &'s Shape,
    bson: &'s Shape,
) -> Result<Option<Path>, AllocError>
    requires plain { ArePlain old.now new.now }
    requires bson { bson.now ≡ leaf Bson }
    ensures { IfOk result (λ o. Finds o old.now new.now) }
{
    old.known();
    new.known();
    let mut parts = Parts::new(alloc);
    let mut met = BTreeSet::new(alloc);
    let mut route = Vec::new(alloc);
    let mut waiting = Vec::new(alloc);
    let table = parts.outside()?;
    waiting.push(start(table, old, new))?;
    while let Some(next) = next_unmet(alloc, &mut parts, &mut met, &mut waiting)? {
        route.truncate(next.pending.level);
        route.push(next.pending.way)?;
        if !push_row(alloc, &mut waiting, route.len(), next, bson)? {
            return Ok(Some(path_of(alloc, &route)?));
        }
    }
    Ok(None)
}

/// The first of the pairs that are still to be entered which was not met before, each part of it seen through. From now on it is met.
///
/// # Errors
///
/// Memory ran out.
pub fn next_unmet<'s>(
    alloc: Global,
    parts: &mut Parts<'s>,
    met: &mut Met,
    waiting: &mut Vec<Waiting<'s>>,
) -> Result<Option<Entry<'s>>, AllocError>
    requires good { AreGood parts.old }
    requires known { AreKnown (tables_in parts.old.tables) (reverse (pending_of waiting.old.items)) }
    ensures { IfOk result (λ o. (all pairs : List Pair) (route : List WayView) → GoesOn all pairs parts.old met.old route (pending_of waiting.old.items)
        → ComesNext all pairs (pending_list route (pending_of waiting.old.items)) parts.new (btree_set_len met.old) met.new route (pending_of waiting.new.items) o) }
{
    while let Some(next) = waiting.pop() {
        let pending = next.pending;
        let from = next.origin;
        let first = parts.part(alloc, pending.old, from.old, from.before)?;
        let second = parts.part(alloc, pending.new, from.new, from.before)?;
        if meet(met, first.number, second.number)? {
            return Ok(Some(Entry {
                pending: Pending {
                    level: pending.level,
                    way: pending.way,
                    old: first.seen,
                    new: second.seen,
                },
                old: first.number,
                new: second.number,
            }));
        }
    }
    Ok(None)
}

/// The pair of the two shapes, without definitions around them.
pub fn start<'s>(table: Table<'s>, old: &'s Shape, new: &'s Shape) -> Waiting<'s>
    ensures way { way_path result.pending.way ≡ [] }
    ensures level { result.pending.level ≡ 0 }
    ensures old { result.pending.old ≡ record { table = table.entry; shape = old.entry } }
    ensures new { result.pending.new ≡ record { table = table.entry; shape = new.entry } }
{
    Waiting {
        pending: Pending {
            level: 0,
            way: Way::here(),
            old: Place { table, shape: old },
            new: Place { table, shape: new },
        },
        origin: Origin {
            old: 0,
            new: 0,
            before: 0,
        },
    }
}

// The pairs that the row of a pair names are to be entered next, the first one first. Whether a row names it.
fn push_row<'s>(
    alloc: Global,
    waiting: &mut Vec<Waiting<'s>>,
    level: usize,
    next: Entry<'s>,
    bson: &'s Shape,
) -> Result<bool, AllocError>
    requires { bson.now ≡ leaf Bson }
    ensures { IfOk result (λ passes. Enters passes level next.entry.pending (pending_of waiting.old.items) (pending_of waiting.new.items)) }
{
    match row_of(alloc, next.pending.old.shape, next.pending.new.shape, bson)? {
        Some(steps) => {
            push_steps(waiting, level, next, steps)?;
            Ok(true)
        }
        None => Ok(false),
    }
}

/// The pairs of these steps are to be entered next, the first one first.
///
/// # Errors
///
/// Memory ran out.
pub fn push_steps<'s>(
    waiting: &mut Vec<Waiting<'s>>,
    level: usize,
    next: Entry<'s>,
    steps: Vec<Step<'s>>,
) -> Result<(), AllocError>
    ensures { OnOk result (pending_of waiting.new.items ≡ pending_of waiting.old.items ++ reverse (map (pending_at level next.entry.pending.old.table next.entry.pending.new.table) steps.entry.items)) }
{
    let mut steps = steps;
    while let Some(step) = steps.pop() {
        let pending = pending_at(level, next.pending.old.table, next.pending.new.table, step);
        let origin = Origin {
            old: next.old,
            new: next.new,
            before: steps.len(),
        };
        waiting.push(Waiting { pending, origin })?;
    }
    Ok(())
}

// The pair of a step, with the definitions around its parts.
fn pending_at<'s>(level: usize, old: Table<'s>, new: Table<'s>, step: Step<'s>) -> Pending<'s>
    ensures { result ≡ pending_at level old.entry new.entry step.entry }
{
    Pending {
        level,
        way: step.way,
        old: Place {
            table: old,
            shape: step.old,
        },
        new: Place {
            table: new,
            shape: step.new,
        },
    }
}
