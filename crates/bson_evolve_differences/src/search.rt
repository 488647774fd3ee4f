// The search over pairs of parts for all that pass no row.
ghost use Rattle.std.specs.Prelude.{◌≡◌, ◌++◌, map, reverse, length, IfOk, List, OnOk};
ghost use Rattle.bson_shape.specs.Form.{leaf};
ghost use Rattle.bson_shape.specs.declared.leaf.Leaf.TheVariants.{Bson};
ghost use Rattle.bson_evolve_check.specs.Checks.{ArePlain};
ghost use Rattle.bson_evolve_check.specs.Searching.{pending_at, pending_of, route_path};
ghost use Rattle.bson_evolve_check.specs.Steps.{steps_view};
ghost use Rattle.bson_evolve_check.specs.declared.step.Step.{Step as StepView};
ghost use Rattle.bson_evolve_differences.specs.Differences.{difference, reasons, steps, AreDifferences};
ghost use Rattle.bson_evolve_differences.specs.Views.{differences_view, reasons_view};

use crate::difference::{Difference, Reason};
use crate::mismatch::mismatch_of;
use bson_evolve_check::{
    Entry, Parts, Waiting, Way, next_unmet, path_of, push_steps, row_of, start,
};
use bson_shape::Shape;
use std::alloc::{AllocError, Global};
use std::collections::BTreeSet;

/// The differences of two plain shapes, in depth-first order. The last shape is `bson`.
///
/// # Errors
///
/// Memory ran out.
pub(crate) fn all_differences<'s>(
    alloc: Global,
    old: &'s Shape,
    new: &'s Shape,
    bson: &'s Shape,
) -> Result<Vec<Difference>, AllocError>
    requires plain { ArePlain old.now new.now }
    requires bson { bson.now ≡ leaf Bson }
    ensures { IfOk result (λ ds. AreDifferences old.now new.now (differences_view ds.items)) }
{
    old.known();
    new.known();
    let mut parts = Parts::new(alloc);
    let mut met = BTreeSet::new(alloc);
    let mut route = Vec::new(alloc);
    let mut waiting = Vec::new(alloc);
    let mut found = Vec::new(alloc);
    let table = parts.outside()?;
    waiting.push(start(table, old, new))?;
    while let Some(next) = next_unmet(alloc, &mut parts, &mut met, &mut waiting)? {
        route.truncate(next.pending.level);
        route.push(next.pending.way)?;
        enter(alloc, &mut waiting, &mut found, &route, next, bson)?;
    }
    Ok(found)
}

// A pair is entered, at the end of the route: its differences are found, and the pairs that are reached from it are to be entered next.
fn enter<'s>(
    alloc: Global,
    waiting: &mut Vec<Waiting<'s>>,
    found: &mut Vec<Difference>,
    route: &[Way<'s>],
    next: Entry<'s>,
    bson: &'s Shape,
) -> Result<(), AllocError>
    requires { bson.now ≡ leaf Bson }
    ensures found { let old = next.entry.pending.old.shape.now in let new = next.entry.pending.new.shape.now in
        OnOk result (differences_view found.new.items ≡ differences_view found.old.items ++ map (difference (route_path route.now) old new) (reasons old new)) }
    ensures waiting { OnOk result ((ss : List StepView) × (steps_view ss ≡ steps next.entry.pending.old.shape.now next.entry.pending.new.shape.now)
        × (pending_of waiting.new.items ≡ pending_of waiting.old.items ++ reverse (map (pending_at (length route.now) next.entry.pending.old.table next.entry.pending.new.table) ss))) }
{
    let old = next.pending.old.shape;
    let new = next.pending.new.shape;
    match row_of(alloc, old, new, bson)? {
        Some(steps) => push_steps(waiting, route.len(), next, steps),
        None => {
            let mismatch = mismatch_of(alloc, old, new)?;
            push_differences(alloc, found, route, old, new, mismatch.reasons)?;
            push_steps(waiting, route.len(), next, mismatch.common)
        }
    }
}

// A difference of the pair at the end of the route for each of these reasons.
fn push_differences(
    alloc: Global,
    found: &mut Vec<Difference>,
    route: &[Way<'_>],
    old: &Shape,
    new: &Shape,
    reasons: Vec<Reason>,
) -> Result<(), AllocError>
    ensures { OnOk result (differences_view found.new.items ≡ differences_view found.old.items ++ map (difference (route_path route.now) old.now new.now) (reasons_view reasons.items)) }
{
    for reason in reasons {
        let path = path_of(alloc, route)?;
        let old = old.print(alloc)?;
        let new = new.print(alloc)?;
        found.push(Difference {
            path,
            old,
            new,
            reason,
        })?;
    }
    Ok(())
}
