// Values that are dropped.
ghost use Rattle.bson_laws.specs.Judged as reads;
ghost use Rattle.bson_laws.specs.Judged.{at_its_key, at_its_index};
ghost use Rattle.bson_texts.specs.Passes.{pass_at};
ghost use Rattle.bson_met.specs.Gives.{Reaches};
ghost use Rattle.bson_met.specs.OpenedView.{extended_view};

use bson_met::{Elements, Extended, Items, Met, Reading, Scalar, Value};
use std::alloc::Global;

/// The key of a refusal that comes from a scope.
const SCOPE_KEY: &str = "$scope";

/// Walks a value to its end, each value in it too, and drops it.
#[cycle(ignore)]
pub fn ignore(alloc: Global, value: &Met<'_>) -> Reading<()>
    ensures exact { Reaches (λ u. u) result (pass_at value.now) }
{
    match value.scalar(alloc)? {
        Scalar::Other => ignore_other(alloc, value),
        Scalar::Double(_)
        | Scalar::String(_)
        | Scalar::Boolean(_)
        | Scalar::Null
        | Scalar::Int32(_)
        | Scalar::Int64(_) => Ok(()),
    }
}

/// The same, wherever the value comes from.
#[cycle(ignore)]
#[inline(never)]
fn ignore_other(alloc: Global, value: &Met<'_>) -> Reading<()>
    ensures exact { Reaches (λ u. u) result (pass_at value.now) }
{
    match value.judge(alloc)? {
        Value::Document(document) => ignore_elements(alloc, Elements::of_document(document)),
        Value::Array(array) => ignore_items(alloc, Items::of_array(array)),
        Value::Extended(value) => ignore_scope(alloc, value),
        Value::Double(_)
        | Value::String(_)
        | Value::Bytes(_)
        | Value::Boolean(_)
        | Value::Null
        | Value::Int32(_)
        | Value::Int64(_) => Ok(()),
    }
}

/// Walks the scope of a code with scope to its end.
#[cycle(ignore)]
#[inline(never)]
fn ignore_scope(alloc: Global, value: Extended<'_>) -> Reading<()>
    ensures exact { Reaches (λ u. u) result (reads.pass_scope (extended_view value.entry)) }
{
    let Extended::JavaScriptCodeWithScope(_, scope) = value else {
        return Ok(());
    };
    match ignore(alloc, &Met::of_scope(scope)) {
        Ok(()) => Ok(()),
        Err(stop) => Err(stop.under_key(SCOPE_KEY)),
    }
}

/// Walks the values of a document to their ends.
#[cycle(ignore)]
#[inline(never)]
fn ignore_elements(alloc: Global, mut elements: Elements<'_>) -> Reading<()>
    ensures exact { Reaches (λ u. u) result (reads.pass_nodes at_its_key 0 elements.entry) }
{
    let mut step = elements.start();
    'step: while elements.advance(alloc, &mut step)? {
        if let Err(stop) = ignore(alloc, &step.value) {
            return Err(stop.under_key(step.key.text));
        }
    }
    Ok(())
}

/// Walks the values of an array to their ends.
#[cycle(ignore)]
#[inline(never)]
fn ignore_items(alloc: Global, mut items: Items<'_>) -> Reading<()>
    ensures exact { Reaches (λ u. u) result (reads.pass_nodes at_its_index 0 items.entry) }
{
    let mut index = 0;
    let mut value = items.start();
    'step: while items.advance(alloc, &mut value)? {
        if let Err(stop) = ignore(alloc, &value) {
            return Err(stop.under_index(index));
        }
        index += 1;
    }
    Ok(())
}
