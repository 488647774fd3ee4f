// Adding a value to a summary: what was common to the values before, and this value.
ghost use Rattle.std.specs.Prelude.{◌≡◌, ◌+◌, IfOk, OnOk};
ghost use Rattle.bson_base.specs.BsonView.{tree_of, trees_of, pairs_of};
ghost use Rattle.bson_base.specs.Sound.{IsClean, ArePairsClean, AreTreesClean};
ghost use Rattle.bson_base.specs.Tree as tree;
ghost use Rattle.bson_infer_laws.specs.Inferred.{shape_of, inferred};
ghost use Rattle.bson_infer_laws.specs.Join.{join};
ghost use Rattle.bson_infer_run.specs.Counted.{put, puts, counted_pairs, once};
ghost use Rattle.bson_infer_run.specs.SummaryView.{counted_of, struct_form, IsEven, IsKnown};

use crate::join::joined;
use crate::scalar::leaf_of;
use crate::summary::{FieldSummary, Kind, StructSummary, Summary};
use bson_base::{Bson, Document};
use std::alloc::{AllocError, Global};
use std::mem;

/// Adds a value.
///
/// # Errors
///
/// Memory ran out, or more than `u64::MAX` documents were joined.
#[cycle(add)]
#[tactic(auto, using(bson_base::proofs::Rows::row_items, bson_base::proofs::Rows::row_pairs))]
fn add(alloc: Global, value: &Bson, summary: Summary) -> Result<Summary, AllocError>
    requires { IsClean (tree_of value.now) }
    ensures { IfOk result (λ s. s ≡ join summary (shape_of (tree_of value.now))) }
{
    match value {
        Bson::Document(document) => add_document(alloc, document, summary),
        Bson::Array(values) => {
            let items = common(alloc, values)?;
            joined(alloc, summary, Summary::sequence(alloc, items)?)
        }
        scalar => joined(alloc, summary, Summary::leaf(leaf_of(scalar))),
    }
}

// What the values have in common.
#[cycle(add)]
fn common(alloc: Global, values: &[Bson]) -> Result<Summary, AllocError>
    requires { AreTreesClean (trees_of values.now) }
    ensures { IfOk result (λ s. s ≡ inferred (trees_of values.now)) }
{
    let mut summary = Summary::nothing();
    for value in values {
        summary = add(alloc, value, summary)?;
    }
    Ok(summary)
}

/// Adds a document.
///
/// # Errors
///
/// Those of `add`.
#[cycle(add)]
pub(crate) fn add_document(
    alloc: Global,
    document: &Document,
    summary: Summary,
) -> Result<Summary, AllocError>
    requires { ArePairsClean (pairs_of document.now) }
    ensures { IfOk result (λ s. s ≡ join summary (shape_of (tree.document (pairs_of document.now)))) }
{
    let Summary { or_null, kind } = summary;
    match kind {
        Kind::Structure(fields) => {
            let kind = Kind::Structure(with_document(alloc, document, fields)?);
            Ok(Summary { or_null, kind })
        }
        kind => {
            let first = of_document(alloc, document)?;
            joined(alloc, Summary { or_null, kind }, first)
        }
    }
}

// The documents before and one more.
#[cycle(add)]
fn with_document(
    alloc: Global,
    document: &Document,
    fields: Box<StructSummary>,
) -> Result<Box<StructSummary>, AllocError>
    requires clean { ArePairsClean (pairs_of document.now) }
    requires known { IsKnown fields.value }
    ensures known { IfOk result (λ s. IsKnown s.value) }
    ensures joined { IfOk result (λ s. struct_form s.value ≡ join (struct_form fields.value) (shape_of (tree.document (pairs_of document.now)))) }
{
    let mut fields = fields;
    add_pairs(alloc, document, &mut fields)?;
    Ok(fields)
}

// A document alone.
#[cycle(add)]
fn of_document(alloc: Global, document: &Document) -> Result<Summary, AllocError>
    requires { ArePairsClean (pairs_of document.now) }
    ensures { IfOk result (λ s. s ≡ shape_of (tree.document (pairs_of document.now))) }
{
    let mut fields = StructSummary::new(alloc);
    add_pairs(alloc, document, &mut fields)?;
    Ok(Summary::of(Kind::Structure(Box::new(alloc, fields)?)))
}

// Adds the pairs of a document to the fields.
#[cycle(add)]
fn add_pairs(
    alloc: Global,
    document: &Document,
    fields: &mut StructSummary,
) -> Result<(), AllocError>
    requires clean { ArePairsClean (pairs_of document.now) }
    requires even { IsEven fields.old }
    ensures even { OnOk result (IsEven fields.new) }
    ensures count { OnOk result (fields.new.count ≡ fields.old.count + 1) }
    ensures fields { OnOk result (counted_of fields.new ≡ puts (counted_of fields.old) (counted_pairs (pairs_of document.now))) }
{
    let Some(count) = fields.count.checked_add(1) else {
        return Err(AllocError);
    };
    fields.count = count;
    let mut expected = 0;
    for (key, value) in document.iter() {
        let place = add_pair(alloc, key.as_str(), value, fields, expected)?;
        expected = place.saturating_add(1);
    }
    Ok(())
}

// Adds a pair to the fields, and returns the index of its field, which is looked for at the expected one first.
#[cycle(add)]
fn add_pair(
    alloc: Global,
    key: &str,
    value: &Bson,
    fields: &mut StructSummary,
    expected: usize,
) -> Result<usize, AllocError>
    requires clean { IsClean (tree_of value.now) }
    requires even { IsEven fields.old }
    ensures even { OnOk result (IsEven fields.new) }
    ensures count { OnOk result (fields.new.count ≡ fields.old.count) }
    ensures field { OnOk result (counted_of fields.new ≡ put (once key.now (shape_of (tree_of value.now))) (counted_of fields.old)) }
{
    let place = fields.place_of(alloc, key, expected)?;
    let known = mem::replace(&mut fields.fields[place], FieldSummary::new());
    let Some(count) = known.count.checked_add(1) else {
        return Err(AllocError);
    };
    let summary = add(alloc, value, known.summary)?;
    fields.fields[place] = FieldSummary { count, summary };
    Ok(place)
}
