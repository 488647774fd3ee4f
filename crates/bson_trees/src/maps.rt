// Data that are maps.
ghost use Rattle.std.specs.Prelude.{◌≡◌, true, false};
ghost use Rattle.bson_kinds.specs.Outcome.{result_map};
ghost use Rattle.bson_base.specs.Tree.{Tree};
ghost use Rattle.bson_kinds.specs.Piece.{made};
ghost use Rattle.bson_datum.specs.MarkedView.{marked};
ghost use Rattle.bson_values.specs.Value as values;
ghost use Rattle.bson_laws.specs.Datum.{datum, pair_data};
ghost use Rattle.bson_laws.specs.Trees.{pairs_in};
ghost use Rattle.bson_met.specs.Gives.{Reaches};
ghost use Rattle.bson_texts.specs.ListsMarked.{entries_marked};
ghost use Rattle.bson_trees.specs.Trees.{is_map, is_raw};

use bson_datum::{Datum, Entry};
use bson_met::{Reading, refused};
use bson_values::Cause;
use std::alloc::Global;

/// The entries of a value that was read as a tree, where it is a document.
pub(crate) fn entries_of<'de>(alloc: Global, value: Datum<'de>) -> Reading<Vec<Entry<'de>>>
    ensures exact { (t : Tree) → is_raw t ≡ false → datum made t ≡ marked value.entry
        → Reaches (λ v. entries_marked v.items) result (result_map (pair_data made) (pairs_in t)) }
{
    if is_map(&value) {
        return Ok(entries_in(value));
    }
    let found = value.element_type();
    drop(value);
    Err(refused(alloc, Cause::InvalidType(found)))
}

/// Whether the value is a map.
fn is_map(value: &Datum<'_>) -> bool
    ensures { result ≡ is_map (marked value.now) }
{
    matches!(value, Datum::Map(_))
}

/// The entries of a map.
#[tactic(auto, using(bson_texts::proofs::MarkedLists::row_entries))]
fn entries_in<'de>(value: Datum<'de>) -> Vec<Entry<'de>>
    requires map { is_map (marked value) ≡ true }
    ensures { values.map (entries_marked result.items) ≡ marked value.entry }
{
    match value {
        Datum::Map(entries) => entries,
        _ => unreachable!(),
    }
}
