// Trees whose parts are clean.
ghost use Rattle.std.specs.Prelude.{◌≤◌, IsTrue};
ghost use Rattle.bson_base.specs.BsonView.{tree_of, trees_of, pairs_of};
ghost use Rattle.bson_base.specs.Sound.{IsClean, AreTreesClean, ArePairsClean};
ghost use Rattle.bson_base.specs.Tree.{depth, trees_depth, pairs_depth};

use crate::known::{known_double, known_text};
use crate::shapes::is_free_name;
use bson_base::{Bson, Document};

/// Whether a value is clean and nests no deeper than so many levels. `false` tells nothing: it is also the answer for a tree that holds a value of another kind
/// than Document, Array, String, Boolean, Int32, Int64, Double and Null, clean or not.
#[cycle(clean)]
#[tactic(auto, using(bson_base::proofs::Rows::row_items, bson_base::proofs::Rows::row_pairs))]
pub fn is_clean(value: &Bson, levels: u32) -> bool
    ensures clean { IsTrue result → IsClean (tree_of value.now) }
    ensures nests { IsTrue result → depth (tree_of value.now) ≤ levels }
{
    match value {
        Bson::Null | Bson::Boolean(_) => true,
        Bson::Int32(number) => {
            let _known = *number;
            true
        }
        Bson::Int64(number) => {
            let _known = *number;
            true
        }
        Bson::Double(number) => {
            known_double(&number.0);
            true
        }
        Bson::String(text) => {
            known_text(text);
            true
        }
        Bson::Array(values) => levels > 0 && are_clean(values, levels - 1),
        Bson::Document(document) => levels > 0 && is_clean_document(document, levels - 1),
        _ => false,
    }
}

// Whether the values of an array are clean.
#[cycle(clean)]
fn are_clean(values: &[Bson], levels: u32) -> bool
    ensures clean { IsTrue result → AreTreesClean (trees_of values.now) }
    ensures nests { IsTrue result → trees_depth (trees_of values.now) ≤ levels }
{
    for value in values {
        if !is_clean(value, levels) {
            return false;
        }
    }
    true
}

// Whether the pairs of a document are clean.
#[cycle(clean)]
fn is_clean_document(document: &Document, levels: u32) -> bool
    ensures clean { IsTrue result → ArePairsClean (pairs_of document.now) }
    ensures nests { IsTrue result → pairs_depth (pairs_of document.now) ≤ levels }
{
    let _distinct = document.len();
    let mut pairs = document.iter();
    while let Some((key, value)) = pairs.next() {
        known_text(key);
        if !is_free_name(key) || !is_clean(value, levels) {
            return false;
        }
    }
    true
}
