// How deep documents and arrays nest.
ghost use Rattle.std.specs.Prelude.{◌≡◌, nat_le};
ghost use Rattle.bson_base.specs.BsonView.{tree_of, trees_of, pairs_of};
ghost use Rattle.bson_base.specs.Sound.{max_levels};
ghost use Rattle.bson_base.specs.Tree as trees;
ghost use Rattle.bson_base.specs.Tree.{depth, pairs_depth, trees_depth};

use bson_base::{Bson, Document, MAX_NESTING_LEVEL};

/// Whether a document has at most 200 levels of documents and arrays, itself the first of them; a scope is a document. It takes no memory.
#[tactic(auto, using(crate::proofs::Depths::one_level))]
pub fn is_within_levels(document: &Document) -> bool
    ensures levels { result ≡ nat_le (depth (trees.document (pairs_of document.now))) max_levels }
{
    are_pairs_within(document, MAX_NESTING_LEVEL - 1)
}

// A value has at most so many.
#[cycle(nest)]
#[tactic(auto, using(bson_base::proofs::Rows::row_items, bson_base::proofs::Rows::row_pairs))]
fn is_within(value: &Bson, levels: u32) -> bool
    ensures { result ≡ nat_le (depth (tree_of value.now)) levels }
{
    match value {
        Bson::Document(document) => levels > 0 && are_pairs_within(document, levels - 1),
        Bson::Array(values) => levels > 0 && are_values_within(values, levels - 1),
        Bson::JavaScriptCodeWithScope(scoped) => {
            levels > 0 && are_pairs_within(&scoped.scope, levels - 1)
        }
        _ => true,
    }
}

// The values of pairs.
#[cycle(nest)]
fn are_pairs_within(document: &Document, levels: u32) -> bool
    ensures { result ≡ nat_le (pairs_depth (pairs_of document.now)) levels }
{
    let mut pairs = document.iter();
    while let Some((_key, value)) = pairs.next() {
        if !is_within(value, levels) {
            return false;
        }
    }
    true
}

// The values of an array.
#[cycle(nest)]
fn are_values_within(values: &[Bson], levels: u32) -> bool
    ensures { result ≡ nat_le (trees_depth (trees_of values.now)) levels }
{
    for value in values {
        if !is_within(value, levels) {
            return false;
        }
    }
    true
}
