// The values of an array that are given one after another.
ghost use Rattle.std.specs.Prelude.{◌≡◌, Some};
ghost use Rattle.bson_base.specs.BsonView.{tree_of};
ghost use Rattle.bson_base.specs.Tree.{array, no_trees};
ghost use Rattle.bson_datum.specs.View.{view};
ghost use Rattle.bson_ser_tree.specs.MadeView.{items_made};
ghost use Rattle.bson_ser_tree.specs.Steps.{StepsFrom, Finishes, item_step};

use crate::stopping::{failed, without_path};
use crate::value::tree_value;
use bson_base::Bson;
use bson_datum::Datum;
use bson_values::ser::{Error, Result};
use std::alloc::Global;

/// The trees of values, until one is refused.
#[derive(Debug, Drop)]
pub(crate) struct ItemsWriter {
    alloc: Global,
    readable: bool,
    // None after a refusal.
    trees: Option<Vec<Bson>>,
}

impl ItemsWriter {
    /// No values so far.
    pub(crate) fn new(alloc: Global, readable: bool) -> ItemsWriter
        ensures form { (items_made result).readable ≡ readable }
        ensures none { (items_made result).trees ≡ Some no_trees }
    {
        ItemsWriter {
            alloc,
            readable,
            trees: Some(Vec::new(alloc)),
        }
    }

    /// The allocator that it was made with.
    pub(crate) fn allocator(&self) -> Global {
        self.alloc
    }

    /// Takes one more value, with so many levels left for it.
    ///
    /// # Errors
    ///
    /// The refusal of the value without its path, or that memory ran out; and from then on `Failed`.
    pub(crate) fn push(&mut self, value: &Datum<'_>, levels: u32) -> Result<()>
        ensures form { (items_made self.new).readable ≡ (items_made self.old).readable }
        ensures steps { let old = items_made self.old in
            StepsFrom old.trees (item_step old.readable (view value.now) levels) (items_made self.new).trees result }
    {
        let Some(mut trees) = self.trees.take() else {
            return Err(failed());
        };
        match tree_value(self.alloc, value, self.readable, false, levels) {
            Ok(tree) => {
                if trees.push(tree).is_err() {
                    return Err(Error::NoMemory);
                }
                self.trees = Some(trees);
                Ok(())
            }
            Err(stop) => Err(without_path(stop)),
        }
    }

    /// The array of all values.
    ///
    /// # Errors
    ///
    /// `Failed` after a refusal.
    #[tactic(auto, using(bson_base::proofs::Rows::row_items, bson_base::proofs::Rows::row_pairs))]
    pub(crate) fn finish(self) -> Result<Bson>
        ensures all { Finishes array tree_of (items_made self).trees result }
    {
        match self.trees {
            Some(trees) => Ok(Bson::Array(trees)),
            None => Err(failed()),
        }
    }
}
