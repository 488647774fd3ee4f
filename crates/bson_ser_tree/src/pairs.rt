// The pairs of a document that are given one after another.
ghost use Rattle.std.specs.Prelude.{◌≡◌, false, Some, string_bytes, OnOk};
ghost use Rattle.bson_base.specs.BsonView.{tree_of, pairs_of};
ghost use Rattle.bson_base.specs.Folded.{fold};
ghost use Rattle.bson_base.specs.Pairs.{put};
ghost use Rattle.bson_base.specs.Tree.{no_pairs};
ghost use Rattle.bson_datum.specs.View.{view};
ghost use Rattle.bson_tree_laws.specs.TreeSpell.{tree_key_text};
ghost use Rattle.bson_ser_tree.specs.MadeView.{pairs_made};
ghost use Rattle.bson_ser_tree.specs.Steps.{StepsFrom, KeepsFrom, Finishes, pair_step};

use crate::stopping::{failed, without_path};
use crate::value::{key_text, tree_value};
use bson_base::{Bson, Document};
use bson_datum::Datum;
use bson_values::ser::{Error, Result};
use std::alloc::Global;

/// The pairs of a document, until a key or a value is refused.
#[derive(Debug, Drop)]
pub(crate) struct PairsWriter {
    alloc: Global,
    readable: bool,
    // None after a refusal.
    document: Option<Document>,
}

impl PairsWriter {
    /// No pairs so far.
    pub(crate) fn new(alloc: Global, readable: bool) -> PairsWriter
        ensures form { (pairs_made result).readable ≡ readable }
        ensures none { (pairs_made result).pairs ≡ Some no_pairs }
    {
        PairsWriter {
            alloc,
            readable,
            document: Some(Document::new(alloc)),
        }
    }

    /// The allocator that it was made with.
    pub(crate) fn allocator(&self) -> Global {
        self.alloc
    }

    /// The text that a key of a map is, with so many levels left for it.
    ///
    /// # Errors
    ///
    /// The refusal of the key without its path, or that memory ran out; and from then on `Failed`.
    pub(crate) fn key(&mut self, key: &Datum<'_>, levels: u32) -> Result<String>
        ensures form { (pairs_made self.new).readable ≡ (pairs_made self.old).readable }
        ensures keeps { let old = pairs_made self.old in
            KeepsFrom string_bytes old.pairs (tree_key_text old.readable (view key.now) levels) (pairs_made self.new).pairs result }
    {
        let Some(document) = self.document.take() else {
            return Err(failed());
        };
        match key_text(self.alloc, key, self.readable, levels) {
            Ok(text) => {
                self.document = Some(document);
                Ok(text)
            }
            Err(stop) => Err(without_path(stop)),
        }
    }

    /// Puts a value at a key, with so many levels left for it.
    ///
    /// # Errors
    ///
    /// The refusal of the value without its path, or that memory ran out; and from then on `Failed`.
    pub(crate) fn put(&mut self, key: String, value: &Datum<'_>, levels: u32) -> Result<()>
        ensures form { (pairs_made self.new).readable ≡ (pairs_made self.old).readable }
        ensures steps { let old = pairs_made self.old in
            StepsFrom old.pairs (pair_step old.readable (string_bytes key) (view value.now) levels) (pairs_made self.new).pairs result }
    {
        let Some(mut document) = self.document.take() else {
            return Err(failed());
        };
        match tree_value(self.alloc, value, self.readable, false, levels) {
            Ok(tree) => {
                if document.insert(key, tree).is_err() {
                    return Err(Error::NoMemory);
                }
                self.document = Some(document);
                Ok(())
            }
            Err(stop) => Err(without_path(stop)),
        }
    }

    /// Puts the value of a field at its name, with so many levels left for it.
    ///
    /// # Errors
    ///
    /// Those of [`PairsWriter::put`].
    pub(crate) fn put_field(&mut self, name: &str, value: &Datum<'_>, levels: u32) -> Result<()>
        ensures form { (pairs_made self.new).readable ≡ (pairs_made self.old).readable }
        ensures steps { let old = pairs_made self.old in
            StepsFrom old.pairs (pair_step old.readable name.now (view value.now) levels) (pairs_made self.new).pairs result }
    {
        if self.document.is_none() {
            return Err(failed());
        }
        match String::from_str(self.alloc, name) {
            Ok(key) => self.put(key, value, levels),
            Err(_) => {
                self.document = None;
                Err(Error::NoMemory)
            }
        }
    }

    /// What the document of all pairs is folded to.
    ///
    /// # Errors
    ///
    /// `Failed` after a refusal, or that memory ran out.
    pub(crate) fn finish(self) -> Result<Bson>
        ensures all { Finishes fold tree_of (pairs_made self).pairs result }
    {
        let PairsWriter {
            alloc,
            document,
            ..
        } = self;
        match document {
            Some(document) => Ok(Bson::from_extended_document(alloc, document)?),
            None => Err(failed()),
        }
    }
}
