// Documents and arrays that are given by their bytes.
ghost use Rattle.bson_base.specs.BsonView.{tree_of};
ghost use Rattle.bson_kinds.specs.Outcome.{result_map};
ghost use Rattle.bson_base.specs.Tree as tree;
ghost use Rattle.bson_rawdoc.specs.DocumentTree.{document_pairs, array_trees};
ghost use Rattle.bson_rawdoc.specs.DocumentView.{document_bytes, array_bytes};
ghost use Rattle.bson_values.specs.Cause.{raw};
ghost use Rattle.bson_values.specs.ErrorView.{write_fault};
ghost use Rattle.bson_values.specs.Refusal.{unwritable};
ghost use Rattle.bson_values.specs.Stop.{stop_view};
ghost use Rattle.bson_tree_laws.specs.TreeSpell.{tree_read};
ghost use Rattle.bson_ser_tree.specs.Gives.{Reaches, IsFaultOrMemory};

use crate::stopping::{Writing, refused_for};
use bson_base::Bson;
use bson_rawdoc::{RawArray, RawDocument, raw};
use bson_values::ser::Fault;
use bson_values::{Cause, Stop};
use std::alloc::Global;

/// The tree of a document in its bytes.
#[tactic(auto, using(bson_base::proofs::Rows::row_items, bson_base::proofs::Rows::row_pairs))]
pub(crate) fn raw_document(alloc: Global, document: RawDocument<'_>, levels: u32) -> Writing<Bson>
    ensures { Reaches tree_of result (tree_read levels (result_map tree.document (document_pairs (document_bytes document.entry)))) }
{
    if levels == 0 {
        return Err(refused_for(alloc, Cause::TooDeep));
    }
    match document.to_document(alloc) {
        Ok(document) => Ok(Bson::Document(document)),
        Err(fault) => Err(faulty(alloc, fault)),
    }
}

/// The tree of an array in its bytes.
#[tactic(auto, using(bson_base::proofs::Rows::row_items, bson_base::proofs::Rows::row_pairs))]
pub(crate) fn raw_array(alloc: Global, array: RawArray<'_>, levels: u32) -> Writing<Bson>
    ensures { Reaches tree_of result (tree_read levels (result_map tree.array (array_trees (array_bytes array.entry)))) }
{
    if levels == 0 {
        return Err(refused_for(alloc, Cause::TooDeep));
    }
    match array.to_values(alloc) {
        Ok(values) => Ok(Bson::Array(values)),
        Err(fault) => Err(faulty(alloc, fault)),
    }
}

// The refusal for a fault in the bytes; or memory ran out.
#[cold]
fn faulty(alloc: Global, fault: raw::Error) -> Stop<Fault>
    ensures { IsFaultOrMemory fault (stop_view write_fault result) }
{
    match fault {
        raw::Error::NoMemory => Stop::NoMemory,
        fault => refused_for(alloc, Cause::Raw(fault)),
    }
}
