// The ObjectIds that first keys stand for, among them those of documents that are read as one.
ghost use Rattle.std.specs.Prelude.{◌≡◌, IfOk, codes};
ghost use Rattle.std.specs.Option.{option_map};
ghost use Rattle.bson_base.specs.BsonView.{tree_of, pairs_of};
ghost use Rattle.bson_base.specs.Folded.{at};
ghost use Rattle.bson_base.specs.Tree as trees;
ghost use Rattle.bson_laws.specs.FirstKeys.{id_given, id_in};

use bson_base::{Bson, Document, MAX_NESTING_LEVEL, ObjectId};
use bson_met::Met;
use bson_raw_parts::id_given;
use bson_shape::Leaf;
use bson_trees::read_extended;
use bson_values::Stop;
use std::alloc::{AllocError, Global};

/// The ObjectId of a text of digits or of twelve bytes, or an ObjectId itself, or that of a document that is read as one.
#[tactic(auto, using(bson_base::proofs::Rows::row_items, bson_base::proofs::Rows::row_pairs))]
pub(crate) fn id_in(alloc: Global, value: &Bson) -> Result<Option<ObjectId>, AllocError>
    ensures { IfOk result (λ o. option_map (λ id. id.0) o ≡ id_in (tree_of value.now)) }
{
    match value {
        Bson::ObjectId(id) => Ok(Some(*id)),
        Bson::Document(document) => id_of_document(alloc, value, document),
        Bson::String(_) | Bson::Binary(_) => Ok(id_given(value)),
        _ => Ok(None),
    }
}

// The ObjectId of a document that is read as one, which is given at `$oid`, its first wrapper key.
fn id_of_document(
    alloc: Global,
    value: &Bson,
    document: &Document,
) -> Result<Option<ObjectId>, AllocError>
    requires { tree_of value.now ≡ trees.document (pairs_of document.now) }
    ensures { IfOk result (λ o. option_map (λ id. id.0) o ≡ id_in (tree_of value.now)) }
{
    match read_extended(
        alloc,
        Leaf::ObjectId,
        &Met::of_tree(MAX_NESTING_LEVEL, value),
    ) {
        Ok(_) => Ok(id_at_oid(document)),
        Err(Stop::Refused(_)) => Ok(None),
        Err(Stop::NoMemory) => Err(AllocError),
    }
}

fn id_at_oid(document: &Document) -> Option<ObjectId>
    ensures { option_map (λ id. id.0) result ≡ at (codes "$oid") id_given (pairs_of document.now) }
{
    id_given(document.get("$oid")?)
}
