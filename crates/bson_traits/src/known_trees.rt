// Tells a contract that the tree of a value in memory is one of its type (`IsTree`). The value is walked to its end.
ghost use Rattle.bson_base.specs.BsonView.{tree_of, trees_of, pairs_of, scoped_of};
ghost use Rattle.bson_base.specs.Tree as trees;
ghost use Rattle.bson_laws.specs.InRange.{IsInRange};
ghost use Rattle.bson_type_data.specs.Trees.{IsInMemory};

use crate::traits::RoundTrip;
use bson_base::{Bson, Document, JavaScriptCodeWithScope};

// The parts of a value are in their ranges, its keys are distinct, and its options are in order.
#[cycle(known)]
#[tactic(auto, using(bson_base::proofs::Rows::row_items, bson_base::proofs::Rows::row_pairs))]
pub(crate) fn known_tree(value: &Bson)
    ensures ranges { IsInRange (tree_of value.now) }
    ensures memory { IsInMemory (tree_of value.now) }
{
    match value {
        Bson::Double(number) => number.known(),
        Bson::String(text) => text.known(),
        Bson::Array(values) => known_values(values),
        Bson::Document(document) => known_document(document),
        Bson::RegularExpression(regex) => regex.known(),
        Bson::JavaScriptCode(code) => code.known(),
        Bson::JavaScriptCodeWithScope(scoped) => known_scoped(scoped),
        Bson::Int32(number) => number.known(),
        Bson::Int64(number) => number.known(),
        Bson::Timestamp(stamp) => stamp.known(),
        Bson::Binary(binary) => binary.known(),
        Bson::ObjectId(id) => id.known(),
        Bson::DateTime(time) => time.known(),
        Bson::Symbol(text) => text.known(),
        Bson::Decimal128(number) => number.known(),
        Bson::DbPointer(pointer) => pointer.known(),
        Bson::Boolean(_) | Bson::Null | Bson::Undefined | Bson::MaxKey | Bson::MinKey => {}
    }
}

// The same of the values of an array.
#[cycle(known)]
fn known_values(values: &[Bson])
    ensures ranges { IsInRange (trees.array (trees_of values.now)) }
    ensures memory { IsInMemory (trees.array (trees_of values.now)) }
{
    for value in values {
        known_tree(value);
    }
}

// The same of a document.
#[cycle(known)]
pub(crate) fn known_document(document: &Document)
    ensures ranges { IsInRange (trees.document (pairs_of document.now)) }
    ensures memory { IsInMemory (trees.document (pairs_of document.now)) }
{
    let _len = document.len();
    for (key, value) in document.iter() {
        key.known();
        known_tree(value);
    }
}

// The same of code with its scope.
#[cycle(known)]
pub(crate) fn known_scoped(scoped: &JavaScriptCodeWithScope)
    ensures ranges { IsInRange (scoped_of scoped.now) }
    ensures memory { IsInMemory (scoped_of scoped.now) }
{
    scoped.code.known();
    known_document(&scoped.scope);
}
