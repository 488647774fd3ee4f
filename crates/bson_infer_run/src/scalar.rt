ghost use Rattle.std.specs.Prelude.{◌≡◌};
ghost use Rattle.bson_base.specs.BsonView.{tree_of, binary_of};
ghost use Rattle.bson_shape.specs.Form as form;
ghost use Rattle.bson_infer_laws.specs.Inferred.{shape_of};
ghost use Rattle.bson_infer_run.specs.Scalar.{IsLeafOf};

use bson_base::{Binary, Bson};
use bson_shape::Leaf;

/// The leaf of a value that is neither a document nor an array; of one of these, some leaf.
pub(crate) fn leaf_of(value: &Bson) -> Leaf
    ensures { IsLeafOf (tree_of value.now) result }
{
    match value {
        Bson::Double(_) => Leaf::Double,
        Bson::String(_) => Leaf::String,
        Bson::Boolean(_) => Leaf::Bool,
        Bson::Null => Leaf::Unit,
        Bson::RegularExpression(_) => Leaf::Regex,
        Bson::JavaScriptCodeWithScope(_) => Leaf::CodeWithScope,
        Bson::Int32(_) => Leaf::I32,
        Bson::Int64(_) => Leaf::I64,
        Bson::Timestamp(_) => Leaf::Timestamp,
        Bson::Binary(binary) => leaf_of_binary(binary),
        Bson::ObjectId(_) => Leaf::ObjectId,
        Bson::DateTime(_) => Leaf::DateTime,
        Bson::Decimal128(_) => Leaf::Decimal128,
        Bson::DbPointer(_) => Leaf::DbPointer,
        Bson::JavaScriptCode(_)
        | Bson::Symbol(_)
        | Bson::Undefined
        | Bson::MaxKey
        | Bson::MinKey
        | Bson::Document(_)
        | Bson::Array(_) => Leaf::Bson,
    }
}

// The leaf of a binary: bytes alone where they have no further meaning.
#[tactic(auto, using(crate::proofs::Scalars::plain_bytes, crate::proofs::Scalars::other_bytes))]
fn leaf_of_binary(binary: &Binary) -> Leaf
    ensures { shape_of (binary_of binary.now) ≡ form.leaf result }
{
    if binary.subtype.0 == 0 {
        return Leaf::ByteBuf;
    }
    Leaf::Binary
}
