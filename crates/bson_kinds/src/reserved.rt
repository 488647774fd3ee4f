ghost use Rattle.std.specs.Prelude.{◌≡◌};
ghost use Rattle.bson_kinds.specs.Reserved as reserved;

use crate::ElementType;

/// The kind of extended value that a struct of this name is written as; `None` where the name is not reserved.
///
/// Thirteen struct names are reserved: each carries one extended kind through serde's data model.
pub fn reserved_kind(name: &str) -> Option<ElementType>
    ensures kind { result ≡ reserved.reserved_kind name.now }
{
    if !name.starts_with('$') {
        return None;
    }
    let kind = match name {
        "$oid" => ElementType::ObjectId,
        "$date" => ElementType::DateTime,
        "$binary" => ElementType::Binary,
        "$timestamp" => ElementType::Timestamp,
        "$code" => ElementType::JavaScriptCode,
        "$codeWithScope" => ElementType::JavaScriptCodeWithScope,
        "$symbol" => ElementType::Symbol,
        "$regularExpression" => ElementType::RegularExpression,
        "$dbPointer" => ElementType::DbPointer,
        "$numberDecimal" => ElementType::Decimal128,
        "$minKey" => ElementType::MinKey,
        "$maxKey" => ElementType::MaxKey,
        "$undefined" => ElementType::Undefined,
        _ => return None,
    };
    Some(kind)
}
