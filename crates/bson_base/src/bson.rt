ghost use Rattle.std.specs.Prelude.{◌≡◌, IfOk};
ghost use Rattle.bson_base.specs.Tree.{kind};
ghost use Rattle.bson_base.specs.BsonView.{tree_of, trees_of};

use crate::binary::Binary;
use crate::code_with_scope::JavaScriptCodeWithScope;
use crate::document::Document;
use crate::{DateTime, DbPointer, Decimal128, Double, ObjectId, Regex, Timestamp};
use bson_kinds::ElementType;
use std::alloc::{AllocError, Global};

/// A BSON value.
///
/// Source: bsonspec.org, version 1.1, `element`.
#[cycle(bson)]
#[derive(Debug, Drop)]
pub enum Bson {
    /// A floating point number of 64 bits.
    Double(Double),
    /// A UTF-8 text.
    String(String),
    /// An array.
    Array(Vec<Bson>),
    /// A document inside another.
    Document(Document),
    /// True or false.
    Boolean(bool),
    /// No value.
    Null,
    /// A pattern and its options.
    RegularExpression(Regex),
    /// JavaScript code.
    JavaScriptCode(String),
    /// JavaScript code with a document of its names.
    JavaScriptCodeWithScope(JavaScriptCodeWithScope),
    /// A signed number of 32 bits.
    Int32(i32),
    /// A signed number of 64 bits.
    Int64(i64),
    /// A time in seconds and an increment.
    Timestamp(Timestamp),
    /// Bytes with a subtype.
    Binary(Binary),
    /// Twelve bytes that name a document.
    ObjectId(ObjectId),
    /// Milliseconds since 1970.
    DateTime(DateTime),
    /// A text of the deprecated kind Symbol.
    Symbol(String),
    /// A decimal floating point number of 128 bits.
    Decimal128(Decimal128),
    /// The deprecated kind without a value.
    Undefined,
    /// The value that is greater than every other.
    MaxKey,
    /// The value that is less than every other.
    MinKey,
    /// A reference to a document of a collection.
    DbPointer(DbPointer),
}

impl Bson {
    /// The kind of the value.
    pub fn element_type(&self) -> ElementType
        ensures kind { result ≡ kind (tree_of self.now) }
    {
        match self {
            Bson::Double(_) => ElementType::Double,
            Bson::String(_) => ElementType::String,
            Bson::Array(_) => ElementType::Array,
            Bson::Document(_) => ElementType::EmbeddedDocument,
            Bson::Boolean(_) => ElementType::Boolean,
            Bson::Null => ElementType::Null,
            Bson::RegularExpression(_) => ElementType::RegularExpression,
            Bson::JavaScriptCode(_) => ElementType::JavaScriptCode,
            Bson::JavaScriptCodeWithScope(_) => ElementType::JavaScriptCodeWithScope,
            Bson::Int32(_) => ElementType::Int32,
            Bson::Int64(_) => ElementType::Int64,
            Bson::Timestamp(_) => ElementType::Timestamp,
            Bson::Binary(_) => ElementType::Binary,
            Bson::ObjectId(_) => ElementType::ObjectId,
            Bson::DateTime(_) => ElementType::DateTime,
            Bson::Symbol(_) => ElementType::Symbol,
            Bson::Decimal128(_) => ElementType::Decimal128,
            Bson::Undefined => ElementType::Undefined,
            Bson::MaxKey => ElementType::MaxKey,
            Bson::MinKey => ElementType::MinKey,
            Bson::DbPointer(_) => ElementType::DbPointer,
        }
    }

    /// An equal value, with texts, bytes and values of its own.
    ///
    /// # Errors
    ///
    /// Memory ran out.
    #[cycle(copy)]
    #[tactic(auto, using(crate::proofs::Rows::row_items, crate::proofs::Rows::row_pairs))]
    pub fn try_clone(&self, alloc: Global) -> Result<Bson, AllocError>
        ensures equal { IfOk result (λ b. tree_of b ≡ tree_of self.now) }
    {
        let copy = match self {
            Bson::Double(number) => Bson::Double(*number),
            Bson::String(text) => Bson::String(String::from_str(alloc, text.as_str())?),
            Bson::Array(values) => Bson::Array(copies_of(alloc, values)?),
            Bson::Document(document) => Bson::Document(document.try_clone(alloc)?),
            Bson::Boolean(truth) => Bson::Boolean(*truth),
            Bson::Null => Bson::Null,
            Bson::RegularExpression(regex) => Bson::RegularExpression(regex.try_clone(alloc)?),
            Bson::JavaScriptCode(code) => {
                Bson::JavaScriptCode(String::from_str(alloc, code.as_str())?)
            }
            Bson::JavaScriptCodeWithScope(scoped) => {
                let code = String::from_str(alloc, scoped.code.as_str())?;
                let scope = scoped.scope.try_clone(alloc)?;
                Bson::JavaScriptCodeWithScope(JavaScriptCodeWithScope { code, scope })
            }
            Bson::Int32(number) => Bson::Int32(*number),
            Bson::Int64(number) => Bson::Int64(*number),
            Bson::Timestamp(timestamp) => Bson::Timestamp(*timestamp),
            Bson::Binary(binary) => {
                let bytes = Vec::from_slice(alloc, &binary.bytes)?;
                Bson::Binary(Binary::from_parts(binary.subtype, bytes))
            }
            Bson::ObjectId(id) => Bson::ObjectId(*id),
            Bson::DateTime(time) => Bson::DateTime(*time),
            Bson::Symbol(text) => Bson::Symbol(String::from_str(alloc, text.as_str())?),
            Bson::Decimal128(number) => Bson::Decimal128(*number),
            Bson::Undefined => Bson::Undefined,
            Bson::MaxKey => Bson::MaxKey,
            Bson::MinKey => Bson::MinKey,
            Bson::DbPointer(pointer) => {
                let namespace = String::from_str(alloc, pointer.namespace.as_str())?;
                let id = pointer.id;
                Bson::DbPointer(DbPointer { namespace, id })
            }
        };
        Ok(copy)
    }
}

// Values equal to these, in order.
#[cycle(copy)]
#[tactic(auto, using(crate::proofs::Rows::row_items, crate::proofs::Rows::row_pairs))]
fn copies_of(alloc: Global, values: &[Bson]) -> Result<Vec<Bson>, AllocError>
    ensures { IfOk result (λ copies. trees_of copies.items ≡ trees_of values.now) }
{
    let mut copies = Vec::new(alloc);
    for value in values {
        copies.push(value.try_clone(alloc)?)?;
    }
    Ok(copies)
}
