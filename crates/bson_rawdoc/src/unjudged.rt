ghost use Rattle.std.specs.Prelude.{◌≡◌, ◌≤◌, Some, Ok, IfOk, length, option_map};
ghost use Rattle.bson_base.specs.BsonView.{tree_of};
ghost use Rattle.bson_kinds.specs.Outcome.{result_map};
ghost use Rattle.bson_rawdoc.specs.DocumentView.{document_bytes};
ghost use Rattle.bson_rawdoc.specs.Extent.{extent, two_texts_in};
ghost use Rattle.bson_rawdoc.specs.Lossy.{lossy_tree};
ghost use Rattle.bson_rawdoc.specs.Unjudged as unjudged;
ghost use Rattle.bson_rawdoc.specs.UnjudgedView.{unjudged_value};

use crate::document::RawDocument;
use crate::extent::two_texts_in;
use crate::parts::{closed_text, document_in, scoped_parts};
use crate::raw::Error;
use crate::reading::fixed;
use bson_base::{Bson, DbPointer, Document, JavaScriptCodeWithScope, ObjectId, Regex};
use bson_kinds::ElementType;
use std::alloc::{AllocError, Global};

/// A value with texts as it is in the bytes of its document. Its texts may be no UTF-8.
#[derive(Clone, Copy, Debug)]
pub enum Unjudged<'a> {
    /// A text.
    String(&'a [u8]),
    /// A regular expression.
    RegularExpression {
        /// The pattern.
        pattern: &'a [u8],
        /// The options, as they are.
        options: &'a [u8],
    },
    /// A namespace and an ObjectId.
    DbPointer {
        /// The namespace.
        namespace: &'a [u8],
        /// The name of a document in it.
        id: ObjectId,
    },
    /// JavaScript code.
    JavaScriptCode(&'a [u8]),
    /// A text of the deprecated kind Symbol.
    Symbol(&'a [u8]),
    /// JavaScript code with a document of its names.
    JavaScriptCodeWithScope {
        /// The code.
        code: &'a [u8],
        /// The names that the code may use, with their values.
        scope: RawDocument<'a>,
    },
}

impl Unjudged<'_> {
    /// The value with texts of its own, in which U+FFFD stands for each ill-formed sequence. The options of a
    /// regular expression are in order, and the scope of a code is empty.
    ///
    /// # Errors
    ///
    /// Out of memory.
    #[tactic(auto, using(bson_base::proofs::Rows::row_items, bson_base::proofs::Rows::row_pairs))]
    pub fn to_bson_lossy(self, alloc: Global) -> Result<Bson, AllocError>
        ensures tree { IfOk result (λ b. lossy_tree (unjudged_value self.entry) ≡ Some (tree_of b)) }
    {
        match self {
            Unjudged::String(text) => Ok(Bson::String(String::from_utf8_lossy(alloc, text)?)),
            Unjudged::RegularExpression { pattern, options } => {
                let pattern = String::from_utf8_lossy(alloc, pattern)?;
                let options = String::from_utf8_lossy(alloc, options)?;
                Ok(Bson::RegularExpression(Regex::new(alloc, pattern, options)?))
            }
            Unjudged::DbPointer { namespace, id } => {
                let namespace = String::from_utf8_lossy(alloc, namespace)?;
                Ok(Bson::DbPointer(DbPointer { namespace, id }))
            }
            Unjudged::JavaScriptCode(code) => {
                Ok(Bson::JavaScriptCode(String::from_utf8_lossy(alloc, code)?))
            }
            Unjudged::Symbol(text) => Ok(Bson::Symbol(String::from_utf8_lossy(alloc, text)?)),
            Unjudged::JavaScriptCodeWithScope { code, .. } => {
                let code = String::from_utf8_lossy(alloc, code)?;
                let scope = Document::new(alloc);
                Ok(Bson::JavaScriptCodeWithScope(JavaScriptCodeWithScope { code, scope }))
            }
        }
    }
}

// The value of a kind with texts.
pub(crate) fn unjudged_in(kind: ElementType, bytes: &[u8]) -> Result<Option<Unjudged<'_>>, Error>
    requires { extent kind bytes.now ≡ Ok (length bytes.now) }
    ensures { result_map (option_map unjudged_value) result ≡ unjudged.unjudged_in kind bytes.now }
{
    Ok(Some(match kind {
        ElementType::String => Unjudged::String(closed_text(bytes)?),
        ElementType::RegularExpression => regex_in(bytes)?,
        ElementType::DbPointer => db_pointer_in(bytes)?,
        ElementType::JavaScriptCode => Unjudged::JavaScriptCode(closed_text(bytes)?),
        ElementType::Symbol => Unjudged::Symbol(closed_text(bytes)?),
        ElementType::JavaScriptCodeWithScope => scoped_code_in(bytes)?,
        ElementType::Double
        | ElementType::EmbeddedDocument
        | ElementType::Array
        | ElementType::Binary
        | ElementType::Undefined
        | ElementType::ObjectId
        | ElementType::Boolean
        | ElementType::DateTime
        | ElementType::Null
        | ElementType::Int32
        | ElementType::Timestamp
        | ElementType::Int64
        | ElementType::Decimal128
        | ElementType::MaxKey
        | ElementType::MinKey => return Ok(None),
    }))
}

// The scope that a value has.
pub(crate) fn scope_of<'a>(value: Option<Unjudged<'a>>) -> Option<RawDocument<'a>>
    ensures { option_map document_bytes result ≡ unjudged.scope_of (option_map unjudged_value value.entry) }
{
    match value? {
        Unjudged::JavaScriptCodeWithScope { scope, .. } => Some(scope),
        Unjudged::String(_)
        | Unjudged::RegularExpression { .. }
        | Unjudged::DbPointer { .. }
        | Unjudged::JavaScriptCode(_)
        | Unjudged::Symbol(_) => None,
    }
}

// A pattern and its options.
fn regex_in(bytes: &[u8]) -> Result<Unjudged<'_>, Error>
    ensures { result_map unjudged_value result ≡ unjudged.regex_of (two_texts_in bytes.now) }
{
    match two_texts_in(bytes) {
        Some((pattern, options)) => Ok(Unjudged::RegularExpression { pattern, options }),
        None => Err(Error::BadExtent),
    }
}

// A text, and an ObjectId behind it.
fn db_pointer_in(bytes: &[u8]) -> Result<Unjudged<'_>, Error>
    requires { 17 ≤ length bytes.now }
    ensures { result_map unjudged_value result ≡ unjudged.db_pointer_in bytes.now }
{
    let (text, id) = bytes.split_at(bytes.len() - 12);
    let namespace = closed_text(text)?;
    Ok(Unjudged::DbPointer {
        namespace,
        id: ObjectId(fixed(id)),
    })
}

// The code and the scope behind the total length.
fn scoped_code_in(bytes: &[u8]) -> Result<Unjudged<'_>, Error>
    requires { 14 ≤ length bytes.now }
    ensures { result_map unjudged_value result ≡ unjudged.scoped_code_in bytes.now }
{
    let (text, scope) = scoped_parts(&bytes[4..])?;
    let code = closed_text(text)?;
    let scope = document_in(scope)?;
    Ok(Unjudged::JavaScriptCodeWithScope { code, scope })
}
