ghost use Rattle.std.specs.Prelude.{◌≡◌, IfOk, Ok, codes, pos};
ghost use Rattle.bson_base.specs.BsonView.{pairs_of};
ghost use Rattle.bson_base.specs.Encoded.{encoded};
ghost use Rattle.bson_base.specs.Tree.{int32, no_pairs, pair, string};

use crate::bson::{Bson, Document, EncodeError, RawDocument, raw};
use std::alloc::{AllocError, Global};

/// The document `{name: "Ada", age: 36}`.
pub fn ada(alloc: Global) -> Result<Document, AllocError>
    ensures pairs { IfOk result (λ d. pairs_of d ≡
        pair (codes "name") (string (codes "Ada")) (pair (codes "age") (int32 (pos 36)) no_pairs)) }
{
    let mut ada = Document::new(alloc);
    let name = Bson::String(String::from_str(alloc, "Ada")?);
    ada.insert(String::from_str(alloc, "name")?, name)?;
    ada.insert(String::from_str(alloc, "age")?, Bson::Int32(36))?;
    Ok(ada)
}

/// The first key whose value is null.
pub fn first_null(document: &Document) -> Option<&str> {
    for (key, value) in document.iter() {
        if let Bson::Null = value {
            return Some(key.as_str());
        }
    }
    None
}

/// The bytes of a document.
pub fn document_bytes(alloc: Global, document: &Document) -> Result<Vec<u8>, EncodeError>
    ensures encoded { IfOk result (λ v. encoded (pairs_of document.now) ≡ Ok v.items) }
{
    document.to_vec(alloc)
}

/// The document of bytes.
pub fn document_of(alloc: Global, bytes: &[u8]) -> Result<Document, raw::Error> {
    RawDocument::from_bytes(bytes)?.to_document(alloc)
}
