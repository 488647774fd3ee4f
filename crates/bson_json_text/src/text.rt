// The text of a document.
ghost use Rattle.std.specs.Prelude.{IfOk, string_bytes};
ghost use Rattle.bson_base.specs.BsonView.{pairs_of};
ghost use Rattle.bson_base.specs.Tree as trees;
ghost use Rattle.bson_json_laws.specs.JsonText.{AppendsText, IsText};

use crate::printing::put_document;
use bson_base::Document;
use bson_json_laws::JsonForm;
use json::Writer;
use std::alloc::{AllocError, Global};

/// The text of a document: one line of JSON, without its end and without spaces.
///
/// Every document has one. The canonical text is read as the same document where [`check_text`](crate::check_text) passes it.
///
/// Source: MongoDB's extended JSON, version 2, "Conversion table".
///
/// # Errors
///
/// Memory ran out.
pub fn to_json(alloc: Global, form: JsonForm, document: &Document) -> Result<String, AllocError>
    ensures text { IfOk result (λ s. IsText form (trees.document (pairs_of document.now)) (string_bytes s)) }
{
    let mut writer = Writer::new(Vec::new(alloc));
    put_document(&mut writer, alloc, form, document)?;
    match String::from_utf8(writer.into_inner()) {
        Ok(text) => Ok(text),
        Err(_) => unreachable!(),
    }
}

/// Appends the text of a document, as [`to_json`] gives it.
///
/// # Errors
///
/// Memory ran out. The bytes before it are gone then.
#[tactic(auto, using(crate::proofs::Putting::text_of_tokens))]
pub fn append_json(
    out: Vec<u8>,
    alloc: Global,
    form: JsonForm,
    document: &Document,
) -> Result<Vec<u8>, AllocError>
    ensures text { IfOk result (λ v. AppendsText form (trees.document (pairs_of document.now)) out.items v.items) }
{
    let mut writer = Writer::new(out);
    put_document(&mut writer, alloc, form, document)?;
    Ok(writer.into_inner())
}
