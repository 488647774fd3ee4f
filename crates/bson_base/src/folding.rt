ghost use Rattle.std.specs.Prelude.{◌≡◌, IfOk, is_some, true, false, Some};
ghost use Rattle.std.specs.Option.{option_map};
ghost use Rattle.bson_base.specs.BsonView.{tree_of, pairs_of};
ghost use Rattle.bson_base.specs.Folded as folded;
ghost use Rattle.bson_base.specs.Folded.{fold, fold_values, IsInKind, HasForm, KeepsScope};
ghost use Rattle.bson_base.specs.Opened.{IsExtended, opened};
ghost use Rattle.bson_base.specs.Tree as trees;
ghost use Rattle.bson_base.specs.Tree.{Tree};

use crate::bson::Bson;
use crate::code_with_scope::JavaScriptCodeWithScope;
use crate::document::Document;
use crate::forms;
use bson_kinds::begins_with_dollar;
use std::alloc::{AllocError, Global};

impl Bson {
    /// The value that a document of wrapper keys becomes, as `{$symbol: "a"}` a Symbol `a`; every other document stays.
    ///
    /// It becomes a value where it has exactly these keys, and their values the form:
    ///
    /// - `$oid`: a text of 24 hexadecimal digits. `$symbol`, `$code`: a text. `$code` and `$scope`, in any order: a text and a document.
    /// - `$numberInt`, `$numberLong`: the text of an integer in range. `$numberDouble`: `Infinity`, `-Infinity` or `NaN`.
    /// - `$numberDecimalBytes`: a binary of subtype 0 with 16 bytes. `$uuid`: the text of a UUID.
    /// - `$binary`: a document with `base64`, a base64 text, and `subType`, two hexadecimal digits; or, where `base64` is no text, with `bytes`, a binary of
    ///   subtype 0, and `subType`, an Int32 from 0 to 255.
    /// - `$timestamp`: a document with `t` and `i`, two Int32 or two Int64, each from 0 to 4294967295.
    /// - `$regularExpression`: a document with the texts `pattern` and `options`. `$dbPointer`: one with the text `$ref` and the ObjectId `$id`.
    /// - `$date`: an Int64, or the text of a date. `$minKey`, `$maxKey`: the Int32 or the Int64 1. `$undefined`: true.
    ///
    /// The inner documents may have other keys too. They are not folded before: a date that is opened as `{$date: {$numberLong: ".."}}` is folded from inside out.
    ///
    /// Source: MongoDB's extended JSON, version 2, with `$numberDecimalBytes`.
    ///
    /// # Errors
    ///
    /// Memory ran out.
    #[tactic(auto, using(crate::proofs::Rows::row_items, crate::proofs::Rows::row_pairs))]
    pub fn from_extended_document(alloc: Global, document: Document) -> Result<Bson, AllocError>
        ensures folded { IfOk result (λ b. tree_of b ≡ fold (pairs_of document)) }
    {
        if !may_fold(&document) {
            return Ok(Bson::Document(document));
        }
        if is_in_pair(&document) {
            return Ok(into_pair(document));
        }
        match alone(alloc, &document)? {
            Some(value) => Ok(value),
            None => Ok(Bson::Document(document)),
        }
    }
}

// Whether the first key begins with `$`, as each wrapper key does. Most documents are none by that.
fn may_fold(document: &Document) -> bool
    ensures stays { result ≡ false → fold (pairs_of document.now) ≡ trees.document (pairs_of document.now) }
{
    match document.iter().next() {
        Some((key, _)) => begins_with_dollar(key),
        None => false,
    }
}

// ---- one key

// What a document of one key becomes.
fn alone(alloc: Global, document: &Document) -> Result<Option<Bson>, AllocError>
    ensures { IfOk result (λ o. option_map tree_of o ≡ folded.alone (pairs_of document.now)) }
{
    let mut pairs = document.iter();
    match pairs.next() {
        None => Ok(None),
        Some((key, value)) => match pairs.next() {
            None => value_of_key(alloc, key, value),
            Some(_) => Ok(None),
        },
    }
}

// What the value of the one key becomes.
fn value_of_key(alloc: Global, key: &str, value: &Bson) -> Result<Option<Bson>, AllocError>
    ensures { IfOk result (λ o. option_map tree_of o ≡ folded.value_of_key key.now (tree_of value.now)) }
{
    match key {
        "$oid" => Ok(forms::object_id(value)),
        "$symbol" => forms::symbol(alloc, value),
        "$code" => forms::code(alloc, value),
        "$numberInt" => Ok(forms::int32(value)),
        "$numberLong" => Ok(forms::int64(value)),
        "$numberDouble" => Ok(forms::double(value)),
        "$numberDecimalBytes" => Ok(forms::decimal(value)),
        "$binary" => forms::binary(alloc, value),
        "$uuid" => forms::uuid(alloc, value),
        "$timestamp" => Ok(forms::timestamp(value)),
        "$regularExpression" => forms::regex(alloc, value),
        "$dbPointer" => forms::db_pointer(alloc, value),
        "$date" => Ok(forms::date(value)),
        "$minKey" => Ok(forms::min_key(value)),
        "$maxKey" => Ok(forms::max_key(value)),
        "$undefined" => Ok(forms::undefined(value)),
        _ => Ok(None),
    }
}

// ---- two keys

// Whether a document has exactly two keys, and these are a text of code and its scope.
fn is_in_pair(document: &Document) -> bool
    ensures { result ≡ is_some (folded.in_pair (pairs_of document.now)) }
{
    let mut pairs = document.iter();
    match pairs.next() {
        None => false,
        Some((key, value)) => match pairs.next() {
            None => false,
            Some((other, second)) => match pairs.next() {
                None => are_code_and_scope(key, value, other, second),
                Some(_) => false,
            },
        },
    }
}

// Whether these are the key and the text of code and the key and the document of its scope, in any order.
fn are_code_and_scope(key: &str, value: &Bson, other: &str, second: &Bson) -> bool
    ensures { result ≡ is_some (folded.value_of_keys key.now (tree_of value.now) other.now (tree_of second.now)) }
{
    if key == "$code" && other == "$scope" {
        return is_code_with_scope(value, second);
    }
    if key == "$scope" && other == "$code" {
        return is_code_with_scope(second, value);
    }
    false
}

// Whether these are a text and a document.
#[tactic(auto, using(crate::proofs::Rows::row_items, crate::proofs::Rows::row_pairs))]
fn is_code_with_scope(code: &Bson, scope: &Bson) -> bool
    ensures { result ≡ is_some (folded.code_with_scope (tree_of code.now) (tree_of scope.now)) }
{
    match code {
        Bson::String(_) => match scope {
            Bson::Document(_) => true,
            _ => false,
        },
        _ => false,
    }
}

// The code with its scope that a document of two keys becomes.
fn into_pair(document: Document) -> Bson
    requires { is_some (folded.in_pair (pairs_of document)) ≡ true }
    ensures { Some (tree_of result) ≡ folded.in_pair (pairs_of document) }
{
    let mut pairs = document.into_iter();
    match pairs.next() {
        None => unreachable!(),
        Some((key, value)) => match pairs.next() {
            None => unreachable!(),
            Some((_, second)) => match pairs.next() {
                None if key.as_str() == "$code" => into_code_with_scope(value, second),
                None => into_code_with_scope(second, value),
                Some(_) => unreachable!(),
            },
        },
    }
}

// The code with its scope of a text and a document.
#[tactic(auto, using(crate::proofs::Rows::row_items, crate::proofs::Rows::row_pairs))]
fn into_code_with_scope(code: Bson, scope: Bson) -> Bson
    requires { is_some (folded.code_with_scope (tree_of code) (tree_of scope)) ≡ true }
    ensures { Some (tree_of result) ≡ folded.code_with_scope (tree_of code) (tree_of scope) }
{
    match code {
        Bson::String(code) => match scope {
            Bson::Document(scope) => {
                Bson::JavaScriptCodeWithScope(JavaScriptCodeWithScope { code, scope })
            }
            _ => unreachable!(),
        },
        _ => unreachable!(),
    }
}

/// The document that an extended value is opened to is folded back: by one fold, where it has a form of its own, and else from inside out. So is what
/// `Bson::into_extended_document` gives.
///
/// The numbers and the bytes of the value are in the ranges of its kind, and the options of a regular expression are in order (`IsInKind`). A scope stays as it is
/// where it is folded (`KeepsScope`). The call does nothing.
pub fn law_opened_folds()
    ensures folds { (t : Tree) → IsExtended t → IsInKind t → HasForm t → fold (opened t) ≡ t }
    ensures inside_out { (t : Tree) → IsExtended t → IsInKind t → KeepsScope t → fold (fold_values (opened t)) ≡ t }
{}
