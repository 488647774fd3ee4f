// What the members of an object stand for.
ghost use Rattle.std.specs.Prelude.{◌≡◌, IfOk};
ghost use Rattle.std.specs.Option.{option_map};
ghost use Rattle.bson_base.specs.BsonView.{tree_of, pairs_of};
ghost use Rattle.bson_base.specs.Folded as folded;
ghost use Rattle.bson_base.specs.Tree as trees;
ghost use Rattle.bson_json_laws.specs.FailureView.{unread};
ghost use Rattle.bson_json_laws.specs.Gives.{Reaches};
ghost use Rattle.bson_json_laws.specs.Read as spec;
ghost use Rattle.bson_json_laws.specs.Unread.{or_refused, bad_wrapper};
ghost use Rattle.bson_json_laws.specs.WrapperKeys as keys;

use crate::pairs::{binary, pointer, regex, timestamp};
use crate::parts::{document_of, text_of};
use crate::refused::{Reading, refused};
use crate::texts::{
    code, date, decimal, double, int32, int64, max_key, min_key, object_id, symbol, undefined, uuid,
};
use bson_base::{Bson, Document, JavaScriptCodeWithScope};
use bson_json_laws::{JsonFault, wrapper_of};
use bson_values::Wrapper;
use std::alloc::{AllocError, Global};

// What the value at a wrapper key stands for, where the key is alone.
fn value_of(alloc: Global, wrapper: Wrapper, value: &Bson) -> Result<Option<Bson>, AllocError>
    ensures { IfOk result (λ o. option_map tree_of o ≡ spec.value_of wrapper (tree_of value.now)) }
{
    match wrapper {
        Wrapper::Oid => Ok(object_id(value)),
        Wrapper::Symbol => symbol(alloc, value),
        Wrapper::NumberInt => Ok(int32(value)),
        Wrapper::NumberLong => Ok(int64(value)),
        Wrapper::NumberDouble => Ok(double(value)),
        Wrapper::NumberDecimal => Ok(decimal(value)),
        Wrapper::Binary => binary(alloc, value),
        Wrapper::Uuid => uuid(alloc, value),
        Wrapper::Code => code(alloc, value),
        Wrapper::Timestamp => Ok(timestamp(value)),
        Wrapper::RegularExpression => regex(alloc, value),
        Wrapper::DbPointer => pointer(alloc, value),
        Wrapper::Date => Ok(date(value)),
        Wrapper::MinKey => Ok(min_key(value)),
        Wrapper::MaxKey => Ok(max_key(value)),
        Wrapper::Undefined => Ok(undefined(value)),
        Wrapper::Scope | Wrapper::NumberDecimalBytes => Ok(None),
    }
}

// Code with its scope.
fn code_with_scope(alloc: Global, code: &Bson, scope: &Bson) -> Result<Option<Bson>, AllocError>
    ensures { IfOk result (λ o. option_map tree_of o ≡ folded.code_with_scope (tree_of code.now) (tree_of scope.now)) }
{
    let Some(code) = text_of(code) else {
        return Ok(None);
    };
    match document_of(scope) {
        Some(scope) => Ok(Some(scoped(alloc, code, scope)?)),
        None => Ok(None),
    }
}

#[tactic(auto, using(bson_base::proofs::Rows::row_items, bson_base::proofs::Rows::row_pairs))]
fn scoped(alloc: Global, code: &str, scope: &Document) -> Result<Bson, AllocError>
    ensures { IfOk result (λ b. tree_of b ≡ trees.javascript_code_with_scope code.now (pairs_of scope.now)) }
{
    let code = String::from_str(alloc, code)?;
    let scope = scope.try_clone(alloc)?;
    Ok(Bson::JavaScriptCodeWithScope(JavaScriptCodeWithScope { code, scope }))
}

// What the values at two keys stand for.
fn value_of_keys(
    alloc: Global,
    key: &str,
    value: &Bson,
    other: &str,
    second: &Bson,
) -> Result<Option<Bson>, AllocError>
    ensures { IfOk result (λ o. option_map tree_of o ≡ folded.value_of_keys key.now (tree_of value.now) other.now (tree_of second.now)) }
{
    if key == "$code" && other == "$scope" {
        return code_with_scope(alloc, value, second);
    }
    if key == "$scope" && other == "$code" {
        return code_with_scope(alloc, second, value);
    }
    Ok(None)
}

// What an object stands for whose first wrapper key is this.
fn wrapped(alloc: Global, wrapper: Wrapper, document: &Document) -> Result<Option<Bson>, AllocError>
    ensures { IfOk result (λ o. option_map tree_of o ≡ spec.wrapped wrapper (pairs_of document.now)) }
{
    let mut pairs = document.iter();
    match pairs.next() {
        None => Ok(None),
        Some((key, value)) => match pairs.next() {
            None => value_of(alloc, wrapper, value),
            Some((other, second)) => match pairs.next() {
                None => value_of_keys(alloc, key, value, other, second),
                Some(_) => Ok(None),
            },
        },
    }
}

// The first wrapper key among the keys of an object.
fn first_wrapper(document: &Document) -> Option<Wrapper>
    ensures { result ≡ keys.first_wrapper (pairs_of document.now) }
{
    let mut pairs = document.iter();
    while let Some((key, _value)) = pairs.next() {
        if let Some(wrapper) = wrapper_of(key) {
            return Some(wrapper);
        }
    }
    None
}

// What an object with a wrapper key stands for.
fn unwrapped(alloc: Global, wrapper: Wrapper, document: &Document) -> Reading<Bson>
    ensures { Reaches tree_of unread result (or_refused (bad_wrapper wrapper) (spec.wrapped wrapper (pairs_of document.now))) }
{
    match wrapped(alloc, wrapper, document)? {
        Some(value) => Ok(value),
        None => Err(refused(alloc, JsonFault::BadWrapper(wrapper))),
    }
}

// What an object of these members stands for.
#[tactic(auto, using(bson_base::proofs::Rows::row_items, bson_base::proofs::Rows::row_pairs))]
pub(crate) fn settled(alloc: Global, document: Document) -> Reading<Bson>
    ensures { Reaches tree_of unread result (spec.settled (pairs_of document)) }
{
    match first_wrapper(&document) {
        Some(wrapper) => unwrapped(alloc, wrapper, &document),
        None => Ok(Bson::Document(document)),
    }
}
