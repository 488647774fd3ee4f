// Whether the canonical text of a document is read as it again. The document is walked up to its first fault.
ghost use Rattle.std.specs.Prelude.{OnOk, codes, nat_le};
ghost use Rattle.bson_kinds.specs.Outcome.{or_else};
ghost use Rattle.bson_base.specs.BsonView.{tree_of, trees_of, pairs_of};
ghost use Rattle.bson_base.specs.Sound.{max_levels};
ghost use Rattle.bson_base.specs.Tree as trees;
ghost use Rattle.bson_base.specs.Tree.{depth};
ghost use Rattle.bson_values.specs.Refusal.{at_key, at_index};
ghost use Rattle.bson_values.specs.Stop.{stop_view};
ghost use Rattle.bson_json_laws.specs.Gives.{IsHere, Passes, PassesInside};
ghost use Rattle.bson_json_laws.specs.Held.{IsHeld, ArePairsHeld, AreTreesHeld};
ghost use Rattle.bson_json_laws.specs.TextFault.{key_fault, double_fault, decimal_fault, fault_in, text_fault, pairs_text_fault, trees_text_fault, levels_fault, document_text_fault};

use crate::doubles::float_in;
use crate::held::{
    known_binary, known_date, known_decimal, known_id, known_int32, known_int64, known_pointer,
    known_regex, known_timestamp,
};
use bson_base::{Bson, Decimal128, Document, Double};
use bson_decimals::is_canonical;
use bson_json_laws::{Failure, TextFault, is_within_levels, wrapper_of};
use bson_values::Stop;
use std::alloc::Global;
use std::num::f64_to_bits_with_nan;

/// The key of the scope in the text of code with a scope.
const SCOPE_KEY: &str = "$scope";

/// Passes a document whose canonical text is read as the same document.
///
/// # Errors
///
/// The first fault in document order, with its path: a wrapper key before its value, a NaN or a decimal whose bytes no text tells. Last, that the document
/// has more than 200 levels. `NoMemory` where memory ran out, which is
/// taken for a fault alone.
#[tactic(auto, using(bson_json_laws::proofs::Failures::same_refusal))]
pub fn check_text(alloc: Global, document: &Document) -> Result<(), Failure<TextFault>>
    ensures fault { Passes result (document_text_fault (pairs_of document.now)) }
    // So a document in memory that passes meets all premises of `law_text_back`.
    ensures held { OnOk result (ArePairsHeld (pairs_of document.now)) }
{
    match check_document(alloc, document) {
        Ok(()) => Ok(()),
        Err(stop) => Err(Failure::from_stop(stop)),
    }
}

// The pairs of a document, and then its levels.
fn check_document(alloc: Global, document: &Document) -> Result<(), Stop<TextFault>>
    ensures fault { PassesInside result (document_text_fault (pairs_of document.now)) }
    ensures held { OnOk result (ArePairsHeld (pairs_of document.now)) }
{
    check_pairs(alloc, document)?;
    check_levels(alloc, document)
}

// A document has at most 200 levels.
#[tactic(auto, using(bson_json_laws::proofs::Refusals::fault_as))]
fn check_levels(alloc: Global, document: &Document) -> Result<(), Stop<TextFault>>
    ensures { PassesInside result (levels_fault (nat_le (depth (trees.document (pairs_of document.now))) max_levels)) }
{
    if is_within_levels(document) {
        return Ok(());
    }
    Err(refused(alloc, TextFault::TooDeep))
}

// The value itself has this fault; or out of memory.
#[tactic(auto, using(bson_json_laws::proofs::Refusals::is_here))]
#[cold]
#[inline(never)]
fn refused(alloc: Global, fault: TextFault) -> Stop<TextFault>
    ensures here { IsHere fault (stop_view (λ e. e) result) }
{
    Stop::here(alloc, fault)
}

// A double has the bytes of its number.
#[tactic(auto, unfolding(bson_json_laws::specs::Doubles::double_bytes), using(crate::proofs::Faults::double_passes, crate::proofs::Faults::double_fails, bson_json_laws::proofs::Refusals::fault_as))]
fn check_double(alloc: Global, number: Double) -> Result<(), Stop<TextFault>>
    ensures { PassesInside result (double_fault number.0) }
{
    if f64_to_bits_with_nan(float_in(number)).to_le_bytes() == number.0 {
        return Ok(());
    }
    Err(refused(alloc, TextFault::OddNan))
}

// A decimal is canonical.
#[tactic(auto, using(crate::proofs::Faults::decimal_passes, crate::proofs::Faults::decimal_fails, bson_json_laws::proofs::Refusals::fault_as))]
fn check_decimal(alloc: Global, number: Decimal128) -> Result<(), Stop<TextFault>>
    ensures { PassesInside result (decimal_fault number.0) }
{
    known_decimal(number);
    if is_canonical(&number.0) {
        return Ok(());
    }
    Err(refused(alloc, TextFault::OddDecimal))
}

// A key is no wrapper key.
#[tactic(auto, using(bson_json_laws::proofs::Refusals::fault_as))]
fn check_key(alloc: Global, key: &str) -> Result<(), Stop<TextFault>>
    ensures { PassesInside result (key_fault key.now) }
{
    match wrapper_of(key) {
        Some(_) => Err(refused(alloc, TextFault::WrapperKey)),
        None => Ok(()),
    }
}

// A value.
#[cycle(check)]
#[tactic(auto, using(bson_base::proofs::Rows::row_items, bson_base::proofs::Rows::row_pairs))]
fn check_value(alloc: Global, value: &Bson) -> Result<(), Stop<TextFault>>
    ensures fault { PassesInside result (text_fault (tree_of value.now)) }
    ensures held { OnOk result (IsHeld (tree_of value.now)) }
{
    match value {
        Bson::Double(number) => check_double(alloc, *number),
        Bson::Array(values) => check_values(alloc, values),
        Bson::Document(document) => check_pairs(alloc, document),
        Bson::JavaScriptCodeWithScope(scoped) => check_scope(alloc, &scoped.scope),
        Bson::Decimal128(number) => {
            known_decimal(*number);
            check_decimal(alloc, *number)
        }
        Bson::RegularExpression(regex) => {
            known_regex(regex);
            Ok(())
        }
        Bson::Int32(number) => {
            known_int32(*number);
            Ok(())
        }
        Bson::Int64(number) => {
            known_int64(*number);
            Ok(())
        }
        Bson::Timestamp(timestamp) => {
            known_timestamp(*timestamp);
            Ok(())
        }
        Bson::Binary(binary) => {
            known_binary(binary);
            Ok(())
        }
        Bson::ObjectId(id) => {
            known_id(*id);
            Ok(())
        }
        Bson::DateTime(time) => {
            known_date(*time);
            Ok(())
        }
        Bson::DbPointer(pointer) => {
            known_pointer(pointer);
            Ok(())
        }
        Bson::String(_)
        | Bson::Boolean(_)
        | Bson::Null
        | Bson::JavaScriptCode(_)
        | Bson::Symbol(_)
        | Bson::Undefined
        | Bson::MaxKey
        | Bson::MinKey => Ok(()),
    }
}

// The pairs of a document.
#[cycle(check)]
fn check_pairs(alloc: Global, document: &Document) -> Result<(), Stop<TextFault>>
    ensures fault { PassesInside result (pairs_text_fault (pairs_of document.now)) }
    ensures held { OnOk result (ArePairsHeld (pairs_of document.now)) }
{
    let mut pairs = document.iter();
    while let Some((key, value)) = pairs.next() {
        check_pair(alloc, key, value)?;
    }
    Ok(())
}

// A key and its value, seen from their document.
#[cycle(check)]
fn check_pair(alloc: Global, key: &str, value: &Bson) -> Result<(), Stop<TextFault>>
    ensures fault { PassesInside result (fault_in (at_key key.now) (or_else (key_fault key.now) (text_fault (tree_of value.now)))) }
    ensures held { OnOk result (IsHeld (tree_of value.now)) }
{
    match check_member(alloc, key, value) {
        Ok(()) => Ok(()),
        Err(stop) => Err(stop.under_key(key)),
    }
}

// A key, and then its value.
#[cycle(check)]
fn check_member(alloc: Global, key: &str, value: &Bson) -> Result<(), Stop<TextFault>>
    ensures fault { PassesInside result (or_else (key_fault key.now) (text_fault (tree_of value.now))) }
    ensures held { OnOk result (IsHeld (tree_of value.now)) }
{
    check_key(alloc, key)?;
    check_value(alloc, value)
}

// The values of an array.
#[cycle(check)]
fn check_values(alloc: Global, values: &[Bson]) -> Result<(), Stop<TextFault>>
    ensures fault { PassesInside result (trees_text_fault 0 (trees_of values.now)) }
    ensures held { OnOk result (AreTreesHeld (trees_of values.now)) }
{
    for (index, value) in values.iter().enumerate() {
        check_item(alloc, index as u64, value)?;
    }
    Ok(())
}

// A value at an index, seen from its array.
#[cycle(check)]
fn check_item(alloc: Global, index: u64, value: &Bson) -> Result<(), Stop<TextFault>>
    ensures fault { PassesInside result (fault_in (at_index index) (text_fault (tree_of value.now))) }
    ensures held { OnOk result (IsHeld (tree_of value.now)) }
{
    match check_value(alloc, value) {
        Ok(()) => Ok(()),
        Err(stop) => Err(stop.under_index(index)),
    }
}

// A scope, seen from its code.
#[cycle(check)]
fn check_scope(alloc: Global, scope: &Document) -> Result<(), Stop<TextFault>>
    ensures fault { PassesInside result (fault_in (at_key (codes "$scope")) (pairs_text_fault (pairs_of scope.now))) }
    ensures held { OnOk result (ArePairsHeld (pairs_of scope.now)) }
{
    match check_pairs(alloc, scope) {
        Ok(()) => Ok(()),
        Err(stop) => Err(stop.under_key(SCOPE_KEY)),
    }
}
