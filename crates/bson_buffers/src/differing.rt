// Comparing two shapes.
ghost use Rattle.std.specs.Prelude.{◌≡◌, ◌⊎◌, [], IfOk, string_bytes};
ghost use Rattle.bson_evolve_check.specs.Printed.{check_error_text};
ghost use Rattle.bson_evolve_differences.specs.Views.{difference_view, differences_view};
ghost use Rattle.bson_buffers.specs.Asked.{shape_of_bytes};
ghost use Rattle.bson_buffers.specs.Buffers.{call_of, IsSilent};
ghost use Rattle.bson_buffers.specs.Compares.{compared, difference_texts, texts_of, CompatibleRow, DifferentRow, NewRefusedRow, OldRefusedRow, IsCompared};
ghost use Rattle.bson_buffers.specs.Expected.{IsForComparison, IsForShapes, IsOfDifferences};
ghost use Rattle.bson_buffers.specs.declared.status.Status.TheVariants as statuses;

use crate::asking::asked;
use crate::expected::{Expected, deliver};
use crate::report::Report;
use crate::status::Status;
use bson_evolve_check::CheckError;
use bson_evolve_differences::{Difference, differences};
use bson_shape::Shape;
use std::alloc::{AllocError, Global};

// The four texts of a difference, each with a zero byte behind it.
fn texts_of(alloc: Global, difference: &Difference) -> Result<String, AllocError>
    ensures { IfOk result (λ t. string_bytes t ≡ texts_of (difference_view difference.now)) }
{
    let path = &difference.path;
    let old = &difference.old;
    let new = &difference.new;
    let reason = &difference.reason;
    format!(in alloc; "{path}\0{old}\0{new}\0{reason}\0")
}

// Those of differences, one after another.
fn difference_texts(alloc: Global, found: &[Difference]) -> Result<String, AllocError>
    ensures { IfOk result (λ t. string_bytes t ≡ difference_texts (differences_view found.now)) }
{
    let mut texts = String::new(alloc);
    for difference in found {
        let text = texts_of(alloc, difference)?;
        texts.push_str(text.as_str())?;
    }
    Ok(texts)
}

// What must be written for differences. An error means out of memory.
fn expected_for_differences(alloc: Global, found: &[Difference]) -> Result<Expected, AllocError>
    ensures { IfOk result (λ d. IsOfDifferences (differences_view found.now) d) }
{
    let text = difference_texts(alloc, found)?;
    let status = match found {
        [] => Status::Done,
        [..] => Status::Different,
    };
    Ok(Expected::refusal(alloc, status, text))
}

// What must be written for a shape that is not plain. An error means out of memory.
fn not_plain(alloc: Global, status: Status, error: CheckError) -> Result<Expected, AllocError>
    ensures status { IfOk result (λ d. d.status ≡ status) }
    ensures place { IfOk result (λ d. d.place ≡ 0) }
    ensures output { IfOk result (λ d. d.output.items ≡ []) }
    ensures text { IfOk result (λ d. string_bytes d.text ≡ check_error_text error) }
{
    let text = format!(in alloc; "{error}")?;
    Ok(Expected::refusal(alloc, status, text))
}

// What must be written for two shapes. An error means out of memory.
fn expected_for_shapes(alloc: Global, old: &Shape, new: &Shape) -> Result<Expected, AllocError>
    ensures { IfOk result (λ d. IsForShapes old.now new.now d.status d.place d.output.items (string_bytes d.text)) }
{
    match differences(alloc, old, new) {
        Ok(found) => {
            let expected = expected_for_differences(alloc, &found)?;
            Ok(expected)
        }
        Err(CheckError::OldNotPlain) => {
            not_plain(alloc, Status::OldRefused, CheckError::OldNotPlain)
        }
        Err(CheckError::NewNotPlain) => {
            not_plain(alloc, Status::NewRefused, CheckError::NewNotPlain)
        }
        Err(CheckError::NoMemory) => Err(AllocError),
    }
}

// What must be written for bytes that may be two shapes. An error means out of memory.
fn expected_for(alloc: Global, old: &[u8], new: &[u8]) -> Result<Expected, AllocError>
    ensures { IfOk result (λ d. IsForComparison old.now new.now d.status d.place d.output.items (string_bytes d.text)) }
{
    let old = match asked(alloc, old)? {
        Ok(shape) => shape,
        Err(refusal) => return Ok(Expected::refused(alloc, Status::OldRefused, refusal)),
    };
    let new = match asked(alloc, new)? {
        Ok(shape) => shape,
        Err(refusal) => return Ok(Expected::refused(alloc, Status::NewRefused, refusal)),
    };
    expected_for_shapes(alloc, &old, &new)
}

// `differences_into`, with its table of statuses as a whole.
fn compare(alloc: Global, old: &[u8], new: &[u8], text: &mut [u8]) -> Report
    ensures { IsCompared old.now new.now result.status (call_of result [] [] text.old text.new) }
{
    match expected_for(alloc, old, new) {
        Ok(expected) => deliver(&expected, &mut [], text),
        Err(_) => Report::no_memory(),
    }
}

/// Tells why documents that are written at an old shape need not be read at a new one: the differences of the shapes that two slices of bytes are the notations of.
///
/// The buffer for the text gets as many of its first bytes as fit. The status says what came of it:
///
/// - `Done`: the shapes are compatible, so each sound document that is written at the old one is read at the new one. There is no text.
/// - `Different`: they are not. The text has four parts for each difference, in the order of [`differences`]: the path, the
///   notation of the old part, that of the new part, and the reason. Behind each is a zero byte.
/// - `OldRefused`: the bytes of the old shape are the notation of none, as `check_shape` tells by place and text; or both are shapes, and the old one is not plain: then the place
///   is 0, and the text is `the old shape is not plain`.
/// - `NewRefused`: the same of the new shape, where the old one is not refused.
/// - `NoMemory`: memory ran out, and the buffer is as it was.
pub fn differences_into(alloc: Global, old: &[u8], new: &[u8], text: &mut [u8]) -> Report
    ensures done { result.status ≡ statuses.Done → CompatibleRow old.now new.now (call_of result [] [] text.old text.new) }
    ensures different { result.status ≡ statuses.Different → DifferentRow old.now new.now (call_of result [] [] text.old text.new) }
    ensures old_refused { result.status ≡ statuses.OldRefused → OldRefusedRow old.now new.now (call_of result [] [] text.old text.new) }
    ensures new_refused { result.status ≡ statuses.NewRefused → NewRefusedRow old.now new.now (call_of result [] [] text.old text.new) }
    ensures no_memory { result.status ≡ statuses.NoMemory → IsSilent (call_of result [] [] text.old text.new) }
    // The status is the one that must be returned, or out of memory.
    ensures complete { (result.status ≡ compared (shape_of_bytes old.now) (shape_of_bytes new.now)) ⊎ (result.status ≡ statuses.NoMemory) }
{
    compare(alloc, old, new, text)
}
