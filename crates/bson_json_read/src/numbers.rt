// Numbers are read.
ghost use Rattle.std.specs.Prelude.{◌≡◌};
ghost use Rattle.std.specs.Option.{option_map};
ghost use Rattle.bson_base.specs.BsonView.{tree_of};
ghost use Rattle.bson_json_laws.specs.Doubles as doubles;
ghost use Rattle.bson_json_laws.specs.FailureView.{unread};
ghost use Rattle.bson_json_laws.specs.Gives.{Reaches};
ghost use Rattle.bson_json_laws.specs.Read as spec;

use crate::refused::{Reading, refused};
use bson_base::{Bson, Double, integer_of_text};
use bson_json_laws::JsonFault;
use std::alloc::Global;
use std::num::f64_to_bits_with_nan;

// The double nearest to a numeral.
#[tactic(auto, unfolding(bson_json_laws::specs::Doubles::double_of_numeral, bson_json_laws::specs::Doubles::double_bytes))]
fn double_of_numeral(text: &str) -> Option<Double>
    ensures { option_map (λ d. d.0) result ≡ doubles.double_of_numeral text.now }
{
    let number: f64 = fast_float::parse(text).ok()?;
    if !number.is_finite() {
        return None;
    }
    Some(Double(f64_to_bits_with_nan(number).to_le_bytes()))
}

// The double of the text of `$numberDouble`.
#[tactic(auto, using(crate::proofs::Words::nan_bytes, crate::proofs::Words::infinity_bytes, crate::proofs::Words::minus_infinity_bytes))]
pub(crate) fn double_of_text(text: &str) -> Option<Double>
    ensures { option_map (λ d. d.0) result ≡ doubles.double_of_text text.now }
{
    match text {
        "NaN" => Some(Double([0, 0, 0, 0, 0, 0, 0xf8, 0x7f])),
        "Infinity" => Some(Double([0, 0, 0, 0, 0, 0, 0xf0, 0x7f])),
        "-Infinity" => Some(Double([0, 0, 0, 0, 0, 0, 0xf0, 0xff])),
        _ => double_of_numeral(text),
    }
}

// An integer in the smaller kind that holds it.
fn integer(number: i64) -> Bson
    ensures { tree_of result ≡ spec.integer_tree number }
{
    match i32::try_from(number) {
        Ok(number) => Bson::Int32(number),
        Err(_) => Bson::Int64(number),
    }
}

// A bare number.
pub(crate) fn read_number(alloc: Global, text: &str) -> Reading<Bson>
    ensures { Reaches tree_of unread result (spec.number_tree text.now) }
{
    if let Some(number) = integer_of_text(text) {
        return Ok(integer(number));
    }
    match double_of_numeral(text) {
        Some(number) => Ok(Bson::Double(number)),
        None => Err(refused(alloc, JsonFault::NumberTooLarge)),
    }
}
