// Doubles as tokens.
ghost use Rattle.std.specs.Prelude.{◌≡◌, OnOk};
ghost use Rattle.json.specs.Json.{number};
ghost use Rattle.json.specs.Print.{IsNumber};
ghost use Rattle.bson_json_laws.specs.declared.form.JsonForm.TheVariants.{Canonical, Relaxed};
ghost use Rattle.bson_base.specs.Tree.{double};
ghost use Rattle.bson_json_laws.specs.Doubles.{IsFloatText, float_in as float_of, infinity_text};
ghost use Rattle.bson_json_text.specs.Puts.{Appends, Puts};

use crate::leaves::put_text_at;
use bson_base::Double;
use bson_json_laws::JsonForm;
use json::Writer;
use std::alloc::AllocError;
use std::num::f64_from_bits_with_nan;

// The number that eight bytes are.
#[tactic(auto, unfolding(bson_json_laws::specs::Doubles::float_in))]
pub(crate) fn float_in(number: Double) -> f64
    ensures { result ≡ float_of number.0 }
{
    f64_from_bits_with_nan(u64::from_le_bytes(number.0))
}

// A text of a number.
#[tactic(auto, using(bson_json_laws::proofs::FloatTexts::finite_text, bson_json_laws::proofs::FloatTexts::nan_text, bson_json_laws::proofs::FloatTexts::infinity_is))]
fn float_text<'a>(number: f64, buffer: &'a mut ryu::Buffer) -> &'a str
    ensures text { IsFloatText number result.now }
{
    if number.is_finite() {
        return buffer.format_finite(number);
    }
    if number.is_nan() {
        return "NaN";
    }
    infinity_text(number.is_sign_negative())
}

// `Infinity`, with its sign.
fn infinity_text(negative: bool) -> &'static str
    ensures { result.now ≡ infinity_text negative }
{
    if negative { "-Infinity" } else { "Infinity" }
}

// A double in the canonical form.
#[tactic(auto, using(crate::proofs::Putting::wrapped_double))]
fn put_canonical(writer: &mut Writer, number: Double) -> Result<(), AllocError>
    ensures { OnOk result (Puts Canonical (double number.0) writer.old writer.new) }
{
    let mut buffer = ryu::Buffer::new();
    let text = float_text(float_in(number), &mut buffer);
    put_text_at(writer, "$numberDouble", text)
}

// A double in the relaxed form.
#[tactic(auto, using(crate::proofs::Putting::relaxed_word, crate::proofs::Putting::relaxed_number, bson_json_laws::proofs::FloatTexts::finite_number))]
fn put_relaxed(writer: &mut Writer, number: Double) -> Result<(), AllocError>
    ensures { OnOk result (Puts Relaxed (double number.0) writer.old writer.new) }
{
    let value = float_in(number);
    let mut buffer = ryu::Buffer::new();
    let text = float_text(value, &mut buffer);
    if value.is_finite() {
        put_numeral(writer, text)
    } else {
        put_text_at(writer, "$numberDouble", text)
    }
}

// A numeral.
fn put_numeral(writer: &mut Writer, text: &str) -> Result<(), AllocError>
    requires { IsNumber text.now }
    ensures { OnOk result (Appends (number text.now) writer.old writer.new) }
{
    writer.number(text)
}

// A double.
pub(crate) fn put_double(
    writer: &mut Writer,
    form: JsonForm,
    number: Double,
) -> Result<(), AllocError>
    ensures { OnOk result (Puts form (double number.0) writer.old writer.new) }
{
    match form {
        JsonForm::Canonical => put_canonical(writer, number),
        JsonForm::Relaxed => put_relaxed(writer, number),
    }
}
