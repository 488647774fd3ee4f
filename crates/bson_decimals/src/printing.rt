// Numbers are printed.
ghost use Rattle.std.specs.Prelude.{◌≡◌, ◌<◌, ◌≤◌, ◌+◌, ◌++◌, length, OnOk, IfOk, IsAscii, string_bytes, replicate};
ghost use Rattle.std.specs.Fmt.{sign_text};
ghost use Rattle.std.specs.Int.{w128, from_le_bytes};
ghost use Rattle.bson_decimals.specs.Decimals as spec;

use itoa::Buffer;
use std::alloc::{AllocError, Global};

const COEFFICIENTS: u128 = 10_000_000_000_000_000_000_000_000_000_000_000;

// So many zeros.
fn zeros(count: usize) -> &'static str
    requires { count ≤ 5 }
    ensures { result.now ≡ replicate count 48 }
{
    match count {
        0 => "",
        1 => "0",
        2 => "00",
        3 => "000",
        4 => "0000",
        _ => "00000",
    }
}

// Digits with a point at a place between them.
fn put_split(out: &mut String, digits: &str, at: usize) -> Result<(), AllocError>
    requires ascii { IsAscii digits.now }
    requires within { at ≤ length digits.now }
    ensures { OnOk result (string_bytes out.new ≡ string_bytes out.old ++ spec.split digits.now at) }
{
    out.push_str(&digits[..at])?;
    out.push_str(".")?;
    out.push_str(&digits[at..])
}

// Digits behind a point and so many zeros.
fn put_behind(out: &mut String, digits: &str, count: usize) -> Result<(), AllocError>
    requires { count ≤ 5 }
    ensures { OnOk result (string_bytes out.new ≡ string_bytes out.old ++ spec.behind digits.now count) }
{
    out.push_str("0.")?;
    out.push_str(zeros(count))?;
    out.push_str(digits)
}

// Digits with so many of them behind the point.
#[tactic(auto, unfolding(crate::specs::Decimals::pointed))]
fn put_pointed(out: &mut String, digits: &str, behind: usize) -> Result<(), AllocError>
    requires ascii { IsAscii digits.now }
    requires near { behind ≤ length digits.now + 5 }
    ensures { OnOk result (string_bytes out.new ≡ string_bytes out.old ++ spec.pointed digits.now behind) }
{
    if behind == 0 {
        out.push_str(digits)
    } else if behind < digits.len() {
        put_split(out, digits, digits.len() - behind)
    } else {
        put_behind(out, digits, behind - digits.len())
    }
}

// One digit before the point.
#[tactic(auto, unfolding(crate::specs::Decimals::first_pointed))]
fn put_first_pointed(out: &mut String, digits: &str) -> Result<(), AllocError>
    requires { IsAscii digits.now }
    ensures { OnOk result (string_bytes out.new ≡ string_bytes out.old ++ spec.first_pointed digits.now) }
{
    if digits.len() > 1 {
        put_split(out, digits, 1)
    } else {
        out.push_str(digits)
    }
}

// A letter and a sign, and then a number.
fn put_marked(out: &mut String, mark: &str, number: usize) -> Result<(), AllocError>
    ensures { OnOk result (string_bytes out.new ≡ string_bytes out.old ++ spec.marked mark.now number) }
{
    out.push_str(mark)?;
    let mut buffer = Buffer::new();
    out.push_str(buffer.format(number))
}

// An exponent, which is given plus 6176.
#[tactic(auto, unfolding(crate::specs::Decimals::exponent_text))]
fn put_exponent(out: &mut String, exponent: usize) -> Result<(), AllocError>
    ensures { OnOk result (string_bytes out.new ≡ string_bytes out.old ++ spec.exponent_text exponent) }
{
    if exponent < 6176 {
        put_marked(out, "E-", 6176 - exponent)
    } else {
        put_marked(out, "E+", exponent - 6176)
    }
}

// Digits and an exponent behind them.
fn put_scientific(out: &mut String, digits: &str, exponent: usize) -> Result<(), AllocError>
    requires { IsAscii digits.now }
    ensures { OnOk result (string_bytes out.new ≡ string_bytes out.old ++ spec.first_pointed digits.now ++ spec.exponent_text exponent) }
{
    put_first_pointed(out, digits)?;
    put_exponent(out, exponent)
}

// Digits and an exponent, which is given plus 6176.
#[tactic(auto, unfolding(crate::specs::Decimals::scaled_text))]
fn put_scaled(out: &mut String, digits: &str, exponent: usize) -> Result<(), AllocError>
    requires ascii { IsAscii digits.now }
    requires some { 0 < length digits.now }
    requires short { length digits.now ≤ 40 }
    requires near { exponent < 16384 }
    ensures { OnOk result (string_bytes out.new ≡ string_bytes out.old ++ spec.scaled_text digits.now exponent) }
{
    if exponent <= 6176 && 6171 <= exponent + digits.len() {
        put_pointed(out, digits, 6176 - exponent)
    } else {
        put_scientific(out, digits, exponent + digits.len() - 1)
    }
}

// A coefficient and an exponent, which is given plus 6176.
fn put_number(out: &mut String, coefficient: u128, exponent: usize) -> Result<(), AllocError>
    requires { exponent < 16384 }
    ensures { OnOk result (string_bytes out.new ≡ string_bytes out.old ++ spec.number_text coefficient exponent) }
{
    let mut buffer = Buffer::new();
    put_scaled(out, buffer.format(coefficient), exponent)
}

// A coefficient in its range.
fn coefficient_of(number: u128) -> u128
    ensures { result ≡ spec.coefficient_of number }
{
    if number < COEFFICIENTS { number } else { 0 }
}

// The text behind the sign.
#[tactic(auto, unfolding(crate::specs::Decimals::unsigned_text))]
fn put_unsigned(out: &mut String, combination: u128, number: u128) -> Result<(), AllocError>
    ensures { OnOk result (string_bytes out.new ≡ string_bytes out.old ++ spec.unsigned_text combination number) }
{
    if combination == 30 {
        out.push_str("Infinity")
    } else if 24 <= combination {
        put_number(out, 0, ((number >> 111) % 16384) as usize)
    } else {
        put_number(
            out,
            coefficient_of(number % (1 << 113)),
            ((number >> 113) % 16384) as usize,
        )
    }
}

// A sign.
fn sign(negative: bool) -> &'static str
    ensures { result.now ≡ sign_text negative }
{
    if negative { "-" } else { "" }
}

// The text of a number that is none, or a sign and the text behind it.
#[tactic(auto, unfolding(crate::specs::Decimals::signed_text))]
fn put_signed(
    out: &mut String,
    negative: bool,
    combination: u128,
    number: u128,
) -> Result<(), AllocError>
    ensures { OnOk result (string_bytes out.new ≡ string_bytes out.old ++ spec.signed_text negative combination number) }
{
    if combination == 31 {
        return out.push_str("NaN");
    }
    out.push_str(sign(negative))?;
    put_unsigned(out, combination, number)
}

// Appends the text of the number that the bytes are.
#[tactic(auto, unfolding(crate::specs::Decimals::decimal_text))]
fn put_decimal(out: &mut String, bytes: &[u8; 16]) -> Result<(), AllocError>
    ensures { OnOk result (string_bytes out.new ≡ string_bytes out.old ++ spec.decimal_text bytes.now) }
{
    let number = u128::from_le_bytes(*bytes);
    put_signed(out, number >= 1 << 127, (number >> 122) % 32, number)
}

/// The text of the number whose sixteen bytes these are, the low byte first: `12.50`, `-0`, `1.5E+300`, `Infinity`, `-Infinity`, `NaN`. All digits of its coefficient
/// are printed: plainly where its exponent is at most 0 and at most five zeros follow the point, and else with one digit in front of the point and the exponent.
///
/// Bytes that are not canonical have the text of their value: a coefficient of more than 34 digits is 0, and every NaN is `NaN`.
///
/// Source: the BSON specification's page on Decimal128, "To String Representation"; IEEE 754-2008, section 3.5.2.
///
/// # Errors
///
/// Memory ran out.
pub fn decimal_text(alloc: Global, bytes: &[u8; 16]) -> Result<String, AllocError>
    ensures { IfOk result (λ s. string_bytes s ≡ spec.decimal_text bytes.now) }
{
    let mut out = String::new(alloc);
    put_decimal(&mut out, bytes)?;
    Ok(out)
}
