// Numbers are read.
ghost use Rattle.std.specs.Prelude.{◌≡◌, ◌<◌, ◌≤◌, ◌+◌, ◌^◌, ◌==◌, length, if◌then◌else◌, Some, None, IfSome};
ghost use Rattle.std.specs.Char.{digit_value};
ghost use Rattle.std.specs.Int.{IsInRange};
ghost use Rattle.std.specs.Str.Parse.{AllDigits};
ghost use Rattle.bson_decimals.specs.Reading as spec;

use core::dec2flt::Numeral;

const COEFFICIENTS: u128 = 10_000_000_000_000_000_000_000_000_000_000_000;

// The value of a digit.
#[tactic(auto, using(crate::proofs::Numbers::digit_is))]
fn digit(byte: u8) -> u128
    requires { IsInRange 48 57 byte }
    ensures is { result ≡ digit_value byte }
    ensures below { result ≤ 9 }
{
    (byte - b'0') as u128
}

// A digit behind those of a coefficient.
#[tactic(auto, unfolding(crate::specs::Reading::placed))]
fn placed(digit: u128, c: u128, zeros: u128) -> Option<(u128, u128)>
    requires digit { digit ≤ 9 }
    requires below { c < 10 ^ 34 }
    requires few { zeros < 2 ^ 65 }
    ensures exact { result ≡ spec.placed digit c zeros }
    ensures bounds { IfSome result (λ p. (p.0 < 10 ^ 34) × (p.1 ≤ zeros + 1)) }
{
    let next = c * 10 + digit;
    if next < COEFFICIENTS {
        Some((next, zeros))
    } else if digit == 0 {
        Some((c, zeros + 1))
    } else {
        None
    }
}

// Digits behind those of a coefficient, and how many zeros had no room.
fn taken(digits: &[u8], coefficient: u128, zeros: u128) -> Option<(u128, u128)>
    requires digits { AllDigits 10 digits.now }
    requires below { coefficient < 10 ^ 34 }
    requires few { zeros < 2 ^ 64 }
    ensures exact { result ≡ spec.taken digits.now coefficient zeros }
    ensures bounds { IfSome result (λ p. (p.0 < 10 ^ 34) × (p.1 ≤ zeros + length digits.now)) }
{
    let mut c = coefficient;
    let mut count = zeros;
    for d in digits {
        let next = placed(digit(*d), c, count)?;
        c = next.0;
        count = next.1;
    }
    Some((c, count))
}

// A power of ten.
#[tactic(auto, using(crate::proofs::Numbers::power_below, crate::proofs::Numbers::power_positive))]
fn power(zeros: u128) -> u128
    requires { zeros < 34 }
    ensures is { result ≡ 10 ^ zeros }
    ensures positive { 0 < result }
    ensures below { result < 10 ^ 34 }
{
    10u128.pow(zeros as u32)
}

// Zero, where the number is it.
fn nothing(c: u128) -> Option<u128>
    ensures exact { result ≡ (if c == 0 then Some 0 else None) }
    ensures below { IfSome result (λ m. m < 10 ^ 34) }
{
    if c == 0 { Some(0) } else { None }
}

// The number without so many zeros at its end, where those are few.
#[tactic(auto, unfolding(crate::specs::Reading::shrunk))]
fn shrunk_few(c: u128, zeros: u128) -> Option<u128>
    requires few { zeros < 34 }
    requires below { c < 10 ^ 34 }
    ensures exact { result ≡ spec.shrunk c zeros }
    ensures below { IfSome result (λ m. m < 10 ^ 34) }
{
    let power = power(zeros);
    if c % power == 0 {
        Some(c / power)
    } else {
        None
    }
}

// The number with so many more zeros at its end, where those are few.
#[tactic(auto, unfolding(crate::specs::Reading::grown))]
fn grown_few(c: u128, zeros: u128) -> Option<u128>
    requires few { zeros < 34 }
    requires below { c < 10 ^ 34 }
    ensures exact { result ≡ spec.grown c zeros }
    ensures below { IfSome result (λ m. m < 10 ^ 34) }
{
    let product = c.checked_mul(power(zeros))?;
    if product < COEFFICIENTS {
        Some(product)
    } else {
        None
    }
}

// The number without so many zeros at its end.
#[tactic(auto, using(crate::proofs::Numbers::shrunk_far))]
fn shrunk(c: u128, zeros: u128) -> Option<u128>
    requires { c < 10 ^ 34 }
    ensures exact { result ≡ spec.shrunk c zeros }
    ensures below { IfSome result (λ m. m < 10 ^ 34) }
{
    if zeros < 34 {
        shrunk_few(c, zeros)
    } else {
        nothing(c)
    }
}

// The number with so many more zeros at its end.
#[tactic(auto, using(crate::proofs::Numbers::grown_far))]
fn grown(c: u128, zeros: u128) -> Option<u128>
    requires { c < 10 ^ 34 }
    ensures exact { result ≡ spec.grown c zeros }
    ensures below { IfSome result (λ m. m < 10 ^ 34) }
{
    if zeros < 34 {
        grown_few(c, zeros)
    } else {
        nothing(c)
    }
}

// A coefficient and an exponent in their ranges.
#[tactic(auto, unfolding(crate::specs::Reading::fitted))]
fn fitted(c: u128, up: u128, down: u128) -> Option<(u128, u128)>
    requires { c < 10 ^ 34 }
    ensures exact { result ≡ spec.fitted c up down }
    ensures bounds { IfSome result (λ p. (p.0 < 10 ^ 34) × (p.1 ≤ 12287)) }
{
    if up < down {
        return Some((shrunk(c, down - up)?, 0));
    }
    if up - down <= 12287 {
        return Some((c, up - down));
    }
    Some((grown(c, up - down - 12287)?, 12287))
}

// All digits of a numeral as a coefficient, and how many zeros had no room.
#[tactic(auto, using(crate::proofs::Numbers::digits_front, crate::proofs::Numbers::digits_back))]
fn digits_of(numeral: &Numeral) -> Option<(u128, u128)>
    ensures exact { result ≡ spec.digits_of numeral.now }
    ensures bounds { IfSome result (λ p. (p.0 < 10 ^ 34) × (p.1 < 2 ^ 63 + length numeral.now.fraction)) }
{
    let whole = numeral.whole();
    let fraction = numeral.fraction();
    let (front, none) = taken(whole, 0, 0)?;
    taken(fraction, front, none)
}

// The size of the exponent, where it is not too large to matter.
fn scaled(c: u128, zeros: u128, numeral: &Numeral) -> Option<(u128, u128)>
    requires below { c < 10 ^ 34 }
    requires few { zeros < 2 ^ 63 + length numeral.now.fraction }
    ensures exact { result ≡ spec.scaled c zeros numeral.now }
    ensures bounds { IfSome result (λ p. (p.0 < 10 ^ 34) × (p.1 ≤ 12287)) }
{
    let power = numeral.saturated_exponent() as u128;
    let behind = numeral.fraction().len() as u128;
    if numeral.is_exponent_negative() {
        fitted(c, 6176 + zeros, behind + power)
    } else {
        fitted(c, 6176 + power + zeros, behind)
    }
}

// The coefficient and the exponent of a numeral.
fn number_in(numeral: &Numeral) -> Option<(u128, u128)>
    ensures exact { result ≡ spec.number_in numeral.now }
    ensures bounds { IfSome result (λ p. (p.0 < 10 ^ 34) × (p.1 ≤ 12287)) }
{
    let (c, zeros) = digits_of(numeral)?;
    scaled(c, zeros, numeral)
}

// The bytes of a coefficient and an exponent.
#[tactic(auto, unfolding(crate::specs::Reading::bytes_of))]
fn bytes_of(negative: bool, c: u128, exponent: u128) -> [u8; 16]
    requires below { c < 10 ^ 34 }
    requires near { exponent ≤ 12287 }
    ensures { result ≡ spec.bytes_of negative (c, exponent) }
{
    let sign = if negative { 1u128 << 127 } else { 0 };
    (sign + exponent * (1 << 113) + c).to_le_bytes()
}

// A whole text that is a numeral.
#[tactic(auto, unfolding(crate::specs::Reading::finite_of))]
fn finite_of(negative: bool, text: &[u8]) -> Option<[u8; 16]>
    ensures { result ≡ spec.finite_of negative text.now }
{
    let numeral = Numeral::scan(text);
    if numeral.has_digits() && numeral.len() == text.len() {
        let (c, exponent) = number_in(&numeral)?;
        Some(bytes_of(negative, c, exponent))
    } else {
        None
    }
}

// The text is the word, in either case.
#[tactic(auto, unfolding(crate::specs::Reading::is_word))]
fn is_word(text: &[u8], word: &[u8]) -> bool
    ensures { result ≡ spec.is_word text.now word.now }
{
    text.eq_ignore_ascii_case(word)
}

// The bytes of infinity.
fn infinity(negative: bool) -> [u8; 16]
    ensures { result ≡ spec.infinity_bytes negative }
{
    [
        0,
        0,
        0,
        0,
        0,
        0,
        0,
        0,
        0,
        0,
        0,
        0,
        0,
        0,
        0,
        if negative { 0xf8 } else { 0x78 },
    ]
}

// A text without its sign.
#[tactic(auto, unfolding(crate::specs::Reading::unsigned_of))]
fn unsigned_of(negative: bool, text: &[u8]) -> Option<[u8; 16]>
    ensures { result ≡ spec.unsigned_of negative text.now }
{
    if is_word(text, b"nan") {
        Some([0, 0, 0, 0, 0, 0, 0, 0, 0, 0, 0, 0, 0, 0, 0, 0x7c])
    } else if is_word(text, b"inf") || is_word(text, b"infinity") {
        Some(infinity(negative))
    } else {
        finite_of(negative, text)
    }
}

/// The sixteen bytes, the low byte first, of the number that a whole text stands for: an optional `+` or `-`, and then digits with an optional point and an optional
/// exponent, or `Infinity`, `Inf` or `NaN` in either case. A numeral is read with its own exponent where that is in range, and else with the nearest one that is.
///
/// `None` where the text is anything else, and where no number has exactly its value: nothing is rounded, and what is too large or too small is refused. A zero of any
/// exponent is read. It takes no memory.
///
/// Source: the BSON specification's page on Decimal128, "From String Representation".
#[tactic(auto, unfolding(crate::specs::Reading::decimal_of_text))]
pub fn decimal_of_text(text: &str) -> Option<[u8; 16]>
    ensures { result ≡ spec.decimal_of_text text.now }
{
    let bytes = text.as_bytes();
    match bytes {
        [b'-', rest @ ..] => unsigned_of(true, rest),
        [b'+', rest @ ..] => unsigned_of(false, rest),
        _ => unsigned_of(false, bytes),
    }
}
