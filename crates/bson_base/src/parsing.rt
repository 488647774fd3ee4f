// Texts of numbers and of bytes, read without memory.
ghost use Rattle.std.specs.Prelude.{◌≡◌, ◌↔◌, ◌%◌, length, IsTrue};
ghost use Rattle.std.specs.List.{AllPass};
ghost use Rattle.hex.specs.Hex.{is_hex_digit};
ghost use Rattle.bson_base.specs.Parsed.{integer_of_text, subtype_of_text};

use hex::FromHex;

/// The integer that a text stands for: an optional `+` or `-` and one ASCII digit or more, in the range of an `i64`; `None` for any other text.
pub fn integer_of_text(text: &str) -> Option<i64>
    ensures { result ≡ integer_of_text text.now }
{
    text.parse().ok()
}

/// The subtype that a text of hexadecimal digits stands for, in either case: its first byte, where there are digits in pairs and nothing else;
/// `None` for any other text.
pub fn subtype_of_text(text: &str) -> Option<u8>
    ensures { result ≡ subtype_of_text text.now }
{
    let digits = text.as_bytes();
    if digits.len() < 2 || !are_digit_pairs(digits) {
        return None;
    }
    match <[u8; 1] as FromHex>::from_hex(&digits[..2]) {
        Ok(first) => Some(first[0]),
        Err(_) => None,
    }
}

// Whether the text is hexadecimal digits in pairs, in either case.
fn are_digit_pairs(text: &[u8]) -> bool
    ensures { IsTrue result ↔ ((length text.now % 2 ≡ 0) × AllPass is_hex_digit text.now) }
{
    text.len() % 2 == 0 && text.iter().all(|c| c.is_ascii_hexdigit())
}
