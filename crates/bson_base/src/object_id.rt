ghost use Rattle.std.specs.Prelude.{◌≡◌, ◌↔◌, length, IfOk, IsOk, string_bytes};
ghost use Rattle.std.specs.List.{AllPass};
ghost use Rattle.hex.specs.Hex.{is_hex_digit};
ghost use Rattle.bson_base.specs.Made.{digits};
ghost use Rattle.bson_base.specs.Parsed.{Parses, bytes_of_digits};

use crate::texts::digits;
use hex::FromHex;
use std::alloc::{AllocError, Global};

/// Twelve bytes that name a document.
///
/// Source: bsonspec.org, version 1.1, `ObjectId`.
#[derive(Clone, Copy, Debug, PartialEq, Eq)]
pub struct ObjectId(pub [u8; 12]);

/// A text is not 24 hexadecimal digits.
#[derive(Clone, Copy, Debug, PartialEq, Eq)]
pub struct NotHex;

impl ObjectId {
    /// The ObjectId that 24 hexadecimal digits stand for, in either case. It takes no memory.
    ///
    /// # Errors
    ///
    /// `NotHex` where the text is anything else.
    #[tactic(auto, unfolding(crate::specs::Parsed::bytes_of_digits))]
    pub fn parse_str(text: &str) -> Result<ObjectId, NotHex>
        ensures value { Parses (λ id. id.0) result (bytes_of_digits 12 text.now) }
        ensures taken { IsOk result ↔ ((length text.now ≡ 24) × AllPass is_hex_digit text.now) }
    {
        match <[u8; 12] as FromHex>::from_hex(text) {
            Ok(bytes) => Ok(ObjectId(bytes)),
            Err(_) => Err(NotHex),
        }
    }

    /// Its 24 hexadecimal digits, in lower case.
    ///
    /// # Errors
    ///
    /// Out of memory.
    pub fn to_hex(&self, alloc: Global) -> Result<String, AllocError>
        ensures digits { IfOk result (λ text. string_bytes text ≡ digits self.now.0) }
    {
        digits(alloc, &self.0)
    }
}
