ghost use Rattle.std.specs.Prelude.{◌≡◌, Some, IfOk, string_bytes};
ghost use Rattle.uuid.specs.Text.{parsed, hyphenated_text, lower};
ghost use Rattle.bson_base.specs.Parsed.{Parses};

use std::alloc::{AllocError, Global};

/// A universally unique identifier: 16 bytes, in the order in which its text has them.
///
/// Source: RFC 9562.
#[derive(Clone, Copy, Debug, PartialEq, Eq)]
pub struct Uuid(pub [u8; 16]);

/// A text is not that of a UUID.
#[derive(Clone, Copy, Debug, PartialEq, Eq)]
pub struct NotUuid;

impl Uuid {
    /// The UUID that a text stands for: 32 hexadecimal digits; or those with hyphens as 8-4-4-4-12, also in braces or after `urn:uuid:`; letters
    /// in either case. It takes no memory.
    ///
    /// Source: RFC 9562, section 4; the other forms are those of the crate `uuid`.
    ///
    /// # Errors
    ///
    /// `NotUuid` where the text is anything else.
    pub fn parse_str(text: &str) -> Result<Uuid, NotUuid>
        ensures value { Parses (λ id. id.0) result (parsed text.now) }
    {
        match uuid::Uuid::try_parse(text) {
            Ok(id) => Ok(Uuid(id.into_bytes())),
            Err(_) => Err(NotUuid),
        }
    }

    /// Its text in lower case with hyphens.
    ///
    /// # Errors
    ///
    /// Out of memory.
    pub fn to_hyphenated(&self, alloc: Global) -> Result<String, AllocError>
        ensures value { IfOk result (λ text. string_bytes text ≡ hyphenated_text lower self.now.0) }
        ensures parsed { IfOk result (λ text. parsed (string_bytes text) ≡ Some self.now.0) }
    {
        let mut buffer = uuid::Uuid::encode_buffer();
        let text = uuid::Uuid::from_bytes(self.0)
            .hyphenated()
            .encode_lower(&mut buffer);
        String::from_str(alloc, text)
    }
}
