// Texts that are owned.
ghost use Rattle.std.specs.Prelude.{◌≡◌, IfOk, string_bytes};
ghost use Rattle.bson_values.specs.TextView.{text_view};

use bson_values::Text;
use std::alloc::{AllocError, Global};

/// The text, owned.
///
/// # Errors
///
/// Memory ran out.
pub fn string_of(alloc: Global, text: Text<'_>) -> Result<String, AllocError>
    ensures text { IfOk result (λ s. string_bytes s ≡ text_view text.entry) }
{
    match text {
        Text::Borrowed(text) => String::from_str(alloc, text),
        Text::Owned(text) => Ok(text),
    }
}
