ghost use Rattle.std.specs.Prelude.{◌≡◌};
ghost use Rattle.bson_kinds.specs.Text as texts;

/// Whether the first character of a text is `$`, as that of each reserved name and of each wrapper key is.
#[inline(always)]
pub fn begins_with_dollar(text: &str) -> bool
    ensures { result ≡ texts.begins_with_dollar text.now }
{
    let bytes = text.as_bytes();
    if bytes.is_empty() {
        return false;
    }
    bytes[0] == b'$'
}
