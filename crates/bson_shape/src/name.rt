// Which names are in a notation as they are, and which no newtype may have.
ghost use Rattle.std.specs.Prelude.{◌≡◌};
ghost use Rattle.std.specs.List.{list_all};
ghost use Rattle.bson_shape.specs.Notation as notation;
ghost use Rattle.bson_shape.specs.Makers as makers;

/// Whether the byte is an ASCII letter or `_`.
pub(crate) fn begins_bare(b: u8) -> bool
    ensures { result ≡ notation.begins_bare b }
{
    b.is_ascii_alphabetic() || b == b'_'
}

/// Whether the byte is an ASCII letter, an ASCII digit or `_`.
pub(crate) fn in_bare(b: u8) -> bool
    ensures { result ≡ notation.in_bare b }
{
    begins_bare(b) || b.is_ascii_digit()
}

/// Whether the name is bare: a letter or `_`, and then letters, digits and `_`.
pub(crate) fn is_bare(name: &str) -> bool
    ensures { result ≡ notation.bare name.now }
{
    match name.as_bytes() {
        [] => false,
        [first, rest @ ..] => begins_bare(*first) && are_in_bare(rest),
    }
}

fn are_in_bare(bytes: &[u8]) -> bool
    ensures { result ≡ list_all notation.in_bare bytes.now }
{
    bytes.iter().all(|b| in_bare(*b))
}

/// Whether the name is that of a newtype that carries a UUID or a mark through serde's data model.
pub(crate) fn is_reserved_newtype(name: &str) -> bool
    ensures { result ≡ makers.is_reserved_newtype name.now }
{
    matches!(
        name,
        "$__bson_private_uuid" | "$__bson_private_human_readable" | "$__bson_private_utf8_lossy"
    )
}
