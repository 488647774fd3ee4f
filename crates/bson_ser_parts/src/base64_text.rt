// Whether a text is base64, found out in groups of four characters, without memory.
ghost use Rattle.std.specs.Prelude.{◌≡◌, ◌≤◌, length, is_some, option_map};
ghost use Rattle.bson_base.specs.Parsed.{bytes_of_base64};

use base64::engine::general_purpose::STANDARD;

/// Whether a text is standard base64 of some bytes, with padding.
///
/// Source: RFC 4648, section 4.
pub(crate) fn is_base64(text: &str) -> bool
    ensures { result ≡ is_some (bytes_of_base64 text.now) }
{
    let mut rest = text.as_bytes();
    'groups: while rest.len() > 4 {
        if group_length(&rest[..4]) != Some(3) {
            return false;
        }
        rest = &rest[4..];
    }
    group_length(rest).is_some()
}

// How many bytes a group of at most four characters stands for; `None` where it is no base64.
fn group_length(group: &[u8]) -> Option<usize>
    requires { length group.now ≤ 4 }
    ensures { option_map length (bytes_of_base64 group.now) ≡ result }
{
    let mut bytes = [0; 3];
    match STANDARD.decode_slice_unchecked(group, &mut bytes) {
        Ok(length) => Some(length),
        Err(_) => None,
    }
}
