// What is known of the parts of a value.
ghost use Rattle.std.specs.Prelude.{◌≡◌, true};
ghost use Rattle.std.specs.Str.{is_utf8};
ghost use Rattle.bson_base.specs.Sound.{HasBytes};

use bson_rawdoc::reading::known_bytes;

// A text is UTF-8.
pub(crate) fn known_text(text: &str)
    ensures { is_utf8 text.now ≡ true }
{}

// A double has eight bytes.
pub(crate) fn known_double(bits: &[u8; 8])
    ensures { HasBytes 8 bits.now }
{
    known_bytes(bits);
}
