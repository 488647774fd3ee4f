// What is known of a value of a type.
ghost use Rattle.std.specs.Prelude.{◌≡◌, true};
ghost use Rattle.std.specs.Str.{is_utf8};
ghost use Rattle.bson_base.specs.Sound.{HasBytes};

use bson_rawdoc::reading::known_bytes;

/// A text is UTF-8.
pub fn known_text(text: &str)
    ensures { is_utf8 text.now ≡ true }
{}

/// A double has eight bytes.
pub fn known_eight(bits: &[u8; 8])
    ensures { HasBytes 8 bits.now }
{
    known_bytes(bits);
}

/// An ObjectId has twelve bytes.
pub fn known_twelve(id: &[u8; 12])
    ensures { HasBytes 12 id.now }
{
    known_bytes(id);
}

/// A UUID and a decimal number have sixteen bytes.
pub fn known_sixteen(bits: &[u8; 16])
    ensures { HasBytes 16 bits.now }
{
    known_bytes(bits);
}
