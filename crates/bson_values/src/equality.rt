// Equality of texts, byte strings and paths.
ghost use Rattle.std.specs.Prelude.{◌≡◌, ◌↔◌, IsTrue};
ghost use Rattle.std.specs.Str.{bytes_eq};
ghost use Rattle.bson_values.specs.ByteStrView.{bytes_view};
ghost use Rattle.bson_values.specs.PathView.{path_view, segment_view};
ghost use Rattle.bson_values.specs.Same.{same_segment, same_path};
ghost use Rattle.bson_values.specs.TextView.{text_view};

use crate::{ByteStr, Path, Segment, Text};

/// Two texts are equal exactly where their contents are, whoever owns them.
impl PartialEq for Text<'_> {
    ghost use Rattle.std.specs.Str.{bytes_eq};
    ghost use Rattle.bson_values.specs.TextView.{text_view};
    ghost use Rattle.bson_values.specs.Prover.Decided.{text_laws};

    ghost eq = { λ a b. bytes_eq (text_view a) (text_view b) };

    ghost laws = { text_laws };

    fn eq(&self, other: &Self) -> bool
        ensures value { result ≡ bytes_eq (text_view self.now) (text_view other.now) }
        ensures equal { IsTrue result ↔ (text_view self.now ≡ text_view other.now) }
    {
        self.as_str() == other.as_str()
    }
}

/// Two byte strings are equal exactly where their contents are, whoever owns them.
impl PartialEq for ByteStr<'_> {
    ghost use Rattle.std.specs.Str.{bytes_eq};
    ghost use Rattle.bson_values.specs.ByteStrView.{bytes_view};
    ghost use Rattle.bson_values.specs.Prover.Decided.{byte_str_laws};

    ghost eq = { λ a b. bytes_eq (bytes_view a) (bytes_view b) };

    ghost laws = { byte_str_laws };

    fn eq(&self, other: &Self) -> bool
        ensures value { result ≡ bytes_eq (bytes_view self.now) (bytes_view other.now) }
        ensures equal { IsTrue result ↔ (bytes_view self.now ≡ bytes_view other.now) }
    {
        self.as_bytes() == other.as_bytes()
    }
}

/// Two segments are equal exactly where both are one key or one index.
impl PartialEq for Segment {
    ghost use Rattle.bson_values.specs.PathView.{segment_view};
    ghost use Rattle.bson_values.specs.Same.{same_segment};
    ghost use Rattle.bson_values.specs.Prover.Decided.{segment_laws};

    ghost eq = { λ a b. same_segment (segment_view a) (segment_view b) };

    ghost laws = { segment_laws };

    fn eq(&self, other: &Self) -> bool
        ensures value { result ≡ same_segment (segment_view self.now) (segment_view other.now) }
        ensures equal { IsTrue result ↔ (segment_view self.now ≡ segment_view other.now) }
    {
        match (self, other) {
            (Segment::Key(key), Segment::Key(other)) => key == other,
            (Segment::Index(index), Segment::Index(other)) => index == other,
            _ => false,
        }
    }
}

/// Two paths are equal exactly where their segments are, in order.
impl PartialEq for Path {
    ghost use Rattle.bson_values.specs.PathView.{path_view};
    ghost use Rattle.bson_values.specs.Same.{same_path};
    ghost use Rattle.bson_values.specs.Prover.Decided.{path_laws};

    ghost eq = { λ a b. same_path (path_view a) (path_view b) };

    ghost laws = { path_laws };

    fn eq(&self, other: &Self) -> bool
        ensures value { result ≡ same_path (path_view self.now) (path_view other.now) }
        ensures equal { IsTrue result ↔ (path_view self.now ≡ path_view other.now) }
    {
        self.segments() == other.segments()
    }
}
