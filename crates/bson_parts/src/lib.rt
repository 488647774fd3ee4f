//! A file of documents in parts.
#![tactic(auto)]

ghost use Rattle.std.specs.Prelude.{◌≡◌, ◌++◌, None, length};
ghost use Rattle.bson_kinds.specs.Text.{Bytes};
ghost use Rattle.bson_rawdoc.specs.Cut.{cut};
ghost use Rattle.bson_parts.specs.Parts.{behind, moved};

/// A file that begins with a part which can be cut into documents is cut into these, and then as what is behind the part is, with its places moved on.
///
/// It is premised that the first part is whole: one that breaks off inside a document may be whole with what is behind it. The second may be broken. The call does nothing.
pub fn law_cut_in_parts()
    ensures parts { (first second : Bytes) → (cut first).broken ≡ None → cut (first ++ second) ≡ behind (cut first) (moved (length first) (cut second)) }
{}
