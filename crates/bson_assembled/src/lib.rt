//! What a value is as a kind and bytes, where each document in it is looked at by its first key, and when these are the bytes of the value itself.
#![tactic(auto)]

ghost use Rattle.std.specs.Prelude.{◌≡◌, ◌≤◌, length, Ok};
ghost use Rattle.bson_base.specs.Sound.{max_levels, max_bytes};
ghost use Rattle.bson_base.specs.Tree.{Tree, enc, depth};
ghost use Rattle.bson_laws.specs.Encodable.{IsEncodable};
ghost use Rattle.bson_laws.specs.Assembled.{raw_bytes, assembled};
ghost use Rattle.bson_assembled.specs.FreeKeys.{HasFreeKeys};

/// A value is assembled as its own kind and bytes where no key in it begins with `$` and there are bytes for it.
///
/// No key and no part of a regular expression holds a zero character, and no binary has more bytes than one of its subtype may (`IsEncodable`); it has at most 200
/// levels and 2147483647 bytes. The numbers of a kind, the texts and whether a key is repeated make no difference. The call does nothing.
pub fn law_assembled()
    ensures itself { (t : Tree) → HasFreeKeys t → IsEncodable t → depth t ≤ max_levels → length (enc t) ≤ max_bytes
        → assembled t ≡ Ok (raw_bytes t) }
{}
