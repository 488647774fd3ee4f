// The leaves that take a value of any kind.
ghost use Rattle.std.specs.Prelude.{◌≡◌, IsTrue};
ghost use Rattle.bson_itself.specs.Itself.{IsTakenKey, IsTakenSubtype};

use bson_kinds::begins_with_dollar;
use bson_values::Wrapper;

/// A leaf that takes a value of any kind.
#[derive(Clone, Copy, Debug, PartialEq, Eq)]
pub enum UntypedLeaf {
    /// `any`: a value of serde's data model, which lacks the extended kinds.
    Any,
    /// `bson`: a value of BSON. A document with a wrapper key stands for another value.
    Bson,
}

// Whether a key is read at a leaf as that key.
#[inline(always)]
pub(crate) fn is_taken_key(leaf: UntypedLeaf, key: &str) -> bool
    ensures { IsTrue result → IsTakenKey leaf key.now }
{
    match leaf {
        UntypedLeaf::Any => true,
        UntypedLeaf::Bson => !begins_with_dollar(key) || Wrapper::from_key(key).is_none(),
    }
}

// Whether a binary of a subtype is read at a leaf as one.
#[inline(always)]
pub(crate) fn is_taken_subtype(leaf: UntypedLeaf, subtype: u8) -> bool
    ensures { IsTrue result → IsTakenSubtype leaf subtype }
{
    match leaf {
        UntypedLeaf::Any => subtype == 0,
        UntypedLeaf::Bson => true,
    }
}
