// The bytes in front of a value.
ghost use Rattle.std.specs.Prelude.{◌≡◌, ◌++◌, ◌∷◌, [], OnOk};
ghost use Rattle.bson_kinds.specs.Kind.{byte};

use bson_kinds::ElementType;
use std::alloc::AllocError;

// Appends the front of an element: its kind, and its key closed by a zero.
pub(crate) fn put_front(out: &mut Vec<u8>, kind: ElementType, key: &[u8]) -> Result<(), AllocError>
    ensures { OnOk result (out.new.items ≡ out.old.items ++ (byte kind ∷ (key.now ++ 0 ∷ []))) }
{
    out.push(kind.byte())?;
    out.extend_from_slice(key)?;
    out.push(0)?;
    Ok(())
}
