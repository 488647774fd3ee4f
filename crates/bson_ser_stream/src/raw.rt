// Documents and arrays in their bytes.
ghost use Rattle.std.specs.Prelude.{◌≡◌, length, Ok};
ghost use Rattle.bson_rawdoc.specs.Envelope.{envelope};
ghost use Rattle.bson_laws.specs.Spell.{in_bytes};
ghost use Rattle.bson_ser_stream.specs.Halting.{Puts};

use bson_io::{Ledger, Out, Steps};
use bson_kinds::ElementType;
use bson_values::Cause;
use bson_writing::Halt;

/// Appends a document or an array as its bytes, with so many levels left.
pub(crate) fn put_raw<L: Ledger>(
    out: &mut Out,
    steps: &mut Steps<L>,
    kind: ElementType,
    bytes: &[u8],
    levels: u32,
) -> Result<ElementType, Halt>
    requires { envelope bytes.now ≡ Ok bytes.now }
    ensures { Puts kind (length bytes.now) (in_bytes kind bytes.now levels)
        out.old out.new steps.old steps.new result }
{
    if levels == 0 {
        return Err(Halt::caused(out.allocator(), Cause::TooDeep));
    }
    out.push_all(bytes, steps)?;
    Ok(kind)
}
