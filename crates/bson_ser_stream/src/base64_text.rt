// Base64 texts, decoded into an output buffer in groups of four characters, without other memory than the buffer's.
ghost use Rattle.std.specs.Prelude.{◌≡◌, ◌+◌, ◌≤◌, length, IfOk};
ghost use Rattle.bson_base.specs.Parsed.{bytes_of_base64};
ghost use Rattle.bson_ser_stream.specs.Halting.{Grows};
ghost use Rattle.bson_ser_stream.specs.Decoding.{Decodes};

use base64::engine::general_purpose::STANDARD;
use bson_io::{Ledger, Out, Steps};
use std::alloc::AllocError;

/// Why a base64 text was not decoded into a buffer.
#[derive(Clone, Copy, Debug, PartialEq, Eq)]
pub(crate) enum Base64Fault {
    /// The text is not standard base64 with padding.
    NotBase64,
    /// Memory ran out.
    NoMemory,
}

impl From<AllocError> for Base64Fault {
    ghost use Rattle.bson_ser_stream.specs.declared.base64_text.Base64Fault.TheVariants.{NoMemory};

    ghost from_gives = { λ _ fault. fault ≡ NoMemory };

    fn from(_: AllocError) -> Base64Fault {
        Base64Fault::NoMemory
    }
}

/// Appends the bytes of a base64 text, at one step each. Where as many are spare it takes no memory. After an error some of them may be there.
///
/// Source: RFC 4648, section 4.
pub(crate) fn push_base64<L: Ledger>(
    out: &mut Out,
    steps: &mut Steps<L>,
    text: &str,
) -> Result<(), Base64Fault>
    ensures decoded { Decodes result (bytes_of_base64 text.now) out.old out.new steps.old steps.new }
    ensures grows { Grows out.old out.new steps.old steps.new }
{
    let mut rest = text.as_bytes();
    'groups: while rest.len() > 4 {
        if push_group(out, steps, &rest[..4])? != 3 {
            return Err(Base64Fault::NotBase64);
        }
        rest = &rest[4..];
    }
    push_group(out, steps, rest)?;
    Ok(())
}

// Appends the bytes of one group of at most four characters, and returns how many they are.
fn push_group<L: Ledger>(
    out: &mut Out,
    steps: &mut Steps<L>,
    group: &[u8],
) -> Result<usize, Base64Fault>
    requires { length group.now ≤ 4 }
    ensures decoded { Decodes result (bytes_of_base64 group.now) out.old out.new steps.old steps.new }
    ensures count { IfOk result (λ n. length out.new.bytes ≡ length out.old.bytes + n) }
    ensures grows { Grows out.old out.new steps.old steps.new }
{
    let mut bytes = [0; 3];
    let Ok(n) = STANDARD.decode_slice_unchecked(group, &mut bytes) else {
        return Err(Base64Fault::NotBase64);
    };
    out.push_all(&bytes[..n], steps)?;
    Ok(n)
}
