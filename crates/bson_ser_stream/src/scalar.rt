// Values without other values in them.
ghost use Rattle.std.specs.Prelude.{◌≤◌, ◌+◌, ◌++◌, length, encode_utf8, pos, IsOk, OnOk, Ok};
ghost use Rattle.bson_base.specs.Sound.{max_bytes};
ghost use Rattle.bson_base.specs.Tree.{boolean, double, string, int32, int64, closed_text};
ghost use Rattle.bson_io.specs.Output.{Appended};
ghost use Rattle.bson_laws.specs.Written.{spell_binary};
ghost use Rattle.bson_laws.specs.Spell.{spell_number};
ghost use Rattle.bson_writing.specs.Halting.{Gives};
ghost use Rattle.bson_ser_stream.specs.Halting.{Puts, Grows};

use crate::binary::put_binary;
use bson_base::{BinarySubtype, Double};
use bson_io::{Ledger, MOST, Out, Steps};
use bson_kinds::ElementType;
use bson_values::ser::Fault;
use bson_writing::Halt;
use std::alloc::AllocError;

// The subtype of bytes without a further meaning.
const GENERIC: u8 = 0;

/// Appends a boolean: the byte 1 where it is true, else 0.
pub(crate) fn put_bool<L: Ledger>(
    out: &mut Out,
    steps: &mut Steps<L>,
    b: bool,
) -> Result<ElementType, Halt>
    ensures { Puts ElementType.Boolean 1 (Ok (boolean b))
        out.old out.new steps.old steps.new result }
{
    out.push(u8::from(b), steps)?;
    Ok(ElementType::Boolean)
}

/// Appends a number in four bytes.
#[tactic(auto, unfolding(bson_base::specs::Tree::le32))]
pub(crate) fn put_i32<L: Ledger>(
    out: &mut Out,
    steps: &mut Steps<L>,
    n: i32,
) -> Result<ElementType, Halt>
    ensures { Puts ElementType.Int32 4 (Ok (int32 n))
        out.old out.new steps.old steps.new result }
{
    out.push_all(&n.to_le_bytes(), steps)?;
    Ok(ElementType::Int32)
}

/// Appends a number in eight bytes.
#[tactic(auto, unfolding(bson_base::specs::Tree::le64))]
pub(crate) fn put_i64<L: Ledger>(
    out: &mut Out,
    steps: &mut Steps<L>,
    number: i64,
) -> Result<ElementType, Halt>
    ensures { Puts ElementType.Int64 8 (Ok (int64 number))
        out.old out.new steps.old steps.new result }
{
    out.push_all(&number.to_le_bytes(), steps)?;
    Ok(ElementType::Int64)
}

/// Appends a number in eight bytes, where an Int64 holds it.
pub(crate) fn put_u64<L: Ledger>(
    out: &mut Out,
    steps: &mut Steps<L>,
    number: u64,
) -> Result<ElementType, Halt>
    ensures { Puts ElementType.Int64 8 (spell_number ElementType.Int64 (pos number))
        out.old out.new steps.old steps.new result }
{
    match i64::try_from(number) {
        Ok(signed) => put_i64(out, steps, signed),
        Err(_) => Err(Halt::here(out.allocator(), Fault::UnsignedIntegerExceededRange(number))),
    }
}

/// Appends a floating point number, by its eight bytes.
pub(crate) fn put_double<L: Ledger>(
    out: &mut Out,
    steps: &mut Steps<L>,
    number: Double,
) -> Result<ElementType, Halt>
    ensures { Puts ElementType.Double (length number.0) (Ok (double number.0))
        out.old out.new steps.old steps.new result }
{
    out.push_all(&number.0, steps)?;
    Ok(ElementType::Double)
}

/// Appends a text whose length an Int32 holds: the length with the zero, the text, the zero.
pub(crate) fn push_text<L: Ledger>(
    out: &mut Out,
    steps: &mut Steps<L>,
    text: &str,
) -> Result<(), AllocError>
    requires { length text.now + 5 ≤ max_bytes }
    ensures ok { OnOk result (Appended out.old out.new (closed_text text.now) steps.old steps.new) }
    ensures free { length text.now + 5 ≤ out.old.spare → IsOk result }
    ensures grows { Grows out.old out.new steps.old steps.new }
{
    let len = text.len() + 1;
    out.push_all(&(len as i32).to_le_bytes(), steps)?;
    out.push_all(text.as_bytes(), steps)?;
    out.push(0, steps)?;
    Ok(())
}

/// Appends a closed text. One that has more bytes than a document may is refused before anything is written.
#[inline(always)]
pub(crate) fn put_closed<L: Ledger>(
    out: &mut Out,
    steps: &mut Steps<L>,
    text: &str,
) -> Result<(), Halt>
    ensures bytes { Gives (length text.now + 5) out.old.spare (λ _. out.new.bytes) result
        (Ok (out.old.bytes ++ closed_text text.now)) }
    ensures fits { OnOk result (length text.now + 5 ≤ max_bytes) }
    ensures grows { Grows out.old out.new steps.old steps.new }
{
    if text.len() + 5 > MOST {
        return Err(Halt::TooLong);
    }
    push_text(out, steps, text)?;
    Ok(())
}

/// Appends a text. One that has more bytes than a document may is refused before anything is written.
#[inline(always)]
pub(crate) fn put_text<L: Ledger>(
    out: &mut Out,
    steps: &mut Steps<L>,
    text: &str,
) -> Result<ElementType, Halt>
    ensures { Puts ElementType.String (length text.now + 5) (Ok (string text.now))
        out.old out.new steps.old steps.new result }
{
    put_closed(out, steps, text)?;
    Ok(ElementType::String)
}

/// Appends a character, as the text of it alone.
pub(crate) fn put_char<L: Ledger>(
    out: &mut Out,
    steps: &mut Steps<L>,
    c: char,
) -> Result<ElementType, Halt>
    ensures { Puts ElementType.String (length (encode_utf8 c) + 5) (Ok (string (encode_utf8 c)))
        out.old out.new steps.old steps.new result }
{
    let mut buffer = [0; 4];
    put_text(out, steps, c.encode_utf8(&mut buffer))
}

/// Appends a byte string, as a binary of subtype 0. One that has more bytes than a binary may is refused before anything is
/// written.
pub(crate) fn put_bytes<L: Ledger>(
    out: &mut Out,
    steps: &mut Steps<L>,
    bytes: &[u8],
) -> Result<ElementType, Halt>
    ensures { Puts ElementType.Binary (length bytes.now + 5) (spell_binary 0 bytes.now)
        out.old out.new steps.old steps.new result }
{
    put_binary(out, steps, BinarySubtype(GENERIC), bytes)
}
