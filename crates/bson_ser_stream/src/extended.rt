// Values of kinds that serde's data model lacks.
ghost use Rattle.std.specs.Prelude.{◌+◌, length, Ok};
ghost use Rattle.bson_base.specs.Instant.{millis};
ghost use Rattle.bson_base.specs.Tree.{object_id, date_time, regular_expression, db_pointer, javascript_code, symbol, timestamp, decimal128};
ghost use Rattle.bson_laws.specs.Written.{spell_whole, written_size};
ghost use Rattle.bson_ser_stream.specs.Halting.{Puts};

use crate::scalar::{push_text, put_closed};
use crate::sorting::push_sorted;
use bson_base::{DateTime, Decimal128, ObjectId, Timestamp, has_zero};
use bson_io::{Ledger, MOST, Out, Steps};
use bson_kinds::ElementType;
use bson_writing::{Halt, zero_in};

/// Appends an ObjectId, by its twelve bytes.
pub(crate) fn put_object_id<L: Ledger>(
    out: &mut Out,
    steps: &mut Steps<L>,
    id: ObjectId,
) -> Result<ElementType, Halt>
    ensures { Puts ElementType.ObjectId (length id.0) (Ok (object_id id.0))
        out.old out.new steps.old steps.new result }
{
    out.push_all(&id.0, steps)?;
    Ok(ElementType::ObjectId)
}

/// Appends a time, by its milliseconds in eight bytes.
#[tactic(auto, unfolding(bson_base::specs::Tree::le64))]
pub(crate) fn put_date_time<L: Ledger>(
    out: &mut Out,
    steps: &mut Steps<L>,
    time: DateTime,
) -> Result<ElementType, Halt>
    ensures { Puts ElementType.DateTime 8 (Ok (date_time (millis time)))
        out.old out.new steps.old steps.new result }
{
    out.push_all(&time.timestamp_millis().to_le_bytes(), steps)?;
    Ok(ElementType::DateTime)
}

/// Appends a timestamp: its increment and its time, in four bytes each.
#[tactic(auto, unfolding(bson_base::specs::Tree::le32))]
pub(crate) fn put_timestamp<L: Ledger>(
    out: &mut Out,
    steps: &mut Steps<L>,
    stamp: Timestamp,
) -> Result<ElementType, Halt>
    ensures { Puts ElementType.Timestamp 8 (Ok (timestamp stamp.time stamp.increment))
        out.old out.new steps.old steps.new result }
{
    out.push_all(&stamp.increment.to_le_bytes(), steps)?;
    out.push_all(&stamp.time.to_le_bytes(), steps)?;
    Ok(ElementType::Timestamp)
}

/// Appends a decimal number, by its sixteen bytes.
pub(crate) fn put_decimal128<L: Ledger>(
    out: &mut Out,
    steps: &mut Steps<L>,
    number: Decimal128,
) -> Result<ElementType, Halt>
    ensures { Puts ElementType.Decimal128 (length number.0) (Ok (decimal128 number.0))
        out.old out.new steps.old steps.new result }
{
    out.push_all(&number.0, steps)?;
    Ok(ElementType::Decimal128)
}

/// Appends code. One that has more bytes than a document may is refused before anything is written.
pub(crate) fn put_code<L: Ledger>(
    out: &mut Out,
    steps: &mut Steps<L>,
    code: &str,
) -> Result<ElementType, Halt>
    ensures { Puts ElementType.JavaScriptCode (length code.now + 5) (Ok (javascript_code code.now))
        out.old out.new steps.old steps.new result }
{
    put_closed(out, steps, code)?;
    Ok(ElementType::JavaScriptCode)
}

/// Appends a symbol. One that has more bytes than a document may is refused before anything is written.
pub(crate) fn put_symbol<L: Ledger>(
    out: &mut Out,
    steps: &mut Steps<L>,
    text: &str,
) -> Result<ElementType, Halt>
    ensures { Puts ElementType.Symbol (length text.now + 5) (Ok (symbol text.now))
        out.old out.new steps.old steps.new result }
{
    put_closed(out, steps, text)?;
    Ok(ElementType::Symbol)
}

/// Appends a reference to a document: its namespace, as a text, and its id. One that has more bytes than a document may is
/// refused before anything is written.
pub(crate) fn put_db_pointer<L: Ledger>(
    out: &mut Out,
    steps: &mut Steps<L>,
    namespace: &str,
    id: ObjectId,
) -> Result<ElementType, Halt>
    ensures { Puts ElementType.DbPointer (length namespace.now + 5 + length id.0)
        (Ok (db_pointer namespace.now id.0)) out.old out.new steps.old steps.new result }
{
    if namespace.len() + 5 + id.0.len() > MOST {
        return Err(Halt::TooLong);
    }
    push_text(out, steps, namespace)?;
    out.push_all(&id.0, steps)?;
    Ok(ElementType::DbPointer)
}

/// Appends a regular expression: its pattern and its options, closed by a zero each, with the characters of the options in order.
/// One with a zero in it, or that has more bytes than a document may, is refused before anything is written.
pub(crate) fn put_regular_expression<L: Ledger>(
    out: &mut Out,
    steps: &mut Steps<L>,
    pattern: &str,
    options: &str,
) -> Result<ElementType, Halt>
    ensures { let expected = spell_whole (regular_expression pattern.now options.now) in
        Puts ElementType.RegularExpression (written_size expected) expected out.old out.new steps.old steps.new result }
{
    if has_zero(pattern) {
        return Err(zero_in(out.allocator(), pattern));
    }
    if has_zero(options) {
        return Err(zero_in(out.allocator(), options));
    }
    if pattern.len() + options.len() > MOST - 2 {
        return Err(Halt::TooLong);
    }
    out.push_all(pattern.as_bytes(), steps)?;
    out.push(0, steps)?;
    push_sorted(out, steps, options)?;
    out.push(0, steps)?;
    Ok(ElementType::RegularExpression)
}
