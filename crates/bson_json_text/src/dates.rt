// Dates as tokens.
ghost use Rattle.std.specs.Prelude.{OnOk};
ghost use Rattle.bson_base.specs.Instant.{millis};
ghost use Rattle.bson_base.specs.Tree.{date_time};
ghost use Rattle.bson_json_laws.specs.JsonOf.{millis_json};
ghost use Rattle.bson_json_laws.specs.declared.form.JsonForm.TheVariants.{Relaxed};
ghost use Rattle.bson_json_text.specs.Puts.{Appends, Puts};

use crate::leaves::{close, open, put_integer, put_text_at};
use bson_base::{DateError, DateTime};
use bson_json_laws::JsonForm;
use json::Writer;
use std::alloc::{AllocError, Global};

// Milliseconds.
#[tactic(auto, using(crate::proofs::Nested::one_closed))]
fn put_millis(writer: &mut Writer, milliseconds: i64) -> Result<(), AllocError>
    ensures { OnOk result (Appends (millis_json milliseconds) writer.old writer.new) }
{
    open(writer, "$date")?;
    put_integer(writer, JsonForm::Canonical, "$numberLong", milliseconds)?;
    close(writer)
}

// The text of a date, and milliseconds before 1970 and after 9999.
#[tactic(auto, using(crate::proofs::PuttingDates::early_date, crate::proofs::PuttingDates::late_date, crate::proofs::PuttingDates::date_string))]
fn put_relaxed_date(writer: &mut Writer, alloc: Global, time: DateTime) -> Result<(), AllocError>
    ensures { OnOk result (Puts Relaxed (date_time (millis time)) writer.old writer.new) }
{
    let milliseconds = time.timestamp_millis();
    if milliseconds < 0 {
        return put_millis(writer, milliseconds);
    }
    match time.try_to_rfc3339_string(alloc) {
        Ok(text) => put_text_at(writer, "$date", &text),
        Err(DateError::YearOutOfRange) => put_millis(writer, milliseconds),
        Err(DateError::NoMemory) => Err(AllocError),
    }
}

// A date.
#[tactic(auto, using(crate::proofs::Putting::puts))]
pub(crate) fn put_date(
    writer: &mut Writer,
    alloc: Global,
    form: JsonForm,
    time: DateTime,
) -> Result<(), AllocError>
    ensures { OnOk result (Puts form (date_time (millis time)) writer.old writer.new) }
{
    match form {
        JsonForm::Canonical => put_millis(writer, time.timestamp_millis()),
        JsonForm::Relaxed => put_relaxed_date(writer, alloc, time),
    }
}
