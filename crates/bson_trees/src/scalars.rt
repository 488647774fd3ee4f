// Extended values without values in them, and texts at keys.
ghost use Rattle.std.specs.Prelude.{◌≡◌, string_bytes, true, IfOk};
ghost use Rattle.bson_datum.specs.MarkedView.{marked};
ghost use Rattle.bson_values.specs.Refusal.{under};
ghost use Rattle.bson_laws.specs.Wrapped.{text_at};
ghost use Rattle.bson_met.specs.Gives.{Reaches};
ghost use Rattle.bson_met.specs.OpenedView.{extended_view};
ghost use Rattle.bson_met.specs.PieceView.{str_piece};
ghost use Rattle.bson_trees.specs.Trees.{scalar_at, is_scalar};

use bson_datum::Datum;
use bson_met::{Extended, Reading, Step};
use bson_texts::own_text;
use bson_wrapped::data;
use std::alloc::{AllocError, Global};

/// The text of an element, seen from its document.
pub(crate) fn text_under(alloc: Global, step: &Step<'_>) -> Reading<String>
    ensures exact { Reaches string_bytes result (under (str_piece step.now.key).bytes (text_at step.now.value)) }
{
    match own_text(alloc, &step.value) {
        Ok(text) => Ok(text),
        Err(stop) => Err(stop.under_key(step.key.text)),
    }
}

/// An extended value that has no scope. The options of a regular expression are sorted.
pub(crate) fn extended_scalar<'de>(
    alloc: Global,
    value: Extended<'_>,
) -> Result<Datum<'de>, AllocError>
    requires scalar { is_scalar (extended_view value) ≡ true }
    ensures exact { IfOk result (λ d. marked d ≡ scalar_at (extended_view value.entry)) }
{
    match value {
        Extended::Binary(subtype, bytes) => data::binary(alloc, subtype, bytes.bytes),
        Extended::Undefined => data::undefined(alloc),
        Extended::ObjectId(id) => data::object_id(alloc, id.bytes),
        Extended::DateTime(time) => data::date_time(alloc, time),
        Extended::RegularExpression(pattern, options) => {
            let pattern = pattern.to_string(alloc)?;
            let options = options.to_string(alloc)?;
            data::regular_expression(alloc, pattern, options)
        }
        Extended::DbPointer(namespace, id) => {
            data::db_pointer(alloc, namespace.to_string(alloc)?, id)
        }
        Extended::JavaScriptCode(code) => data::code(alloc, code.to_string(alloc)?),
        Extended::Symbol(symbol) => data::symbol(alloc, symbol.to_string(alloc)?),
        Extended::JavaScriptCodeWithScope(..) => unreachable!(),
        Extended::Timestamp(time) => data::timestamp(alloc, time),
        Extended::Decimal128(bits) => data::decimal128(alloc, bits.bytes.to_vec(alloc)?),
        Extended::MaxKey => data::max_key(alloc),
        Extended::MinKey => data::min_key(alloc),
    }
}
