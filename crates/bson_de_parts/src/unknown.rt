// Elements whose keys no field of a struct has.
ghost use Rattle.bson_laws.specs.Judged.{refused};
ghost use Rattle.bson_laws.specs.Slots as laws;
ghost use Rattle.bson_met.specs.Gives.{Reaches};
ghost use Rattle.bson_met.specs.PieceView.{str_piece};
ghost use Rattle.bson_slots.specs.FieldsRead.{unknown_of};
ghost use Rattle.bson_values.specs.Cause.{unknown_field};

use bson_met::{Reading, Step, refused};
use bson_texts::ignore;
use bson_values::Cause;
use std::alloc::Global;

/// An element whose key no field has: its value is dropped, or a closed struct is refused before the value is looked at.
#[inline(always)]
pub fn pass_unknown(alloc: Global, closed: bool, step: &Step<'_>) -> Reading<()>
    ensures exact { Reaches (λ u. u) result
        (laws.unknown (unknown_of closed) (str_piece step.now.key).bytes step.now.value) }
{
    let key = step.key.text;
    if closed {
        return deny(alloc, key);
    }
    match ignore(alloc, &step.value) {
        Ok(()) => Ok(()),
        Err(stop) => Err(stop.under_key(key)),
    }
}

/// A struct is refused for a key that none of its fields has.
#[cold]
#[inline(never)]
fn deny(alloc: Global, key: &str) -> Reading<()>
    ensures exact { Reaches (λ u. u) result (refused (unknown_field key.now)) }
{
    let cause = Cause::UnknownField(String::from_str(alloc, key)?);
    Err(refused(alloc, cause))
}
