// Tells the prover what holds of values in memory: their numbers and bytes are in the ranges of their kinds.
ghost use Rattle.std.specs.Prelude.{◌≡◌};
ghost use Rattle.bson_kinds.specs.Text.{AreBytes};
ghost use Rattle.bson_base.specs.BsonView.{binary_of, regex_of, pointer_of};
ghost use Rattle.bson_base.specs.Instant.{millis};
ghost use Rattle.bson_base.specs.Tree as trees;
ghost use Rattle.bson_json_laws.specs.Held.{IsHeld};

use bson_base::{Binary, DateTime, DbPointer, Decimal128, ObjectId, Regex, Timestamp};

fn known_bytes(bytes: &[u8])
    ensures { AreBytes bytes.now }
{}

pub(crate) fn known_int32(number: i32)
    ensures { IsHeld (trees.int32 number) }
{
    let _number = number;
}

pub(crate) fn known_int64(number: i64)
    ensures { IsHeld (trees.int64 number) }
{
    let _number = number;
}

pub(crate) fn known_date(time: DateTime)
    ensures { IsHeld (trees.date_time (millis time)) }
{
    known_int64(time.timestamp_millis());
}

pub(crate) fn known_timestamp(timestamp: Timestamp)
    ensures { IsHeld (trees.timestamp timestamp.time timestamp.increment) }
{
    let _timestamp = timestamp;
}

pub(crate) fn known_binary(binary: &Binary)
    ensures { IsHeld (binary_of binary.now) }
{
    let _subtype = binary.subtype.0;
    known_bytes(&binary.bytes);
}

pub(crate) fn known_id(id: ObjectId)
    ensures { IsHeld (trees.object_id id.0) }
{
    known_bytes(&id.0);
}

pub(crate) fn known_pointer(pointer: &DbPointer)
    ensures { IsHeld (pointer_of pointer.now) }
{
    known_id(pointer.id);
}

pub(crate) fn known_regex(regex: &Regex)
    ensures { IsHeld (regex_of regex.now) }
{
    let _options = regex.options();
}

pub(crate) fn known_decimal(number: Decimal128)
    ensures { IsHeld (trees.decimal128 number.0) }
{
    let _number = number;
}
