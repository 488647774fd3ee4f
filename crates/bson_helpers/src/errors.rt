// What is refused for a cause, without a path.
ghost use Rattle.std.specs.Prelude.{◌≡◌};
ghost use Rattle.bson_values.specs.ErrorView.{cause_view, read_failure, write_failure};
ghost use Rattle.bson_helpers.specs.Helpers.{no_reading, no_writing};

use bson_values::{Cause, de, ser};

pub(crate) fn unreadable(cause: Cause) -> de::Error
    ensures { read_failure result ≡ no_reading (cause_view cause) }
{
    de::Error::DeserializationError { cause }
}

pub(crate) fn unwritable(cause: Cause) -> ser::Error
    ensures { write_failure result ≡ no_writing (cause_view cause) }
{
    ser::Error::SerializationError { cause }
}
