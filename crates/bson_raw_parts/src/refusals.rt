ghost use Rattle.std.specs.Prelude.{◌≡◌};
ghost use Rattle.bson_values.specs.Cause.{bad_body};
ghost use Rattle.bson_values.specs.ErrorView.{cause_view, read_failure};
ghost use Rattle.bson_values.specs.Refusal.{unreadable, bare};

use bson_values::de::Error;
use bson_values::{Cause, Wrapper};

/// A value is refused for this cause; no path is said.
#[cold]
#[inline(never)]
pub fn refused(cause: Cause) -> Error
    ensures { read_failure result ≡ bare (unreadable (cause_view cause)) }
{
    Error::DeserializationError { cause }
}

/// The value of this first key has not the form.
#[cold]
#[inline(never)]
pub fn bad_body(wrapper: Wrapper) -> Error
    ensures { read_failure result ≡ bare (unreadable (bad_body wrapper)) }
{
    refused(Cause::BadBody(wrapper))
}
