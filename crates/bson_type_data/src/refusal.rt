ghost use Rattle.std.specs.Prelude.{◌≡◌};
ghost use Rattle.bson_values.specs.ErrorView.{read_failure};
ghost use Rattle.bson_type_data.specs.Answers.{not_fitting};

use bson_datum::Datum;
use bson_values::{Cause, de};

/// The error of a datum that no value of a type has. It takes no memory.
pub fn not_fitting() -> de::Error
    ensures failure { read_failure result ≡ not_fitting }
{
    de::Error::DeserializationError {
        cause: Cause::NotFitting,
    }
}

/// The error of this datum, which no value of a type has and which is dropped. It takes no memory.
pub fn refuse(datum: Datum<'_>) -> de::Error
    ensures failure { read_failure result ≡ not_fitting }
{
    drop(datum);
    not_fitting()
}
