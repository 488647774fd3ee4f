// The number, the truth value or the character that a value is. Each looks at a datum that is dropped by the caller.
ghost use Rattle.bson_datum.specs.View.{view};
ghost use Rattle.bson_type_data.specs.Scalars.{taken_bool, taken_i8, taken_i16, taken_i32, taken_i64, taken_u8, taken_u16, taken_u32, taken_u64, taken_double, taken_char};
ghost use Rattle.bson_values.specs.Returned.{Reads};

use crate::refusal::not_fitting;
use bson_base::Double;
use bson_datum::Datum;
use bson_values::de;

/// The truth value that a datum is.
///
/// # Errors
///
/// `NotFitting` exactly where it is none.
pub fn bool_in(datum: &Datum<'_>) -> de::Result<bool>
    ensures { Reads (λ x. x) result (taken_bool (view datum.now)) }
{
    match datum {
        Datum::Bool(value) => Ok(*value),
        _ => Err(not_fitting()),
    }
}

/// The `i8` that a datum is.
///
/// # Errors
///
/// `NotFitting` exactly where it is none.
pub fn i8_in(datum: &Datum<'_>) -> de::Result<i8>
    ensures { Reads (λ x. x) result (taken_i8 (view datum.now)) }
{
    match datum {
        Datum::I8(value) => Ok(*value),
        _ => Err(not_fitting()),
    }
}

/// The `i16` that a datum is.
///
/// # Errors
///
/// `NotFitting` exactly where it is none.
pub fn i16_in(datum: &Datum<'_>) -> de::Result<i16>
    ensures { Reads (λ x. x) result (taken_i16 (view datum.now)) }
{
    match datum {
        Datum::I16(value) => Ok(*value),
        _ => Err(not_fitting()),
    }
}

/// The `i32` that a datum is.
///
/// # Errors
///
/// `NotFitting` exactly where it is none.
pub fn i32_in(datum: &Datum<'_>) -> de::Result<i32>
    ensures { Reads (λ x. x) result (taken_i32 (view datum.now)) }
{
    match datum {
        Datum::I32(value) => Ok(*value),
        _ => Err(not_fitting()),
    }
}

/// The `i64` that a datum is.
///
/// # Errors
///
/// `NotFitting` exactly where it is none.
pub fn i64_in(datum: &Datum<'_>) -> de::Result<i64>
    ensures { Reads (λ x. x) result (taken_i64 (view datum.now)) }
{
    match datum {
        Datum::I64(value) => Ok(*value),
        _ => Err(not_fitting()),
    }
}

/// The `u8` that a datum is.
///
/// # Errors
///
/// `NotFitting` exactly where it is none.
pub fn u8_in(datum: &Datum<'_>) -> de::Result<u8>
    ensures { Reads (λ x. x) result (taken_u8 (view datum.now)) }
{
    match datum {
        Datum::U8(value) => Ok(*value),
        _ => Err(not_fitting()),
    }
}

/// The `u16` that a datum is.
///
/// # Errors
///
/// `NotFitting` exactly where it is none.
pub fn u16_in(datum: &Datum<'_>) -> de::Result<u16>
    ensures { Reads (λ x. x) result (taken_u16 (view datum.now)) }
{
    match datum {
        Datum::U16(value) => Ok(*value),
        _ => Err(not_fitting()),
    }
}

/// The `u32` that a datum is.
///
/// # Errors
///
/// `NotFitting` exactly where it is none.
pub fn u32_in(datum: &Datum<'_>) -> de::Result<u32>
    ensures { Reads (λ x. x) result (taken_u32 (view datum.now)) }
{
    match datum {
        Datum::U32(value) => Ok(*value),
        _ => Err(not_fitting()),
    }
}

/// The `u64` that a datum is.
///
/// # Errors
///
/// `NotFitting` exactly where it is none.
pub fn u64_in(datum: &Datum<'_>) -> de::Result<u64>
    ensures { Reads (λ x. x) result (taken_u64 (view datum.now)) }
{
    match datum {
        Datum::U64(value) => Ok(*value),
        _ => Err(not_fitting()),
    }
}

/// The Double that a datum is.
///
/// # Errors
///
/// `NotFitting` exactly where it is none.
pub fn double_in(datum: &Datum<'_>) -> de::Result<Double>
    ensures { Reads (λ d. d.0) result (taken_double (view datum.now)) }
{
    match datum {
        Datum::Double(value) => Ok(*value),
        _ => Err(not_fitting()),
    }
}

/// The character that a datum is.
///
/// # Errors
///
/// `NotFitting` exactly where it is none.
pub fn char_in(datum: &Datum<'_>) -> de::Result<char>
    ensures { Reads (λ x. x) result (taken_char (view datum.now)) }
{
    match datum {
        Datum::Char(value) => Ok(*value),
        _ => Err(not_fitting()),
    }
}
