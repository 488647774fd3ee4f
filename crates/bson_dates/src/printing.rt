// Dates are printed.
ghost use Rattle.std.specs.Prelude.{◌≡◌, ◌<◌, ◌≤◌, IfOk, MatchOption, string_bytes};
ghost use Rattle.bson_dates.specs.DatePrinted.{IsAt, HasYear, Prints, text_of_parts};
ghost use Rattle.bson_dates.specs.DateText.{date_of_text};

use jiff_core::civil::Date;
use std::alloc::{AllocError, Global};
use std::fmt;
use thiserror::Error;

/// Why a date was not printed.
#[derive(Clone, Copy, Debug, PartialEq, Eq, Error)]
pub enum DateError {
    /// Its year is not one of 0 to 9999.
    #[error("year out of range")]
    YearOutOfRange,
    /// Out of memory.
    #[error("out of memory")]
    NoMemory,
}

impl From<AllocError> for DateError {
    ghost use Rattle.bson_dates.specs.declared.printing.DateError.TheVariants.{NoMemory as NoMemoryError};

    ghost from_gives = { λ _ e. e ≡ NoMemoryError };

    fn from(_error: AllocError) -> DateError {
        DateError::NoMemory
    }
}

// Two decimal digits.
#[derive(Clone, Copy)]
struct TwoDigits(u8);

impl fmt::Display for TwoDigits {
    ghost use Rattle.std.specs.Prelude.{Some};
    ghost use Rattle.bson_dates.specs.DatePrinted.{two_digits_text};

    ghost output = { λ t. Some (two_digits_text t.0) };

    #[tactic(auto, unfolding(crate::specs::DatePrinted::two_digits_text))]
    fn fmt<W: fmt::Write>(&self, f: &mut fmt::Formatter<W>) -> fmt::Result {
        write!(f, "{}{}", self.0 / 10, self.0 % 10)
    }
}

// The milliseconds of a second, with as many digits as are needed.
#[derive(Clone, Copy)]
struct Fraction(u16);

impl fmt::Display for Fraction {
    ghost use Rattle.std.specs.Prelude.{Some};
    ghost use Rattle.bson_dates.specs.DatePrinted.{fraction_text};

    ghost output = { λ t. Some (fraction_text t.0) };

    #[tactic(auto, unfolding(crate::specs::DatePrinted::fraction_text))]
    fn fmt<W: fmt::Write>(&self, f: &mut fmt::Formatter<W>) -> fmt::Result {
        let milliseconds = self.0;
        if milliseconds == 0 {
            Ok(())
        } else if milliseconds % 100 == 0 {
            write!(f, ".{}", milliseconds / 100)
        } else if milliseconds % 10 == 0 {
            write!(f, ".{}{}", milliseconds / 100, milliseconds / 10 % 10)
        } else {
            write!(
                f,
                ".{}{}{}",
                milliseconds / 100,
                milliseconds / 10 % 10,
                milliseconds % 10
            )
        }
    }
}

// The parts of a printed date.
#[derive(Clone, Copy)]
struct DateParts {
    year: u16,
    month: u8,
    day: u8,
    millis_of_day: u32,
}

/// The text of a time in UTC, as `2023-11-14T22:13:20.5Z`, from its milliseconds since the start of 1970 in UTC: with as many of three digits of
/// the fraction as are needed, and no point where it is zero.
///
/// Source: RFC 3339, section 5.6.
///
/// # Errors
///
/// `YearOutOfRange` where the year in UTC is not one of 0 to 9999; `NoMemory` where memory ran out.
pub fn date_text(alloc: Global, millis: i64) -> Result<String, DateError>
    ensures text { Prints string_bytes result millis }
    // The text is read back as the same time.
    ensures read_back { IfOk result (λ text. date_of_text (string_bytes text) ≡ Some millis) }
{
    let Some(parts) = split(millis) else {
        return Err(DateError::YearOutOfRange);
    };
    let text = text_of(alloc, parts)?;
    Ok(text)
}

// The parts of a time, where its year can be printed.
fn split(millis: i64) -> Option<DateParts>
    ensures { MatchOption result (HasYear millis → ⊥) (λ p. IsAt millis p.year p.month p.day p.millis_of_day) }
{
    let day = millis.div_euclid(86_400_000);
    let millis_of_day = millis.rem_euclid(86_400_000);
    match Date::from_unix_epoch_day(day) {
        Ok(date) => {
            if date.year < 0 {
                return None;
            }
            Some(DateParts {
                year: date.year as u16,
                month: date.month,
                day: date.day,
                millis_of_day: millis_of_day as u32,
            })
        }
        Err(_) => None,
    }
}

// The text of the parts.
fn text_of(alloc: Global, parts: DateParts) -> Result<String, AllocError>
    requires year { parts.year ≤ 9999 }
    requires time { parts.millis_of_day < 86_400_000 }
    ensures { IfOk result (λ t. string_bytes t ≡ text_of_parts parts.year parts.month parts.day parts.millis_of_day) }
{
    let high = TwoDigits((parts.year / 100) as u8);
    let low = TwoDigits((parts.year % 100) as u8);
    let month = TwoDigits(parts.month);
    let day = TwoDigits(parts.day);
    let hour = TwoDigits((parts.millis_of_day / 3_600_000) as u8);
    let minute = TwoDigits((parts.millis_of_day / 60_000 % 60) as u8);
    let second = TwoDigits((parts.millis_of_day / 1000 % 60) as u8);
    let fraction = Fraction((parts.millis_of_day % 1000) as u16);
    format!(in alloc; "{high}{low}-{month}-{day}T{hour}:{minute}:{second}{fraction}Z")
}
