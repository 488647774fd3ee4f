ghost use Rattle.std.specs.Prelude.{◌≡◌, IfOk, string_bytes};
ghost use Rattle.bson_dates.specs.DatePrinted.{Prints};
ghost use Rattle.bson_dates.specs.DateText.{date_of_text};
ghost use Rattle.bson_base.specs.Instant.{millis};
ghost use Rattle.bson_base.specs.Parsed.{Parses};

use bson_dates::{DateError, date_of_text, date_text};
use std::alloc::Global;

/// A time, in milliseconds since 1970 began in UTC; before that they are negative.
///
/// Source: bsonspec.org, version 1.1, `UTC datetime`.
#[derive(Clone, Copy, Debug, PartialEq, Eq)]
pub struct DateTime(i64);

/// A text is not that of a date.
#[derive(Clone, Copy, Debug, PartialEq, Eq)]
pub struct NotDate;

impl DateTime {
    /// The time so many milliseconds after the start of 1970.
    pub fn from_millis(milliseconds: i64) -> DateTime
        ensures millis { millis result ≡ milliseconds }
    {
        DateTime(milliseconds)
    }

    /// The milliseconds since the start of 1970.
    pub fn timestamp_millis(&self) -> i64
        ensures millis { result ≡ millis self.now }
    {
        self.0
    }

    /// The time of a text such as `2023-11-14T22:13:20.5Z`: a day of the calendar in the years 0000 to 9999, `T` or `t`, a time, optionally a
    /// point and digits, and `Z`, `z` or an offset such as `+01:00`. Digits of the fraction after the third are dropped, before 1970 too. An offset
    /// may carry the time out of these years; then it has no printed text. It takes no memory.
    ///
    /// Source: RFC 3339, sections 5.6 and 5.7, in the proleptic Gregorian calendar, without a second 60 and with no separator but `T` and `t`.
    ///
    /// # Errors
    ///
    /// `NotDate` where the text is anything else.
    pub fn parse_rfc3339_str(text: &str) -> Result<DateTime, NotDate>
        ensures value { Parses millis result (date_of_text text.now) }
    {
        match date_of_text(text.as_bytes()) {
            Some(milliseconds) => Ok(DateTime(milliseconds)),
            None => Err(NotDate),
        }
    }

    /// The text of the time in UTC, as `2023-11-14T22:13:20.5Z`: with as many of three digits of the fraction as are needed, and no
    /// point where it is zero.
    ///
    /// Source: RFC 3339, section 5.6.
    ///
    /// # Errors
    ///
    /// `YearOutOfRange` where the year in UTC is not one of 0 to 9999; `NoMemory` where memory ran out.
    pub fn try_to_rfc3339_string(&self, alloc: Global) -> Result<String, DateError>
        ensures text { Prints string_bytes result (millis self.now) }
        // The text is read back as the same time.
        ensures read_back { IfOk result (λ text. date_of_text (string_bytes text) ≡ Some (millis self.now)) }
    {
        date_text(alloc, self.0)
    }
}
