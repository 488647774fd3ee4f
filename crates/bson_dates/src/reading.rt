// Date texts are read. Each function reads a part in front, and gives it with the text behind it.
ghost use Rattle.std.specs.Prelude.{◌≡◌, ◌<◌, ◌≤◌, if◌then◌else◌, Some, None, ℤ, pos, neg_ℤ, IfSome};
ghost use Rattle.jiff_core.specs.Calendar.{IsBetween, IsEpochDay, days_from_civil};
ghost use Rattle.bson_dates.specs.DateText.{two_digits, two_digits_below, full_date, is_day, time_of_day, second_fraction, digits_after, hours_and_minutes, time_offset, is_separator, after_time, date_of_text, millis_at};
ghost use Rattle.bson_dates.specs.DateFront.{begins_with_digit, part_view};

use jiff_core::civil::Date;

/// The milliseconds since the start of 1970 in UTC that a whole text stands for: a day of the calendar in the years 0000 to 9999, `T` or `t`, a
/// time, optionally a point and digits, and `Z`, `z` or an offset such as `+01:00`. Digits of the fraction after the third are dropped, before
/// 1970 too. `None` where the text is anything else. An offset may carry the time out of these years; then it has no printed text. It takes no
/// memory.
///
/// Source: RFC 3339, sections 5.6 and 5.7, in the proleptic Gregorian calendar, without a second 60 and with no separator but `T` and `t`.
pub fn date_of_text(text: &[u8]) -> Option<i64>
    ensures value { result ≡ date_of_text text.now }
{
    let Some((day, text)) = full_date(text) else {
        return None;
    };
    let [separator, text @ ..] = text else {
        return None;
    };
    if !is_separator(*separator) {
        return None;
    }
    let Some((seconds, text)) = time_of_day(text) else {
        return None;
    };
    after_time(day, seconds, text)
}

fn is_separator(character: u8) -> bool
    ensures { result ≡ is_separator character }
{
    character == b'T' || character == b't'
}

// Two digits.
fn two_digits(text: &[u8]) -> Option<(u8, &[u8])>
    ensures value { part_view result ≡ two_digits text.now }
    ensures small { IfSome result (λ p. p.0 ≤ 99) }
{
    match text {
        [a, b, rest @ ..] => {
            if *a >= 48 && *a <= 57 && *b >= 48 && *b <= 57 {
                Some((10 * (*a - 48) + (*b - 48), rest))
            } else {
                None
            }
        }
        _ => None,
    }
}

fn two_digits_below(text: &[u8], limit: u8) -> Option<(u8, &[u8])>
    ensures value { part_view result ≡ two_digits_below limit text.now }
    ensures small { IfSome result (λ p. p.0 < limit) }
{
    match two_digits(text) {
        Some((number, rest)) => {
            if number < limit {
                Some((number, rest))
            } else {
                None
            }
        }
        None => None,
    }
}

// `YYYY-MM-DD`, as days since the start of 1970.
fn full_date(text: &[u8]) -> Option<(i32, &[u8])>
    ensures value { part_view result ≡ full_date text.now }
    ensures small { IfSome result (λ p. IsEpochDay p.0) }
{
    let Some((century, text)) = two_digits(text) else {
        return None;
    };
    let Some((year, text)) = two_digits(text) else {
        return None;
    };
    let [b'-', text @ ..] = text else {
        return None;
    };
    let Some((month, text)) = two_digits(text) else {
        return None;
    };
    let [b'-', text @ ..] = text else {
        return None;
    };
    let Some((day, text)) = two_digits(text) else {
        return None;
    };
    match day_of(100 * (century as u16) + (year as u16), month, day) {
        Some(day) => Some((day, text)),
        None => None,
    }
}

fn day_of(year: u16, month: u8, day: u8) -> Option<i32>
    requires year { year ≤ 9999 }
    requires month { month ≤ 99 }
    requires day { day ≤ 99 }
    ensures value { result ≡ (if is_day year month day then Some (days_from_civil (pos year) month day) else None) }
    ensures small { IfSome result IsEpochDay }
{
    match Date::new(year as i16, month as i8, day as i8) {
        Ok(date) => Some(date.to_unix_epoch_day()),
        Err(_) => None,
    }
}

// `hh:mm:ss`, as seconds.
fn time_of_day(text: &[u8]) -> Option<(u32, &[u8])>
    ensures value { part_view result ≡ time_of_day text.now }
    ensures small { IfSome result (λ p. p.0 < 86400) }
{
    let Some((hours, text)) = two_digits_below(text, 24) else {
        return None;
    };
    let [b':', text @ ..] = text else {
        return None;
    };
    let Some((minutes, text)) = two_digits_below(text, 60) else {
        return None;
    };
    let [b':', text @ ..] = text else {
        return None;
    };
    let Some((seconds, text)) = two_digits_below(text, 60) else {
        return None;
    };
    Some((
        3600 * (hours as u32) + 60 * (minutes as u32) + (seconds as u32),
        text,
    ))
}

// What follows the time, behind that day and second.
fn after_time(day: i32, seconds: u32, text: &[u8]) -> Option<i64>
    requires day { IsEpochDay day }
    requires seconds { seconds < 86400 }
    ensures { result ≡ after_time day seconds text.now }
{
    let Some((milliseconds, text)) = second_fraction(text) else {
        return None;
    };
    match time_offset(text) {
        Some(minutes) => Some(millis_at(day, seconds, milliseconds, minutes)),
        None => None,
    }
}

// A point and digits as milliseconds, or no point.
fn second_fraction(text: &[u8]) -> Option<(u32, &[u8])>
    ensures value { part_view result ≡ second_fraction text.now }
    ensures small { IfSome result (λ p. p.0 < 1000) }
{
    match text {
        [b'.', rest @ ..] => digits_after(rest),
        _ => Some((0, text)),
    }
}

fn digits_after(text: &[u8]) -> Option<(u32, &[u8])>
    ensures value { part_view result ≡ digits_after text.now }
    ensures small { IfSome result (λ p. p.0 < 1000) }
{
    if !begins_with_digit(text) {
        return None;
    }
    let mut rest = text;
    let mut weight: u32 = 100;
    let mut sum: u32 = 0;
    'digits: while begins_with_digit(rest) {
        sum += weight * ((rest[0] - 48) as u32);
        weight /= 10;
        rest = &rest[1..];
    }
    Some((sum, rest))
}

fn begins_with_digit(text: &[u8]) -> bool
    ensures { result ≡ begins_with_digit text.now }
{
    match text {
        [character, ..] => *character >= 48 && *character <= 57,
        [] => false,
    }
}

// `Z` or `z`, or a sign and the offset, in minutes.
fn time_offset(text: &[u8]) -> Option<i32>
    ensures value { result ≡ time_offset text.now }
    ensures small { IfSome result (IsBetween (neg_ℤ (pos 1440)) (pos 1440)) }
{
    match text {
        [b'Z' | b'z'] => Some(0),
        [b'+', rest @ ..] => match hours_and_minutes(rest) {
            Some(minutes) => Some(minutes as i32),
            None => None,
        },
        [b'-', rest @ ..] => match hours_and_minutes(rest) {
            Some(minutes) => Some(-(minutes as i32)),
            None => None,
        },
        _ => None,
    }
}

// `hh:mm` at the end, as minutes.
fn hours_and_minutes(text: &[u8]) -> Option<u16>
    ensures value { result ≡ hours_and_minutes text.now }
    ensures small { IfSome result (λ n. n < 1440) }
{
    let Some((hours, text)) = two_digits_below(text, 24) else {
        return None;
    };
    let [b':', text @ ..] = text else {
        return None;
    };
    let Some((minutes, text)) = two_digits_below(text, 60) else {
        return None;
    };
    match text {
        [] => Some(60 * (hours as u16) + (minutes as u16)),
        _ => None,
    }
}

// The local time less the offset, in milliseconds.
fn millis_at(day: i32, seconds: u32, milliseconds: u32, minutes: i32) -> i64
    requires day { IsEpochDay day }
    requires seconds { seconds < 86400 }
    requires milliseconds { milliseconds < 1000 }
    requires minutes { IsBetween (neg_ℤ (pos 1440)) (pos 1440) minutes }
    ensures { result ≡ millis_at day seconds milliseconds minutes }
{
    (day as i64 * 86_400 + seconds as i64 - minutes as i64 * 60) * 1000 + milliseconds as i64
}
