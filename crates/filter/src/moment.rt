//! Days and instants in text. The form of a text is tested here, by its bytes; the calendar is `jiff`'s.

ghost use Rattle.std.specs.Prelude.{◌≡◌, ◌≤◌, ◌<◌, ◌+◌, ◌*◌, ◌^◌, ◌-◌, ℕ, drop, length, pos, negsuc, true, ◌*ℤ◌, IfSome};
ghost use Rattle.std.specs.Char.{is_ascii_digit};
ghost use Rattle.std.specs.List.{list_all};
ghost use Rattle.std.specs.Str.{all_ascii_digits, bytes_eq};
ghost use Rattle.std.specs.Str.Parse.{digits_value};
ghost use Rattle.filter.specs.Reading.{FindsFraction};
ghost use Rattle.jiff.specs.Words.{epoch_day, IsEpochDay, IsBetween};
ghost use Rattle.filter.specs.Literal.{number_in, number_at, at_most, has_at, civil_day, day_at, date_of, seconds_at, fraction_at, zone_of, micros_of, instant_of};

use crate::lexer::{ascii_text, digit_len};
use column_types::{FIRST_INSTANT, LAST_INSTANT};
use jiff::civil::Date;

/// Whether all bytes are digits.
fn are_digits(bytes: &[u8]) -> bool
    ensures { result ≡ list_all is_ascii_digit bytes.now }
{
    bytes.iter().all(|b| b.is_ascii_digit())
}

/// The number that one to four digits spell.
fn digits_number(digits: &[u8]) -> Option<u16>
    requires { (0 < length digits.now) × (length digits.now ≤ 4) }
    ensures value { result ≡ number_in digits.now }
    ensures small { IfSome result (λ n. n < 10 ^ length digits.now) }
{
    if !are_digits(digits) {
        return None;
    }
    ascii_text(digits).parse::<u16>().ok()
}

/// The number that so many digits from place `at` on spell.
fn number_at(text: &[u8], at: usize, len: usize) -> Option<u16>
    requires place { at < 100 }
    requires size { (0 < len) × (len ≤ 4) }
    ensures value { result ≡ number_at text.now at len }
    ensures small { IfSome result (λ n. n < 10 ^ len) }
{
    if text.len() < at + len {
        return None;
    }
    digits_number(&text[at..at + len])
}

/// The same for two digits, where the number is at most this.
fn at_most(most: u16, text: &[u8], at: usize) -> Option<u16>
    requires { at < 100 }
    ensures value { result ≡ at_most most (number_at text.now at 2) }
    ensures small { IfSome result (λ n. n ≤ most) }
{
    let n = number_at(text, at, 2)?;
    if n <= most { Some(n) } else { None }
}

/// Whether the text has this byte at this place.
fn has_at(text: &[u8], at: usize, byte: u8) -> bool
    ensures { result ≡ has_at text.now at byte }
{
    at < text.len() && text[at] == byte
}

/// A day of a year from 1 on.
fn civil_day(year: u16, month: u16, day: u16) -> Option<i32>
    requires { (year < 10_000) × (month < 100) × (day < 100) }
    ensures value { result ≡ civil_day year month day }
    ensures bound { IfSome result IsEpochDay }
{
    if year == 0 {
        return None;
    }
    let date = Date::new(year as i16, month as i8, day as i8).ok()?;
    Some(day_number(date))
}

/// The days from 1970-01-01 to a date.
fn day_number(date: Date) -> i32
    ensures value { result ≡ epoch_day date }
    ensures bound { IsEpochDay result }
{
    date.to_plain().to_unix_epoch_day()
}

/// The day of a text that begins with `YYYY-MM-DD`.
#[tactic(auto, unfolding(crate::specs::Literal::day_at))]
fn day_at(text: &[u8]) -> Option<i32>
    ensures value { result ≡ day_at text.now }
    ensures bound { IfSome result IsEpochDay }
{
    if !has_at(text, 4, b'-') || !has_at(text, 7, b'-') {
        return None;
    }
    let year = number_at(text, 0, 4)?;
    let month = number_at(text, 5, 2)?;
    let day = number_at(text, 8, 2)?;
    civil_day(year, month, day)
}

/// The day of a date text, in days since 1970-01-01.
#[tactic(auto, unfolding(crate::specs::Literal::date_of))]
pub fn date_of(text: &[u8]) -> Option<i32>
    ensures { result ≡ date_of text.now }
{
    if text.len() == 10 { day_at(text) } else { None }
}

/// The seconds of the day of `HH:MM:SS`, behind a `T` or a blank.
#[tactic(auto, unfolding(crate::specs::Literal::seconds_at))]
fn seconds_at(text: &[u8]) -> Option<u32>
    ensures value { result ≡ seconds_at text.now }
    ensures small { IfSome result (λ n. n < 86_400) }
{
    let parted = has_at(text, 10, b'T') || has_at(text, 10, b' ');
    if !parted || !has_at(text, 13, b':') || !has_at(text, 16, b':') {
        return None;
    }
    let hours = at_most(23, text, 11)?;
    let minutes = at_most(59, text, 14)?;
    let seconds = at_most(59, text, 17)?;
    Some(u32::from(hours) * 3600 + u32::from(minutes) * 60 + u32::from(seconds))
}

/// What a digit is worth that ends a fraction of so many digits, in microseconds.
fn worth_of(len: usize) -> u64
    requires { (1 ≤ len) × (len ≤ 6) }
    ensures value { result ≡ 10 ^ (6 - len) }
    ensures most { result ≤ 100_000 }
{
    match len {
        1 => 100_000,
        2 => 10_000,
        3 => 1_000,
        4 => 100,
        5 => 10,
        _ => 1,
    }
}

/// The number that one to six digits spell.
fn fraction_number(digits: &[u8]) -> u64
    requires size { (1 ≤ length digits.now) × (length digits.now ≤ 6) }
    requires digits { all_ascii_digits digits.now ≡ true }
    ensures value { result ≡ digits_value 10 digits.now }
    ensures most { result < 1_000_000 }
{
    let Ok(n) = ascii_text(digits).parse::<u64>() else {
        unreachable!()
    };
    n
}

/// A fraction of a second: its microseconds, and how many bytes it takes.
#[derive(Clone, Copy)]
pub struct Fraction {
    pub micros: u64,
    pub len: usize,
}

/// The fraction at the front, or none.
#[tactic(auto, unfolding(crate::specs::Literal::fraction_at))]
fn fraction_at(text: &[u8]) -> Option<Fraction>
    ensures value { FindsFraction (fraction_at text.now) result }
    ensures small { IfSome result (λ f. (f.micros < 100_000_000_000) × (f.len ≤ length text.now)) }
{
    if !has_at(text, 0, b'.') {
        return Some(Fraction { micros: 0, len: 0 });
    }
    let len = digit_len(&text[1..]);
    if len < 1 || 6 < len {
        return None;
    }
    let micros = fraction_number(&text[1..1 + len]) * worth_of(len);
    Some(Fraction {
        micros,
        len: 1 + len,
    })
}

/// Whether two texts have the same bytes.
fn is_text(a: &[u8], b: &[u8]) -> bool
    ensures { result ≡ bytes_eq a.now b.now }
{
    a == b
}

/// The minutes by which a zone is before UTC.
#[tactic(auto, unfolding(crate::specs::Literal::zone_of))]
fn zone_of(text: &[u8]) -> Option<i32>
    ensures value { result ≡ zone_of text.now }
    ensures small { IfSome result (IsBetween (negsuc 1438) (pos 1439)) }
{
    if is_text(text, b"Z") || is_text(text, b" UTC") {
        return Some(0);
    }
    let signed = has_at(text, 0, b'+') || has_at(text, 0, b'-');
    if text.len() != 6 || !signed || !has_at(text, 3, b':') {
        return None;
    }
    let hours = at_most(23, text, 1)?;
    let minutes = at_most(59, text, 4)?;
    let zone = i32::from(hours * 60 + minutes);
    Some(if has_at(text, 0, b'-') { -zone } else { zone })
}

/// The microseconds from 1970-01-01 to a day.
fn day_micros(day: i32) -> i64
    requires { IsEpochDay day }
    ensures value { result ≡ day *ℤ pos 86_400_000_000 }
    ensures bound { IsBetween (negsuc 400_000_000_000_000_000) (pos 400_000_000_000_000_000) result }
{
    i64::from(day) * 86_400_000_000
}

/// The microseconds by which a zone is before UTC.
fn zone_micros(zone: i32) -> i64
    requires { IsBetween (negsuc 1438) (pos 1439) zone }
    ensures value { result ≡ zone *ℤ pos 60_000_000 }
    ensures bound { IsBetween (negsuc 100_000_000_000) (pos 100_000_000_000) result }
{
    i64::from(zone) * 60_000_000
}

/// The microseconds of a time of day.
fn time_micros(seconds: u32, micros: u64) -> i64
    requires seconds { seconds < 86_400 }
    requires micros { micros < 100_000_000_000 }
    ensures value { result ≡ pos (seconds * 1_000_000 + micros) }
    ensures bound { IsBetween (pos 0) (pos 200_000_000_000) result }
{
    (u64::from(seconds) * 1_000_000 + micros) as i64
}

/// Microseconds since 1970-01-01 00:00:00 UTC.
fn micros_of(day: i32, seconds: u32, micros: u64, zone: i32) -> i64
    requires day { IsEpochDay day }
    requires seconds { seconds < 86_400 }
    requires micros { micros < 100_000_000_000 }
    requires zone { IsBetween (negsuc 1438) (pos 1439) zone }
    ensures { result ≡ micros_of day seconds micros zone }
{
    day_micros(day) + time_micros(seconds, micros) - zone_micros(zone)
}

/// The instant of a timestamp text, in microseconds since 1970-01-01 00:00:00 UTC.
#[tactic(auto, unfolding(crate::specs::Literal::instant_of))]
pub fn instant_of(text: &[u8]) -> Option<i64>
    ensures { result ≡ instant_of text.now }
{
    let day = day_at(text)?;
    let seconds = seconds_at(text)?;
    if text.len() < 19 {
        return None;
    }
    let rest = &text[19..];
    let fraction = fraction_at(rest)?;
    let zone = zone_of(&rest[fraction.len..])?;
    let instant = micros_of(day, seconds, fraction.micros, zone);
    if instant < FIRST_INSTANT || LAST_INSTANT < instant {
        return None;
    }
    Some(instant)
}
