//! Defines UTCTime (X.680, section 47): a moment of whole seconds, read as `YYMMDDhhmm`, seconds
//! that may be left out and a zone, and written as `YYMMDDhhmmssZ`. Two digits state a year of
//! 1950 to 2049.
ghost use Rattle.std.specs.Prelude.{◌≡◌, ◌↔◌, ◌<◌, pos, ◌*ℤ◌, IfSome, IsSome, IfOk, IfErr, IsTrue};
ghost use Rattle.std.specs.Prelude.{true};
ghost use Rattle.std.specs.String.{string_bytes};
ghost use Rattle.jiff_core.specs.DateTime.{civil_nanos};
ghost use Rattle.jiff_core.specs.Calendar.{IsBetween};
ghost use Rattle.asn_times.specs.Held.{is_held_second};
ghost use Rattle.asn_times.specs.declared.faults.TimeFault.TheVariants.{InvalidDate, OutOfMemory};
ghost use Rattle.asn_times.specs.Moments.{IsSmallMoment};
ghost use Rattle.asn_times.specs.Reading.{seconds_and_rest, utc_fields};
ghost use Rattle.asn_times.specs.Utc.{full_year, utc_digits, StatesNoUtc, UtcReads, UtcWritten};
ghost use Rattle.asn_times.specs.Utc.{IsUnwrittenUtc};
ghost use Rattle.asn_times.specs.Written.{utc_text};

use crate::digits::{push_char, push_two, read_two};
use crate::faults::TimeFault;
use crate::moments::{
    ClockFields, MomentFields, fields_of_moment, is_within, moment_of, push_minute, read_minute,
    read_zone,
};
use jiff::civil::DateTime;
use jiff_core::civil as plain;
use std::alloc::Global;
use std::marker::Model;

/// Holds a moment of whole seconds. Contracts see the seconds since 1970-01-01T00:00:00 in UTC.
#[derive(Clone, Copy, Debug)]
pub struct UtcTime {
    /// Counts the seconds since 1970-01-01T00:00:00 in UTC.
    seconds: i64,
}

/// Lets contracts see the seconds. The invariant is that the calendar has the moment.
impl Model for UtcTime {
    ghost use Rattle.std.specs.Prelude.{ℤ};
    ghost use Rattle.asn_times.specs.Held.{IsCivilSecond};

    ghost Value = { ℤ };

    ghost view = { λ a. a.seconds };

    ghost invariant = { λ a. IsCivilSecond a.seconds };

    ghost inverse = { λ n. record { seconds = n } };
}

/// Makes a time of the number of a second, and gives it back.
impl UtcTime {
    /// Returns the time that many seconds after 1970-01-01T00:00:00 in UTC, or `None` where it lies
    /// outside the years -9999 to 9999.
    pub fn from_seconds(seconds: i64) -> Option<UtcTime>
        ensures some { IsSome result ↔ (is_held_second seconds ≡ true) }
        ensures value { IfSome result (λ time. time ≡ seconds) }
    {
        match plain::DateTime::from_nanosecond(seconds as i128 * 1_000_000_000) {
            Ok(_) => Some(UtcTime { seconds }),
            Err(_) => None,
        }
    }

    /// Returns the number of seconds since 1970-01-01T00:00:00 in UTC.
    pub fn seconds(&self) -> i64
        ensures value { result ≡ self.now }
        ensures held { is_held_second result ≡ true }
    {
        self.seconds
    }
}

/// Returns the date and the time of day in UTC.
fn moment_of_time(time: &UtcTime) -> DateTime
    ensures { civil_nanos result ≡ time.now *ℤ pos 1_000_000_000 }
{
    let nanoseconds = time.seconds as i128 * 1_000_000_000;
    DateTime::from_plain(plain::DateTime::from_nanosecond_in_range(nanoseconds))
}

/// Compares two times: they are equal where they are the same moment.
impl PartialEq for UtcTime {
    ghost use Rattle.std.specs.Ordering.{int_eq};
    ghost use Rattle.std.specs.Cmp.Rules.{comparing};
    ghost use Rattle.std.proofs.Common.{rules};

    ghost eq = { int_eq };

    ghost laws = { Prim.search (comparing, rules) };

    fn eq(&self, other: &UtcTime) -> bool
        ensures { IsTrue result ↔ (self.now ≡ other.now) }
    {
        self.seconds == other.seconds
    }
}

/// States that the comparison is an equivalence.
impl Eq for UtcTime {
    ghost use Rattle.std.specs.Cmp.Rules.{comparing};
    ghost use Rattle.std.proofs.Common.{rules};

    ghost laws = { Prim.search (comparing, rules) };
}

/// Is the first year of a text, which is written `50`.
const FIRST: i16 = 1950;

/// Is the last year of a text, which is written `49`.
const LAST: i16 = 2049;

/// Returns the year that two digits stand for: 2000 to 2049 below 50, else 1950 to 1999.
fn full_year_of(short: u8) -> u16
    requires { short < 100 }
    ensures is { result ≡ full_year short }
    ensures small { result < 10_000 }
{
    if short < 50 {
        2000 + short as u16
    } else {
        1900 + short as u16
    }
}

/// Reads `ss`, if two digits are in front, and returns it with what follows it. Without digits the
/// second is 0 and nothing is taken.
fn read_seconds(bytes: &[u8]) -> (u8, &[u8])
    ensures is { (result.0, result.1.now) ≡ seconds_and_rest bytes.now }
    ensures small { result.0 < 100 }
{
    match read_two(bytes) {
        Some(read) => read,
        None => (0, bytes),
    }
}

/// Reads `YYMMDDhhmm`, seconds that may be left out, and a zone, to the end of the text.
fn read_fields(bytes: &[u8]) -> Option<MomentFields>
    ensures is { result ≡ utc_fields bytes.now }
    ensures small { IfSome result IsSmallMoment }
{
    let (short, rest) = read_two(bytes)?;
    let (fields, rest) = read_minute(full_year_of(short), rest)?;
    let (second, rest) = read_seconds(rest);
    let offset = read_zone(rest)?;
    Some(MomentFields {
        day: fields.day,
        clock: ClockFields {
            hour: fields.clock.hour,
            minute: fields.clock.minute,
            second,
            nanosecond: 0,
        },
        offset,
    })
}

/// Returns the moment that a text of UTCTime means. It takes no memory.
///
/// # Errors
///
/// `InvalidDate` where the text has another form, states a day or a time of day that is none, or
/// means a moment outside the years 1950 to 2049 in UTC.
pub fn read_utc(text: &str) -> Result<UtcTime, TimeFault>
    ensures reads { IfOk result (UtcReads text.now) }
    ensures refuses { IfErr result (λ e. (e ≡ InvalidDate) × StatesNoUtc text.now) }
{
    // The form comes first, then the calendar and the years.
    let fields = match read_fields(text.as_bytes()) {
        Some(fields) => fields,
        None => return Err(TimeFault::InvalidDate),
    };
    match moment_of(fields, FIRST, LAST) {
        Some(moment) => Ok(UtcTime {
            seconds: moment.to_plain().to_second(),
        }),
        None => Err(TimeFault::InvalidDate),
    }
}

/// Writes `YYMMDDhhmmssZ` of the fields, which are in UTC.
///
/// # Errors
///
/// `OutOfMemory` alone.
fn text_of(alloc: Global, fields: MomentFields) -> Result<String, TimeFault>
    requires { IsSmallMoment fields }
    ensures text { IfOk result (λ text. string_bytes text ≡ utc_digits fields) }
    ensures refused { IfErr result (λ e. e ≡ OutOfMemory) }
{
    let mut text = String::new(alloc);
    push_two(&mut text, (fields.day.year % 100) as u8)?;
    push_minute(&mut text, fields)?;
    push_two(&mut text, fields.clock.second)?;
    push_char(&mut text, 'Z')?;
    Ok(text)
}

/// Returns the moment's one written text, `YYMMDDhhmmssZ`. By `laws::written_utc_reads`, it is
/// read as the same moment.
///
/// # Errors
///
/// `OutOfYears` where the year is outside 1950 to 2049; `OutOfMemory`.
pub fn write_utc(alloc: Global, time: &UtcTime) -> Result<String, TimeFault>
    ensures writes { IfOk result (λ text. UtcWritten time.now (string_bytes text)) }
    ensures text { IfOk result (λ text. string_bytes text ≡ utc_text time.now) }
    ensures refuses { IfErr result (IsUnwrittenUtc time.now) }
{
    let moment = moment_of_time(time);
    if !is_within(moment, FIRST, LAST) {
        return Err(TimeFault::OutOfYears);
    }
    match text_of(alloc, fields_of_moment(moment)) {
        Ok(text) => Ok(text),
        Err(_) => Err(TimeFault::OutOfMemory),
    }
}
