//! Defines GeneralizedTime (X.680, section 46): a moment, read as `YYYYMMDDhhmmss`, a fraction and
//! a zone that may be left out, and written in UTC with `Z` and without trailing zeros of the
//! fraction. Years go from 0000 to 9999.
ghost use Rattle.std.specs.Prelude.{◌≡◌, ◌<◌, ◌≤◌, ◌++◌, IfSome, IfOk, IfErr, OnOk, pos, neg_ℤ};
ghost use Rattle.std.specs.Prelude.{IsTrue, ◌↔◌, IsSome, true};
ghost use Rattle.std.specs.Option.{option_map};
ghost use Rattle.std.specs.String.{string_bytes};
ghost use Rattle.jiff_core.specs.DateTime.{civil_nanos};
ghost use Rattle.jiff_core.specs.Calendar.{IsBetween};
ghost use Rattle.asn_times.specs.declared.faults.TimeFault.TheVariants.{InvalidDate, OutOfMemory};
ghost use Rattle.asn_times.specs.Generalized.{fraction_digits, fraction_text, generalized_digits};
ghost use Rattle.asn_times.specs.Generalized.{GeneralizedReads, GeneralizedWritten};
ghost use Rattle.asn_times.specs.Generalized.{IsUnwrittenGeneralized, StatesNoGeneralized};
ghost use Rattle.asn_times.specs.Held.{is_held_nanosecond};
ghost use Rattle.asn_times.specs.Moments.{IsSmallMoment};
ghost use Rattle.asn_times.specs.Reading.{digits, fraction, generalized_fields, some_digits};
ghost use Rattle.asn_times.specs.Reading.{zone_or_utc};
ghost use Rattle.asn_times.specs.Written.{generalized_text};

use crate::digits::{push_char, push_four, push_two, read_four, read_two};
use crate::faults::TimeFault;
use crate::moments::{
    ClockFields, MomentFields, fields_of_moment, is_within, moment_of, push_minute, read_minute,
    read_zone,
};
use jiff::civil::DateTime;
use jiff_core::civil as plain;
use std::alloc::Global;
use std::marker::Model;

/// Holds a moment. Contracts see the nanoseconds since 1970-01-01T00:00:00 in UTC.
#[derive(Clone, Copy, Debug)]
pub struct GeneralizedTime {
    /// Counts the nanoseconds since 1970-01-01T00:00:00 in UTC.
    nanoseconds: i128,
}

/// Lets contracts see the nanoseconds. The invariant is that the calendar has the moment.
impl Model for GeneralizedTime {
    ghost use Rattle.std.specs.Prelude.{ℤ};
    ghost use Rattle.jiff_core.specs.DateTime.{IsCivilNanos};

    ghost Value = { ℤ };

    ghost view = { λ a. a.nanoseconds };

    ghost invariant = { λ a. IsCivilNanos a.nanoseconds };

    ghost inverse = { λ n. record { nanoseconds = n } };
}

/// Makes a time of the number of a nanosecond, and gives it back.
impl GeneralizedTime {
    /// Returns the time that many nanoseconds after 1970-01-01T00:00:00 in UTC, or `None` where it
    /// lies outside the years -9999 to 9999.
    pub fn from_nanoseconds(nanoseconds: i128) -> Option<GeneralizedTime>
        ensures some { IsSome result ↔ (is_held_nanosecond nanoseconds ≡ true) }
        ensures value { IfSome result (λ time. time ≡ nanoseconds) }
    {
        match plain::DateTime::from_nanosecond(nanoseconds) {
            Ok(_) => Some(GeneralizedTime { nanoseconds }),
            Err(_) => None,
        }
    }

    /// Returns the number of nanoseconds since 1970-01-01T00:00:00 in UTC.
    pub fn nanoseconds(&self) -> i128
        ensures value { result ≡ self.now }
        ensures held { is_held_nanosecond result ≡ true }
    {
        self.nanoseconds
    }
}

/// Returns the date and the time of day in UTC.
fn moment_of_time(time: &GeneralizedTime) -> DateTime
    ensures { civil_nanos result ≡ time.now }
{
    DateTime::from_plain(plain::DateTime::from_nanosecond_in_range(time.nanoseconds))
}

/// Compares two times: they are equal where they are the same moment.
impl PartialEq for GeneralizedTime {
    ghost use Rattle.std.specs.Ordering.{int_eq};
    ghost use Rattle.std.specs.Cmp.Rules.{comparing};
    ghost use Rattle.std.proofs.Common.{rules};

    ghost eq = { int_eq };

    ghost laws = { Prim.search (comparing, rules) };

    fn eq(&self, other: &GeneralizedTime) -> bool
        ensures { IsTrue result ↔ (self.now ≡ other.now) }
    {
        self.nanoseconds == other.nanoseconds
    }
}

/// States that the comparison is an equivalence.
impl Eq for GeneralizedTime {
    ghost use Rattle.std.specs.Cmp.Rules.{comparing};
    ghost use Rattle.std.proofs.Common.{rules};

    ghost laws = { Prim.search (comparing, rules) };
}

/// Is the first year of a text.
const FIRST: i16 = 0;

/// Is the last year of a text: its year has four digits.
const LAST: i16 = 9999;

/// Limits the digits of a fraction: nanoseconds are the smallest unit.
const PLACES: u8 = 9;

/// Reads at most `places` digits of a fraction, and returns their nanoseconds with what follows.
/// A tenth digit is left in what follows, and the text is then refused.
fn read_digits(places: u8, bytes: &[u8]) -> (u32, &[u8])
    ensures is { (result.0, result.1.now) ≡ digits places bytes.now }
    ensures small { result.0 < 1_000_000_000 }
{
    if places == 0 {
        return (0, bytes);
    }
    match bytes {
        [digit @ b'0'..=b'9', rest @ ..] => {
            // A digit after the first counts a tenth of what it would count as the first one, so
            // what the digits behind it count is divided by 10. In nine places nothing is lost.
            let (nanoseconds, rest) = read_digits(places - 1, rest);
            let tenths = (*digit - b'0') as u32;
            (tenths * 100_000_000 + nanoseconds / 10, rest)
        }
        _ => (0, bytes),
    }
}

/// Reads one to nine digits of a fraction, and returns their nanoseconds with what follows, or
/// `None` where no digit is in front.
fn read_some_digits(bytes: &[u8]) -> Option<(u32, &[u8])>
    ensures is { option_map (λ p. (p.0, p.1.now)) result ≡ some_digits bytes.now }
    ensures small { IfSome result (λ p. p.0 < 1_000_000_000) }
{
    match bytes {
        [b'0'..=b'9', ..] => Some(read_digits(PLACES, bytes)),
        _ => None,
    }
}

/// Reads a fraction, if `.` or `,` is in front, and returns its nanoseconds with what follows it.
/// Without a mark the nanoseconds are 0; a mark without a digit is `None`.
fn read_fraction(bytes: &[u8]) -> Option<(u32, &[u8])>
    ensures is { option_map (λ p. (p.0, p.1.now)) result ≡ fraction bytes.now }
    ensures small { IfSome result (λ p. p.0 < 1_000_000_000) }
{
    match bytes {
        [b'.' | b',', rest @ ..] => read_some_digits(rest),
        _ => Some((0, bytes)),
    }
}

/// Reads a zone to the end of the text, and returns the seconds that local time is ahead of UTC.
/// No text is UTC.
fn read_zone_or_utc(bytes: &[u8]) -> Option<i32>
    ensures is { result ≡ zone_or_utc bytes.now }
    ensures small { IfSome result (IsBetween (neg_ℤ (pos 86400)) (pos 86400)) }
{
    if bytes.is_empty() {
        Some(0)
    } else {
        read_zone(bytes)
    }
}

/// Reads `YYYYMMDDhhmmss`, a fraction and a zone that may be left out, to the end of the text.
fn read_fields(bytes: &[u8]) -> Option<MomentFields>
    ensures is { result ≡ generalized_fields bytes.now }
    ensures small { IfSome result IsSmallMoment }
{
    let (year, rest) = read_four(bytes)?;
    // The minute comes with second 0 in UTC, and the rest of the text fills these in.
    let (fields, rest) = read_minute(year, rest)?;
    let (second, rest) = read_two(rest)?;
    let (nanosecond, rest) = read_fraction(rest)?;
    let offset = read_zone_or_utc(rest)?;
    Some(MomentFields {
        day: fields.day,
        clock: ClockFields {
            hour: fields.clock.hour,
            minute: fields.clock.minute,
            second,
            nanosecond,
        },
        offset,
    })
}

/// Returns the moment that a text of GeneralizedTime means. It takes no memory.
///
/// # Errors
///
/// `InvalidDate` where the text has another form, states a day or a time of day that is none, or
/// means a moment outside the years 0000 to 9999 in UTC.
pub fn read_generalized(text: &str) -> Result<GeneralizedTime, TimeFault>
    ensures reads { IfOk result (GeneralizedReads text.now) }
    ensures refuses { IfErr result (λ e. (e ≡ InvalidDate) × StatesNoGeneralized text.now) }
{
    // The form comes first, then the calendar and the years.
    let fields = match read_fields(text.as_bytes()) {
        Some(fields) => fields,
        None => return Err(TimeFault::InvalidDate),
    };
    match moment_of(fields, FIRST, LAST) {
        Some(moment) => Ok(GeneralizedTime {
            nanoseconds: moment.to_plain().to_nanosecond(),
        }),
        None => Err(TimeFault::InvalidDate),
    }
}

/// Adds the digits of a fraction's nanoseconds up to the last that isn't 0, at most `places`.
///
/// # Errors
///
/// `OutOfMemory` alone, and then a part of the digits may be there.
fn push_digits(text: &mut String, places: u8, nanoseconds: u32) -> Result<(), TimeFault>
    requires { nanoseconds < 1_000_000_000 }
    ensures written { OnOk result
        (string_bytes text.new ≡ string_bytes text.old ++ fraction_digits places nanoseconds) }
    ensures refused { IfErr result (λ e. e ≡ OutOfMemory) }
{
    if places == 0 || nanoseconds == 0 {
        return Ok(());
    }
    // The first digit counts 100,000,000 nanoseconds, and what remains moves up one place.
    push_char(text, (b'0' + (nanoseconds / 100_000_000) as u8) as char)?;
    push_digits(text, places - 1, nanoseconds % 100_000_000 * 10)
}

/// Adds a point and a fraction's nanoseconds to the text, unless they are 0.
///
/// # Errors
///
/// `OutOfMemory` alone.
fn push_fraction(text: &mut String, nanoseconds: u32) -> Result<(), TimeFault>
    requires { nanoseconds < 1_000_000_000 }
    ensures written { OnOk result
        (string_bytes text.new ≡ string_bytes text.old ++ fraction_text nanoseconds) }
    ensures refused { IfErr result (λ e. e ≡ OutOfMemory) }
{
    if nanoseconds == 0 {
        return Ok(());
    }
    push_char(text, '.')?;
    push_digits(text, PLACES, nanoseconds)
}

/// Writes `YYYYMMDDhhmmss`, the fraction, if there is one, and `Z`.
///
/// # Errors
///
/// `OutOfMemory` alone.
fn text_of(alloc: Global, fields: MomentFields) -> Result<String, TimeFault>
    requires { IsSmallMoment fields }
    ensures text { IfOk result (λ text. string_bytes text ≡ generalized_digits fields) }
    ensures refused { IfErr result (λ e. e ≡ OutOfMemory) }
{
    let mut text = String::new(alloc);
    push_four(&mut text, fields.day.year)?;
    push_minute(&mut text, fields)?;
    push_two(&mut text, fields.clock.second)?;
    push_fraction(&mut text, fields.clock.nanosecond)?;
    push_char(&mut text, 'Z')?;
    Ok(text)
}

/// Returns the moment's one written text: in UTC with `Z`, without trailing zeros of the fraction.
/// By `laws::written_generalized_reads`, it is read as the same moment.
///
/// # Errors
///
/// `OutOfYears` where the year is outside 0000 to 9999; `OutOfMemory`.
pub fn write_generalized(alloc: Global, time: &GeneralizedTime) -> Result<String, TimeFault>
    ensures writes { IfOk result (λ text. GeneralizedWritten time.now (string_bytes text)) }
    ensures text { IfOk result (λ text. string_bytes text ≡ generalized_text time.now) }
    ensures refuses { IfErr result (IsUnwrittenGeneralized time.now) }
{
    let moment = moment_of_time(time);
    if !is_within(moment, FIRST, LAST) {
        return Err(TimeFault::OutOfYears);
    }
    match text_of(alloc, fields_of_moment(moment)) {
        Ok(text) => Ok(text),
        Err(_) => Err(TimeFault::OutOfMemory),
    }
}
