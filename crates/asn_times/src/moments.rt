//! Reads and writes what the texts of moments share: `MMDDhhmm`, the zone, and the moment in UTC
//! that local time and its offset mean.
ghost use Rattle.std.specs.Prelude.{◌≡◌, ◌<◌, ◌++◌, ◌↔◌, IsTrue, pos, neg_ℤ, ◌<ℤ◌, ◌≤ℤ◌, IfSome};
ghost use Rattle.std.specs.Prelude.{IfErr, OnOk, MatchOption};
ghost use Rattle.std.specs.Option.{option_map};
ghost use Rattle.std.specs.String.{string_bytes};
ghost use Rattle.jiff_core.specs.Calendar.{IsBetween};
ghost use Rattle.asn_times.specs.declared.faults.TimeFault.TheVariants.{OutOfMemory};
ghost use Rattle.asn_times.specs.Days.{HasDay, IsSmallDay};
ghost use Rattle.asn_times.specs.Moments.{minute_digits, HasClock, HasMoment, HasNoMoment};
ghost use Rattle.asn_times.specs.Moments.{IsRealClock, IsSmallClock, IsSmallMoment};
ghost use Rattle.asn_times.specs.Reading.{length_of_offset, minute_fields, zone};

use crate::dates::{DayFields, day_of, fields_of};
use crate::digits::{push_two, read_two};
use crate::faults::TimeFault;
use jiff::SignedDuration;
use jiff::civil::{DateTime, Time};

/// Holds a time of day, as a text states it.
#[derive(Clone, Copy)]
pub struct ClockFields {
    /// Counts hours, in two digits.
    pub(crate) hour: u8,
    /// Counts minutes, in two digits.
    pub(crate) minute: u8,
    /// Counts seconds, in two digits.
    pub(crate) second: u8,
    /// Counts the nanoseconds of the fraction of a second.
    pub(crate) nanosecond: u32,
}

/// Holds a local date and time of day with its offset from UTC, as a text states it.
#[derive(Clone, Copy)]
pub struct MomentFields {
    /// Holds the local date.
    pub(crate) day: DayFields,
    /// Holds the local time of day.
    pub(crate) clock: ClockFields,
    /// Counts the seconds that local time is ahead of UTC.
    pub(crate) offset: i32,
}

/// Reads `hhmm` to the end of the text, and returns its seconds, less than a day, or `None` where
/// the text has another form, 24 hours or 60 minutes.
fn read_length(bytes: &[u8]) -> Option<i32>
    ensures is { result ≡ option_map pos (length_of_offset bytes.now) }
    ensures small { IfSome result (λ n. n <ℤ pos 86400) }
    ensures positive { IfSome result (λ n. pos 0 ≤ℤ n) }
{
    let (hours, rest) = read_two(bytes)?;
    let (minutes, rest) = read_two(rest)?;
    if rest.is_empty() && hours < 24 && minutes < 60 {
        Some(hours as i32 * 3600 + minutes as i32 * 60)
    } else {
        None
    }
}

/// Reads `Z`, `+hhmm` or `-hhmm` to the end of the text, and returns the seconds that local time
/// is ahead of UTC, or `None` where the text has another form.
pub(crate) fn read_zone(bytes: &[u8]) -> Option<i32>
    ensures is { result ≡ zone bytes.now }
    ensures small { IfSome result (IsBetween (neg_ℤ (pos 86400)) (pos 86400)) }
{
    match bytes {
        [b'Z'] => Some(0),
        [b'+', rest @ ..] => read_length(rest),
        [b'-', rest @ ..] => Some(-read_length(rest)?),
        _ => None,
    }
}

/// Reads `MMDDhhmm` of a year, and returns it at the start of its minute in UTC with what follows,
/// or `None` where eight digits are not in front.
pub(crate) fn read_minute(year: u16, bytes: &[u8]) -> Option<(MomentFields, &[u8])>
    requires { year < 10_000 }
    ensures is { option_map (λ p. (p.0, p.1.now)) result ≡ minute_fields year bytes.now }
    ensures small { IfSome result (λ p. IsSmallMoment p.0) }
{
    let (month, rest) = read_two(bytes)?;
    let (day, rest) = read_two(rest)?;
    let (hour, rest) = read_two(rest)?;
    let (minute, rest) = read_two(rest)?;
    // The second, the fraction and the zone are 0 until the caller has read them.
    let fields = MomentFields {
        day: DayFields { year, month, day },
        clock: ClockFields {
            hour,
            minute,
            second: 0,
            nanosecond: 0,
        },
        offset: 0,
    };
    Some((fields, rest))
}

/// Returns the time of day of the fields, or `None` where the clock has none, as 24:00 or a
/// second 60.
fn time_of(fields: ClockFields) -> Option<Time>
    requires { IsSmallClock fields }
    ensures { MatchOption result (IsRealClock fields → ⊥) (HasClock fields) }
{
    // The casts lose nothing: the fields fit their digits.
    match Time::new(
        fields.hour as i8,
        fields.minute as i8,
        fields.second as i8,
        fields.nanosecond as i32,
    ) {
        Ok(time) => Some(time),
        Err(_) => None,
    }
}

/// Returns whether the moment's year lies from `first` to `last`, both included.
pub(crate) fn is_within(moment: DateTime, first: i16, last: i16) -> bool
    ensures { IsTrue result ↔ IsBetween first last moment.date.year }
{
    first <= moment.year() && moment.year() <= last
}

/// Returns the moment of the fields in UTC, or `None` where there is none with a year from `first`
/// to `last`: the local day or time of day is none, or UTC is in another year.
pub(crate) fn moment_of(fields: MomentFields, first: i16, last: i16) -> Option<DateTime>
    requires { IsSmallMoment fields }
    ensures { MatchOption result (HasNoMoment first last fields) (HasMoment first last fields) }
{
    let date = day_of(fields.day)?;
    let time = time_of(fields.clock)?;
    // UTC is local time minus what it is ahead. At an end of the calendar there may be no such day.
    let local = DateTime::from_parts(date, time);
    let offset = SignedDuration::from_secs(fields.offset as i64);
    match local.checked_sub(offset) {
        Ok(utc) => {
            if is_within(utc, first, last) {
                Some(utc)
            } else {
                None
            }
        }
        Err(_) => None,
    }
}

/// Returns the fields of the time of day.
fn clock_of(time: Time) -> ClockFields
    ensures has { HasClock result time }
    ensures small { IsSmallClock result }
{
    ClockFields {
        hour: time.hour() as u8,
        minute: time.minute() as u8,
        second: time.second() as u8,
        nanosecond: time.subsec_nanosecond() as u32,
    }
}

/// Returns the fields of a moment in UTC, whose year is 0000 at least, with an offset of 0.
pub(crate) fn fields_of_moment(moment: DateTime) -> MomentFields
    requires { pos 0 ≤ℤ moment.date.year }
    ensures day { HasDay result.day moment.date }
    ensures clock { HasClock result.clock moment.time }
    ensures offset { result.offset ≡ pos 0 }
    ensures small { IsSmallMoment result }
{
    MomentFields {
        day: fields_of(moment.date()),
        clock: clock_of(moment.time()),
        offset: 0,
    }
}

/// Adds `MMDDhhmm` to the text.
///
/// # Errors
///
/// `OutOfMemory` alone, and then a part of the digits may be there.
pub(crate) fn push_minute(text: &mut String, fields: MomentFields) -> Result<(), TimeFault>
    requires { IsSmallMoment fields }
    ensures written { OnOk result
        (string_bytes text.new ≡ string_bytes text.old ++ minute_digits fields) }
    ensures refused { IfErr result (λ e. e ≡ OutOfMemory) }
{
    push_two(text, fields.day.month)?;
    push_two(text, fields.day.day)?;
    push_two(text, fields.clock.hour)?;
    push_two(text, fields.clock.minute)
}
