//! Defines DATE (X.680, section 38): a day, and its text `YYYY-MM-DD`. Years go from 0000 to 9999.
//! The readers of moments use its fields and its calendar too.
ghost use Rattle.std.specs.Prelude.{◌≡◌, pos, ◌≤ℤ◌, IfOk, IfErr, IfSome, IsSome, MatchOption};
ghost use Rattle.std.specs.Prelude.{IsTrue, ◌↔◌, true};
ghost use Rattle.std.specs.Option.{option_map};
ghost use Rattle.std.specs.String.{string_bytes};
ghost use Rattle.jiff_core.specs.Calendar.{IsEpochDay};
ghost use Rattle.jiff_core.specs.Date.{epoch_day};
ghost use Rattle.asn_times.specs.declared.faults.TimeFault.TheVariants.{InvalidDate, OutOfMemory};
ghost use Rattle.asn_times.specs.Days.{day_digits, DayReads, StatesNoDay, IsSmallDay, IsRealDay};
ghost use Rattle.asn_times.specs.Days.{HasDay, IsUnwrittenDay};
ghost use Rattle.asn_times.specs.Held.{is_held_day};
ghost use Rattle.asn_times.specs.Reading.{dash, day_fields};
ghost use Rattle.asn_times.specs.Written.{day_text};

use crate::digits::{push_char, push_four, push_two, read_four, read_two};
use crate::faults::TimeFault;
use jiff::civil;
use jiff_core::civil as plain;
use std::alloc::Global;
use std::marker::Model;

/// Holds a day. Contracts see the number of days since 1970-01-01.
#[derive(Clone, Copy, Debug)]
pub struct Date {
    /// Counts the days since 1970-01-01.
    days: i32,
}

/// Lets contracts see the number of the day. The invariant is that the calendar has it.
impl Model for Date {
    ghost use Rattle.std.specs.Prelude.{ℤ};
    ghost use Rattle.jiff_core.specs.Calendar.{IsEpochDay};

    ghost Value = { ℤ };

    ghost view = { λ a. a.days };

    ghost invariant = { λ a. IsEpochDay a.days };

    ghost inverse = { λ n. record { days = n } };
}

/// Makes a date of the number of a day, and gives it back.
impl Date {
    /// Returns the date of the day that many days after 1970-01-01, or `None` where it lies outside
    /// the years -9999 to 9999.
    pub fn from_days(days: i32) -> Option<Date>
        ensures some { IsSome result ↔ (is_held_day days ≡ true) }
        ensures value { IfSome result (λ date. date ≡ days) }
    {
        match plain::Date::from_unix_epoch_day(days as i64) {
            Ok(_) => Some(Date { days }),
            Err(_) => None,
        }
    }

    /// Returns the number of days since 1970-01-01.
    pub fn days(&self) -> i32
        ensures value { result ≡ self.now }
        ensures held { is_held_day result ≡ true }
    {
        self.days
    }
}

/// Returns the day as the calendar has it.
fn civil_of(date: &Date) -> civil::Date
    ensures { epoch_day result ≡ date.now }
{
    // The calendar has the day of a date.
    let day = plain::Date::from_unix_epoch_day(date.days as i64).unwrap();
    civil::Date::from_plain(day)
}

/// Compares two dates: they are equal where they are the same day.
impl PartialEq for Date {
    ghost use Rattle.std.specs.Ordering.{int_eq};
    ghost use Rattle.std.specs.Cmp.Rules.{comparing};
    ghost use Rattle.std.proofs.Common.{rules};

    ghost eq = { int_eq };

    ghost laws = { Prim.search (comparing, rules) };

    fn eq(&self, other: &Date) -> bool
        ensures { IsTrue result ↔ (self.now ≡ other.now) }
    {
        self.days == other.days
    }
}

/// States that the comparison is an equivalence.
impl Eq for Date {
    ghost use Rattle.std.specs.Cmp.Rules.{comparing};
    ghost use Rattle.std.proofs.Common.{rules};

    ghost laws = { Prim.search (comparing, rules) };
}

/// Holds the numbers of a text of DATE, which need not be those of a day.
#[derive(Clone, Copy)]
pub struct DayFields {
    /// Counts years from 0000, in four digits.
    pub(crate) year: u16,
    /// Counts months, in two digits: 01 is January.
    pub(crate) month: u8,
    /// Counts the days of the month from 01, in two digits.
    pub(crate) day: u8,
}

/// Returns what follows a dash, or `None` where none stands in front.
fn skip_dash(bytes: &[u8]) -> Option<&[u8]>
    ensures { option_map (λ rest. rest.now) result ≡ dash bytes.now }
{
    match bytes {
        [b'-', rest @ ..] => Some(rest),
        _ => None,
    }
}

/// Reads `YYYY-MM-DD` to the end of the text, or returns `None` where it has another form. The
/// numbers fit their digits and no more is known of them (`small`).
fn read_fields(bytes: &[u8]) -> Option<DayFields>
    ensures is { result ≡ day_fields bytes.now }
    ensures small { IfSome result IsSmallDay }
{
    let (year, rest) = read_four(bytes)?;
    let (month, rest) = read_two(skip_dash(rest)?)?;
    let (day, rest) = read_two(skip_dash(rest)?)?;
    if rest.is_empty() {
        Some(DayFields { year, month, day })
    } else {
        None
    }
}

/// Returns the day of the fields, or `None` where the calendar has none, as 2023-02-29.
pub(crate) fn day_of(fields: DayFields) -> Option<civil::Date>
    requires { IsSmallDay fields }
    ensures { MatchOption result (IsRealDay fields → ⊥) (HasDay fields) }
{
    // The casts lose nothing: the fields have four and two digits.
    match civil::Date::new(fields.year as i16, fields.month as i8, fields.day as i8) {
        Ok(day) => Some(day),
        Err(_) => None,
    }
}

/// Returns the day that a text `YYYY-MM-DD` states. It takes no memory.
///
/// # Errors
///
/// `InvalidDate` where the text has another form, or states a day that the calendar lacks.
pub fn read_date(text: &str) -> Result<Date, TimeFault>
    ensures reads { IfOk result (DayReads text.now) }
    ensures refuses { IfErr result (λ e. (e ≡ InvalidDate) × StatesNoDay text.now) }
{
    // The form comes first, then the calendar.
    let fields = match read_fields(text.as_bytes()) {
        Some(fields) => fields,
        None => return Err(TimeFault::InvalidDate),
    };
    match day_of(fields) {
        Some(day) => Ok(Date {
            days: day.to_plain().to_unix_epoch_day(),
        }),
        None => Err(TimeFault::InvalidDate),
    }
}

/// Writes `YYYY-MM-DD` of the fields.
///
/// # Errors
///
/// `OutOfMemory` alone.
fn text_of(alloc: Global, fields: DayFields) -> Result<String, TimeFault>
    requires { IsSmallDay fields }
    ensures text { IfOk result
        (λ text. string_bytes text ≡ day_digits fields.year fields.month fields.day) }
    ensures refused { IfErr result (λ e. e ≡ OutOfMemory) }
{
    let mut text = String::new(alloc);
    push_four(&mut text, fields.year)?;
    push_char(&mut text, '-')?;
    push_two(&mut text, fields.month)?;
    push_char(&mut text, '-')?;
    push_two(&mut text, fields.day)?;
    Ok(text)
}

/// Returns the fields of a day in a year from 0000 on. The calendar has no year above 9999, so the
/// year fits its digits.
pub(crate) fn fields_of(day: civil::Date) -> DayFields
    requires { pos 0 ≤ℤ day.year }
    ensures has { HasDay result day }
    ensures small { IsSmallDay result }
{
    DayFields {
        year: day.year() as u16,
        month: day.month() as u8,
        day: day.day() as u8,
    }
}

/// Returns the day's one text, `YYYY-MM-DD`. Read again, it states the same day (`writes`).
///
/// # Errors
///
/// `OutOfYears` where the year is before 0000; `OutOfMemory`.
pub fn write_date(alloc: Global, day: &Date) -> Result<String, TimeFault>
    ensures writes { IfOk result (λ text. DayReads (string_bytes text) day.now) }
    ensures text { IfOk result (λ text. string_bytes text ≡ day_text day.now) }
    ensures refuses { IfErr result (IsUnwrittenDay day.now) }
{
    let day = civil_of(day);
    if day.year() < 0 {
        return Err(TimeFault::OutOfYears);
    }
    match text_of(alloc, fields_of(day)) {
        Ok(text) => Ok(text),
        Err(_) => Err(TimeFault::OutOfMemory),
    }
}
