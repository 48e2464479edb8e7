//! Defines what makes times of civil values. Where a trait is in scope, its constructor is called
//! as one of the type, as `Date::new(day)`.
ghost use Rattle.std.specs.Prelude.{◌≡◌, ◌≢◌, ◌↔◌, IfSome, IsNone};
ghost use Rattle.jiff_core.specs.Date.{epoch_day};
ghost use Rattle.jiff_core.specs.DateTime.{civil_nanos, civil_seconds};

use asn_times::{Date, GeneralizedTime, UtcTime};
use jiff::civil;
use jiff_core::civil as plain;

/// Makes a date of a day of the calendar, and gives it back.
pub trait CivilDate {
    /// Returns the date of the day, which may lie in any year of the calendar.
    fn new(day: civil::Date) -> Self;

    /// Returns the day.
    fn day(&self) -> civil::Date;
}

/// Counts the days.
impl CivilDate for Date {
    fn new(day: civil::Date) -> Date
        ensures { result ≡ epoch_day day }
    {
        // The calendar has the day.
        Date::from_days(day.to_plain().to_unix_epoch_day()).unwrap()
    }

    fn day(&self) -> civil::Date
        ensures { epoch_day result ≡ self.now }
    {
        let day = plain::Date::from_unix_epoch_day(self.days() as i64).unwrap();
        civil::Date::from_plain(day)
    }
}

/// Makes a time of whole seconds of a moment, and gives it back.
pub trait CivilUtcTime {
    /// Returns the time of the moment, which is taken as one in UTC, or `None` where it has a
    /// fraction of a second.
    fn new(moment: civil::DateTime) -> Option<Self>;

    /// Returns the moment as a date and a time of day in UTC, without a fraction of a second.
    fn moment(&self) -> civil::DateTime;
}

/// Counts the seconds.
impl CivilUtcTime for UtcTime {
    fn new(moment: civil::DateTime) -> Option<UtcTime>
        ensures none { IsNone result ↔ (moment.time.subsec_nanosecond ≢ 0) }
        ensures value { IfSome result (λ time. time ≡ civil_seconds moment) }
    {
        let moment = moment.to_plain();
        if moment.time.subsec_nanosecond == 0 {
            // The calendar has the moment.
            Some(UtcTime::from_seconds(moment.to_second()).unwrap())
        } else {
            None
        }
    }

    fn moment(&self) -> civil::DateTime
        ensures value { civil_seconds result ≡ self.now }
        ensures whole { result.time.subsec_nanosecond ≡ 0 }
    {
        let nanoseconds = self.seconds() as i128 * 1_000_000_000;
        civil::DateTime::from_plain(plain::DateTime::from_nanosecond_in_range(nanoseconds))
    }
}

/// Makes a time of a moment, and gives it back.
pub trait CivilGeneralizedTime {
    /// Returns the time of the moment, which is taken as one in UTC.
    fn new(moment: civil::DateTime) -> Self;

    /// Returns the moment as a date and a time of day in UTC.
    fn moment(&self) -> civil::DateTime;
}

/// Counts the nanoseconds.
impl CivilGeneralizedTime for GeneralizedTime {
    fn new(moment: civil::DateTime) -> GeneralizedTime
        ensures { result ≡ civil_nanos moment }
    {
        // The calendar has the moment.
        GeneralizedTime::from_nanoseconds(moment.to_plain().to_nanosecond()).unwrap()
    }

    fn moment(&self) -> civil::DateTime
        ensures { civil_nanos result ≡ self.now }
    {
        let moment = plain::DateTime::from_nanosecond_in_range(self.nanoseconds());
        civil::DateTime::from_plain(moment)
    }
}
