//! Tests texts as they are read and written again, days and moments by direct calls, and the texts
//! of faults. The expected values follow from the forms of X.680 and the calendar.
use crate::checks::{assert_of, assert_printed, assert_same, assert_text, assert_true};
use asn_civil::{CivilDate, CivilGeneralizedTime, CivilUtcTime};
use asn_times::{
    Date, GeneralizedTime, TimeFault, UtcTime, read_date, read_generalized, read_utc, write_date,
    write_generalized, write_utc,
};
use jiff::civil;
use std::alloc::Global;
use std::process::Abort;

/// Names the grammar of a text.
#[derive(Clone, Copy)]
enum Form {
    /// Is DATE.
    Day,
    /// Is UTCTime.
    Utc,
    /// Is GeneralizedTime.
    Generalized,
}

/// Lists texts, each with its grammar and as it is written again: empty, if it is refused.
const ROWS: [(Form, &str, &str); 26] = [
    (Form::Day, "2024-02-29", "2024-02-29"),
    (Form::Day, "2023-02-29", ""),
    (Form::Day, "2024-13-01", ""),
    (Form::Day, "2024-1-01", ""),
    (Form::Utc, "2301221300+0100", "230122120000Z"),
    (Form::Utc, "500101000000-2359", "500101235900Z"),
    (Form::Utc, "2402291300Z", "240229130000Z"),
    (Form::Utc, "230122130000-050Z", ""),
    (Form::Utc, "2302291300Z", ""),
    (Form::Utc, "2301222400Z", ""),
    (Form::Utc, "230122130060Z", ""),
    (Form::Utc, "2301221300+2400", ""),
    (Form::Utc, "2301221300z", ""),
    (Form::Utc, "4912312359-0001", ""),
    (Form::Utc, "5001010000+0001", ""),
    (Form::Utc, "2301221300", ""),
    (
        Form::Generalized,
        "20240229120000.500+0130",
        "20240229103000.5Z",
    ),
    (
        Form::Generalized,
        "20240229120000,000000001",
        "20240229120000.000000001Z",
    ),
    (Form::Generalized, "20240229120000.000Z", "20240229120000Z"),
    (Form::Generalized, "99991231235959", "99991231235959Z"),
    (Form::Generalized, "20240229120000.1234567891", ""),
    (Form::Generalized, "20240229120000.Z", ""),
    (Form::Generalized, "20240229120000.5z", ""),
    (Form::Generalized, "202402291200Z", ""),
    (Form::Generalized, "99991231235959-0001", ""),
    (Form::Generalized, "00000101000000+0001", ""),
];

/// Reads a text and writes what it means.
///
/// # Errors
///
/// Those of the reader and the writer.
fn rewritten(alloc: Global, form: Form, text: &str) -> Result<String, TimeFault> {
    match form {
        Form::Day => {
            let day = read_date(text)?;
            write_date(alloc, &day)
        }
        Form::Utc => {
            let time = read_utc(text)?;
            write_utc(alloc, &time)
        }
        Form::Generalized => {
            let time = read_generalized(text)?;
            write_generalized(alloc, &time)
        }
    }
}

/// Returns the fault of the reader, or `None` where it takes the text. It takes no memory.
fn fault_of_reader(form: Form, text: &str) -> Option<TimeFault> {
    match form {
        Form::Day => read_date(text).err(),
        Form::Utc => read_utc(text).err(),
        Form::Generalized => read_generalized(text).err(),
    }
}

/// Checks that a text is written again as this one, or is refused where it is empty.
fn assert_rewritten(rt: &impl Abort, alloc: Global, row: &(Form, &str, &str)) {
    match fault_of_reader(row.0, row.1) {
        Some(fault) => {
            assert_of(rt, matches!(fault, TimeFault::InvalidDate), row.1);
            assert_text(rt, "", row.2);
        }
        None => {
            let written = rewritten(alloc, row.0, row.1).expect(rt, row.1);
            assert_text(rt, written.as_str(), row.2);
        }
    }
}

/// Each text is read and written again, or is refused by the reader: days that the calendar lacks,
/// times of day that the clock lacks, zones of a day and more, and moments that leave the years in
/// UTC.
#[test]
fn texts_are_written_again(rt: HostRuntime) {
    for row in ROWS.iter() {
        assert_rewritten(&rt, rt.alloc(), row);
    }
}

/// The texts of the three faults are exact.
#[test]
fn faults_are_printed(rt: HostRuntime) {
    let years = "time outside the years of its text";
    assert_printed(&rt, rt.alloc(), TimeFault::OutOfYears, years);
    assert_printed(&rt, rt.alloc(), TimeFault::InvalidDate, "invalid date");
    assert_printed(&rt, rt.alloc(), TimeFault::OutOfMemory, "Out of memory");
}

/// Returns whether the years of a text have no room for what was to be written.
fn is_outside(answer: Result<String, TimeFault>) -> bool {
    matches!(answer, Err(TimeFault::OutOfYears))
}

/// A year before 0000 has no text.
#[test]
fn a_year_before_0000_is_not_written(rt: HostRuntime) {
    let day = civil::Date::new(-1, 1, 1).expect(&rt, "no day");
    assert_true(&rt, is_outside(write_date(rt.alloc(), &Date::new(day))));
}

/// A moment of a year before 0000 has no text as GeneralizedTime.
#[test]
fn a_moment_before_0000_is_not_written(rt: HostRuntime) {
    let moment = civil::DateTime::new(-1, 12, 31, 23, 59, 59, 0).expect(&rt, "no moment");
    let before = GeneralizedTime::new(moment);
    assert_true(&rt, is_outside(write_generalized(rt.alloc(), &before)));
}

/// A moment with a fraction of a second is no UTCTime.
#[test]
fn a_fraction_is_no_utc_time(rt: HostRuntime) {
    let moment = civil::DateTime::new(2024, 2, 29, 12, 0, 0, 1).expect(&rt, "no moment");
    assert_true(&rt, UtcTime::new(moment).is_none());
}

/// What was read gives back its day.
#[test]
fn a_day_that_was_read_is_given_back(rt: HostRuntime) {
    let day = read_date("2024-02-29").expect(&rt, "not read").day();
    assert_same(
        &rt,
        day,
        civil::Date::new(2024, 2, 29).expect(&rt, "no day"),
    );
}

/// What was read gives back its moment in UTC.
#[test]
fn a_moment_that_was_read_is_given_back(rt: HostRuntime) {
    let utc = read_utc("2301221300+0100").expect(&rt, "not read").moment();
    let want = civil::DateTime::new(2023, 1, 22, 12, 0, 0, 0);
    assert_same(&rt, utc, want.expect(&rt, "no moment"));
    let read = read_generalized("20240229120000.5+0130");
    let generalized = read.expect(&rt, "not read").moment();
    let want = civil::DateTime::new(2024, 2, 29, 10, 30, 0, 500_000_000);
    assert_same(&rt, generalized, want.expect(&rt, "no moment"));
}
