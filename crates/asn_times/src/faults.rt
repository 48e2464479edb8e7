//! Defines why a text gives no time, or a time no text.
use thiserror::Error;

/// States why a text gives no time, or a time no text.
#[derive(Debug, Drop, Error)]
pub enum TimeFault {
    /// The text has another form, or the calendar and the clock lack what it states, or the time
    /// lies outside the years of its type.
    #[error("invalid date")]
    InvalidDate,
    /// The text of such a time has no room for its year.
    #[error("time outside the years of its text")]
    OutOfYears,
    /// Memory ran out.
    #[error("Out of memory")]
    OutOfMemory,
}
