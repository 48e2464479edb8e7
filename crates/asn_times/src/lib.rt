//! Defines the time types of ASN.1 (X.680, sections 38, 46 and 47), which hold numbers of days,
//! seconds and nanoseconds since 1970 in UTC, and reads and writes the texts that state them:
//! UTCTime, GeneralizedTime and DATE. Each type has a grammar in `specs/`, by which a text means at
//! most one time; a reader goes through the text once from the left, and a writer writes the one
//! canonical text. The calendar is `jiff`'s: no public item names a type of it, since each crate
//! above would then carry its statements. `asn_civil` makes times of its values.
#![tactic(auto)]

pub mod dates;
mod digits;
pub mod faults;
pub mod generalized_times;
pub mod laws;
mod moments;
pub mod utc_times;

pub use dates::{Date, read_date, write_date};
pub use faults::TimeFault;
pub use generalized_times::{GeneralizedTime, read_generalized, write_generalized};
pub use utc_times::{UtcTime, read_utc, write_utc};
