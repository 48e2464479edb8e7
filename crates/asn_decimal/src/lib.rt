//! Makes an ASN.1 type of the whole numbers from 2^63 to 2^64-1, which are kept as the text of
//! their digits.
#![tactic(auto)]

mod digits;

pub use digits::{Decimal, no_decimal};
