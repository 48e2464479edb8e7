//! Checks the numbers of items and bits. A number is known where it is stated in decimal digits of
//! at most 64 bits. An ENUMERATED with another one, as by the name of a value, is passed over, and
//! so is each bit with one.

mod check;
mod faults;
mod free;
mod numbered;
mod rules;
mod stated;

pub use check::check_numbers;
pub use stated::number_of;
