//! Reads a text of the ASN.1 value notation (X.680) by its characters: runs of them, what they
//! begin, and the octets that digits between apostrophes are.
#![tactic(auto)]

mod bit_pairs;
pub mod chars;
mod cursor;
mod hex_digits;

pub use chars::CharSet;
pub use cursor::Cursor;
pub use hex_digits::HexDigits;
