//! Defines what is wrong with a string of octets, digits or units, as kinds of errors hold it.
ghost use Rattle.asn_fault.specs.Texts.{digit_fault_text};
ghost use Rattle.std.specs.Prelude.{Some, decimal};

use std::fmt;

/// States why a text is no number in the digits of its base.
#[derive(Clone, Copy, Debug, PartialEq, Eq)]
pub enum DigitFault {
    /// The text has no digit.
    Empty,
    /// The text has a character that is no digit of the base.
    InvalidDigit,
    /// The number is greater than the type holds.
    TooLarge,
}

/// Prints what is wrong in lower case.
impl fmt::Display for DigitFault {
    ghost output = { λ fault. Some (digit_fault_text fault) };

    fn fmt<W: fmt::Write>(&self, f: &mut fmt::Formatter<W>) -> fmt::Result {
        f.write_str(match self {
            DigitFault::Empty => "empty",
            DigitFault::InvalidDigit => "invalid digit",
            DigitFault::TooLarge => "too large",
        })
    }
}

/// States where a string stops being text.
#[derive(Clone, Copy, Debug, PartialEq, Eq)]
pub struct Utf8Fault {
    /// Counts the octets before the first one that begins no UTF-8 character, or the 16-bit units
    /// before the first surrogate.
    pub valid_up_to: usize,
}

/// Prints the number of octets or units before the fault, in decimal.
impl fmt::Display for Utf8Fault {
    ghost output = { λ fault. Some (decimal fault.valid_up_to) };

    fn fmt<W: fmt::Write>(&self, f: &mut fmt::Formatter<W>) -> fmt::Result {
        self.valid_up_to.fmt(f)
    }
}
