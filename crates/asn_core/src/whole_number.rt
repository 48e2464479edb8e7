//! Defines whole numbers of any sign, of up to 128 bits.
ghost use Rattle.asn_core.specs.Texts.{whole_number_text};
ghost use Rattle.std.specs.Prelude.{Some};

use std::fmt;

/// Is the widest signed whole number.
pub type Integer = i128;

/// Holds a whole number by its sign and its magnitude, as an error names it.
/// It covers every number of `i128` and of `u128`. A negative zero is zero.
#[derive(Clone, Copy, Debug, PartialEq, Eq)]
pub struct WholeNumber {
    /// Whether the number is below zero; of no effect where the magnitude is zero.
    pub negative: bool,
    /// The number without its sign.
    pub magnitude: u128,
}

/// Prints `-` where the number is below zero, then its digits in decimal.
impl fmt::Display for WholeNumber {
    ghost output = { λ n. Some (whole_number_text n) };

    fn fmt<W: fmt::Write>(&self, f: &mut fmt::Formatter<W>) -> fmt::Result {
        if self.negative && self.magnitude > 0 {
            f.write_str("-")?;
        }
        self.magnitude.fmt(f)
    }
}
