//! Defines the integer types of the language as numbers of a range, by sign and magnitude. So the
//! notations write and read one kind of number, and each type takes those of its range. INTEGER is
//! X.680, section 19.
ghost use Rattle.asn_core.specs.Numbers.{OfParts, signed, is_negative, magnitude};
ghost use Rattle.asn_model.specs.Readable.{has_128_bits};
ghost use Rattle.asn_integers.specs.SetElements.{signed_alike, unsigned_alike};
ghost use Rattle.std.specs.Prelude.{◌≡◌, ◌↔◌, ◌⊎◌, Bool, ℕ, ℤ, pos, negsuc, ◌-◌, ◌^◌, ◌≤◌, ◌<◌, ◌<ℤ◌};
ghost use Rattle.std.specs.Prelude.{◌≤ℤ◌, IfSome, true, refl};

use std::hash::Hash;

/// Describes an integer type: every whole number from `LEAST` to `GREATEST`, in `WIDTH` bits.
pub trait IntegerType: Copy + Eq + Hash {
    /// Counts the bits of the type, which an overflow states.
    const WIDTH: u32;

    /// Holds the least number of the type.
    const LEAST: i128;

    /// Holds the greatest number of the type.
    const GREATEST: u128;

    // The same three for contracts, which see numbers without a type.
    ghost WIDTH: { ℕ };

    ghost LEAST: { ℤ };

    ghost GREATEST: { ℕ };

    // The number that a value is.
    ghost number: { Self → ℤ };

    /// Returns the value of the number with this sign and magnitude, or `None` exactly where the
    /// number is outside `LEAST` to `GREATEST`. A negative zero is zero.
    fn of_parts(negative: bool, magnitude: u128) -> Option<Self>
        ensures { OfParts number LEAST GREATEST (signed negative magnitude) result };

    /// Returns the sign and the magnitude. The sign is true exactly below zero.
    fn parts(&self) -> (bool, u128)
        ensures sign { result.0 ≡ is_negative (number self.now) }
        ensures size { result.1 ≡ magnitude (number self.now) }
        ensures low { LEAST ≤ℤ number self.now }
        ensures high { number self.now ≤ℤ pos GREATEST };

    // The numbers have at most 128 bits, signed or unsigned.
    ghost narrow: { has_128_bits LEAST (pos GREATEST) ≡ true };

    // Values are equal exactly where their numbers are.
    ghost alike: { (a b : Self) → (Self.PartialEq.eq a b ≡ true) ↔ (number a ≡ number b) };
}

/// States a law: a number of more than 128 bits is none of an integer type.
pub fn beyond_128_bits<I: IntegerType>()
    ensures { (negative : Bool) (n : ℕ) → 2 ^ 128 ≤ n
        → (signed negative n <ℤ I.LEAST) ⊎ (pos I.GREATEST <ℤ signed negative n) }
{
    // The constants are named, so that the proof has the facts of the type.
    let _least = I::LEAST;
    let _greatest = I::GREATEST;
}

/// Returns the number of this sign and magnitude, if it is from zero to `greatest`.
fn unsigned_from_parts(negative: bool, magnitude: u128, greatest: u128) -> Option<u128>
    ensures number { OfParts pos (pos 0) greatest (signed negative magnitude) result }
    ensures fits { IfSome result (λ n. n ≤ greatest) }
{
    if magnitude > greatest || (negative && magnitude > 0) {
        None
    } else {
        Some(magnitude)
    }
}

/// Returns the number of this sign and magnitude, if it is from `-greatest - 1` to `greatest`.
fn signed_from_parts(negative: bool, magnitude: u128, greatest: u128) -> Option<i128>
    requires { greatest < 2 ^ 127 }
    ensures { OfParts (λ n. n) (negsuc greatest) greatest (signed negative magnitude) result }
{
    if negative && magnitude > 0 {
        // One less than the magnitude fits, even at the least number, whose magnitude doesn't.
        let below = magnitude - 1;
        if below > greatest {
            None
        } else {
            Some(-1 - below as i128)
        }
    } else if magnitude > greatest {
        None
    } else {
        Some(magnitude as i128)
    }
}

/// Has the numbers from 0 to 255.
impl IntegerType for u8 {
    const WIDTH: u32 = u8::BITS;

    const LEAST: i128 = 0;

    const GREATEST: u128 = u8::MAX as u128;

    ghost WIDTH = { 8 };

    ghost LEAST = { pos 0 };

    ghost GREATEST = { 2 ^ 8 - 1 };

    ghost number = { pos };

    // The cast loses nothing: the number is at most `GREATEST`.
    fn of_parts(negative: bool, magnitude: u128) -> Option<u8> {
        Some(unsigned_from_parts(negative, magnitude, Self::GREATEST)? as u8)
    }

    fn parts(&self) -> (bool, u128) {
        (false, *self as u128)
    }

    ghost narrow = { refl };

    ghost alike = { unsigned_alike };
}

/// Has the numbers from 0 to 2^16-1.
impl IntegerType for u16 {
    const WIDTH: u32 = u16::BITS;

    const LEAST: i128 = 0;

    const GREATEST: u128 = u16::MAX as u128;

    ghost WIDTH = { 16 };

    ghost LEAST = { pos 0 };

    ghost GREATEST = { 2 ^ 16 - 1 };

    ghost number = { pos };

    fn of_parts(negative: bool, magnitude: u128) -> Option<u16> {
        Some(unsigned_from_parts(negative, magnitude, Self::GREATEST)? as u16)
    }

    fn parts(&self) -> (bool, u128) {
        (false, *self as u128)
    }

    ghost narrow = { refl };

    ghost alike = { unsigned_alike };
}

/// Has the numbers from 0 to 2^32-1.
impl IntegerType for u32 {
    const WIDTH: u32 = u32::BITS;

    const LEAST: i128 = 0;

    const GREATEST: u128 = u32::MAX as u128;

    ghost WIDTH = { 32 };

    ghost LEAST = { pos 0 };

    ghost GREATEST = { 2 ^ 32 - 1 };

    ghost number = { pos };

    fn of_parts(negative: bool, magnitude: u128) -> Option<u32> {
        Some(unsigned_from_parts(negative, magnitude, Self::GREATEST)? as u32)
    }

    fn parts(&self) -> (bool, u128) {
        (false, *self as u128)
    }

    ghost narrow = { refl };

    ghost alike = { unsigned_alike };
}

/// Has the numbers from 0 to 2^64-1.
impl IntegerType for u64 {
    const WIDTH: u32 = u64::BITS;

    const LEAST: i128 = 0;

    const GREATEST: u128 = u64::MAX as u128;

    ghost WIDTH = { 64 };

    ghost LEAST = { pos 0 };

    ghost GREATEST = { 2 ^ 64 - 1 };

    ghost number = { pos };

    fn of_parts(negative: bool, magnitude: u128) -> Option<u64> {
        Some(unsigned_from_parts(negative, magnitude, Self::GREATEST)? as u64)
    }

    fn parts(&self) -> (bool, u128) {
        (false, *self as u128)
    }

    ghost narrow = { refl };

    ghost alike = { unsigned_alike };
}

/// Has the numbers from 0 to 2^128-1.
impl IntegerType for u128 {
    const WIDTH: u32 = u128::BITS;

    const LEAST: i128 = 0;

    const GREATEST: u128 = u128::MAX;

    ghost WIDTH = { 128 };

    ghost LEAST = { pos 0 };

    ghost GREATEST = { 2 ^ 128 - 1 };

    ghost number = { pos };

    fn of_parts(negative: bool, magnitude: u128) -> Option<u128> {
        unsigned_from_parts(negative, magnitude, Self::GREATEST)
    }

    fn parts(&self) -> (bool, u128) {
        (false, *self)
    }

    ghost narrow = { refl };

    ghost alike = { unsigned_alike };
}

/// Has the numbers of a machine word without a sign, which has 64 bits.
impl IntegerType for usize {
    const WIDTH: u32 = usize::BITS;

    const LEAST: i128 = 0;

    const GREATEST: u128 = usize::MAX as u128;

    ghost WIDTH = { 64 };

    ghost LEAST = { pos 0 };

    ghost GREATEST = { 2 ^ 64 - 1 };

    ghost number = { pos };

    fn of_parts(negative: bool, magnitude: u128) -> Option<usize> {
        Some(unsigned_from_parts(negative, magnitude, Self::GREATEST)? as usize)
    }

    fn parts(&self) -> (bool, u128) {
        (false, *self as u128)
    }

    ghost narrow = { refl };

    ghost alike = { unsigned_alike };
}

/// Has the numbers from -128 to 127.
impl IntegerType for i8 {
    const WIDTH: u32 = i8::BITS;

    const LEAST: i128 = i8::MIN as i128;

    const GREATEST: u128 = i8::MAX as u128;

    ghost WIDTH = { 8 };

    ghost LEAST = { negsuc (2 ^ 7 - 1) };

    ghost GREATEST = { 2 ^ 7 - 1 };

    ghost number = { λ n. n };

    // The cast loses nothing: the number is from `LEAST` to `GREATEST`.
    fn of_parts(negative: bool, magnitude: u128) -> Option<i8> {
        Some(signed_from_parts(negative, magnitude, Self::GREATEST)? as i8)
    }

    // The magnitude is taken in `i128`, where that of the least number fits.
    fn parts(&self) -> (bool, u128) {
        (*self < 0, (*self as i128).unsigned_abs())
    }

    ghost narrow = { refl };

    ghost alike = { signed_alike };
}

/// Has the numbers from -2^15 to 2^15-1.
impl IntegerType for i16 {
    const WIDTH: u32 = i16::BITS;

    const LEAST: i128 = i16::MIN as i128;

    const GREATEST: u128 = i16::MAX as u128;

    ghost WIDTH = { 16 };

    ghost LEAST = { negsuc (2 ^ 15 - 1) };

    ghost GREATEST = { 2 ^ 15 - 1 };

    ghost number = { λ n. n };

    fn of_parts(negative: bool, magnitude: u128) -> Option<i16> {
        Some(signed_from_parts(negative, magnitude, Self::GREATEST)? as i16)
    }

    fn parts(&self) -> (bool, u128) {
        (*self < 0, (*self as i128).unsigned_abs())
    }

    ghost narrow = { refl };

    ghost alike = { signed_alike };
}

/// Has the numbers from -2^31 to 2^31-1.
impl IntegerType for i32 {
    const WIDTH: u32 = i32::BITS;

    const LEAST: i128 = i32::MIN as i128;

    const GREATEST: u128 = i32::MAX as u128;

    ghost WIDTH = { 32 };

    ghost LEAST = { negsuc (2 ^ 31 - 1) };

    ghost GREATEST = { 2 ^ 31 - 1 };

    ghost number = { λ n. n };

    fn of_parts(negative: bool, magnitude: u128) -> Option<i32> {
        Some(signed_from_parts(negative, magnitude, Self::GREATEST)? as i32)
    }

    fn parts(&self) -> (bool, u128) {
        (*self < 0, (*self as i128).unsigned_abs())
    }

    ghost narrow = { refl };

    ghost alike = { signed_alike };
}

/// Has the numbers from -2^63 to 2^63-1.
impl IntegerType for i64 {
    const WIDTH: u32 = i64::BITS;

    const LEAST: i128 = i64::MIN as i128;

    const GREATEST: u128 = i64::MAX as u128;

    ghost WIDTH = { 64 };

    ghost LEAST = { negsuc (2 ^ 63 - 1) };

    ghost GREATEST = { 2 ^ 63 - 1 };

    ghost number = { λ n. n };

    fn of_parts(negative: bool, magnitude: u128) -> Option<i64> {
        Some(signed_from_parts(negative, magnitude, Self::GREATEST)? as i64)
    }

    fn parts(&self) -> (bool, u128) {
        (*self < 0, (*self as i128).unsigned_abs())
    }

    ghost narrow = { refl };

    ghost alike = { signed_alike };
}

/// Has the numbers from -2^127 to 2^127-1.
impl IntegerType for i128 {
    const WIDTH: u32 = i128::BITS;

    const LEAST: i128 = i128::MIN;

    const GREATEST: u128 = i128::MAX as u128;

    ghost WIDTH = { 128 };

    ghost LEAST = { negsuc (2 ^ 127 - 1) };

    ghost GREATEST = { 2 ^ 127 - 1 };

    ghost number = { λ n. n };

    fn of_parts(negative: bool, magnitude: u128) -> Option<i128> {
        signed_from_parts(negative, magnitude, Self::GREATEST)
    }

    fn parts(&self) -> (bool, u128) {
        (*self < 0, self.unsigned_abs())
    }

    ghost narrow = { refl };

    ghost alike = { signed_alike };
}

/// Has the numbers of a machine word with a sign, which has 64 bits.
impl IntegerType for isize {
    const WIDTH: u32 = isize::BITS;

    const LEAST: i128 = isize::MIN as i128;

    const GREATEST: u128 = isize::MAX as u128;

    ghost WIDTH = { 64 };

    ghost LEAST = { negsuc (2 ^ 63 - 1) };

    ghost GREATEST = { 2 ^ 63 - 1 };

    ghost number = { λ n. n };

    fn of_parts(negative: bool, magnitude: u128) -> Option<isize> {
        Some(signed_from_parts(negative, magnitude, Self::GREATEST)? as isize)
    }

    fn parts(&self) -> (bool, u128) {
        (*self < 0, (*self as i128).unsigned_abs())
    }

    ghost narrow = { refl };

    ghost alike = { signed_alike };
}
