//! BIT STRING.
ghost use Rattle.asn_core.specs.BitStrings.{IsPadded, all_bits, bits_of, padded};
ghost use Rattle.std.proofs.Common.{rules};
ghost use Rattle.std.specs.Bool.{beq};
ghost use Rattle.std.specs.Cmp.Rules.{comparing};
ghost use Rattle.std.specs.Cmp.Lexicographic.{pointwise};
ghost use Rattle.std.specs.Cmp.{booleans_Decides};
ghost use Rattle.std.specs.Hash as fed;
ghost use Rattle.std.specs.Hash.{same_Alike};
ghost use Rattle.std.proofs.lemmas.Slice.Eq.{slice_eq-Decides};
ghost use Rattle.std.specs.Int.{div_ceil};
ghost use Rattle.std.specs.Option.{SomeIff};
ghost use Rattle.std.specs.Prelude.{◌≡◌, ◌≢◌, ◌↔◌, ◌+◌, ◌-◌, ◌/◌, ◌%◌, ◌<◌, ◌^◌, [], ◌∷◌, ◌++◌};
ghost use Rattle.std.specs.Prelude.{IsTrue, MatchOption, OnErr, OnOk, length, refl, slice_get};
ghost use Rattle.std.specs.Prelude.{vec_len};

use crate::OutOfMemory;
use std::alloc::{AllocError, Global};
use std::hash::{Hash, Hasher};
use std::marker::Model;

/// A bit string (X.680, section 22), seen as the list of its bits. It is held as octets: the first
/// bit is the highest one of the first octet, and the bits that the last octet has beyond the
/// length are zero.
#[derive(Debug, Drop)]
pub struct Bits {
    /// The bits, eight an octet, and zeros after the last one.
    octets: Vec<u8>,
    /// The length in bits.
    bit_count: usize,
}

/// A bit string.
pub type BitString = Bits;

impl Model for Bits {
    ghost use Rattle.asn_core.specs.BitStrings.{IsPadded, bits_of};
    ghost use Rattle.std.specs.Prelude.{Bool, List};

    ghost Value = { List Bool };

    ghost view = { λ b. bits_of b.octets.items b.bit_count };

    ghost invariant = { λ b. IsPadded b.octets.items b.bit_count };
}

impl Bits {
    /// Returns the empty bit string. It takes no memory.
    pub fn new(alloc: Global) -> Bits
        ensures { result ≡ [] }
    {
        Bits {
            octets: Vec::new(alloc),
            bit_count: 0,
        }
    }

    /// Returns the first `length` bits of the octets, or none where there aren't as many octets as
    /// these bits need. It takes no memory. Bits of the last octet past the length are dropped.
    pub fn from_octets(octets: Vec<u8>, length: usize) -> Option<Bits>
        ensures { SomeIff result (vec_len octets ≡ div_ceil length 8)
            (bits_of octets.items length) }
    {
        if octets.len() != length.div_ceil(8) {
            return None;
        }
        Some(Bits::from_first_bits(octets, length))
    }

    /// Returns the first `at_most` bits of the octets, or all of them where there are fewer. It
    /// takes no memory.
    pub fn from_first_bits(octets: Vec<u8>, at_most: usize) -> Bits
        ensures { result ≡ bits_of octets.items at_most }
    {
        let bit_count = if octets.len() <= at_most / 8 {
            octets.len() * 8
        } else {
            at_most
        };
        let mut octets = octets;
        keep_first_bits(&mut octets, at_most);
        Bits { octets, bit_count }
    }

    /// Appends a bit.
    ///
    /// # Errors
    ///
    /// `OutOfMemory`, and then the bit string is as it was.
    pub fn push(&mut self, bit: bool) -> Result<(), OutOfMemory>
        requires { length self.old < usize.MAX }
        ensures pushed { OnOk result (self.new ≡ self.old ++ bit ∷ []) }
        ensures unchanged { OnErr result (self.new ≡ self.old) }
    {
        append_bit(&mut self.octets, self.bit_count, bit)?;
        self.bit_count += 1;
        Ok(())
    }

    /// Takes the last bit, or none where the bit string is empty.
    pub fn pop(&mut self) -> Option<bool>
        ensures { MatchOption result ((self.old ≡ []) × (self.new ≡ []))
            (λ bit. self.old ≡ self.new ++ bit ∷ []) }
    {
        let last = self.bit_count.checked_sub(1)?;
        let bit = bit_at(self.octets.as_slice(), last);
        keep_first_bits(&mut self.octets, last);
        self.bit_count = last;
        Some(bit)
    }

    /// Returns how many bits there are.
    pub fn len(&self) -> usize
        ensures { result ≡ length self.now }
    {
        self.bit_count
    }

    /// Returns whether there are no bits.
    pub fn is_empty(&self) -> bool
        ensures { IsTrue result ↔ (self.now ≡ []) }
    {
        self.bit_count == 0
    }

    /// Returns the bit at the place, or none where the place isn't below the length.
    pub fn get(&self, place: usize) -> Option<bool>
        ensures { result ≡ slice_get self.now place }
    {
        if place >= self.bit_count {
            return None;
        }
        Some(bit_at(self.octets.as_slice(), place))
    }

    /// Returns the octets, the last one padded with zeros.
    pub fn octets(&self) -> &[u8]
        ensures { result.now ≡ padded self.now }
    {
        self.octets.as_slice()
    }

    /// Returns the octets by move, the last one padded with zeros.
    pub fn into_octets(self) -> Vec<u8>
        ensures { result.items ≡ padded self }
    {
        self.octets
    }
}

/// Two bit strings are equal where their bits are.
impl PartialEq for Bits {
    ghost eq = { pointwise beq };

    ghost laws = { Prim.search (comparing, rules) };

    fn eq(&self, other: &Bits) -> bool {
        self.bit_count == other.bit_count && self.octets == other.octets
    }
}

impl Eq for Bits {
    ghost laws = { Prim.search (comparing, rules) };
}

impl Hash for Bits {
    ghost hash_input = { λ bits. fed.slice fed.u8 (padded bits) };

    ghost respects_eq = { (same_Alike (λ bits. fed.slice fed.u8 (padded bits)) (λ one other.
        slice_eq-Decides booleans_Decides one other (pointwise beq one other) refl)).fed };

    fn hash<H: Hasher>(&self, state: &mut H) {
        self.octets.hash(state);
    }
}

/// Returns the bit of the octets at the place.
fn bit_at(octets: &[u8], place: usize) -> bool
    requires { place / 8 < length octets.now }
    ensures { Some result ≡ slice_get (all_bits octets.now) place }
{
    let octet = octets[place / 8];
    (octet >> (7 - place % 8)) % 2 == 1
}

/// Returns the first bits of an octet, with zeros after them.
fn first_bits(octet: u8, count: usize) -> u8
    requires some { count ≢ 0 }
    requires below { count < 8 }
    ensures { result ∷ [] ≡ padded (bits_of (octet ∷ []) count) }
{
    let rest = 8 - count;
    octet >> rest << rest
}

/// Keeps the octets of the first bits, with zeros after these bits. Where the octets end before,
/// all of them stay.
fn keep_first_bits(octets: &mut Vec<u8>, count: usize)
    ensures { octets.new.items ≡ padded (bits_of octets.old.items count) }
{
    octets.truncate(count.div_ceil(8));
    let whole = count / 8;
    if whole < octets.len() {
        octets[whole] = first_bits(octets[whole], count % 8);
    }
}

/// Returns the octet with a one at the place, where it has zeros from the place on.
fn with_one(octet: u8, place: usize) -> u8
    requires below { place < 8 }
    requires clear { octet % 2 ^ (8 - place) ≡ 0 }
    ensures { result ≡ octet + 2 ^ (7 - place) }
{
    octet | 0x80 >> place
}

/// Appends a bit to the octets of `count` bits.
///
/// # Errors
///
/// `AllocError`, and then the octets are as they were.
fn append_bit(octets: &mut Vec<u8>, count: usize, bit: bool) -> Result<(), AllocError>
    requires { IsPadded octets.old.items count }
    ensures appended { OnOk result (octets.new.items
        ≡ padded (bits_of octets.old.items count ++ bit ∷ [])) }
    ensures unchanged { OnErr result (octets.new.items ≡ octets.old.items) }
{
    let place = count % 8;
    if place == 0 {
        octets.push(if bit { 0x80 } else { 0 })?;
    } else if bit {
        octets[count / 8] = with_one(octets[count / 8], place);
    }
    Ok(())
}
