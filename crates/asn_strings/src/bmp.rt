//! Defines BMPString, which holds 16-bit units: the characters of the Basic Multilingual Plane in
//! two octets each.
ghost use Rattle.asn_strings.specs.Alphabets.{all_within, is_bmp, is_ia5, place_outside};
ghost use Rattle.asn_strings.specs.Refusals.{IsUntexted, refused_place};
ghost use Rattle.asn_strings.specs.Units.{IsTextBefore, has_text, text_of_units};
ghost use Rattle.std.specs.Cmp.Lexicographic.{nat_list_eq_equiv};
ghost use Rattle.std.specs.Cmp.{partial_equiv_from_equiv};
ghost use Rattle.std.specs.Prelude.{◌≡◌, ◌≤◌, IfErr, IfNone, IfOk, IsTrue, OnOk, bytes_eq};
ghost use Rattle.std.specs.Prelude.{chars, length, string_bytes};
ghost use Rattle.std.specs.Str.{IsAscii};

use crate::{StringFault, UnitFault};
use std::alloc::{AllocError, Global};
use std::marker::Model;

/// Is the number of units that are made text at a time: they and their text stay in the nearest
/// cache meanwhile.
const PIECE_LEN: usize = 4096;

/// Holds a BMPString. Contracts see its 16-bit units. A unit needn't be a character: binary
/// encodings may have surrogates.
#[derive(Debug, Drop)]
pub struct BmpString {
    /// Holds the units, in order.
    units: Vec<u16>,
}

/// Lets contracts see the units.
impl Model for BmpString {
    ghost use Rattle.std.specs.Prelude.{List, ℕ};

    ghost Value = { List ℕ };

    ghost view = { λ s. s.units.items };
}

/// Makes strings of a text or of units, and shows the units.
impl BmpString {
    /// Returns the string that has the characters of the text as its units.
    ///
    /// # Errors
    ///
    /// `Alphabet` where a character is above U+FFFF, with the place of the first such one;
    /// `OutOfMemory`.
    pub fn try_from_text(alloc: Global, text: &str) -> Result<BmpString, StringFault>
        ensures units { IfOk result (λ s. s ≡ chars text.now) }
        ensures within { OnOk result (IsTrue (all_within is_bmp (chars text.now))) }
        ensures outside { refused_place result ≡ place_outside is_bmp (chars text.now) }
    {
        if text.is_ascii() {
            return Ok(BmpString {
                units: units_of_ascii(alloc, text)?,
            });
        }
        if let Some(place) = first_above_plane(text) {
            return Err(StringFault::Alphabet { place });
        }
        Ok(BmpString {
            units: units_of(alloc, text)?,
        })
    }

    /// Returns the string of any units.
    pub fn from_units(units: Vec<u16>) -> BmpString
        ensures { result ≡ units.items }
    {
        BmpString { units }
    }

    /// Returns the text of the units.
    ///
    /// # Errors
    ///
    /// `Surrogate` where a unit is a surrogate, with the place of the first such one;
    /// `OutOfMemory`.
    pub fn to_text(&self, alloc: Global) -> Result<String, UnitFault>
        ensures text { IfOk result (λ s. string_bytes s ≡ text_of_units self.now) }
        ensures characters { OnOk result (IsTrue (has_text self.now)) }
        ensures refused { IfErr result (IsUntexted self.now) }
    {
        let units = self.units.as_slice();
        // Most texts are of ASCII, for which this is the whole room.
        let mut text = String::with_capacity(alloc, units.len())?;
        let mut place = 0;
        while place < units.len() {
            let end = place + usize::min(PIECE_LEN, units.len() - place);
            push_units(alloc, &mut text, units, place, end)?;
            place = end;
        }
        Ok(text)
    }

    /// Returns the units.
    pub fn units(&self) -> &[u16]
        ensures { result.now ≡ self.now }
    {
        self.units.as_slice()
    }
}

/// Returns the place of the first character above U+FFFF, counted in characters, or `None` where
/// there is none.
fn first_above_plane(text: &str) -> Option<usize>
    ensures place { result ≡ place_outside is_bmp (chars text.now) }
    ensures within { IfNone result (IsTrue (all_within is_bmp (chars text.now))) }
{
    text.chars().position(|character| character > '\u{FFFF}')
}

/// Returns the characters of a text of ASCII as units: its octets, one each.
///
/// # Errors
///
/// `AllocError` alone.
fn units_of_ascii(alloc: Global, text: &str) -> Result<Vec<u16>, AllocError>
    requires { IsAscii text.now }
    ensures { IfOk result (λ units. units.items ≡ chars text.now) }
{
    text.as_bytes()
        .iter()
        .map(|octet| u16::from(*octet))
        .collect(alloc)
}

/// Returns the characters of a text as units, one each, none of them above U+FFFF.
///
/// # Errors
///
/// `AllocError` alone.
fn units_of(alloc: Global, text: &str) -> Result<Vec<u16>, AllocError>
    requires { IsTrue (all_within is_bmp (chars text.now)) }
    ensures { IfOk result (λ units. units.items ≡ chars text.now) }
{
    let mut units = Vec::new(alloc);
    // The cast loses nothing, since each character is in the plane.
    for character in text.chars() {
        units.push(character as u16)?;
    }
    Ok(units)
}

/// Returns whether each unit is a character of ASCII.
fn are_ascii(units: &[u16]) -> bool
    ensures { result ≡ all_within is_ia5 units.now }
{
    units
        .iter()
        .fold(true, |within, unit| within & (*unit < 0x80))
}

/// Returns units of ASCII as octets, one each.
///
/// # Errors
///
/// `AllocError` alone.
fn octets_of_ascii(alloc: Global, units: &[u16]) -> Result<Vec<u8>, AllocError>
    requires { IsTrue (all_within is_ia5 units.now) }
    ensures { IfOk result (λ octets. octets.items ≡ units.now) }
{
    // The remainder is the unit itself.
    units.iter().map(|unit| (*unit % 0x80) as u8).collect(alloc)
}

/// Returns the text of units of ASCII.
///
/// # Errors
///
/// `AllocError` alone.
fn text_of_ascii(alloc: Global, units: &[u16]) -> Result<String, AllocError>
    requires { IsTrue (all_within is_ia5 units.now) }
    ensures { IfOk result (λ s. string_bytes s ≡ units.now) }
{
    let octets = octets_of_ascii(alloc, units)?;
    Ok(String::from_utf8(octets).unwrap())
}

/// Appends to the text of the units before a place the text of those up to another place.
///
/// # Errors
///
/// `Surrogate` where one of these units is a surrogate, with the place of the first such one;
/// `OutOfMemory`.
fn push_units(
    alloc: Global,
    text: &mut String,
    units: &[u16],
    place: usize,
    end: usize,
) -> Result<(), UnitFault>
    requires places { (place ≤ end) × (end ≤ length units.now) }
    requires before { IsTextBefore units.now place (string_bytes text.old) }
    ensures before { OnOk result (IsTextBefore units.now end (string_bytes text.new)) }
    ensures refused { IfErr result (IsUntexted units.now) }
{
    let piece = &units[place..end];
    if are_ascii(piece) {
        text.push_str(text_of_ascii(alloc, piece)?.as_str())?;
        return Ok(());
    }
    for place in place..end {
        match char::from_u32(units[place] as u32) {
            Some(character) => text.push(character)?,
            None => return Err(UnitFault::Surrogate { place }),
        }
    }
    Ok(())
}

/// Compares two strings: they are equal where their units are.
impl PartialEq for BmpString {
    ghost eq = { bytes_eq };

    ghost laws = { partial_equiv_from_equiv nat_list_eq_equiv };

    fn eq(&self, other: &BmpString) -> bool {
        self.units == other.units
    }
}

/// States that the comparison is an equivalence.
impl Eq for BmpString {
    ghost laws = { nat_list_eq_equiv };
}
