//! Defines the restricted character strings that are held as octets: GeneralString, GraphicString
//! and TeletexString, whose octets needn't be UTF-8.
ghost use Rattle.asn_strings.specs.Alphabets.{all_within, is_graphic, past_ascii_is_graphic};
ghost use Rattle.asn_strings.specs.Alphabets.{place_outside};
ghost use Rattle.asn_strings.specs.Refusals.{refused_place};
ghost use Rattle.std.specs.Cmp.Lexicographic.{nat_list_eq_equiv};
ghost use Rattle.std.specs.Cmp.{partial_equiv_from_equiv};
ghost use Rattle.std.specs.Prelude.{◌≡◌, ◌≤◌, ℕ, IfOk, IsSome, IsTrue, OnErr, OnOk, SomeIff};
ghost use Rattle.std.specs.Prelude.{bytes_eq, chars, refl, string_bytes, true};

use crate::character_sets::{General, Graphic, Teletex, are_within, first_outside};
use crate::{CharacterSet, StringFault};
use std::alloc::Global;
use std::fmt;
use std::marker::{Model, PhantomData};

/// Is a character set that has every octet past ASCII, and so the UTF-8 octets of its characters.
pub trait OctetSet: CharacterSet {
    // Octets from 0x80 on are in the alphabet.
    ghost past_ascii: { (octet : ℕ) → 128 ≤ octet → Self.alphabet octet ≡ true };
}

/// Lacks control characters of ASCII alone.
impl OctetSet for Graphic {
    ghost past_ascii = { past_ascii_is_graphic };
}

/// Has every octet.
impl OctetSet for General {
    ghost past_ascii = { λ _ _. refl };
}

/// Has every octet.
impl OctetSet for Teletex {
    ghost past_ascii = { λ _ _. refl };
}

/// Is a character set that has every octet, so that any octets make a string.
pub trait EveryOctet: OctetSet {
    // All octets are in the alphabet.
    ghost every_octet: { (octet : ℕ) → Self.alphabet octet ≡ true };
}

/// Has every octet.
impl EveryOctet for General {
    ghost every_octet = { λ _. refl };
}

/// Has every octet.
impl EveryOctet for Teletex {
    ghost every_octet = { λ _. refl };
}

/// Is a character set whose strings are made of a text as its UTF-8 octets. TeletexString is none:
/// its octets have another character code.
pub trait Utf8Octets: OctetSet {}

/// Takes a text as its UTF-8 octets.
impl Utf8Octets for General {}

/// Takes a text as its UTF-8 octets.
impl Utf8Octets for Graphic {}

/// Holds octets in the alphabet of `C`. Contracts see their list.
#[derive(Drop)]
pub struct RestrictedOctets<C: OctetSet> {
    /// Holds the octets, in order.
    octets: Vec<u8>,
    /// Names the alphabet, and takes no memory.
    character_set: PhantomData<C>,
}

/// Lets contracts see the octets. The invariant is that each is in the alphabet.
impl<C: OctetSet> Model for RestrictedOctets<C> {
    ghost use Rattle.asn_strings.specs.Alphabets.{all_within};
    ghost use Rattle.std.specs.Prelude.{ℕ, List, IsTrue};

    ghost Value = { List ℕ };

    ghost view = { λ s. s.octets.items };

    ghost invariant = { λ s. IsTrue (all_within C.alphabet s.octets.items) };
}

/// Is a GeneralString: any octets.
pub type GeneralString = RestrictedOctets<General>;

/// Is a GraphicString: octets without control characters of ASCII.
pub type GraphicString = RestrictedOctets<Graphic>;

/// Is a TeletexString: any octets.
pub type TeletexString = RestrictedOctets<Teletex>;

/// Shows the octets.
impl<C: OctetSet> RestrictedOctets<C> {
    /// Returns the octets, each of which is in the alphabet.
    pub fn octets(&self) -> &[u8]
        ensures octets { result.now ≡ self.now }
        ensures within { IsTrue (all_within C.alphabet self.now) }
    {
        self.octets.as_slice()
    }
}

/// Makes strings of texts.
impl<C: Utf8Octets> RestrictedOctets<C> {
    /// Returns the string of the UTF-8 octets of the text, which is copied.
    ///
    /// # Errors
    ///
    /// `Alphabet` where a character is outside the alphabet, with the place of the first such one;
    /// `OutOfMemory`.
    pub fn try_from_text(alloc: Global, text: &str) -> Result<Self, StringFault>
        ensures octets { IfOk result (λ s. s ≡ text.now) }
        ensures within { OnOk result (IsTrue (all_within C.alphabet (chars text.now))) }
        ensures outside { refused_place result ≡ place_outside C.alphabet (chars text.now) }
    {
        // The characters are tested, and not the octets, whose place would be another one.
        if let Some(place) = first_outside::<C>(text) {
            return Err(StringFault::Alphabet { place });
        }
        Ok(Self {
            octets: Vec::from_slice(alloc, text.as_bytes())?,
            character_set: PhantomData,
        })
    }

    /// Returns the string of the UTF-8 octets of an owned text, which isn't copied.
    ///
    /// # Errors
    ///
    /// `Alphabet` where a character is outside the alphabet, with the place of the first such one.
    pub fn from_string(text: String) -> Result<Self, StringFault>
        ensures octets { IfOk result (λ s. s ≡ string_bytes text) }
        ensures within { OnOk result (IsTrue (all_within C.alphabet (chars (string_bytes text)))) }
        ensures outside { refused_place result
            ≡ place_outside C.alphabet (chars (string_bytes text)) }
        ensures refused { OnErr result
            (IsSome (place_outside C.alphabet (chars (string_bytes text)))) }
    {
        if let Some(place) = first_outside::<C>(text.as_str()) {
            return Err(StringFault::Alphabet { place });
        }
        Ok(Self {
            octets: text.into_bytes(),
            character_set: PhantomData,
        })
    }
}

/// Makes strings of octets, for sets that have all of them.
impl<C: EveryOctet> RestrictedOctets<C> {
    /// Returns the string of any octets. They are not copied.
    pub fn from_octets(octets: Vec<u8>) -> Self
        ensures { result ≡ octets.items }
    {
        Self {
            octets,
            character_set: PhantomData,
        }
    }
}

/// Makes strings of octets, which are tested.
impl RestrictedOctets<Graphic> {
    /// Returns the string of the octets, or `None` where one of them is a control character of
    /// ASCII: 0x00 to 0x1F, or 0x7F.
    pub fn from_octets(octets: Vec<u8>) -> Option<GraphicString>
        ensures { SomeIff result (IsTrue (all_within is_graphic octets.items)) octets.items }
    {
        if !are_within::<Graphic>(octets.as_slice()) {
            return None;
        }
        Some(Self {
            octets,
            character_set: PhantomData,
        })
    }
}

/// Shows the octets as a list of numbers.
impl<C: OctetSet> fmt::Debug for RestrictedOctets<C> {
    fn fmt<W: fmt::Write>(&self, f: &mut fmt::Formatter<W>) -> fmt::Result {
        fmt::Debug::fmt(&self.octets, f)
    }
}

/// Compares two strings: they are equal where their octets are.
impl<C: OctetSet> PartialEq for RestrictedOctets<C> {
    ghost eq = { bytes_eq };

    ghost laws = { partial_equiv_from_equiv nat_list_eq_equiv };

    fn eq(&self, other: &Self) -> bool {
        self.octets == other.octets
    }
}

/// States that the comparison is an equivalence.
impl<C: OctetSet> Eq for RestrictedOctets<C> {
    ghost laws = { nat_list_eq_equiv };
}
