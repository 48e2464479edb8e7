//! Defines the restricted character strings that are text: those whose alphabet is one of Unicode
//! characters. They are held as UTF-8.
ghost use Rattle.asn_strings.specs.Alphabets.{all_within, place_outside};
ghost use Rattle.asn_strings.specs.Refusals.{refused_place};
ghost use Rattle.std.specs.Cmp.Lexicographic.{nat_list_eq_equiv};
ghost use Rattle.std.specs.Cmp.{partial_equiv_from_equiv};
ghost use Rattle.std.specs.Prelude.{◌≡◌, IfOk, IsSome, IsTrue, OnErr, OnOk};
ghost use Rattle.std.specs.Prelude.{bytes_eq, chars, string_bytes};

use crate::character_sets::{Ia5, Numeric, Printable, Universal, Visible, first_outside};
use crate::{CharacterSet, StringFault};
use std::alloc::Global;
use std::fmt;
use std::marker::{Model, PhantomData};

/// Is a UTF8String, which every text is.
pub type Utf8String = String;

/// Is a NumericString: digits and spaces.
pub type NumericString = RestrictedString<Numeric>;

/// Is a PrintableString: letters, digits, space and eleven signs.
pub type PrintableString = RestrictedString<Printable>;

/// Is a VisibleString: the printing characters of ASCII, and space.
pub type VisibleString = RestrictedString<Visible>;

/// Is an IA5String: the characters of ASCII.
pub type Ia5String = RestrictedString<Ia5>;

/// Is a UniversalString: every character.
pub type UniversalString = RestrictedString<Universal>;

/// Holds a text whose characters are in the alphabet of `C`. Contracts see its UTF-8 bytes.
#[derive(Drop)]
pub struct RestrictedString<C: CharacterSet> {
    /// Holds the text.
    text: String,
    /// Names the alphabet, and takes no memory.
    character_set: PhantomData<C>,
}

/// Lets contracts see the bytes. The invariant is that each character is in the alphabet.
impl<C: CharacterSet> Model for RestrictedString<C> {
    ghost use Rattle.asn_strings.specs.Alphabets.{all_within};
    ghost use Rattle.std.specs.Prelude.{IsTrue, List, chars, string_bytes, ℕ};

    ghost Value = { List ℕ };

    ghost view = { λ s. string_bytes s.text };

    ghost invariant = { λ s. IsTrue (all_within C.alphabet (chars (string_bytes s.text))) };
}

/// Makes strings of texts, and shows the text.
impl<C: CharacterSet> RestrictedString<C> {
    /// Returns the string of the text, which is copied.
    ///
    /// # Errors
    ///
    /// `Alphabet` where a character is outside the alphabet, with the place of the first such one;
    /// `OutOfMemory`.
    pub fn try_from_text(alloc: Global, text: &str) -> Result<Self, StringFault>
        ensures text { IfOk result (λ s. s ≡ text.now) }
        ensures within { OnOk result (IsTrue (all_within C.alphabet (chars text.now))) }
        ensures outside { refused_place result ≡ place_outside C.alphabet (chars text.now) }
    {
        // The text is tested before it is copied, so a refused text takes no memory.
        if let Some(place) = first_outside::<C>(text) {
            return Err(StringFault::Alphabet { place });
        }
        Ok(Self {
            text: String::from_str(alloc, text)?,
            character_set: PhantomData,
        })
    }

    /// Returns the string of an owned text, which isn't copied.
    ///
    /// # Errors
    ///
    /// `Alphabet` where a character is outside the alphabet, with the place of the first such one.
    pub fn from_string(text: String) -> Result<Self, StringFault>
        ensures text { IfOk result (λ s. s ≡ string_bytes text) }
        ensures within { OnOk result (IsTrue (all_within C.alphabet (chars (string_bytes text)))) }
        ensures outside { refused_place result
            ≡ place_outside C.alphabet (chars (string_bytes text)) }
        ensures refused { OnErr result
            (IsSome (place_outside C.alphabet (chars (string_bytes text)))) }
    {
        if let Some(place) = first_outside::<C>(text.as_str()) {
            return Err(StringFault::Alphabet { place });
        }
        Ok(Self {
            text,
            character_set: PhantomData,
        })
    }

    /// Returns the text, each character of which is in the alphabet.
    pub fn as_str(&self) -> &str
        ensures text { result.now ≡ self.now }
        ensures within { IsTrue (all_within C.alphabet (chars self.now)) }
    {
        self.text.as_str()
    }
}

/// Shows the text, in quotes.
impl<C: CharacterSet> fmt::Debug for RestrictedString<C> {
    fn fmt<W: fmt::Write>(&self, f: &mut fmt::Formatter<W>) -> fmt::Result {
        fmt::Debug::fmt(&self.text, f)
    }
}

/// Compares two strings: they are equal where their texts are.
impl<C: CharacterSet> PartialEq for RestrictedString<C> {
    ghost eq = { bytes_eq };

    ghost laws = { partial_equiv_from_equiv nat_list_eq_equiv };

    fn eq(&self, other: &Self) -> bool {
        self.text == other.text
    }
}

/// States that the comparison is an equivalence.
impl<C: CharacterSet> Eq for RestrictedString<C> {
    ghost laws = { nat_list_eq_equiv };
}
