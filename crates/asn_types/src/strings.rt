//! The restricted character string types as ASN.1 types (X.680, section 41).
ghost use Rattle.asn_model.proofs.Readables.{and-both};
ghost use Rattle.asn_model.specs.CharacterStrings.{alphabet_number, alphabet_of, is_string_of};
ghost use Rattle.asn_model.specs.CharacterStrings.{outside_alphabet, universal_tag};
ghost use Rattle.asn_model.specs.Shape.{Alphabet as AbstractAlphabet, Shape as AbstractShape};
ghost use Rattle.asn_model.specs.ShapeView.{alphabet_view};
ghost use Rattle.asn_model.specs.Value.{Value};
ghost use Rattle.asn_fault.specs.Failure.{Cause, at_root, failure_of};
ghost use Rattle.asn_strings.specs.Alphabets.{all_within};
ghost use Rattle.asn_types.specs.TextTypes.{IsStringRefusal};
ghost use Rattle.avn_grammar.specs.Chars.{all};
ghost use Rattle.avn_grammar.specs.WellFormed.{is_octet};
ghost use Rattle.std.specs.Prelude.{◌≡◌, ◌⊎◌, ℕ, List, chars, refl, true};
ghost use Rattle.std.specs.Str.{is_utf8};

use crate::{OfKind, TextKind, TextType};
use asn_core::{Codec, Tag, TagTree};
use asn_fault::DecodeError;
use asn_model::words::OUTSIDE_ALPHABET;
use asn_model::{Alphabet, LeafKind, Shape};
use asn_strings::character_sets::{General, Graphic, Ia5, Numeric, Printable, Universal, Visible};
use asn_strings::octets::Utf8Octets;
use asn_strings::{BmpString, CharacterSet, RestrictedOctets, RestrictedString, StringFault};
use std::alloc::Global;

/// The character set of a string type, with the alphabet by which shapes name it.
pub trait NamedSet: CharacterSet {
    /// The universal tag of the string type.
    const STRING_TAG: Tag;

    ghost name: { AbstractAlphabet };

    /// Returns the alphabet.
    fn named() -> Alphabet
        ensures { alphabet_view result ≡ name };

    /// Returns `STRING_TAG`.
    fn tag_of_set() -> Tag
        ensures { result ≡ universal_tag (alphabet_number name) };

    // The alphabet has the characters of the set.
    ghost same: { alphabet_of name ≡ Self.alphabet };
}

/// A character set whose strings are text.
pub trait TextSet: NamedSet {
    // A text within the set is a value of the string type.
    ghost is_value: { (bytes : List ℕ) → is_utf8 bytes ≡ true
        → all_within Self.alphabet (chars bytes) ≡ true → is_string_of Self.name bytes ≡ true };
}

/// A character set whose strings are octets.
pub trait OctetsSet: NamedSet + Utf8Octets {
    // Octets within the set are a value of the string type.
    ghost is_value: { (octets : List ℕ) → all is_octet octets ≡ true
        → all_within Self.alphabet octets ≡ true → is_string_of Self.name octets ≡ true };
}

impl NamedSet for Numeric {
    const STRING_TAG: Tag = Tag::NUMERIC_STRING;

    ghost name = { AbstractAlphabet.numeric };

    fn named() -> Alphabet {
        Alphabet::Numeric
    }

    fn tag_of_set() -> Tag {
        Self::STRING_TAG
    }

    ghost same = { refl };
}

impl TextSet for Numeric {
    ghost is_value = { λ bytes utf8 within. and-both _ _ utf8 within };
}

impl NamedSet for Printable {
    const STRING_TAG: Tag = Tag::PRINTABLE_STRING;

    ghost name = { AbstractAlphabet.printable };

    fn named() -> Alphabet {
        Alphabet::Printable
    }

    fn tag_of_set() -> Tag {
        Self::STRING_TAG
    }

    ghost same = { refl };
}

impl TextSet for Printable {
    ghost is_value = { λ bytes utf8 within. and-both _ _ utf8 within };
}

impl NamedSet for Visible {
    const STRING_TAG: Tag = Tag::VISIBLE_STRING;

    ghost name = { AbstractAlphabet.visible };

    fn named() -> Alphabet {
        Alphabet::Visible
    }

    fn tag_of_set() -> Tag {
        Self::STRING_TAG
    }

    ghost same = { refl };
}

impl TextSet for Visible {
    ghost is_value = { λ bytes utf8 within. and-both _ _ utf8 within };
}

impl NamedSet for Ia5 {
    const STRING_TAG: Tag = Tag::IA5_STRING;

    ghost name = { AbstractAlphabet.ia5 };

    fn named() -> Alphabet {
        Alphabet::Ia5
    }

    fn tag_of_set() -> Tag {
        Self::STRING_TAG
    }

    ghost same = { refl };
}

impl TextSet for Ia5 {
    ghost is_value = { λ bytes utf8 within. and-both _ _ utf8 within };
}

impl NamedSet for Universal {
    const STRING_TAG: Tag = Tag::UNIVERSAL_STRING;

    ghost name = { AbstractAlphabet.universal };

    fn named() -> Alphabet {
        Alphabet::Universal
    }

    fn tag_of_set() -> Tag {
        Self::STRING_TAG
    }

    ghost same = { refl };
}

impl TextSet for Universal {
    ghost is_value = { λ bytes utf8 within. utf8 };
}

impl NamedSet for General {
    const STRING_TAG: Tag = Tag::GENERAL_STRING;

    ghost name = { AbstractAlphabet.general };

    fn named() -> Alphabet {
        Alphabet::General
    }

    fn tag_of_set() -> Tag {
        Self::STRING_TAG
    }

    ghost same = { refl };
}

impl OctetsSet for General {
    ghost is_value = { λ octets below within. below };
}

impl NamedSet for Graphic {
    const STRING_TAG: Tag = Tag::GRAPHIC_STRING;

    ghost name = { AbstractAlphabet.graphic };

    fn named() -> Alphabet {
        Alphabet::Graphic
    }

    fn tag_of_set() -> Tag {
        Self::STRING_TAG
    }

    ghost same = { refl };
}

impl OctetsSet for Graphic {
    ghost is_value = { λ octets below within. and-both _ _ below within };
}

/// Returns the refusal of a text with a character outside the alphabet of the string type with this
/// tag, at this place. Memory may run out.
fn outside_alphabet(alloc: Global, tag: Tag, place: usize, codec: Codec) -> DecodeError
    ensures { (failure_of result ≡ at_root (outside_alphabet tag place) codec)
        ⊎ (failure_of result ≡ at_root Cause.out_of_memory codec) }
{
    match format!(in alloc; "{OUTSIDE_ALPHABET} {place}") {
        Ok(msg) => DecodeError::string_conversion_failed(tag, msg, codec),
        Err(_) => DecodeError::out_of_memory(codec),
    }
}

/// Returns the refusal of a text for this fault. Memory may run out.
fn string_refusal(alloc: Global, tag: Tag, fault: StringFault, codec: Codec) -> DecodeError
    ensures { IsStringRefusal tag fault codec (failure_of result) }
{
    match fault {
        StringFault::Alphabet { place } => outside_alphabet(alloc, tag, place, codec),
        StringFault::OutOfMemory => DecodeError::out_of_memory(codec),
    }
}

impl<C: TextSet> OfKind for RestrictedString<C> {
    type Kind = TextKind;
}

impl<C: TextSet> TextType for RestrictedString<C> {
    const TEXT_TAG: Tag = C::STRING_TAG;

    ghost shape = { AbstractShape.text C.name };

    ghost value = { Value.text };

    fn text_tags() -> (Tag, TagTree, bool) {
        (C::tag_of_set(), TagTree::Leaf(C::tag_of_set()), false)
    }

    fn text_shape() -> Shape {
        Shape::Str {
            alphabet: C::named(),
        }
    }

    fn text_kind() -> LeafKind {
        LeafKind::Text
    }

    fn of_text(alloc: Global, text: String, codec: Codec) -> Result<Self, DecodeError> {
        match RestrictedString::from_string(text) {
            Ok(string) => Ok(string),
            Err(fault) => Err(string_refusal(alloc, C::tag_of_set(), fault, codec)),
        }
    }

    ghost any_size = { λ n. refl };

    ghost any_value = { λ n x. refl };

    ghost readable = { refl };
}

impl<C: OctetsSet> OfKind for RestrictedOctets<C> {
    type Kind = TextKind;
}

impl<C: OctetsSet> TextType for RestrictedOctets<C> {
    const TEXT_TAG: Tag = C::STRING_TAG;

    ghost shape = { AbstractShape.text C.name };

    ghost value = { Value.text };

    fn text_tags() -> (Tag, TagTree, bool) {
        (C::tag_of_set(), TagTree::Leaf(C::tag_of_set()), false)
    }

    fn text_shape() -> Shape {
        Shape::Str {
            alphabet: C::named(),
        }
    }

    fn text_kind() -> LeafKind {
        LeafKind::Text
    }

    fn of_text(alloc: Global, text: String, codec: Codec) -> Result<Self, DecodeError> {
        match RestrictedOctets::from_string(text) {
            Ok(string) => Ok(string),
            Err(fault) => Err(string_refusal(alloc, C::tag_of_set(), fault, codec)),
        }
    }

    ghost any_size = { λ n. refl };

    ghost any_value = { λ n x. refl };

    ghost readable = { refl };
}

impl OfKind for BmpString {
    type Kind = TextKind;
}

impl TextType for BmpString {
    const TEXT_TAG: Tag = Tag::BMP_STRING;

    ghost shape = { AbstractShape.bmp };

    ghost value = { Value.units };

    fn text_tags() -> (Tag, TagTree, bool) {
        (Tag::BMP_STRING, TagTree::Leaf(Tag::BMP_STRING), false)
    }

    fn text_shape() -> Shape {
        Shape::Bmp
    }

    fn text_kind() -> LeafKind {
        LeafKind::Text
    }

    fn of_text(alloc: Global, text: String, codec: Codec) -> Result<BmpString, DecodeError> {
        match BmpString::try_from_text(alloc, text.as_str()) {
            Ok(string) => Ok(string),
            Err(fault) => Err(string_refusal(alloc, Tag::BMP_STRING, fault, codec)),
        }
    }

    ghost any_size = { λ n. refl };

    ghost any_value = { λ n x. refl };

    ghost readable = { refl };
}
