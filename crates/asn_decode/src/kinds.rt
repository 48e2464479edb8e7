//! Decodes the types of a kind alike (`DecodeKind`, `DecodeChoiceKind`), and gives the kinds of
//! numbers, enumerations and texts their decoding.
ghost use Rattle.asn_coding.specs.Answer.{Answer, AnswerUnder};
ghost use Rattle.asn_coding.specs.Scopes.{TagAnswer};
ghost use Rattle.asn_model.specs.Fixed.{fixed_size};
ghost use Rattle.asn_model.specs.Shape.{all_alternatives};
ghost use Rattle.std.specs.Prelude.{◌≡◌, MatchOption, Ok};

use crate::{Decode, DecodeChoice, Decoder};
use asn_core::{Constraints, Tag};
use asn_fault::DecodeError;
use asn_integers::IntegerType;
use asn_types::{
    AsnType, Choice, Enumerated, EnumeratedKind, IntegerKind, OfKind, TextKind, TextType,
};

/// Decodes the types of a kind.
pub trait DecodeKind<T: AsnType> {
    /// Decodes a value of the type from the first pending slot.
    ///
    /// # Errors
    ///
    /// `OutOfMemory`; else where and why the slot decodes to no value of the type.
    fn decode_as<D: Decoder>(
        decoder: &mut D,
        tag: Tag,
        constraints: &Constraints,
    ) -> Result<T, DecodeError>
        ensures { AnswerUnder D.notation (fixed_size constraints.now) T.shape_of T.value_of
            (D.pending decoder.old) result (D.pending decoder.new) };

    /// Decodes a value of the type from the first pending slot where it is at hand, and else leaves
    /// the slot: `None` says nothing of it.
    fn at_hand_as<D: Decoder>(decoder: &mut D) -> Option<T>
        ensures { MatchOption result (D.pending decoder.new ≡ D.pending decoder.old)
            (λ value. Answer D.notation T.shape_of T.value_of (D.pending decoder.old) (Ok value)
            (D.pending decoder.new)) }
    {
        None
    }
}

/// Decodes a type as its kind does.
impl<T: OfKind + AsnType + Drop> Decode for T
where
    T::Kind: DecodeKind<T>,
{
    fn decode_with_tag_and_constraints<D: Decoder>(
        decoder: &mut D,
        tag: Tag,
        constraints: &Constraints,
    ) -> Result<T, DecodeError> {
        <T::Kind as DecodeKind<T>>::decode_as(decoder, tag, constraints)
    }

    #[inline(always)]
    fn decode_at_hand<D: Decoder>(decoder: &mut D) -> Option<T> {
        <T::Kind as DecodeKind<T>>::at_hand_as(decoder)
    }
}

/// Decodes the payloads of the CHOICE types of a kind.
pub trait DecodeChoiceKind<T: Choice> {
    /// Decodes the payload of the alternative of this tag from the first pending slot.
    ///
    /// # Errors
    ///
    /// Those of the payload's type; `NoValidChoice` for any other tag, and then no slot is taken.
    fn from_tag_as<D: Decoder>(decoder: &mut D, tag: Tag) -> Result<T, DecodeError>
        ensures { TagAnswer D.notation (all_alternatives T.alternatives T.added) T.value_of tag
            (D.pending decoder.old) result (D.pending decoder.new) };
}

/// Decodes a payload as the kind of its CHOICE does.
impl<T: OfKind + Choice + Drop> DecodeChoice for T
where
    T::Kind: DecodeChoiceKind<T>,
{
    fn from_tag<D: Decoder>(decoder: &mut D, tag: Tag) -> Result<T, DecodeError> {
        <T::Kind as DecodeChoiceKind<T>>::from_tag_as(decoder, tag)
    }
}

/// Decodes a number, which overflows where the type lacks it.
impl<I: IntegerType + OfKind<Kind = IntegerKind>> DecodeKind<I> for IntegerKind {
    fn decode_as<D: Decoder>(
        decoder: &mut D,
        tag: Tag,
        constraints: &Constraints,
    ) -> Result<I, DecodeError> {
        decoder.decode_integer::<I>(tag, constraints)
    }

    // A number that the type lacks stays, so that `decode_as` refuses it.
    #[inline(always)]
    fn at_hand_as<D: Decoder>(decoder: &mut D) -> Option<I> {
        match decoder.number_at_hand() {
            Some(number) => match I::of_parts(number.negative, number.magnitude) {
                Some(value) => {
                    decoder.pass();
                    Some(value)
                }
                None => None,
            },
            None => None,
        }
    }
}

/// Decodes an item from its identifier.
impl<T: Enumerated> DecodeKind<T> for EnumeratedKind {
    fn decode_as<D: Decoder>(
        decoder: &mut D,
        tag: Tag,
        _constraints: &Constraints,
    ) -> Result<T, DecodeError> {
        decoder.decode_enumerated::<T>(tag)
    }
}

/// Decodes a value that is a text from that text.
impl<T: TextType> DecodeKind<T> for TextKind {
    fn decode_as<D: Decoder>(
        decoder: &mut D,
        tag: Tag,
        constraints: &Constraints,
    ) -> Result<T, DecodeError> {
        decoder.decode_text::<T>(tag, constraints)
    }
}
