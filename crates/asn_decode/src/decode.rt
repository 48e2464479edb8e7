//! Defines `Decode` and `DecodeChoice`, which a type implements.
ghost use Rattle.asn_coding.specs.Answer.{Answer, AnswerUnder};
ghost use Rattle.asn_coding.specs.Scopes.{TagAnswer};
ghost use Rattle.asn_model.specs.Fixed.{fixed_size};
ghost use Rattle.asn_model.specs.Shape.{all_alternatives};
ghost use Rattle.std.specs.Prelude.{◌≡◌, MatchOption, Ok};

use crate::Decoder;
use asn_core::{Constraints, Tag};
use asn_fault::DecodeError;
use asn_types::{AsnType, Choice};

/// Is a type whose values are decoded. The last call is each type's own, and the others hand it the
/// type's own tag or constraints.
///
/// Tags change nothing in text, and constraints decide only whether a BIT STRING has a fixed size.
/// The errors of each call are those that `Decoder` lists.
pub trait Decode: AsnType + Sized + Drop {
    /// Decodes the first pending slot.
    fn decode<D: Decoder>(decoder: &mut D) -> Result<Self, DecodeError>
        ensures { Answer D.notation Self.shape_of Self.value_of (D.pending decoder.old) result
            (D.pending decoder.new) }
    {
        Self::decode_with_tag(decoder, Self::TAG)
    }

    /// Decodes the first pending slot under another tag.
    fn decode_with_tag<D: Decoder>(decoder: &mut D, tag: Tag) -> Result<Self, DecodeError>
        ensures { Answer D.notation Self.shape_of Self.value_of (D.pending decoder.old) result
            (D.pending decoder.new) }
    {
        let constraints = Self::constraint_table();
        Self::decode_with_tag_and_constraints(decoder, tag, &constraints)
    }

    /// Decodes the first pending slot under other constraints.
    fn decode_with_constraints<D: Decoder>(
        decoder: &mut D,
        constraints: &Constraints,
    ) -> Result<Self, DecodeError>
        ensures { AnswerUnder D.notation (fixed_size constraints.now) Self.shape_of Self.value_of
            (D.pending decoder.old) result (D.pending decoder.new) }
    {
        Self::decode_with_tag_and_constraints(decoder, Self::TAG, constraints)
    }

    /// Decodes the first pending slot under another tag and other constraints. Each type writes
    /// this call.
    fn decode_with_tag_and_constraints<D: Decoder>(
        decoder: &mut D,
        tag: Tag,
        constraints: &Constraints,
    ) -> Result<Self, DecodeError>
        ensures { AnswerUnder D.notation (fixed_size constraints.now) Self.shape_of Self.value_of
            (D.pending decoder.old) result (D.pending decoder.new) };

    /// Decodes the first pending slot where its value is at hand, and else leaves it: `None` says
    /// nothing of the slot, which `decode` then takes. A list tries it for each element.
    fn decode_at_hand<D: Decoder>(decoder: &mut D) -> Option<Self>
        ensures { MatchOption result (D.pending decoder.new ≡ D.pending decoder.old)
            (λ value. Answer D.notation Self.shape_of Self.value_of (D.pending decoder.old)
            (Ok value) (D.pending decoder.new)) }
    {
        None
    }
}

/// Is a CHOICE whose values are decoded.
pub trait DecodeChoice: Choice + Sized + Drop {
    /// Decodes the payload of the alternative of this tag from the first pending slot.
    ///
    /// # Errors
    ///
    /// Those of the payload's type; `NoValidChoice` for any other tag, and then no slot is taken.
    fn from_tag<D: Decoder>(decoder: &mut D, tag: Tag) -> Result<Self, DecodeError>
        ensures { TagAnswer D.notation
            (all_alternatives Self.alternatives Self.added) Self.value_of tag
            (D.pending decoder.old) result (D.pending decoder.new) };
}
