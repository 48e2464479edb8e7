//! Describes a CHOICE by its alternatives (X.680, section 29). A type implements `ChoicePayload`,
//! which encodes and decodes the payload of each alternative by the payload's own type; what every
//! CHOICE has is given by `kinds` once.
ghost use Rattle.asn_coding.specs.Chosen.{Chosen, IsChosen, chosen_value};
ghost use Rattle.asn_model.specs.Readable.{is_readable};
ghost use Rattle.asn_coding.specs.Answer.{Answer};
ghost use Rattle.asn_coding.specs.Scopes.{PlaceAnswer};
ghost use Rattle.asn_model.specs.Shape.{Shape as AbstractShape, Alternatives, AlternativeAdditions};
ghost use Rattle.asn_model.specs.Shape.{all_alternatives, identifiers};
ghost use Rattle.asn_model.specs.ShapeView.{shape_view};
ghost use Rattle.asn_coding.specs.Tables.{added_tags, root_tags, smallest_tags};
ghost use Rattle.asn_coding.specs.Writing.{FailsToEncode, Written};
ghost use Rattle.std.specs.Prelude.{◌≡◌, ◌↔◌, IfErr, IfOk, OnOk, map, option_map, true};

use crate::ChoiceKind;
use asn_coding::{Identifiers, Name};
use asn_core::{OutOfMemory, TagTree};
use asn_decode::Decoder;
use asn_encode::Encoder;
use asn_fault::{DecodeError, EncodeError};
use asn_model::Shape;
use asn_types::{ElementKind, OfKind};
use std::alloc::Global;
use std::hash::Hash;

/// Describes a CHOICE that is encoded by the type of its alternative.
pub trait ChoicePayload: OfKind<Kind = ChoiceKind> + Drop {
    /// Lists the tags that the alternatives of the root may begin with, in their order.
    const ROOT: &'static [TagTree];

    /// Lists those of the alternatives after the extension marker, and is `None` exactly where
    /// there is no marker.
    const ADDED: Option<&'static [TagTree]>;

    /// Lists the identifiers of all alternatives, extension additions last.
    const NAMES: &'static [&'static str];

    // The alternatives of the root, each with its identifier, its tag and the shape of its type.
    ghost alternatives: { Alternatives };

    // The alternatives after the extension marker, if there is one.
    ghost additions: { AlternativeAdditions };

    // The alternative of a value, with the payload.
    ghost chosen: { Self → Chosen };

    /// Returns `ROOT`, whose smallest tags are those of the shape's root.
    fn listed_root() -> &'static [TagTree]
        ensures { smallest_tags result.now ≡ root_tags alternatives };

    /// Returns `ADDED`, whose smallest tags are those of the shape's extension additions.
    fn listed_added() -> Option<&'static [TagTree]>
        ensures { option_map (λ t. smallest_tags t.now) result ≡ added_tags additions };

    /// Returns `NAMES`, which are those of the shape.
    fn listed_names() -> &'static [&'static str]
        ensures { map (λ s. s.now) result.now
            ≡ identifiers (all_alternatives alternatives additions) };

    /// Returns the shape of the type, as a value.
    ///
    /// # Errors
    ///
    /// `OutOfMemory` alone.
    fn choice_shape(alloc: Global) -> Result<Shape, OutOfMemory>
        ensures { IfOk result (λ s. shape_view s ≡ AbstractShape.choice alternatives additions) };

    /// Returns the place of the value's alternative among all, extension additions last.
    fn alternative_place(&self) -> usize
        ensures { result ≡ (chosen self.now).place };

    /// Encodes the payload by its own type, as one slot.
    ///
    /// # Errors
    ///
    /// Those of the payload's type; after one, what the encoder holds is unspecified.
    fn write_alternative<E: Encoder>(&self, encoder: &mut E) -> Result<(), EncodeError>
        ensures written { OnOk result (Written E.holds E.notation (chosen self.now).shape
            (chosen self.now).payload encoder.old encoder.new) }
        ensures refused { IfErr result (FailsToEncode E.notation (chosen self.now).payload) };

    /// Decodes the payload of the alternative at this place from the first pending slot.
    ///
    /// # Errors
    ///
    /// Those of the payload's type; `NoValidChoice` for a place past the last, and then no slot is
    /// taken.
    fn read_alternative<D: Decoder>(decoder: &mut D, place: usize) -> Result<Self, DecodeError>
        ensures { PlaceAnswer D.notation (all_alternatives alternatives additions)
            (λ x. chosen_value (chosen x)) place (D.pending decoder.old) result
            (D.pending decoder.new) };

    // The alternative of each value is one of the type's.
    ghost is_chosen: { (x : Self) → IsChosen (all_alternatives alternatives additions) (chosen x) };

    // The shape can be read.
    ghost readable: { is_readable (AbstractShape.choice alternatives additions) ≡ true };
}

/// Encodes a CHOICE: its payload, under the identifier of its alternative.
///
/// # Errors
///
/// Those of the payload, and `OutOfMemory`.
#[tactic(auto, using(asn_coding::proofs::ByPlace::fails_choice))]
pub fn write_choice<T: ChoicePayload, E: Encoder>(
    value: &T,
    encoder: &mut E,
) -> Result<(), EncodeError>
    ensures written { OnOk result
        (Written E.holds E.notation (AbstractShape.choice T.alternatives T.additions)
        (chosen_value (T.chosen value.now)) encoder.old encoder.new) }
    ensures refused { IfErr result (FailsToEncode E.notation (chosen_value (T.chosen value.now))) }
{
    encoder.open_frame()?;
    value.write_alternative(encoder)?;
    let names = Identifiers(T::listed_names());
    encoder.close_choice(Name::Constant(names.identifier(value.alternative_place())))
}

/// Decodes a CHOICE by the identifier in the text.
///
/// # Errors
///
/// Those of `Decoder` and of the payload; `NoValidChoice` where no alternative is named.
pub fn read_choice<T: ChoicePayload, D: Decoder>(decoder: &mut D) -> Result<T, DecodeError>
    ensures { Answer D.notation (AbstractShape.choice T.alternatives T.additions)
        (λ x. chosen_value (T.chosen x)) (D.pending decoder.old) result (D.pending decoder.new) }
{
    let names = T::listed_names();
    match decoder.open_choice(&Identifiers(names)) {
        // No alternative stands past the last, so the type refuses that place by its own word.
        Ok(place) => T::read_alternative(decoder, place.unwrap_or(names.len())),
        Err(error) => Err(error),
    }
}

/// Is a CHOICE whose values may be the elements of a SET OF.
pub trait ChoiceElement: ChoicePayload + Eq + Hash {
    // Two are equal exactly where the values that they stand for are.
    ghost alike: { (a b : Self) → (Self.PartialEq.eq a b ≡ true)
        ↔ (chosen_value (Self.ChoicePayload.chosen a)
        ≡ chosen_value (Self.ChoicePayload.chosen b)) };
}

/// Lets values of such a CHOICE be elements.
impl<T: ChoiceElement> ElementKind<T> for ChoiceKind {
    ghost same = { T.alike };
}
