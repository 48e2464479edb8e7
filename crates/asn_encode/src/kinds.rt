//! Encodes the types of a kind alike (`EncodeKind`), and gives the kinds of numbers, enumerations
//! and texts their encoding.
ghost use Rattle.asn_coding.specs.Writing.{FailsToEncode, FailsToEncodeUnder, Written, WrittenUnder};
ghost use Rattle.asn_model.specs.Fixed.{fixed_size};
ghost use Rattle.std.specs.Prelude.{IfErr, OnOk};

use crate::{Encode, Encoder};
use asn_core::{Constraints, Identifier, Tag};
use asn_fault::EncodeError;
use asn_integers::IntegerType;
use asn_types::{AsnType, Enumerated, EnumeratedKind, IntegerKind, OfKind, TextKind, TextType};

/// Encodes the types of a kind.
pub trait EncodeKind<T: AsnType> {
    /// Encodes a value of the type: adds its slot to the open frame.
    ///
    /// # Errors
    ///
    /// `OutOfMemory`; else the kind of the first part that the notation can't encode.
    fn encode_as<E: Encoder>(
        value: &T,
        encoder: &mut E,
        tag: Tag,
        constraints: &Constraints,
        identifier: Identifier,
    ) -> Result<(), EncodeError>
        ensures written { OnOk result (WrittenUnder E.holds E.notation (fixed_size constraints.now)
            T.shape_of (T.value_of value.now) encoder.old encoder.new) }
        ensures refused { IfErr result (FailsToEncodeUnder E.notation (fixed_size constraints.now)
            T.shape_of (T.value_of value.now)) };
}

/// Encodes a type as its kind does.
impl<T: OfKind + AsnType> Encode for T
where
    T::Kind: EncodeKind<T>,
{
    fn encode_with_tag_and_constraints<E: Encoder>(
        &self,
        encoder: &mut E,
        tag: Tag,
        constraints: &Constraints,
        identifier: Identifier,
    ) -> Result<(), EncodeError> {
        <T::Kind as EncodeKind<T>>::encode_as(self, encoder, tag, constraints, identifier)
    }
}

/// Encodes a number, in the range of the type's constraints or not: neither notation checks them.
impl<I: IntegerType + OfKind<Kind = IntegerKind>> EncodeKind<I> for IntegerKind {
    fn encode_as<E: Encoder>(
        value: &I,
        encoder: &mut E,
        tag: Tag,
        constraints: &Constraints,
        identifier: Identifier,
    ) -> Result<(), EncodeError> {
        encoder.encode_integer::<I>(tag, constraints, value, identifier)
    }
}

/// Encodes an item by its identifier.
impl<T: Enumerated> EncodeKind<T> for EnumeratedKind {
    fn encode_as<E: Encoder>(
        value: &T,
        encoder: &mut E,
        tag: Tag,
        _constraints: &Constraints,
        identifier: Identifier,
    ) -> Result<(), EncodeError> {
        encoder.encode_enumerated::<T>(tag, value, identifier)
    }
}

/// Is a type whose values are texts, with the call that writes one.
pub trait EncodeText: TextType {
    /// Writes the value as its text.
    ///
    /// # Errors
    ///
    /// Why the value has no text; `OutOfMemory`.
    fn put_text<E: Encoder>(&self, encoder: &mut E) -> Result<(), EncodeError>
        ensures written { OnOk result (Written E.holds E.notation Self.shape (Self.value self.now)
            encoder.old encoder.new) }
        ensures refused { IfErr result (FailsToEncode E.notation (Self.value self.now)) };
}

/// Encodes a value that is a text as that text.
impl<T: EncodeText> EncodeKind<T> for TextKind {
    fn encode_as<E: Encoder>(
        value: &T,
        encoder: &mut E,
        _tag: Tag,
        _constraints: &Constraints,
        _identifier: Identifier,
    ) -> Result<(), EncodeError> {
        value.put_text(encoder)
    }
}
