//! Makes the errors of decoding that binary rules make, which a caller hands in. Of the text
//! notations, AVN alone returns one of them: a duplicate field.
ghost use Rattle.std.specs.Prelude.{◌≡◌, ◌≢◌, ◌⊎◌, MatchResult};
ghost use Rattle.asn_fault.specs.Failure.{ExceedsWidth, decode_error};

use super::let_go;
use crate::{
    DecodeError, DecodeErrorKind, InnerSubtypeConstraintError, Needed, PermittedAlphabetError,
};
use asn_core::{Bounded, Class, Codec, Tag, Variants, WholeNumber};
use std::alloc::Global;

/// Makes errors, one constructor for each kind.
impl DecodeError {
    /// Returns the error that a string has a character that the permitted alphabet of its type
    /// lacks.
    pub fn permitted_alphabet_error(reason: PermittedAlphabetError, codec: Codec) -> DecodeError
        ensures { result ≡ decode_error (DecodeErrorKind.PermittedAlphabetError reason) codec }
    {
        let kind = DecodeErrorKind::PermittedAlphabetError { reason };
        DecodeError { kind, codec }
    }

    /// Returns the error that the size of a value, where it is known, is none of those that
    /// `expected` states.
    pub fn size_constraint_not_satisfied(
        size: Option<usize>,
        expected: String,
        codec: Codec,
    ) -> DecodeError
        ensures { result ≡ decode_error
            (DecodeErrorKind.SizeConstraintNotSatisfied size expected) codec }
    {
        let kind = DecodeErrorKind::SizeConstraintNotSatisfied { size, expected };
        DecodeError { kind, codec }
    }

    /// Returns the error that a number is outside the bounds of its type.
    pub fn value_constraint_not_satisfied(
        value: WholeNumber,
        expected: Bounded<i128>,
        codec: Codec,
    ) -> DecodeError
        ensures { result ≡ decode_error
            (DecodeErrorKind.ValueConstraintNotSatisfied value expected) codec }
    {
        let kind = DecodeErrorKind::ValueConstraintNotSatisfied { value, expected };
        DecodeError { kind, codec }
    }

    /// Returns the error that the components of a value break an inner subtype constraint.
    pub fn inner_subtype_constraint_not_satisfied(
        reason: InnerSubtypeConstraintError,
        codec: Codec,
    ) -> DecodeError
        ensures { result ≡ decode_error
            (DecodeErrorKind.InnerSubtypeConstraintNotSatisfied reason) codec }
    {
        let kind = DecodeErrorKind::InnerSubtypeConstraintNotSatisfied { reason };
        DecodeError { kind, codec }
    }

    /// Returns the error that a number is that of no item of the ENUMERATED type.
    pub fn discriminant_value_not_found(discriminant: isize, codec: Codec) -> DecodeError
        ensures { result ≡ decode_error
            (DecodeErrorKind.DiscriminantValueNotFound discriminant) codec }
    {
        let kind = DecodeErrorKind::DiscriminantValueNotFound { discriminant };
        DecodeError { kind, codec }
    }

    /// Returns the error that the range of an INTEGER needs more bits than the platform has.
    pub fn range_exceeds_platform_width(needed: u32, present: u32, codec: Codec) -> DecodeError
        ensures { result ≡ decode_error
            (DecodeErrorKind.RangeExceedsPlatformWidth needed present) codec }
    {
        let kind = DecodeErrorKind::RangeExceedsPlatformWidth { needed, present };
        DecodeError { kind, codec }
    }

    /// Returns the error that a string of fixed size has another size. `tag` is the type's
    /// universal tag.
    pub fn fixed_string_conversion_failed(
        tag: Tag,
        actual: usize,
        expected: usize,
        codec: Codec,
    ) -> DecodeError
        ensures { result ≡ decode_error
            (DecodeErrorKind.FixedStringConversionFailed tag expected actual) codec }
    {
        let kind = DecodeErrorKind::FixedStringConversionFailed {
            tag,
            expected,
            actual,
        };
        DecodeError { kind, codec }
    }

    /// Returns the error that a SEQUENCE has another number of components than its type.
    pub fn incorrect_item_number_in_sequence(
        expected: usize,
        actual: usize,
        codec: Codec,
    ) -> DecodeError
        ensures { result ≡ decode_error
            (DecodeErrorKind.IncorrectItemNumberInSequence expected actual) codec }
    {
        let kind = DecodeErrorKind::IncorrectItemNumberInSequence { expected, actual };
        DecodeError { kind, codec }
    }

    /// Returns the error that a number is not one of another integer type, for the reason in
    /// `msg`.
    pub fn integer_type_conversion_failed(msg: String, codec: Codec) -> DecodeError
        ensures { result ≡ decode_error (DecodeErrorKind.IntegerTypeConversionFailed msg) codec }
    {
        let kind = DecodeErrorKind::IntegerTypeConversionFailed { msg };
        DecodeError { kind, codec }
    }

    /// Returns the error that the last octet of a bit string has this many unused bits, which is
    /// more than it has bits.
    pub fn invalid_bit_string(bits: u8, codec: Codec) -> DecodeError
        ensures { result ≡ decode_error (DecodeErrorKind.InvalidBitString bits) codec }
    {
        let kind = DecodeErrorKind::InvalidBitString { bits };
        DecodeError { kind, codec }
    }

    /// Returns the error that the component of this tag is absent from a SEQUENCE or SET, or has
    /// no tag.
    pub fn missing_tag_class_or_value_in_sequence_or_set(
        class: Class,
        value: u32,
        codec: Codec,
    ) -> DecodeError
        ensures { result ≡ decode_error
            (DecodeErrorKind.MissingTagClassOrValueInSequenceOrSet class value) codec }
    {
        let kind = DecodeErrorKind::MissingTagClassOrValueInSequenceOrSet { class, value };
        DecodeError { kind, codec }
    }

    /// Returns the error that an extension addition is there, and the type has no extension
    /// marker.
    pub fn type_not_extensible(codec: Codec) -> DecodeError
        ensures { result ≡ decode_error DecodeErrorKind.TypeNotExtensible codec }
    {
        let kind = DecodeErrorKind::TypeNotExtensible;
        DecodeError { kind, codec }
    }

    /// Returns the error that the extension addition of this tag has to be there and is absent.
    pub fn required_extension_not_present(tag: Tag, codec: Codec) -> DecodeError
        ensures { result ≡ decode_error (DecodeErrorKind.RequiredExtensionNotPresent tag) codec }
    {
        let kind = DecodeErrorKind::RequiredExtensionNotPresent { tag };
        DecodeError { kind, codec }
    }

    /// Returns the error that an index is that of no item of the ENUMERATED type. `extended_list`
    /// states whether it was looked for among the extension additions.
    pub fn enumeration_index_not_found(
        index: usize,
        extended_list: bool,
        codec: Codec,
    ) -> DecodeError
        ensures { result ≡ decode_error
            (DecodeErrorKind.EnumerationIndexNotFound index extended_list) codec }
    {
        let kind = DecodeErrorKind::EnumerationIndexNotFound {
            index,
            extended_list,
        };
        DecodeError { kind, codec }
    }

    /// Returns the error that the index of an alternative, of `needed` octets, is greater than the
    /// platform can count. `present` states why it is not decoded.
    ///
    /// Where there is no memory to box `present`, the error is `OutOfMemory`.
    pub fn choice_index_exceeds_platform_width(
        alloc: Global,
        needed: u32,
        present: DecodeError,
        codec: Codec,
    ) -> DecodeError
        ensures kind { ExceedsWidth needed present result.kind
            ⊎ (result.kind ≡ DecodeErrorKind.OutOfMemory) }
        ensures codec { result.codec ≡ codec }
    {
        let boxed: Result<_, _> = Box::new(alloc, present);
        match boxed {
            Ok(present) => {
                let kind = DecodeErrorKind::ChoiceIndexExceedsPlatformWidth { needed, present };
                DecodeError { kind, codec }
            }
            Err(_) => {
                let_go(boxed);
                DecodeError::out_of_memory(codec)
            }
        }
    }

    /// Returns the error that a length is greater than the platform can count. `msg` states it.
    pub fn length_exceeds_platform_width(msg: String, codec: Codec) -> DecodeError
        ensures { result ≡ decode_error (DecodeErrorKind.LengthExceedsPlatformWidth msg) codec }
    {
        let kind = DecodeErrorKind::LengthExceedsPlatformWidth { msg };
        DecodeError { kind, codec }
    }

    /// Returns the error that an index is that of no alternative of the CHOICE type, whose tags
    /// are `variants`.
    pub fn choice_index_not_found(index: usize, variants: Variants, codec: Codec) -> DecodeError
        ensures { result ≡ decode_error (DecodeErrorKind.ChoiceIndexNotFound index variants) codec }
    {
        let kind = DecodeErrorKind::ChoiceIndexNotFound { index, variants };
        DecodeError { kind, codec }
    }

    /// Returns the error that this many octets follow the value.
    pub fn unexpected_extra_data(length: usize, codec: Codec) -> DecodeError
        ensures { result ≡ decode_error (DecodeErrorKind.UnexpectedExtraData length) codec }
    {
        let kind = DecodeErrorKind::UnexpectedExtraData { length };
        DecodeError { kind, codec }
    }

    /// Returns the error that the input is empty where a SEQUENCE or an INTEGER is expected.
    pub fn unexpected_empty_input(codec: Codec) -> DecodeError
        ensures { result ≡ decode_error DecodeErrorKind.UnexpectedEmptyInput codec }
    {
        let kind = DecodeErrorKind::UnexpectedEmptyInput;
        DecodeError { kind, codec }
    }

    /// Returns the error that the input ends within a value, which needs this much more of it.
    pub fn incomplete(needed: Needed, codec: Codec) -> DecodeError
        ensures { result ≡ decode_error (DecodeErrorKind.Incomplete needed) codec }
    {
        let kind = DecodeErrorKind::Incomplete { needed };
        DecodeError { kind, codec }
    }

    /// Returns the error that a value has more elements than this number, which are read at most.
    pub fn exceeds_max_length(length: u128, codec: Codec) -> DecodeError
        ensures { result ≡ decode_error (DecodeErrorKind.ExceedsMaxLength length) codec }
    {
        let kind = DecodeErrorKind::ExceedsMaxLength { length };
        DecodeError { kind, codec }
    }

    /// Returns the error that the field of this name is there twice.
    pub fn duplicate_field(name: &'static str, codec: Codec) -> DecodeError
        ensures { result ≡ decode_error (DecodeErrorKind.DuplicateField name.entry) codec }
    {
        let kind = DecodeErrorKind::DuplicateField { name };
        DecodeError { kind, codec }
    }

    /// Returns the error that the component at this place, of this tag, is one that the type
    /// lacks.
    pub fn unknown_field(index: usize, tag: Tag, codec: Codec) -> DecodeError
        ensures { result ≡ decode_error (DecodeErrorKind.UnknownField index tag) codec }
    {
        let kind = DecodeErrorKind::UnknownField { index, tag };
        DecodeError { kind, codec }
    }

    /// Checks that the number of octets is the one that is stated.
    ///
    /// # Errors
    ///
    /// `MismatchedLength`, exactly where the two differ.
    pub fn assert_length(expected: usize, actual: usize, codec: Codec) -> Result<(), DecodeError>
        ensures { MatchResult result (λ _. expected ≡ actual) (λ error. (expected ≢ actual)
            × (error ≡ decode_error (DecodeErrorKind.MismatchedLength expected actual) codec)) }
    {
        if expected == actual {
            Ok(())
        } else {
            let kind = DecodeErrorKind::MismatchedLength { expected, actual };
            Err(DecodeError { kind, codec })
        }
    }
}
