//! Defines `DecodeError`: why a value is not decoded, within which fields, and by which codec.
//! An error within fields holds boxes, so contracts don't compare errors as they are: they
//! compare what `failure_of` gives of them, the path of fields, the cause and the codec.
ghost use Rattle.std.specs.Prelude.{◌≡◌, ◌⊎◌, Some, string_bytes};
ghost use Rattle.std.specs.Fn.{FnReturnsAt};
ghost use Rattle.asn_fault.specs.Failure.{Cause, at_root, decode_error, failure_of};
ghost use Rattle.asn_fault.specs.Failure.{is_out_of_memory, root_kind, wrapped};
ghost use Rattle.asn_fault.specs.Texts.{decode_kind_text, decode_error_text, needed_text};

mod binary;
mod kind_text;

use crate::{CodecDecodeError, InnerSubtypeConstraintError, PermittedAlphabetError, RootCause};
use asn_core::{Bounded, Class, Codec, Tag, Variants, WholeNumber};
use std::alloc::Global;
use std::error::Error;
use std::fmt;

/// States why a value is not decoded.
#[cycle(decode_error)]
#[derive(Debug, Drop)]
pub enum DecodeErrorKind {
    /// The string has a character that the permitted alphabet of its type lacks.
    PermittedAlphabetError {
        /// Names the character.
        reason: PermittedAlphabetError,
    },
    /// The size of the value is not one that its type has.
    SizeConstraintNotSatisfied {
        /// Holds the size, where it is known.
        size: Option<usize>,
        /// States the sizes that the type has.
        expected: String,
    },
    /// The number is not one that its type has.
    ValueConstraintNotSatisfied {
        /// Holds the number.
        value: WholeNumber,
        /// Holds the bounds of the numbers that the type has.
        expected: Bounded<i128>,
    },
    /// The components of the value break an inner subtype constraint.
    InnerSubtypeConstraintNotSatisfied {
        /// States how.
        reason: InnerSubtypeConstraintError,
    },
    /// The kind is one that a single set of encoding rules has.
    CodecSpecific {
        /// Holds the kind, and names the encoding rules that have it.
        inner: CodecDecodeError,
    },
    /// The index is that of no item of the ENUMERATED type.
    EnumerationIndexNotFound {
        /// Holds the index.
        index: usize,
        /// States whether the index was looked for among the extension additions.
        extended_list: bool,
    },
    /// The index is that of no alternative of the CHOICE type.
    ChoiceIndexNotFound {
        /// Holds the index.
        index: usize,
        /// Holds the tags of the alternatives.
        variants: Variants,
    },
    /// The index of an alternative is greater than the platform can count.
    ChoiceIndexExceedsPlatformWidth {
        /// Counts the octets of the index.
        needed: u32,
        /// States why the index is not decoded.
        present: Box<DecodeError>,
    },
    /// The cause has words of its own, such as that the library does not have the codec.
    Custom {
        /// Holds the words.
        msg: String,
    },
    /// The number is that of no item of the ENUMERATED type.
    DiscriminantValueNotFound {
        /// Holds the number.
        discriminant: isize,
    },
    /// A field is there twice. In AVN, two present entries have its name.
    DuplicateField {
        /// Names the field.
        name: &'static str,
    },
    /// The value has more elements than are read.
    ExceedsMaxLength {
        /// Counts the elements that are read at most.
        length: u128,
    },
    /// The length is greater than the platform can count.
    LengthExceedsPlatformWidth {
        /// States the length.
        msg: String,
    },
    /// The value of a field is not decoded. Errors of fields within fields make a chain of these.
    FieldError {
        /// Names the field.
        name: &'static str,
        /// States why its value is not decoded.
        nested: Box<DecodeError>,
    },
    /// The input ends within a value, and more of it may follow.
    Incomplete {
        /// States how much more is needed.
        needed: Needed,
    },
    /// The input ends within a value.
    Eof,
    /// A SEQUENCE has another number of components than its type.
    IncorrectItemNumberInSequence {
        /// Counts the components of the type.
        expected: usize,
        /// Counts the components that are there.
        actual: usize,
    },
    /// The number is outside the range of its type.
    IntegerOverflow {
        /// Counts the bits of the type.
        max_width: u32,
    },
    /// The number is not one of another integer type.
    IntegerTypeConversionFailed {
        /// States why.
        msg: String,
    },
    /// The octets are no REAL.
    InvalidRealEncoding,
    /// A REAL is expected, or the value holds one.
    RealNotSupported,
    /// The last octet of a bit string has more unused bits than it has bits.
    InvalidBitString {
        /// Counts the unused bits.
        bits: u8,
    },
    /// The octet of a BOOLEAN is neither of the two that canonical rules have.
    InvalidBool {
        /// Holds the octet.
        value: u8,
    },
    /// The octets of a length are none.
    ZeroLengthOfLength,
    /// The number of octets is not the one that is stated.
    MismatchedLength {
        /// Counts the octets as stated.
        expected: usize,
        /// Counts the octets that are there.
        actual: usize,
    },
    /// A required extension addition is absent.
    MissingField {
        /// Names the addition.
        name: &'static str,
    },
    /// A component of a SEQUENCE or SET is absent, or has no tag.
    MissingTagClassOrValueInSequenceOrSet {
        /// Holds the class of the component's tag.
        class: Class,
        /// Holds the number of the component's tag.
        value: u32,
    },
    /// The range of an INTEGER is wider than the platform can count.
    RangeExceedsPlatformWidth {
        /// Counts the bits that the range needs.
        needed: u32,
        /// Counts the bits that the platform has.
        present: u32,
    },
    /// An extension addition that has to be there is absent.
    RequiredExtensionNotPresent {
        /// Holds the tag of the addition.
        tag: Tag,
    },
    /// The text is no JSON.
    Parser {
        /// Holds what the JSON parser states.
        msg: String,
    },
    /// The string has a character that its type lacks.
    StringConversionFailed {
        /// Holds the universal tag of the type.
        tag: Tag,
        /// States which character it is, and where.
        msg: String,
    },
    /// A string of fixed size has another size.
    FixedStringConversionFailed {
        /// Holds the universal tag of the type.
        tag: Tag,
        /// Counts the characters of the type.
        expected: usize,
        /// Counts the characters that are there.
        actual: usize,
    },
    /// The value names no alternative of a CHOICE type.
    NoValidChoice {
        /// Names the CHOICE type.
        name: &'static str,
    },
    /// An extension addition is there, and the type has no extension marker.
    TypeNotExtensible,
    /// Octets follow the value.
    UnexpectedExtraData {
        /// Counts them.
        length: usize,
    },
    /// A component is there that the type lacks.
    UnknownField {
        /// Holds the place of the component.
        index: usize,
        /// Holds the tag of the component.
        tag: Tag,
    },
    /// The input is empty where a SEQUENCE or an INTEGER is expected.
    UnexpectedEmptyInput,
    /// Braces of AVN are nested beyond the limit of 64 levels.
    ExceedsMaxParseDepth,
    /// Memory ran out.
    OutOfMemory,
}

/// Reports that a value is not decoded: why, and by which encoding rules.
#[cycle(decode_error)]
#[derive(Debug, Drop)]
pub struct DecodeError {
    /// States why the value is not decoded.
    pub kind: DecodeErrorKind,
    /// Names the encoding rules by which it is not.
    pub codec: Codec,
}

/// Makes errors, one constructor for each kind, and finds the cause within fields.
impl DecodeError {
    /// Returns the error of this kind.
    pub fn from_kind(kind: DecodeErrorKind, codec: Codec) -> DecodeError
        ensures { result ≡ decode_error kind codec }
    {
        DecodeError { kind, codec }
    }

    /// Returns the error that a number is outside the range of its type, which has this many bits.
    pub fn integer_overflow(max_width: u32, codec: Codec) -> DecodeError
        ensures { failure_of result ≡ at_root (Cause.integer_overflow max_width) codec }
    {
        let kind = DecodeErrorKind::IntegerOverflow { max_width };
        DecodeError { kind, codec }
    }

    /// Returns the error that a text is no JSON. `msg` is what the JSON parser states.
    pub fn parser_fail(msg: String, codec: Codec) -> DecodeError
        ensures { failure_of result ≡ at_root (Cause.parser (string_bytes msg)) codec }
    {
        let kind = DecodeErrorKind::Parser { msg };
        DecodeError { kind, codec }
    }

    /// Returns the error that a REAL is expected, or that the value holds one.
    pub fn real_not_supported(codec: Codec) -> DecodeError
        ensures { failure_of result ≡ at_root Cause.real_not_supported codec }
    {
        let kind = DecodeErrorKind::RealNotSupported;
        DecodeError { kind, codec }
    }

    /// Returns the error that a string has a character that its type lacks. `tag` is the type's
    /// universal tag, and `msg` states the character and its place.
    pub fn string_conversion_failed(tag: Tag, msg: String, codec: Codec) -> DecodeError
        ensures { failure_of result
            ≡ at_root (Cause.string_conversion_failed tag (string_bytes msg)) codec }
    {
        let kind = DecodeErrorKind::StringConversionFailed { tag, msg };
        DecodeError { kind, codec }
    }

    /// Returns an error in words of its own.
    pub fn custom(msg: String, codec: Codec) -> DecodeError
        ensures { failure_of result ≡ at_root (Cause.custom (string_bytes msg)) codec }
    {
        let kind = DecodeErrorKind::Custom { msg };
        DecodeError { kind, codec }
    }

    /// Returns the error that the required extension addition of this name is absent.
    pub fn missing_field(name: &'static str, codec: Codec) -> DecodeError
        ensures { failure_of result ≡ at_root (Cause.missing_field name.now) codec }
    {
        let kind = DecodeErrorKind::MissingField { name };
        DecodeError { kind, codec }
    }

    /// Returns the error that a value names no alternative of the CHOICE type of this name.
    pub fn no_valid_choice(name: &'static str, codec: Codec) -> DecodeError
        ensures { failure_of result ≡ at_root (Cause.no_valid_choice name.now) codec }
    {
        let kind = DecodeErrorKind::NoValidChoice { name };
        DecodeError { kind, codec }
    }

    /// Returns the error that memory ran out.
    pub fn out_of_memory(codec: Codec) -> DecodeError
        ensures { failure_of result ≡ at_root Cause.out_of_memory codec }
    {
        let kind = DecodeErrorKind::OutOfMemory;
        DecodeError { kind, codec }
    }

    /// Returns what the predicate returns for the kind at the end of the chain of `FieldError`s.
    /// `K` stands for `DecodeErrorKind`, as `Cause` states: a caller writes
    /// `|kind: &DecodeErrorKind| ..`.
    pub fn matches_root_cause<K: RootCause, F: Fn(&K) -> bool + Drop>(&self, predicate: F) -> bool
        requires { F.IsAlwaysCallable predicate }
        ensures { (cause : K) × (K.kind cause ≡ root_kind self.now.kind)
            × FnReturnsAt F.Fn predicate cause result }
    {
        predicate(K::of(self.root_cause()))
    }

    /// Returns the kind at the end of the chain of `FieldError`s: of another kind, itself.
    fn root_cause(&self) -> &DecodeErrorKind
        ensures { result.now ≡ root_kind self.now.kind }
    {
        match &self.kind {
            DecodeErrorKind::FieldError { nested, .. } => nested.root_cause(),
            kind => kind,
        }
    }

    /// Returns whether memory ran out, and not within a field.
    pub fn is_out_of_memory(&self) -> bool
        ensures { result ≡ is_out_of_memory (failure_of self.now) }
    {
        match &self.kind {
            DecodeErrorKind::OutOfMemory => true,
            _ => false,
        }
    }

    /// Returns the error that the value of the field `name` is not decoded, because of `nested`.
    /// Where `nested` is `OutOfMemory`, or there is no memory to box it, the error is `OutOfMemory`
    /// without a field: so a caller finds it without going through fields.
    pub fn field_error(
        alloc: Global,
        name: &'static str,
        nested: DecodeError,
        codec: Codec,
    ) -> DecodeError
        ensures { (failure_of result ≡ wrapped name.now codec (failure_of nested))
            ⊎ (failure_of result ≡ at_root Cause.out_of_memory codec) }
    {
        if nested.is_out_of_memory() {
            let_go(nested);
            return DecodeError::out_of_memory(codec);
        }
        let boxed: Result<_, _> = Box::new(alloc, nested);
        match boxed {
            Ok(nested) => {
                let kind = DecodeErrorKind::FieldError { name, nested };
                DecodeError { kind, codec }
            }
            Err(_) => {
                let_go(boxed);
                DecodeError::out_of_memory(codec)
            }
        }
    }
}

/// Drops the value. Since its type is open, the proof goes through no kinds of errors.
pub(crate) fn let_go<T: Drop>(_value: T) {}

/// Prints why the value is not decoded. Nested errors are printed in full, each with its codec.
impl fmt::Display for DecodeErrorKind {
    ghost output = { λ kind. Some (decode_kind_text kind) };

    #[cycle(printing)]
    fn fmt<W: fmt::Write>(&self, f: &mut fmt::Formatter<W>) -> fmt::Result {
        match self {
            DecodeErrorKind::InnerSubtypeConstraintNotSatisfied { reason } => {
                write!(f, "Inner subtype constraint not satisfied: {reason}")
            }
            DecodeErrorKind::CodecSpecific { inner } => inner.fmt(f),
            DecodeErrorKind::ChoiceIndexExceedsPlatformWidth { needed, present } => {
                let present = &**present;
                write!(
                    f,
                    "Choice index exceeds platform index width. Needed {needed} bytes, \
                     present: {present}"
                )
            }
            DecodeErrorKind::FieldError { name, nested } => {
                let nested = &**nested;
                write!(f, "Error when decoding field `{name}`: {nested}")
            }
            kind => kind.write_component(f),
        }
    }
}

/// Has no source: a nested error is printed as part of its field's error.
impl Error for DecodeErrorKind {}

/// Prints the kind, and then the codec in parentheses.
impl fmt::Display for DecodeError {
    ghost output = { λ error. Some (decode_error_text error) };

    #[cycle(printing)]
    fn fmt<W: fmt::Write>(&self, f: &mut fmt::Formatter<W>) -> fmt::Result {
        let kind = &self.kind;
        let codec = self.codec;
        write!(f, "{kind} (Codec: {codec})")
    }
}

/// Has no source: a nested error is printed as part of its field's error.
impl Error for DecodeError {}

/// States how much more input a value needs.
#[derive(Clone, Copy, Debug, PartialEq, Eq)]
pub enum Needed {
    /// The value does not state how much.
    Unknown,
    /// So many more octets are needed, at least.
    Size(usize),
}

/// Prints the variant, with the number of octets in parentheses.
impl fmt::Display for Needed {
    ghost output = { λ needed. Some (needed_text needed) };

    fn fmt<W: fmt::Write>(&self, f: &mut fmt::Formatter<W>) -> fmt::Result {
        match self {
            Needed::Unknown => f.write_str("Unknown"),
            Needed::Size(octets) => write!(f, "Size({octets})"),
        }
    }
}
