//! Writes the texts of the kinds of errors that hold no other error, a group of kinds at a time.
//! Each function hands a kind of another group to the next.
ghost use Rattle.asn_fault.specs.Texts.{component_text, input_text, length_text};
ghost use Rattle.asn_fault.specs.Texts.{number_text, string_text, variant_text};
ghost use Rattle.std.specs.Fmt.{WritesOnOk};

use super::DecodeErrorKind;
use crate::print::{write_around, write_around_two, write_before, write_three, write_two};
use asn_core::Tag;
use std::fmt;

/// Writes the text of a kind, by the group that it is in.
impl DecodeErrorKind {
    /// Writes a kind that speaks of the components of a SEQUENCE or SET.
    pub(super) fn write_component<W: fmt::Write>(&self, f: &mut fmt::Formatter<W>) -> fmt::Result
        ensures { WritesOnOk W.write_str_gives f.old result (component_text self.now) f.new }
    {
        match self {
            DecodeErrorKind::DuplicateField { name } => write_around(
                f,
                "Duplicate field for `",
                name,
                "`",
            ),
            DecodeErrorKind::MissingField { name } => write_around(f, "Missing field `", name, "`"),
            DecodeErrorKind::UnknownField { index, tag } => {
                write_two(f, "Unknown field with index ", index, " and tag ", tag)
            }
            DecodeErrorKind::IncorrectItemNumberInSequence { expected, actual } => write_two(
                f,
                "Invalid item number in Sequence: expected: ",
                expected,
                "; actual: ",
                actual,
            ),
            DecodeErrorKind::MissingTagClassOrValueInSequenceOrSet { class, value } =>
                write_around_two(
                    f,
                    "Expected class: ",
                    class,
                    ", value: ",
                    value,
                    " in sequence or set Missing tag class or value in sequence or set",
                ),
            DecodeErrorKind::RequiredExtensionNotPresent {
                tag: Tag { class, value },
            } => write_around_two(
                f,
                "Extension with class `",
                class,
                "` and tag `",
                value,
                "` required, but not present",
            ),
            DecodeErrorKind::TypeNotExtensible => {
                f.write_str("Attempted to decode extension on non-extensible type")
            }
            kind => kind.write_variant(f),
        }
    }

    /// Writes a kind that speaks of the alternatives of a CHOICE or the items of an ENUMERATED.
    fn write_variant<W: fmt::Write>(&self, f: &mut fmt::Formatter<W>) -> fmt::Result
        ensures { WritesOnOk W.write_str_gives f.old result (variant_text self.now) f.new }
    {
        match self {
            DecodeErrorKind::EnumerationIndexNotFound {
                index,
                extended_list,
            } => write_two(
                f,
                "Enumeration index ",
                index,
                " did not match any variant. Extended list checked: ",
                extended_list,
            ),
            DecodeErrorKind::ChoiceIndexNotFound { index, .. } => {
                write_around(f, "Choice index ", index, " did not match any variant")
            }
            DecodeErrorKind::DiscriminantValueNotFound { discriminant } => write_around(
                f,
                "Discriminant value ",
                discriminant,
                " did not match any variant",
            ),
            DecodeErrorKind::NoValidChoice { name } => write_around(
                f,
                "No valid choice for `",
                name,
                "`",
            ),
            kind => kind.write_number(f),
        }
    }

    /// Writes a kind that speaks of a number or a truth value.
    fn write_number<W: fmt::Write>(&self, f: &mut fmt::Formatter<W>) -> fmt::Result
        ensures { WritesOnOk W.write_str_gives f.old result (number_text self.now) f.new }
    {
        match self {
            DecodeErrorKind::ValueConstraintNotSatisfied { value, expected } => write_two(
                f,
                "Value constraint not satisfied: expected: ",
                expected,
                "; actual: ",
                value,
            ),
            DecodeErrorKind::IntegerOverflow { max_width } => write_around(
                f,
                "Actual integer larger than expected ",
                max_width,
                " bits",
            ),
            DecodeErrorKind::IntegerTypeConversionFailed { msg } => {
                write_around(
                    f,
                    "Failed to cast integer to another integer type: ",
                    msg,
                    " ",
                )
            }
            DecodeErrorKind::RangeExceedsPlatformWidth { needed, present } => write!(
                f,
                "Integer range larger than possible to address on this platform. \
                 needed: {needed} present: {present}"
            ),
            DecodeErrorKind::InvalidRealEncoding => f.write_str("Invalid real encoding"),
            DecodeErrorKind::RealNotSupported => {
                f.write_str("Decoder doesn't support `REAL` type")
            }
            DecodeErrorKind::InvalidBool { value } => write_before(
                f,
                "Bool value is not `0` or `0xFF` as canonical requires. Actual: ",
                value,
            ),
            kind => kind.write_string(f),
        }
    }

    /// Writes a kind that speaks of a string.
    fn write_string<W: fmt::Write>(&self, f: &mut fmt::Formatter<W>) -> fmt::Result
        ensures { WritesOnOk W.write_str_gives f.old result (string_text self.now) f.new }
    {
        match self {
            DecodeErrorKind::PermittedAlphabetError { reason } => {
                write_before(f, "Alphabet constraint not satisfied ", reason)
            }
            DecodeErrorKind::SizeConstraintNotSatisfied { size, expected } => write!(
                f,
                "Size constraint not satisfied: expected: {expected}; actual: {size:?}"
            ),
            DecodeErrorKind::StringConversionFailed { tag, msg } => write_two(
                f,
                "Failed to convert byte array into valid ASN.1 string. String type as tag: ",
                tag,
                " Error: ",
                msg,
            ),
            DecodeErrorKind::FixedStringConversionFailed {
                tag,
                expected,
                actual,
            } => write_three(
                f,
                "Failed to convert byte array into valid fixed-sized ASN.1 string. \
                 String type as tag: ",
                tag,
                ", actual: ",
                actual,
                ", expected: ",
                expected,
            ),
            DecodeErrorKind::InvalidBitString { bits } => write_before(
                f,
                "BitString contains an invalid amount of unused bits: ",
                bits,
            ),
            kind => kind.write_length(f),
        }
    }

    /// Writes a kind that speaks of a length.
    fn write_length<W: fmt::Write>(&self, f: &mut fmt::Formatter<W>) -> fmt::Result
        ensures { WritesOnOk W.write_str_gives f.old result (length_text self.now) f.new }
    {
        match self {
            DecodeErrorKind::ExceedsMaxLength { length } => {
                write_around(f, "Expected maximum of ", length, " items")
            }
            DecodeErrorKind::LengthExceedsPlatformWidth { msg } => {
                write_before(
                    f,
                    "Length of the data exceeds platform address width: ",
                    msg,
                )
            }
            DecodeErrorKind::ZeroLengthOfLength => f.write_str("Length of Length cannot be zero"),
            DecodeErrorKind::MismatchedLength { expected, actual } => write_around_two(
                f,
                "Expected ",
                expected,
                " bytes, actual length was ",
                actual,
                " bytes",
            ),
            kind => kind.write_input(f),
        }
    }

    /// Writes a kind that speaks of the input as a whole, and nothing of a kind of another group.
    fn write_input<W: fmt::Write>(&self, f: &mut fmt::Formatter<W>) -> fmt::Result
        ensures { WritesOnOk W.write_str_gives f.old result (input_text self.now) f.new }
    {
        match self {
            DecodeErrorKind::Custom { msg } => write_before(f, "Custom error: ", msg),
            DecodeErrorKind::Incomplete { needed } => {
                write_before(f, "Need more data to continue: ", needed)
            }
            DecodeErrorKind::Eof => f.write_str("Unexpected EOF when decoding"),
            DecodeErrorKind::Parser { msg } => write_before(f, "Error in Parser: ", msg),
            DecodeErrorKind::UnexpectedExtraData { length } => {
                write_around(
                    f,
                    "Unexpected extra data found: length `",
                    length,
                    "` bytes",
                )
            }
            DecodeErrorKind::UnexpectedEmptyInput => f.write_str(
                "No input was provided where expected in the given SEQUENCE or INTEGER type",
            ),
            DecodeErrorKind::ExceedsMaxParseDepth => f.write_str("Exceeded maximum parse depth"),
            DecodeErrorKind::OutOfMemory => f.write_str("Out of memory"),
            _ => Ok(()),
        }
    }
}
