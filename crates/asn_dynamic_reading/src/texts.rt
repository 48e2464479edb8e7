//! Reads character strings of an alphabet that a program names. Their text is tested and kept, and
//! not copied.
ghost use Rattle.asn_coding.specs.Answer.{Answer};
ghost use Rattle.asn_dynamic_reading.specs.fitting.HeldValue.{IsHeldValue};
ghost use Rattle.asn_dynamic_values.specs.DynView.{dyn_value};
ghost use Rattle.asn_model.specs.Shape.{Shape as AbstractShape, Alphabet as AbstractAlphabet};
ghost use Rattle.asn_model.specs.ShapeView.{alphabet_view};
ghost use Rattle.asn_types.specs.TextTypes.{MakesOfText};
ghost use Rattle.std.specs.Prelude.{◌≡◌, IfOk, string_bytes};

use crate::values::text_value;
use asn_core::{Codec, Constraints, Tag};
use asn_decimal::{Decimal, no_decimal};
use asn_decode::Decoder;
use asn_dynamic_values::DynValue;
use asn_fault::DecodeError;
use asn_model::{Alphabet, LeafKind, OwnedLeaf};
use asn_strings::character_sets::{
    General, Graphic, Ia5, Numeric, Printable, Universal, Visible, first_outside,
};
use asn_strings::{RestrictedOctets, RestrictedString};
use asn_types::{NamedSet, TextType};
use std::alloc::Global;

/// Reads a character string of this alphabet.
///
/// # Errors
///
/// `StringConversionFailed` where a character is outside the alphabet; those of `Decoder`.
pub fn read_string<D: Decoder>(decoder: &mut D, alphabet: Alphabet) -> Result<DynValue, DecodeError>
    ensures answer { Answer D.notation (AbstractShape.text (alphabet_view alphabet)) dyn_value
        (D.pending decoder.old) result (D.pending decoder.new) }
    ensures held { IfOk result (λ v. IsHeldValue (dyn_value v)) }
{
    match alphabet {
        Alphabet::Numeric => read_within::<D, Numeric, RestrictedString<Numeric>>(decoder),
        Alphabet::Printable => read_within::<D, Printable, RestrictedString<Printable>>(decoder),
        Alphabet::Visible => read_within::<D, Visible, RestrictedString<Visible>>(decoder),
        Alphabet::Ia5 => read_within::<D, Ia5, RestrictedString<Ia5>>(decoder),
        Alphabet::Utf8 => read_utf8(decoder),
        Alphabet::Universal => read_within::<D, Universal, RestrictedString<Universal>>(decoder),
        Alphabet::General => read_within::<D, General, RestrictedOctets<General>>(decoder),
        Alphabet::Graphic => read_within::<D, Graphic, RestrictedOctets<Graphic>>(decoder),
    }
}

/// Reads a UTF8String.
fn read_utf8<D: Decoder>(decoder: &mut D) -> Result<DynValue, DecodeError>
    ensures answer { Answer D.notation (AbstractShape.text AbstractAlphabet.utf8) dyn_value
        (D.pending decoder.old) result (D.pending decoder.new) }
    ensures held { IfOk result (λ v. IsHeldValue (dyn_value v)) }
{
    match decoder.decode_utf8_string(Tag::UTF8_STRING, &Constraints::NONE) {
        Ok(text) => Ok(text_value(text)),
        Err(error) => Err(error),
    }
}

/// Reads a character string of the alphabet of `C`. `T` is the type of such strings.
fn read_within<D: Decoder, C: NamedSet, T: TextType>(
    decoder: &mut D,
) -> Result<DynValue, DecodeError>
    requires { T.shape ≡ AbstractShape.text C.name }
    ensures answer { Answer D.notation (AbstractShape.text C.name) dyn_value
        (D.pending decoder.old) result (D.pending decoder.new) }
    ensures held { IfOk result (λ v. IsHeldValue (dyn_value v)) }
{
    match decoder.take_leaf(LeafKind::Text)? {
        OwnedLeaf::Text(text) => string_of::<C, T>(decoder.allocator(), text, decoder.codec()),
        _ => unreachable!(),
    }
}

/// Returns the string that a text is, or why it is none, as `T` states it.
fn string_of<C: NamedSet, T: TextType>(
    alloc: Global,
    text: String,
    codec: Codec,
) -> Result<DynValue, DecodeError>
    requires { T.shape ≡ AbstractShape.text C.name }
    ensures made { MakesOfText (AbstractShape.text C.name) dyn_value codec (string_bytes text)
        result }
    ensures held { IfOk result (λ v. IsHeldValue (dyn_value v)) }
{
    match first_outside::<C>(text.as_str()) {
        None => Ok(text_value(text)),
        Some(_place) => match T::of_text(alloc, text, codec) {
            Ok(_) => unreachable!(),
            Err(error) => Err(error),
        },
    }
}

/// Reads a number from 2^63 to 2^64-1, as its digits.
///
/// # Errors
///
/// `Custom` where the text is no such digits; those of `Decoder`.
pub fn read_decimal<D: Decoder>(decoder: &mut D) -> Result<DynValue, DecodeError>
    ensures answer { Answer D.notation AbstractShape.decimal dyn_value (D.pending decoder.old)
        result (D.pending decoder.new) }
    ensures held { IfOk result (λ v. IsHeldValue (dyn_value v)) }
{
    match decoder.take_leaf(LeafKind::Text)? {
        OwnedLeaf::Text(text) => digits_of(decoder.allocator(), text, decoder.codec()),
        _ => unreachable!(),
    }
}

/// Returns the digits that a text is, or why it is none of a number from 2^63 to 2^64-1.
fn digits_of(alloc: Global, text: String, codec: Codec) -> Result<DynValue, DecodeError>
    ensures made { MakesOfText AbstractShape.decimal dyn_value codec (string_bytes text) result }
    ensures held { IfOk result (λ v. IsHeldValue (dyn_value v)) }
{
    if Decimal::of_digits(text.as_str()).is_some() {
        Ok(text_value(text))
    } else {
        Err(no_decimal(alloc, text.as_str(), codec))
    }
}
