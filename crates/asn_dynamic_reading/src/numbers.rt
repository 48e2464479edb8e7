//! Reads whole numbers of a range that a program holds.
ghost use Rattle.asn_coding.specs.Answer.{Answer};
ghost use Rattle.asn_core.specs.Numbers.{signed};
ghost use Rattle.asn_dynamic_reading.specs.fitting.HeldValue.{IsHeldValue};
ghost use Rattle.asn_dynamic_values.specs.DynView.{dyn_value};
ghost use Rattle.asn_model.specs.Range.{is_between};
ghost use Rattle.asn_model.specs.Shape.{Shape as AbstractShape};
ghost use Rattle.std.specs.Prelude.{◌≡◌, IfOk, pos};

use asn_core::WholeNumber;
use asn_decode::Decoder;
use asn_dynamic_values::DynValue;
use asn_fault::DecodeError;
use asn_model::{LeafKind, OwnedLeaf};

/// Reads an INTEGER from the least to the greatest number.
///
/// # Errors
///
/// `IntegerOverflow` with the bits where the number is outside that range; those of `Decoder`.
pub fn read_int<D: Decoder>(
    decoder: &mut D,
    least: i128,
    greatest: u128,
    width: u32,
) -> Result<DynValue, DecodeError>
    ensures answer { Answer D.notation (AbstractShape.int least (pos greatest) width) dyn_value
        (D.pending decoder.old) result (D.pending decoder.new) }
    ensures held { IfOk result (λ v. IsHeldValue (dyn_value v)) }
{
    match decoder.take_leaf(LeafKind::Number)? {
        OwnedLeaf::Number(Some(number)) => {
            if is_between(least, greatest, number) {
                Ok(DynValue::Int(number))
            } else {
                Err(DecodeError::integer_overflow(width, decoder.codec()))
            }
        }
        OwnedLeaf::Number(None) => Err(DecodeError::integer_overflow(width, decoder.codec())),
        _ => unreachable!(),
    }
}

/// Returns whether the number is from the least to the greatest.
pub fn is_between(least: i128, greatest: u128, number: WholeNumber) -> bool
    ensures { result ≡ is_between least (pos greatest) (signed number.negative number.magnitude) }
{
    if number.negative && number.magnitude > 0 {
        // It is at least the least number where that is as far or farther below 0.
        least < 0 && number.magnitude <= least.unsigned_abs()
    } else {
        number.magnitude <= greatest && (least <= 0 || number.magnitude >= least as u128)
    }
}
