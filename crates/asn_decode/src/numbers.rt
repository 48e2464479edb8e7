//! Finds the value of an integer type that a number is.
ghost use Rattle.asn_core.specs.Numbers.{OfParts};
ghost use Rattle.asn_model.specs.Leaf.{IsOwned};
ghost use Rattle.asn_model.specs.Value.{Value};
ghost use Rattle.asn_model.specs.declared.leaves.OwnedLeaf.{OwnedLeaf};
ghost use Rattle.std.specs.Prelude.{◌≡◌, ℤ};

use asn_core::WholeNumber;
use asn_integers::{IntegerType, beyond_128_bits};

/// Returns the value of the type that a leaf's number is, or `None` exactly where the type lacks
/// it, as each type lacks a number of more than 128 bits.
#[inline(always)]
pub fn number_of<I: IntegerType>(number: Option<WholeNumber>) -> Option<I>
    ensures { (v : Value) → IsOwned v (OwnedLeaf.Number number)
        → (n : ℤ) × (v ≡ Value.int n) × OfParts I.number I.LEAST I.GREATEST n result }
{
    match number {
        Some(number) => I::of_parts(number.negative, number.magnitude),
        None => {
            // A law: such a number is outside the range of every type.
            beyond_128_bits::<I>();
            None
        }
    }
}
