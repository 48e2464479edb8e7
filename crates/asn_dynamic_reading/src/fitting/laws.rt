//! States the law as the contract of a function that does nothing.
ghost use Rattle.asn_dynamic_reading.specs.fitting.HeldValue.{IsHeldValue};
ghost use Rattle.asn_model.specs.DecodesTo.{DecodesTo};
ghost use Rattle.asn_model.specs.Notation.{IsText, Notation};
ghost use Rattle.asn_model.specs.Shape.{Shape};
ghost use Rattle.asn_model.specs.Tree.{Slot};
ghost use Rattle.asn_model.specs.Value.{Fits, Value};

/// What a slot decodes to by a shape is a value of the shape, if Rust values hold its parts.
pub fn decoded_values_fit()
    ensures { (n : Notation) (s : Shape) (slot : Slot) (v : Value) → IsText n
        → DecodesTo n s slot v → IsHeldValue v → Fits s v }
{}
