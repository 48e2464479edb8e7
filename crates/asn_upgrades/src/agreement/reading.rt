//! States that a text has one reading by a shape.
ghost use Rattle.asn_upgrades.specs.agreement.Alike.{AreAlike};
ghost use Rattle.asn_codec.specs.Texts.{IsDecodeFailure, TextDecodesTo};
ghost use Rattle.asn_core.specs.declared.codec.Codec.{Codec};
ghost use Rattle.asn_fault.specs.Failure.{Failure};
ghost use Rattle.asn_model.specs.Notation.{IsText, notation_of};
ghost use Rattle.asn_model.specs.Shape.{Shape};
ghost use Rattle.asn_model.specs.Value.{Value};
ghost use Rattle.std.specs.Prelude.{◌≡◌, ℕ, List};

/// A text has one reading by a shape in a notation, whoever reads it, want of memory aside: it is
/// read as one value, or it is refused, for one path and one cause.
pub fn one_reading()
    // Two readers that give a value give the same one.
    ensures values { (limit : ℕ) (codec : Codec) (shape : Shape) (text : List ℕ) (v w : Value)
        → IsText (notation_of codec)
        → TextDecodesTo limit (notation_of codec) shape text v
        → TextDecodesTo limit (notation_of codec) shape text w → v ≡ w }
    // None refuses what another one reads.
    ensures no_refusal { (limit : ℕ) (codec : Codec) (shape : Shape) (text : List ℕ) (v : Value)
        (failure : Failure) → IsText (notation_of codec)
        → TextDecodesTo limit (notation_of codec) shape text v
        → IsDecodeFailure limit codec shape text failure → ⊥ }
    // Two that refuse it state the same, but for the name of a CHOICE type.
    ensures refusals { (limit : ℕ) (codec : Codec) (shape : Shape) (text : List ℕ)
        (failure other : Failure) → IsDecodeFailure limit codec shape text failure
        → IsDecodeFailure limit codec shape text other → AreAlike failure other }
{}
