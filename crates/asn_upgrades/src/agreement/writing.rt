//! States that a value is written or refused in one way.
ghost use Rattle.asn_upgrades.specs.agreement.Blocked.{BagsBlockOnce};
ghost use Rattle.asn_codec.specs.Texts.{IsUnencodable};
ghost use Rattle.asn_core.specs.declared.codec.Codec.{Codec};
ghost use Rattle.asn_fault.specs.EncodeCause.{EncodeCause};
ghost use Rattle.asn_model.specs.Notation.{IsText, notation_of};
ghost use Rattle.asn_model.specs.Value.{Value};
ghost use Rattle.asn_model.specs.Writable.{Writable};
ghost use Rattle.std.specs.Prelude.{◌≡◌};

/// A value is written or refused in one way, whoever writes it, want of memory aside. Its text is
/// the canonical one, which is a function of the value.
pub fn one_writing()
    // None refuses what can be written.
    ensures no_refusal { (codec : Codec) (v : Value) (cause : EncodeCause)
        → IsText (notation_of codec) → Writable (notation_of codec) v
        → IsUnencodable codec v cause → ⊥ }
    // Two that refuse a value state the same, unless several elements of one SET OF can't be
    // written.
    ensures refusals { (codec : Codec) (v : Value) (cause other : EncodeCause)
        → BagsBlockOnce (notation_of codec) v
        → IsUnencodable codec v cause → IsUnencodable codec v other → cause ≡ other }
{}
