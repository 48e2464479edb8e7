//! States the laws of the definitions, each as the contract of a function that does nothing. They
//! hold for every shape, recursive ones too, and the contracts of the codecs stand on them.
ghost use Rattle.asn_model.specs.Canonical.{jer_data, avn_tree, canonical_text};
ghost use Rattle.asn_model.specs.HeldJson.{is_held};
ghost use Rattle.asn_model.specs.Notation.{Notation, IsText};
ghost use Rattle.asn_model.specs.Readable.{is_readable};
ghost use Rattle.asn_model.specs.DecodesTo.{DecodesTo};
ghost use Rattle.asn_model.specs.Shape.{Shape};
ghost use Rattle.asn_model.specs.FailsWith.{FailsWith, Path};
ghost use Rattle.asn_model.specs.Tree.{Tree, Slot};
ghost use Rattle.asn_model.specs.Value.{Value, Fits};
ghost use Rattle.asn_model.specs.Writable.{Writable};
ghost use Rattle.asn_fault.specs.Failure.{Cause};
ghost use Rattle.avn_grammar.specs.Depth.{ExceedsDepth, deepest};
ghost use Rattle.avn_grammar.specs.Grammar.{ParsesWhole};
ghost use Rattle.avn_grammar.specs.Normal.{normal};
ghost use Rattle.serde_json.specs.Data.{Data, depth};
ghost use Rattle.serde_json.specs.Read.{read};
ghost use Rattle.std.specs.Prelude.{◌≡◌, ℕ, List, ◌≤◌, ◌<◌, Some, true, IsUtf8};
ghost use Rattle.std.specs.Str.{chars};

/// A slot decodes to at most one value by a shape.
pub fn one_value()
    ensures { (n : Notation) (s : Shape) (slot : Slot) (v w : Value) → IsText n → DecodesTo n s slot
        v
        → DecodesTo n s slot w → v ≡ w }
{}

/// A slot that decodes to a value by a shape has no reason to decode to none.
pub fn no_reason()
    ensures { (n : Notation) (s : Shape) (slot : Slot) (v : Value) (p : Path) (w : Cause) → IsText n
        → DecodesTo n s slot v → FailsWith n s slot p w → ⊥ }
{}

/// What is written for a value of a shape that can be read, which the notation can write, decodes
/// to that value: in JER the JSON value that is written, and in AVN the normal form of what is
/// written, which its text is read as.
pub fn written_decodes()
    ensures jer { (s : Shape) (v : Value) → is_readable s ≡ true → Fits s v
        → Writable Notation.jer v
        → DecodesTo Notation.jer s (Some (Tree.json (jer_data v))) v }
    ensures avn { (s : Shape) (v : Value) → is_readable s ≡ true → Fits s v
        → Writable Notation.avn v
        → DecodesTo Notation.avn s (Some (Tree.avn (normal (avn_tree v)))) v }
{}

/// The text that AVN writes for a value of a shape that can be read, which it can write, is read as
/// the normal form of its tree where that is no deeper than the limit, and else a value in it is
/// nested beyond the limit.
pub fn written_avn_is_read()
    ensures reads { (limit : ℕ) (s : Shape) (v : Value) → is_readable s ≡ true → Fits s v
        → Writable Notation.avn v → deepest 0 (avn_tree v) ≤ limit
        → ParsesWhole limit (chars (canonical_text Notation.avn v)) (normal (avn_tree v)) }
    ensures deep { (limit : ℕ) (s : Shape) (v : Value) → is_readable s ≡ true → Fits s v
        → Writable Notation.avn v → limit < deepest 0 (avn_tree v) → ExceedsDepth limit 0 (chars
        (canonical_text Notation.avn v)) }
{}

/// The JSON value that is written for a value nests no deeper than one that decodes to the value.
pub fn written_json_nests_no_deeper()
    ensures { (s : Shape) (d : Data) (v : Value) → DecodesTo Notation.jer s (Some (Tree.json d)) v
        → depth (jer_data v) ≤ depth d }
{}

/// AVN can write each value that JER can write.
pub fn avn_writes_what_jer_writes()
    ensures { (v : Value) → Writable Notation.jer v → Writable Notation.avn v }
{}

/// The strings of a JSON text are UTF-8 at every depth, and its whole numbers have 64 bits.
pub fn json_texts_are_held()
    ensures { (text : List ℕ) (d : Data) → IsUtf8 text → read text ≡ Some d → is_held d ≡ true }
{}

/// Both notations can write what decodes from a JSON text, whatever the shape is, and from each
/// JSON value that `serde_json` can hold.
pub fn decoded_json_can_be_written()
    ensures text { (s : Shape) (text : List ℕ) (d : Data) (v : Value) → IsUtf8 text
        → read text ≡ Some d → DecodesTo Notation.jer s (Some (Tree.json d)) v
        → Writable Notation.jer v × Writable Notation.avn v }
    ensures held { (s : Shape) (d : Data) (v : Value) → is_held d ≡ true
        → DecodesTo Notation.jer s (Some (Tree.json d)) v
        → Writable Notation.jer v × Writable Notation.avn v }
{}

/// Values of a shape that can be read, which the notation can write, are equal where their
/// canonical texts are.
pub fn equal_texts_are_of_equal_values()
    ensures { (n : Notation) (s : Shape) (v w : Value) → IsText n → is_readable s ≡ true
        → Fits s v → Fits s w → Writable n v → Writable n w
        → canonical_text n v ≡ canonical_text n w → v ≡ w }
{}
