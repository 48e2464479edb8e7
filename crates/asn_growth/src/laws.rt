//! States the laws of versions, each as the contract of a function that does nothing. They hold for
//! all shapes that can be read, at any depth and in both notations, and so for every reader and
//! writer of types that keep the laws of the traits.
ghost use Rattle.asn_fault.specs.Failure.{Cause};
ghost use Rattle.asn_growth.specs.Adapted.{lift, project};
ghost use Rattle.asn_growth.specs.Grows.{Grows};
ghost use Rattle.asn_growth.specs.ComesUpon.{ComesUpon, IsAsMuch, IsMissing, IsUnknown};
ghost use Rattle.asn_growth.specs.ComesUpon.{Known};
ghost use Rattle.asn_model.specs.Canonical.{avn_tree, canonical_text, jer_data};
ghost use Rattle.asn_model.specs.DecodesTo.{DecodesTo};
ghost use Rattle.asn_model.specs.FailsWith.{FailsWith, Path};
ghost use Rattle.asn_model.specs.Notation.{Notation, IsText};
ghost use Rattle.asn_model.specs.Readable.{is_readable};
ghost use Rattle.asn_model.specs.Shape.{FieldAdditions, Fields, SeqKind, Shape, all_fields};
ghost use Rattle.asn_model.specs.Shape.{field_names, unfold_loop};
ghost use Rattle.asn_model.specs.Tree.{Slot, Tree, as_members, first_repeated};
ghost use Rattle.asn_model.specs.Value.{Fits, Value};
ghost use Rattle.asn_model.specs.Writable.{Writable};
ghost use Rattle.avn_grammar.specs.Normal.{normal};
ghost use Rattle.std.specs.Prelude.{◌≡◌, ◌⊎◌, ℕ, List, [], Some, true};

/// A later version of a type that refers to itself is one when both are unfolded.
pub fn growth_survives_unfolding()
    ensures { (b c : Shape) → Grows (Shape.loop b) (Shape.loop c)
        → Grows (unfold_loop b) (unfold_loop c) }
{}

/// An older reader reads a text of a newer version as the value without what it lacks, where it
/// looks at no alternative and no item that it lacks. Else it comes upon one, and whatever it
/// refuses it refuses there, for that reason.
pub fn older_readers_read_newer_texts()
    ensures known { (n : Notation) (old new : Shape) (t : Tree) (v : Value) → IsText n
        → is_readable old ≡ true → Grows old new → DecodesTo n new (Some t) v → Known n old t
        → DecodesTo n old (Some t) (project old v) }
    ensures unknown { (n : Notation) (old new : Shape) (t : Tree) (v : Value) → IsText n
        → is_readable old ≡ true → Grows old new → DecodesTo n new (Some t) v
        → DecodesTo n old (Some t) (project old v)
        ⊎ ((p : Path) × (w : Cause) × ComesUpon n old t p w × IsUnknown w) }
    ensures refused { (n : Notation) (old new : Shape) (t : Tree) (v : Value) (p : Path) (x : Cause)
        → IsText n → is_readable old ≡ true → Grows old new → DecodesTo n new (Some t) v
        → FailsWith n old (Some t) p x
        → (w : Cause) × ComesUpon n old t p w × IsUnknown w × IsAsMuch w x }
{}

/// A field's name that stands twice for an older reader of a SEQUENCE or SET is refused by a newer
/// reader too, and it is the first one in both. A name that the newer version adds may stand twice
/// for the older reader alone.
pub fn repeated_names_stay_refused()
    ensures { (n : Notation) (kind : SeqKind) (fs gs : Fields) (added more : FieldAdditions)
        (t : Tree) (look : List ℕ → Slot) (name : List ℕ)
        → Grows (Shape.seq kind fs added) (Shape.seq kind gs more) → as_members n t ≡ Some look
        → first_repeated n t (field_names (all_fields fs added)) ≡ Some name
        → FailsWith n (Shape.seq kind gs more) (Some t) [] (Cause.duplicate_field name) }
{}

/// A reader that comes upon an alternative or an item that its type lacks, or upon the absence of
/// an addition that its type requires, refuses it there, for that reason and no other.
pub fn other_versions_are_refused()
    ensures refused { (n : Notation) (s : Shape) (t : Tree) (p : Path) (w : Cause)
        → ComesUpon n s t p w → FailsWith n s (Some t) p w }
    ensures no_other { (n : Notation) (s : Shape) (t : Tree) (p q : Path) (w x : Cause) → IsText n
        → ComesUpon n s t p w → FailsWith n s (Some t) q x → (q ≡ p) × IsAsMuch w x }
{}

/// A newer reader reads a canonical text of an older version as the lifted value, or it comes upon
/// the absence of an addition that its version requires: in JER the JSON value that is written, and
/// in AVN the normal form of what is written, which its text is read as. Whatever it refuses it
/// refuses there, for that reason.
pub fn newer_readers_read_older_texts()
    ensures jer { (old new : Shape) (v : Value) → is_readable old ≡ true → is_readable new ≡ true
        → Grows old new → Fits old v → Writable Notation.jer v
        → DecodesTo Notation.jer new (Some (Tree.json (jer_data v))) (lift new v)
        ⊎ ((p : Path) × (w : Cause) × ComesUpon Notation.jer new (Tree.json (jer_data v)) p w
        × IsMissing w) }
    ensures avn { (old new : Shape) (v : Value) → is_readable old ≡ true → is_readable new ≡ true
        → Grows old new → Fits old v → Writable Notation.avn v
        → DecodesTo Notation.avn new (Some (Tree.avn (normal (avn_tree v)))) (lift new v)
        ⊎ ((p : Path) × (w : Cause) × ComesUpon Notation.avn new (Tree.avn (normal (avn_tree v)))
        p w × IsMissing w) }
    ensures jer_refused { (old new : Shape) (v : Value) (p : Path) (x : Cause)
        → is_readable old ≡ true → is_readable new ≡ true → Grows old new → Fits old v
        → Writable Notation.jer v → FailsWith Notation.jer new (Some (Tree.json (jer_data v))) p x
        → ComesUpon Notation.jer new (Tree.json (jer_data v)) p x × IsMissing x }
    ensures avn_refused { (old new : Shape) (v : Value) (p : Path) (x : Cause)
        → is_readable old ≡ true → is_readable new ≡ true → Grows old new → Fits old v
        → Writable Notation.avn v
        → FailsWith Notation.avn new (Some (Tree.avn (normal (avn_tree v)))) p x
        → ComesUpon Notation.avn new (Tree.avn (normal (avn_tree v))) p x × IsMissing x }
{}

/// What a newer version writes for the lifted value is the text of the older version, byte for
/// byte, and the value that is left of it for the older version is the one that was lifted.
pub fn relays_keep_texts()
    ensures text { (n : Notation) (old new : Shape) (v : Value) → IsText n
        → is_readable old ≡ true → is_readable new ≡ true → Grows old new → Fits old v
        → Writable n v → canonical_text n (lift new v) ≡ canonical_text n v }
    ensures value { (n : Notation) (old new : Shape) (v : Value) → IsText n
        → is_readable old ≡ true → is_readable new ≡ true → Grows old new → Fits old v
        → Writable n v → project old (lift new v) ≡ v }
{}
