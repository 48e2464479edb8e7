//! States the laws of the notation, each as the contract of a function that does nothing. A call
//! gives the caller's proof the law, and no code.
ghost use Rattle.asn_notation.specs.Grammar.{ModuleParses, NotationParses};
ghost use Rattle.asn_notation.specs.Notation.{Assignment, Notation};
ghost use Rattle.asn_notation.specs.Printed.{module_text};
ghost use Rattle.asn_notation.specs.Proper.{are_assignments_proper};
ghost use Rattle.std.specs.Prelude.{◌≡◌, ◌↔◌, ℕ, List, true};

/// At most one notation stands at the front of a text, and at most one rest follows it.
pub fn one_notation_and_rest()
    ensures { (limit level : ℕ) (text rest other_rest : List ℕ) (notation other : Notation)
        → NotationParses limit level text notation rest
        → NotationParses limit level text other other_rest
        → (notation ≡ other) × (rest ≡ other_rest) }
{}

/// A text stands for at most one module.
pub fn one_module()
    ensures { (limit : ℕ) (text : List ℕ) (assignments others : List Assignment)
        → ModuleParses limit text assignments → ModuleParses limit text others
        → assignments ≡ others }
{}

/// The printed text of assignments that have one stands for these assignments.
pub fn printed_module_is_read()
    ensures { (limit : ℕ) (assignments : List Assignment)
        → are_assignments_proper limit assignments ≡ true
        → ModuleParses limit (module_text assignments) assignments }
{}

/// Assignments that have printed texts are equal exactly where these are.
pub fn equal_texts_are_of_equal_modules()
    ensures { (limit : ℕ) (assignments others : List Assignment)
        → are_assignments_proper limit assignments ≡ true
        → are_assignments_proper limit others ≡ true
        → (module_text assignments ≡ module_text others) ↔ (assignments ≡ others) }
{}
