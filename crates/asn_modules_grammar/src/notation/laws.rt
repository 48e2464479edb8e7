//! States the laws of the grammar, each as the contract of a function that does nothing. A call
//! gives the caller's proof the law, and no code.
ghost use Rattle.asn_lexer.specs.declared.token.Token.{Token};
ghost use Rattle.asn_modules_grammar.specs.notation.Grammar.{NotationParses};
ghost use Rattle.asn_modules_grammar.specs.notation.Modules.{Module, TextParses};
ghost use Rattle.asn_modules_grammar.specs.notation.Notation.{Notation};
ghost use Rattle.std.specs.Prelude.{◌≡◌, ℕ, List};

/// At most one type stands at the front of tokens, and at most one rest follows it.
pub fn one_notation_and_rest()
    ensures { (limit level : ℕ) (tokens rest other_rest : List Token) (notation other : Notation)
        → NotationParses limit level tokens notation rest
        → NotationParses limit level tokens other other_rest
        → (notation ≡ other) × (rest ≡ other_rest) }
{}

/// The tokens of a text stand for at most one list of modules.
pub fn one_list_of_modules()
    ensures { (limit : ℕ) (tokens : List Token) (modules others : List Module)
        → TextParses limit tokens modules → TextParses limit tokens others → modules ≡ others }
{}
