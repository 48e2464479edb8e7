//! States the law of headers as the contract of a function that does nothing. A call gives the
//! caller's proof the law, and no code.
ghost use Rattle.asn_modules_grammar.specs.headers.Headers.{Header, HeaderParses};
ghost use Rattle.asn_lexer.specs.declared.token.Token.{Token};
ghost use Rattle.std.specs.Prelude.{◌≡◌, List};

/// At most one header stands at the front of tokens, and at most one rest follows it.
pub fn one_header_and_rest()
    ensures { (tokens rest other_rest : List Token) (header other : Header)
        → HeaderParses tokens header rest → HeaderParses tokens other other_rest
        → (header ≡ other) × (rest ≡ other_rest) }
{}
