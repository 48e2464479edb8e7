//! States the laws of tokens, each as the contract of a function that does nothing. A call gives
//! the caller's proof the law, and no code.
ghost use Rattle.asn_lexer.specs.Tokens.{HasTokens, StopsAt};
ghost use Rattle.asn_lexer.specs.declared.token.Token.{Token};
ghost use Rattle.std.specs.Prelude.{◌≡◌, ℕ, List};

/// A text has at most one list of tokens.
pub fn one_list_of_tokens()
    ensures { (text : List ℕ) (tokens others : List Token)
        → HasTokens text tokens → HasTokens text others → tokens ≡ others }
{}

/// A text stops at one place at most.
pub fn one_stop()
    ensures { (text : List ℕ) (place other : ℕ)
        → StopsAt text place → StopsAt text other → place ≡ other }
{}

/// A text that stops at a place has no list of tokens.
pub fn no_tokens_where_it_stops()
    ensures { (text : List ℕ) (place : ℕ) (tokens : List Token)
        → StopsAt text place → HasTokens text tokens → ⊥ }
{}
