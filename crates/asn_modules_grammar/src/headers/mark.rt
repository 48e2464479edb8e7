//! Reads single tokens that are what they always are.
ghost use Rattle.asn_modules_grammar.specs.headers.Fronts.{first_is};
ghost use Rattle.asn_modules_grammar.specs.headers.Marks.{is_mark};
ghost use Rattle.std.specs.Prelude.{◌≡◌, MatchOption, drop, false, true};

use asn_lexer::{Keyword, Kind, Token};

/// Names a token that divides the parts of a header.
#[derive(Clone, Copy, Drop)]
pub(crate) enum Mark {
    /// Is `EXPORTS`.
    Exports,
    /// Is `ALL`.
    All,
    /// Is `IMPORTS`.
    Imports,
    /// Is `FROM`.
    From,
    /// Is `WITH`.
    With,
    /// Is `SUCCESSORS`.
    Successors,
    /// Is `DESCENDANTS`.
    Descendants,
    /// Is `DEFINITIONS`.
    Definitions,
    /// Is `::=`.
    Assignment,
    /// Is `BEGIN`.
    Begin,
    /// Is `,`.
    Comma,
    /// Is `;`.
    Semicolon,
}

/// Returns whether the token is of the kind.
fn is_mark(mark: Mark, kind: Kind) -> bool
    ensures { result ≡ is_mark mark kind }
{
    match mark {
        Mark::Exports => matches!(kind, Kind::Reserved(Keyword::Exports)),
        Mark::All => matches!(kind, Kind::Reserved(Keyword::All)),
        Mark::Imports => matches!(kind, Kind::Reserved(Keyword::Imports)),
        Mark::From => matches!(kind, Kind::Reserved(Keyword::From)),
        Mark::With => matches!(kind, Kind::Reserved(Keyword::With)),
        Mark::Successors => matches!(kind, Kind::Reserved(Keyword::Successors)),
        Mark::Descendants => matches!(kind, Kind::Reserved(Keyword::Descendants)),
        Mark::Definitions => matches!(kind, Kind::Reserved(Keyword::Definitions)),
        Mark::Assignment => matches!(kind, Kind::Assignment),
        Mark::Begin => matches!(kind, Kind::Reserved(Keyword::Begin)),
        Mark::Comma => matches!(kind, Kind::Comma),
        Mark::Semicolon => matches!(kind, Kind::Semicolon),
    }
}

/// Returns what follows the first token where it is this one.
pub(crate) fn take_mark(mark: Mark, tokens: &[Token]) -> Option<&[Token]>
    ensures { MatchOption result (first_is (is_mark mark) tokens.now ≡ false)
        (λ rest. (first_is (is_mark mark) tokens.now ≡ true) × (rest.now ≡ drop 1 tokens.now)) }
{
    match tokens {
        [first, rest @ ..] => {
            if is_mark(mark, first.kind) {
                Some(rest)
            } else {
                None
            }
        }
        [] => None,
    }
}
