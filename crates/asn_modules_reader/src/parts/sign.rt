//! Takes single tokens that are what they always are.
ghost use Rattle.asn_modules_grammar.specs.notation.Kinds.{first_kind};
ghost use Rattle.asn_modules_reader.specs.parts.Signs.{is_sign, kind_of};
ghost use Rattle.std.specs.Prelude.{◌≡◌, ◌≢◌, ◌<◌, MatchOption, Some, drop, length};

use asn_lexer::{Keyword, Kind, Token};

/// Names a token that opens, divides or closes a list, or begins an assignment or entry.
#[derive(Clone, Copy, Drop)]
pub enum Sign {
    /// Is `{`.
    OpenBrace,
    /// Is `}`.
    CloseBrace,
    /// Is `]]`.
    CloseVersion,
    /// Is `,`.
    Comma,
    /// Is `::=`.
    Assignment,
    /// Is `END`.
    End,
    /// Is `OF`.
    Of,
    /// Is `COMPONENTS`.
    Components,
    /// Is `...`.
    Ellipsis,
    /// Is `[[`.
    OpenVersion,
}

/// Returns whether a token of the kind is this one.
fn is_sign(sign: Sign, kind: Kind) -> bool
    ensures { result ≡ is_sign sign kind }
{
    match sign {
        Sign::OpenBrace => matches!(kind, Kind::OpenBrace),
        Sign::CloseBrace => matches!(kind, Kind::CloseBrace),
        Sign::CloseVersion => matches!(kind, Kind::CloseVersion),
        Sign::Comma => matches!(kind, Kind::Comma),
        Sign::Assignment => matches!(kind, Kind::Assignment),
        Sign::End => matches!(kind, Kind::Reserved(Keyword::End)),
        Sign::Of => matches!(kind, Kind::Reserved(Keyword::Of)),
        Sign::Components => matches!(kind, Kind::Reserved(Keyword::Components)),
        Sign::Ellipsis => matches!(kind, Kind::Ellipsis),
        Sign::OpenVersion => matches!(kind, Kind::OpenVersion),
    }
}

/// Returns what follows the first token where it is this one.
#[tactic(auto, using(crate::proofs::parts::SignsTaken::sign_steps))]
pub fn take_sign(sign: Sign, tokens: &[Token]) -> Option<&[Token]>
    ensures { MatchOption result (first_kind tokens.now ≢ Some (kind_of sign))
        (λ rest. (first_kind tokens.now ≡ Some (kind_of sign)) × (rest.now ≡ drop 1 tokens.now)
        × (length rest.now < length tokens.now)) }
{
    match tokens {
        [first, rest @ ..] => {
            if is_sign(sign, first.kind) {
                Some(rest)
            } else {
                None
            }
        }
        [] => None,
    }
}
