//! Reads the defaults of tags and of extension markers.
ghost use Rattle.asn_modules_grammar.specs.headers.Fronts.{Answers};
ghost use Rattle.asn_modules_grammar.specs.headers.Headers.{implied_at, tags_at, tagging_of};
ghost use Rattle.std.specs.Prelude.{◌≡◌};

use crate::headers::fault::{Expected, SyntaxFault, unexpected};
use asn_lexer::{Keyword, Kind, Token};

/// States how a module tags where a tag doesn't (X.680, section 13.2).
#[derive(Clone, Copy, Drop, PartialEq, Eq)]
pub enum Tagging {
    /// Tags are explicit. It is so where the module states nothing.
    Explicit,
    /// Tags are implicit.
    Implicit,
    /// Components are tagged by their places.
    Automatic,
}

/// Returns the tagging that the kind's reserved word begins.
fn tagging_of(kind: Kind) -> Option<Tagging>
    ensures { result ≡ tagging_of kind }
{
    match kind {
        Kind::Reserved(Keyword::Explicit) => Some(Tagging::Explicit),
        Kind::Reserved(Keyword::Implicit) => Some(Tagging::Implicit),
        Kind::Reserved(Keyword::Automatic) => Some(Tagging::Automatic),
        _ => None,
    }
}

/// Returns the optional default of tags, and what follows it.
///
/// # Errors
///
/// `Unexpected` where no `TAGS` follows.
pub(crate) fn read_tagging(tokens: &[Token]) -> Result<(Tagging, &[Token]), SyntaxFault>
    ensures { Answers (λ tagging. tagging) (tags_at tokens.now) result }
{
    let [first, rest @ ..] = tokens else {
        return Ok((Tagging::Explicit, tokens));
    };
    let Some(tagging) = tagging_of(first.kind) else {
        return Ok((Tagging::Explicit, tokens));
    };
    match rest {
        [second, after @ ..] => match second.kind {
            Kind::Reserved(Keyword::Tags) => Ok((tagging, after)),
            _ => Err(unexpected(rest, Expected::Tags)),
        },
        [] => Err(unexpected(rest, Expected::Tags)),
    }
}

/// Returns whether each type is extensible, and what follows that.
///
/// # Errors
///
/// `Unexpected` where no `IMPLIED` follows `EXTENSIBILITY`.
pub(crate) fn read_implied(tokens: &[Token]) -> Result<(bool, &[Token]), SyntaxFault>
    ensures { Answers (λ extensible. extensible) (implied_at tokens.now) result }
{
    let [first, rest @ ..] = tokens else {
        return Ok((false, tokens));
    };
    match first.kind {
        Kind::Reserved(Keyword::Extensibility) => match rest {
            [second, after @ ..] => match second.kind {
                Kind::Reserved(Keyword::Implied) => Ok((true, after)),
                _ => Err(unexpected(rest, Expected::Implied)),
            },
            [] => Err(unexpected(rest, Expected::Implied)),
        },
        _ => Ok((false, tokens)),
    }
}
