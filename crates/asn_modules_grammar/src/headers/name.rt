//! Reads lists of names, after each of which empty braces may stand (X.680, section 13.1; X.683,
//! section 8.3).
ghost use Rattle.asn_modules_grammar.specs.headers.Fronts.{Answers, AnswersRest, first_is, is_name};
ghost use Rattle.asn_modules_grammar.specs.headers.Headers.{names_at, past_empty_braces};
ghost use Rattle.std.specs.Prelude.{◌≡◌, ◌∷◌, MatchOption, false, true};

use crate::headers::fault::{Expected, SyntaxFault, unexpected};
use crate::headers::group::{Group, closes, opens};
use crate::headers::mark::{Mark, take_mark};
use asn_lexer::{Kind, Token};
use std::alloc::Global;

/// Returns the first token where it is a name, and what follows it.
pub(crate) fn take_name(tokens: &[Token]) -> Option<(Token, &[Token])>
    ensures { MatchOption result (first_is is_name tokens.now ≡ false)
        (λ found. (tokens.now ≡ found.0 ∷ found.1.now) × (is_name found.0.kind ≡ true)) }
{
    match tokens {
        [first, rest @ ..] => match first.kind {
            Kind::Name(_) => Some((*first, rest)),
            _ => None,
        },
        [] => None,
    }
}

/// Returns what follows optional braces that nothing stands in.
///
/// # Errors
///
/// `Unexpected` where something stands after the opening brace, or nothing does.
fn past_empty_braces(tokens: &[Token]) -> Result<&[Token], SyntaxFault>
    ensures { AnswersRest (past_empty_braces tokens.now) result }
{
    match tokens {
        [first, rest @ ..] if opens(Group::Braces, first.kind) => match rest {
            [last, behind @ ..] if closes(Group::Braces, last.kind) => Ok(behind),
            _ => Err(unexpected(rest, Expected::Closing)),
        },
        _ => Ok(tokens),
    }
}

/// Returns names with commas between them, and what follows them. After each, empty braces may
/// stand.
///
/// # Errors
///
/// `Unexpected` where no name stands first or after a comma, or braces aren't empty, and
/// `OutOfMemory`.
#[tactic(auto, using(crate::proofs::headers::Names::name_steps))]
pub fn read_names(alloc: Global, tokens: &[Token]) -> Result<(Vec<Token>, &[Token]), SyntaxFault>
    ensures { Answers (λ names. names.items) (names_at tokens.now) result }
{
    let mut names = Vec::new(alloc);
    let mut rest = tokens;
    'names: loop {
        let Some((name, after)) = take_name(rest) else {
            return Err(unexpected(rest, Expected::Name));
        };
        let behind = past_empty_braces(after)?;
        names.push(name)?;
        let Some(next) = take_mark(Mark::Comma, behind) else {
            return Ok((names, behind));
        };
        rest = next;
    }
}
