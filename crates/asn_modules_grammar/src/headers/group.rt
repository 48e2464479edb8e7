//! Passes over groups of tokens.
ghost use Rattle.asn_modules_grammar.specs.headers.Fronts.{AnswersRest};
ghost use Rattle.asn_modules_grammar.specs.headers.Groups.{closes, opens, past_groups, past_optional_braces};
ghost use Rattle.std.specs.Prelude.{◌≡◌, ◌∷◌, []};

use crate::headers::fault::{Expected, SyntaxFault, unexpected};
use asn_lexer::{Kind, Token};
use std::alloc::Global;

/// Names what stands around a group.
#[derive(Clone, Copy, Drop)]
pub enum Group {
    /// Is braces.
    Braces,
    /// Is parentheses.
    Parens,
}

/// Returns whether a token of the kind opens the group.
pub(crate) fn opens(group: Group, kind: Kind) -> bool
    ensures { result ≡ opens group kind }
{
    match group {
        Group::Braces => matches!(kind, Kind::OpenBrace),
        Group::Parens => matches!(kind, Kind::OpenParen),
    }
}

/// Returns whether a token of the kind closes the group.
pub(crate) fn closes(group: Group, kind: Kind) -> bool
    ensures { result ≡ closes group kind }
{
    match group {
        Group::Braces => matches!(kind, Kind::CloseBrace),
        Group::Parens => matches!(kind, Kind::CloseParen),
    }
}

/// Returns what follows the group whose opening token was read.
///
/// # Errors
///
/// `Unexpected` where it isn't closed, or one within it closes otherwise than it opens, and
/// `OutOfMemory`.
#[tactic(auto, using(crate::proofs::headers::Groups::group_steps))]
pub fn past_group(alloc: Global, group: Group, tokens: &[Token]) -> Result<&[Token], SyntaxFault>
    ensures { AnswersRest (past_groups (group ∷ []) tokens.now) result }
{
    let mut innermost = group;
    let mut outer = Vec::new(alloc);
    let mut rest = tokens;
    'tokens: loop {
        let [first, after @ ..] = rest else {
            return Err(unexpected(rest, Expected::Closing));
        };
        if opens(Group::Braces, first.kind) {
            outer.push(innermost)?;
            innermost = Group::Braces;
        } else if opens(Group::Parens, first.kind) {
            outer.push(innermost)?;
            innermost = Group::Parens;
        } else if closes(innermost, first.kind) {
            match outer.pop() {
                Some(next) => innermost = next,
                None => return Ok(after),
            }
        } else if closes(Group::Braces, first.kind) || closes(Group::Parens, first.kind) {
            return Err(unexpected(rest, Expected::Closing));
        }
        rest = after;
    }
}

/// Returns what follows an optional group in braces.
///
/// # Errors
///
/// Those of `past_group`.
pub fn past_optional_braces(alloc: Global, tokens: &[Token]) -> Result<&[Token], SyntaxFault>
    ensures { AnswersRest (past_optional_braces tokens.now) result }
{
    match tokens {
        [first, rest @ ..] if opens(Group::Braces, first.kind) => {
            past_group(alloc, Group::Braces, rest)
        }
        _ => Ok(tokens),
    }
}
