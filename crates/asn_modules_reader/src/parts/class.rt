//! Passes over object classes and their fields (X.681).
ghost use Rattle.asn_modules_grammar.specs.headers.Fronts.{AnswersRest};
ghost use Rattle.asn_modules_grammar.specs.notation.Classes.{begins_field, names_value};
ghost use Rattle.asn_modules_grammar.specs.notation.Classes.{past_braces, past_class};
ghost use Rattle.asn_modules_grammar.specs.notation.Classes.{past_fields, past_instance, past_names};
ghost use Rattle.asn_modules_grammar.specs.notation.Classes.{past_syntax};
ghost use Rattle.std.specs.Prelude.{◌≡◌, ◌<◌, ◌≤◌, IfOk, MatchOption, false, length, true};

use crate::parts::group::past;
use crate::parts::mark::{Mark, is_small, take};
use asn_lexer::{Kind, Token};
use asn_modules_grammar::headers::{Expected, Group, SyntaxFault, unexpected};
use std::alloc::Global;

/// Returns what follows a point and `&`, if they stand here.
#[tactic(auto, using(crate::proofs::parts::Fields::field_steps))]
pub(crate) fn take_field(tokens: &[Token]) -> Option<&[Token]>
    ensures { MatchOption result (begins_field tokens.now ≡ false) (λ rest.
        (begins_field tokens.now ≡ true) × (past_fields tokens.now ≡ past_names rest.now)
        × (length rest.now < length tokens.now)) }
{
    let Some((_point, behind)) = take(Mark::Point, tokens) else {
        return None;
    };
    match take(Mark::Ampersand, behind) {
        Some((_ampersand, rest)) => Some(rest),
        None => None,
    }
}

/// Returns whether a point and `&` stand here.
pub(crate) fn begins_field(tokens: &[Token]) -> bool
    ensures { result ≡ begins_field tokens.now }
{
    match tokens {
        [point, ampersand, ..] => {
            matches!(point.kind, Kind::Point) && matches!(ampersand.kind, Kind::Ampersand)
        }
        _ => false,
    }
}

/// Returns whether the name of a value stands here.
pub(crate) fn names_value(tokens: &[Token]) -> bool
    ensures { result ≡ names_value tokens.now }
{
    match tokens {
        [first, rest @ ..] => is_small(first.kind) && !begins_field(rest),
        [] => false,
    }
}

/// Returns what follows the fields that stand here, each of a point, `&` and a name.
///
/// # Errors
///
/// `Unexpected` where no name stands after `&`.
#[tactic(auto, using(crate::proofs::parts::Fields::name_steps))]
pub(crate) fn past_fields(tokens: &[Token]) -> Result<&[Token], SyntaxFault>
    ensures found { AnswersRest (past_fields tokens.now) result }
    ensures shorter { IfOk result (λ rest. length rest.now ≤ length tokens.now) }
{
    let mut rest = tokens;
    'fields: loop {
        let Some(naming) = take_field(rest) else {
            return Ok(rest);
        };
        let Some((_name, behind)) = take(Mark::Name, naming) else {
            return Err(unexpected(naming, Expected::Name));
        };
        rest = behind;
    }
}

/// Returns what follows a group in braces.
///
/// # Errors
///
/// `Unexpected` where no brace opens here, or a group isn't closed, and `OutOfMemory`.
fn past_braces(alloc: Global, tokens: &[Token]) -> Result<&[Token], SyntaxFault>
    ensures found { AnswersRest (past_braces tokens.now) result }
    ensures shorter { IfOk result (λ rest. length rest.now ≤ length tokens.now) }
{
    let Some((_brace, inner)) = take(Mark::OpenBrace, tokens) else {
        return Err(unexpected(tokens, Expected::OpenBrace));
    };
    past(alloc, Group::Braces, inner)
}

/// Returns what follows the syntax of a class, if `WITH` stands here.
///
/// # Errors
///
/// `Unexpected` where no `SYNTAX` follows `WITH`, and those of `past_braces`.
fn past_syntax(alloc: Global, tokens: &[Token]) -> Result<&[Token], SyntaxFault>
    ensures found { AnswersRest (past_syntax tokens.now) result }
    ensures shorter { IfOk result (λ rest. length rest.now ≤ length tokens.now) }
{
    let Some((_with, behind)) = take(Mark::With, tokens) else {
        return Ok(tokens);
    };
    match take(Mark::Syntax, behind) {
        Some((_syntax, braces)) => past_braces(alloc, braces),
        None => Err(unexpected(behind, Expected::Syntax)),
    }
}

/// Returns what follows an object class after `CLASS`.
///
/// # Errors
///
/// Those of `past_braces` and `past_syntax`.
pub(crate) fn past_class(alloc: Global, tokens: &[Token]) -> Result<&[Token], SyntaxFault>
    ensures found { AnswersRest (past_class tokens.now) result }
    ensures shorter { IfOk result (λ rest. length rest.now ≤ length tokens.now) }
{
    let behind = past_braces(alloc, tokens)?;
    past_syntax(alloc, behind)
}

/// Returns what follows `OF` and the name of a class after `INSTANCE`.
///
/// # Errors
///
/// `Unexpected` where they don't stand here.
pub(crate) fn past_instance(tokens: &[Token]) -> Result<&[Token], SyntaxFault>
    ensures found { AnswersRest (past_instance tokens.now) result }
    ensures shorter { IfOk result (λ rest. length rest.now ≤ length tokens.now) }
{
    let Some((_of, naming)) = take(Mark::Of, tokens) else {
        return Err(unexpected(tokens, Expected::Of));
    };
    match take(Mark::ClassWord, naming) {
        Some((_class, rest)) => Ok(rest),
        None => Err(unexpected(naming, Expected::Name)),
    }
}
