//! Passes over the clauses of macros (X.208, Annex A).
ghost use Rattle.asn_modules_grammar.specs.headers.Fronts.{AnswersRest, first_of};
ghost use Rattle.asn_modules_grammar.specs.notation.Macros.{behind_clauses, begins_assigned};
ghost use Rattle.asn_modules_grammar.specs.notation.Macros.{begins_clause, begins_identifier_assigned};
ghost use Rattle.asn_modules_grammar.specs.notation.Macros.{begins_type_assigned};
ghost use Rattle.asn_modules_grammar.specs.notation.Macros.{begins_value_assigned, clauses_at};
ghost use Rattle.asn_modules_grammar.specs.notation.Kinds.{is_assignment};
ghost use Rattle.asn_modules_grammar.specs.notation.Macros.{ends_clauses, is_capital, is_end};
ghost use Rattle.asn_modules_grammar.specs.notation.Macros.{opens_clause};
ghost use Rattle.asn_modules_grammar.specs.notation.Macros.{past_clauses, past_definition, past_end};
ghost use Rattle.std.specs.Prelude.{◌≡◌, ◌<◌, ◌≤◌, IfOk, MatchOption, None, Some, length};

use crate::parts::mark::{Mark, take};
use asn_lexer::{Initial, Keyword, Kind, Token};
use asn_modules_grammar::headers::{Expected, SyntaxFault, unexpected};

/// Returns whether a token of the kind is a name that begins with a capital letter.
pub(crate) fn is_capital(kind: Kind) -> bool
    ensures { result ≡ is_capital kind }
{
    matches!(kind, Kind::Name(Initial::Capital))
}

/// Returns whether a token of the kind is a word that a macro's notation has after its name.
pub(crate) fn opens_clause(kind: Kind) -> bool
    ensures { result ≡ opens_clause kind }
{
    match kind {
        Kind::Name(Initial::Capital) => true,
        Kind::Reserved(Keyword::Size) => false,
        Kind::Reserved(_) => true,
        _ => false,
    }
}

/// Returns whether a token of the kind is `END`.
fn is_end(kind: Kind) -> bool
    ensures { result ≡ is_end kind }
{
    matches!(kind, Kind::Reserved(Keyword::End))
}

/// Returns whether a token of the kind is `::=`.
fn is_assignment(kind: Kind) -> bool
    ensures { result ≡ is_assignment kind }
{
    matches!(kind, Kind::Assignment)
}

/// Returns what follows `END`, which may stand after any other tokens.
///
/// # Errors
///
/// `Unexpected` where there is none.
#[tactic(auto, using(crate::proofs::parts::Clauses::end_steps))]
fn past_end(tokens: &[Token]) -> Result<&[Token], SyntaxFault>
    ensures found { AnswersRest (past_end tokens.now) result }
    ensures shorter { IfOk result (λ rest. length rest.now ≤ length tokens.now) }
{
    let mut rest = tokens;
    'tokens: loop {
        let [first, after @ ..] = rest else {
            return Err(unexpected(rest, Expected::End));
        };
        if is_end(first.kind) {
            return Ok(after);
        }
        rest = after;
    }
}

/// Returns what follows the definition of a macro after its `MACRO`.
///
/// # Errors
///
/// `Unexpected` where no `::=` and `BEGIN` stand here, or no `END` after them.
pub(crate) fn past_definition(tokens: &[Token]) -> Result<&[Token], SyntaxFault>
    ensures found { AnswersRest (past_definition tokens.now) result }
    ensures shorter { IfOk result (λ rest. length rest.now ≤ length tokens.now) }
{
    let Some((_sign, behind)) = take(Mark::Assignment, tokens) else {
        return Err(unexpected(tokens, Expected::Assignment));
    };
    match take(Mark::Begin, behind) {
        Some((_begin, body)) => past_end(body),
        None => Err(unexpected(behind, Expected::Begin)),
    }
}

/// Returns what follows the clauses of a macro's notation and the `::=` after them.
///
/// # Errors
///
/// `Unexpected` where the module or the text ends before.
#[tactic(auto, using(crate::proofs::parts::Clauses::clause_steps))]
pub(crate) fn past_clauses(tokens: &[Token]) -> Result<&[Token], SyntaxFault>
    ensures found { AnswersRest (past_clauses tokens.now) result }
    ensures shorter { IfOk result (λ rest. length rest.now ≤ length tokens.now) }
{
    let mut rest = tokens;
    'tokens: loop {
        let [first, after @ ..] = rest else {
            return Err(unexpected(rest, Expected::Assignment));
        };
        if is_assignment(first.kind) {
            return Ok(after);
        }
        if is_end(first.kind) {
            return Err(unexpected(rest, Expected::Assignment));
        }
        rest = after;
    }
}

/// Returns whether in a type a clause of a macro begins here.
fn begins_clause(tokens: &[Token]) -> bool
    ensures { result ≡ begins_clause tokens.now }
{
    match tokens {
        [first, second, third, ..] => {
            is_capital(first.kind)
                && (matches!(second.kind, Kind::Cstring)
                    || (matches!(second.kind, Kind::Name(_))
                        && (matches!(third.kind, Kind::Name(_)) || opens_clause(third.kind))))
        }
        _ => false,
    }
}

/// Returns whether a type, or a macro, is assigned here to a name.
fn begins_type_assigned(tokens: &[Token]) -> bool
    ensures { result ≡ begins_type_assigned tokens.now }
{
    match tokens {
        [first, second, ..] => {
            matches!(first.kind, Kind::Name(_))
                && matches!(
                    second.kind,
                    Kind::Assignment | Kind::Reserved(Keyword::Macro)
                )
        }
        _ => false,
    }
}

/// Returns whether a value is assigned here to a name, and its type is one word.
fn begins_value_assigned(tokens: &[Token]) -> bool
    ensures { result ≡ begins_value_assigned tokens.now }
{
    match tokens {
        [first, second, third, ..] => {
            matches!(first.kind, Kind::Name(Initial::Small))
                && (matches!(second.kind, Kind::Name(_) | Kind::Reserved(_))
                    && matches!(third.kind, Kind::Assignment))
        }
        _ => false,
    }
}

/// Returns whether an `OBJECT IDENTIFIER` is assigned here to a name.
fn begins_identifier_assigned(tokens: &[Token]) -> bool
    ensures { result ≡ begins_identifier_assigned tokens.now }
{
    match tokens {
        [first, second, third, fourth, ..] => {
            matches!(first.kind, Kind::Name(Initial::Small))
                && (matches!(second.kind, Kind::Reserved(Keyword::Object))
                    && (matches!(third.kind, Kind::Reserved(Keyword::Identifier))
                        && matches!(fourth.kind, Kind::Assignment)))
        }
        _ => false,
    }
}

/// Returns whether an assignment begins here, after the clauses of a macro.
fn begins_assigned(tokens: &[Token]) -> bool
    ensures { result ≡ begins_assigned tokens.now }
{
    begins_type_assigned(tokens)
        || (begins_value_assigned(tokens) || begins_identifier_assigned(tokens))
}

/// Returns whether the clauses of a macro end here in a type: before `SYNTAX`, `END` or an
/// assignment.
fn ends_clauses(tokens: &[Token]) -> bool
    ensures { result ≡ ends_clauses tokens.now }
{
    match tokens {
        [first, ..] => {
            matches!(first.kind, Kind::Reserved(Keyword::Syntax))
                || (is_end(first.kind) || begins_assigned(tokens))
        }
        [] => false,
    }
}

/// Returns the tokens from the first place on where the clauses of a macro end in a type.
#[tactic(auto, using(crate::proofs::parts::Clauses::behind_steps))]
fn behind_clauses(tokens: &[Token]) -> &[Token]
    ensures found { result.now ≡ behind_clauses tokens.now }
    ensures shorter { length result.now ≤ length tokens.now }
{
    let mut rest = tokens;
    'tokens: loop {
        let [_first, after @ ..] = rest else {
            return rest;
        };
        if ends_clauses(rest) {
            return rest;
        }
        rest = after;
    }
}

/// Returns the name of a macro and where its clauses end, if they stand here.
pub(crate) fn take_clauses(tokens: &[Token]) -> Option<(Token, &[Token])>
    ensures { MatchOption result (clauses_at tokens.now ≡ None) (λ found.
        (clauses_at tokens.now ≡ Some found.1.now) × (first_of tokens.now ≡ Some found.0)
        × (length found.1.now < length tokens.now)) }
{
    match tokens {
        [first, rest @ ..] => {
            if is_capital(first.kind) && begins_clause(rest) {
                Some((*first, behind_clauses(rest)))
            } else {
                None
            }
        }
        [] => None,
    }
}
