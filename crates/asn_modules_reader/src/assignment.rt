//! Reads assignments.
ghost use Rattle.asn_modules_grammar.specs.headers.Fronts.{IsSyntax, first_is};
ghost use Rattle.asn_modules_grammar.specs.notation.Kinds.{assigned_at, assigns_universal, is_open_brace};
ghost use Rattle.asn_modules_grammar.specs.notation.Kinds.{is_string_type};
ghost use Rattle.asn_modules_grammar.specs.notation.Modules.{AssignmentParses, AssignmentsParse};
ghost use Rattle.asn_modules_grammar.specs.notation.Modules.{BodyParses, parameterized, parameters_at};
ghost use Rattle.asn_modules_grammar.specs.notation.Modules.{with_parameters};
ghost use Rattle.asn_modules_grammar.specs.notation.View.{assignment_view, notation_view};
ghost use Rattle.asn_modules_reader.specs.parts.Reading.{Reads};
ghost use Rattle.std.specs.Global.{Vec};
ghost use Rattle.std.specs.Option.{option_map};
ghost use Rattle.std.specs.Prelude.{◌≡◌, ◌<◌, ◌≤◌, IfErr, IfOk, MatchOption, None, Some, length};
ghost use Rattle.std.specs.Prelude.{map};

use crate::limits::NESTING_LIMIT;
use crate::macros::{read_assigned, read_assigned_value, read_macro};
use crate::notation::read_notation;
use crate::parts::{Mark, Sign, is_small, past_parameters, take, take_sign};
use asn_lexer::{Keyword, Kind, Token};
use asn_modules_grammar::headers::{Expected, SyntaxFault, read_names, unexpected};
use asn_modules_grammar::notation::{Assignment, Base, Closed, Leaf, Notation, Value};
use std::alloc::Global;

/// Returns whether the word is that of a type of character strings.
fn is_string_type(kind: Kind) -> bool
    ensures { result ≡ is_string_type kind }
{
    match kind {
        Kind::Reserved(
            Keyword::Utf8String
            | Keyword::NumericString
            | Keyword::PrintableString
            | Keyword::VisibleString
            | Keyword::Ia5String
            | Keyword::GeneralString
            | Keyword::GraphicString
            | Keyword::BmpString
            | Keyword::UniversalString
            | Keyword::Iso646String
            | Keyword::TeletexString
            | Keyword::T61String,
        ) => true,
        _ => false,
    }
}

/// Returns whether a type with a universal tag is assigned here.
fn assigns_universal(tokens: &[Token]) -> bool
    ensures { result ≡ assigns_universal tokens.now }
{
    match tokens {
        [first, second, third, ..] => {
            matches!(first.kind, Kind::Assignment)
                && (matches!(second.kind, Kind::OpenBracket)
                    && matches!(third.kind, Kind::Reserved(Keyword::Universal)))
        }
        _ => false,
    }
}

/// Returns what something is assigned to here, and what follows it: a name; or the word of a type
/// of character strings, to which modules assign what is built in, by its universal tag.
fn take_assigned(tokens: &[Token]) -> Option<(Token, &[Token])>
    ensures { MatchOption result (assigned_at tokens.now ≡ None) (λ found.
        (assigned_at tokens.now ≡ Some (found.0, found.1.now))
        × (length found.1.now < length tokens.now)) }
{
    match tokens {
        [first, rest @ ..] => {
            if matches!(first.kind, Kind::Name(_))
                || (is_string_type(first.kind) && assigns_universal(rest))
            {
                Some((*first, rest))
            } else {
                None
            }
        }
        [] => None,
    }
}

/// Returns the assignment to this name without its parameters, which goes on here, and what follows
/// it. The first tokens tell its kind.
///
/// # Errors
///
/// `Unexpected` where none goes on here, as where a type is assigned to a name that begins with a
/// small letter, and `OutOfMemory`.
fn read_body(
    alloc: Global,
    name: Token,
    tokens: &[Token],
) -> Result<(Assignment, &[Token]), SyntaxFault>
    ensures found { Reads assignment_view (BodyParses NESTING_LIMIT name tokens.now) result }
    ensures shorter { IfOk result (λ found. length found.1.now < length tokens.now) }
{
    if let Some(inner) = take_sign(Sign::Assignment, tokens) {
        if is_small(name.kind) {
            return Err(unexpected(tokens, Expected::Type));
        }
        let (assigned, rest) = read_assigned(alloc, inner)?;
        let assignment = Assignment::Type {
            name,
            notation: assigned,
        };
        return Ok((assignment, rest));
    }
    let made = read_macro(alloc, name, tokens)?;
    if let Some(found) = made {
        return Ok(found);
    }
    let (notation, assigning) = read_notation(alloc, tokens, 0)?;
    let Some(inner) = take_sign(Sign::Assignment, assigning) else {
        return Err(unexpected(assigning, Expected::Assignment));
    };
    let (value, rest) = read_assigned_value(alloc, inner)?;
    let assignment = Assignment::Value {
        name,
        notation,
        value,
    };
    Ok((assignment, rest))
}

/// Returns whether a brace opens here.
fn opens_brace(tokens: &[Token]) -> bool
    ensures { result ≡ first_is is_open_brace tokens.now }
{
    match tokens {
        [first, ..] => matches!(first.kind, Kind::OpenBrace),
        [] => false,
    }
}

/// Returns a type with parameters that aren't all types.
fn parameterized(alloc: Global) -> Notation
    ensures { notation_view result ≡ parameterized }
{
    Notation {
        tags: Vec::new(alloc),
        base: Base::Leaf(Leaf::Closed(Closed::Parameterized)),
        sizes: Vec::new(alloc),
    }
}

/// Returns the names of the parameters in braces, of which the first token opens; `None` where they
/// aren't names alone.
///
/// # Errors
///
/// `OutOfMemory`.
fn read_parameters(alloc: Global, tokens: &[Token]) -> Result<Option<Vec<Token>>, SyntaxFault>
    ensures ok { IfOk result (λ names.
        option_map (λ (v : Vec Token). v.items) names ≡ parameters_at tokens.now) }
    ensures err { IfErr result (λ e. IsSyntax e → ⊥) }
{
    let [_brace, inner @ ..] = tokens else {
        return Ok(None);
    };
    match read_names(alloc, inner) {
        Ok((names, behind)) => match take(Mark::CloseBrace, behind) {
            Some((_brace, _rest)) => Ok(Some(names)),
            None => Ok(None),
        },
        Err(SyntaxFault::Unexpected { .. }) => Ok(None),
        Err(SyntaxFault::OutOfMemory) => Err(SyntaxFault::OutOfMemory),
    }
}

/// Returns what the assignment is with parameters of these names, or with others.
fn with_parameters(
    alloc: Global,
    parameters: Option<Vec<Token>>,
    assignment: Assignment,
) -> Assignment
    ensures { assignment_view result ≡ with_parameters
        (option_map (λ (v : Vec Token). v.items) parameters) (assignment_view assignment) }
{
    match assignment {
        Assignment::Type { name, notation } => match parameters {
            Some(parameters) => Assignment::Template {
                name,
                parameters,
                notation,
            },
            None => Assignment::Type {
                name,
                notation: parameterized(alloc),
            },
        },
        Assignment::Value { name, .. } => Assignment::Value {
            name,
            notation: parameterized(alloc),
            value: Value::Other(name),
        },
        Assignment::Template { .. } => assignment,
    }
}

/// Returns an assignment, and what follows it. Its parameters stand after its name.
///
/// # Errors
///
/// `Unexpected` where none stands here, and `OutOfMemory`.
pub fn read_assignment(
    alloc: Global,
    tokens: &[Token],
) -> Result<(Assignment, &[Token]), SyntaxFault>
    ensures found { Reads assignment_view (AssignmentParses NESTING_LIMIT tokens.now) result }
    ensures shorter { IfOk result (λ found. length found.1.now < length tokens.now) }
{
    let Some((name, behind)) = take_assigned(tokens) else {
        return Err(unexpected(tokens, Expected::Name));
    };
    let body = past_parameters(alloc, behind)?;
    let (assignment, rest) = read_body(alloc, name, body)?;
    if opens_brace(behind) {
        let parameters = read_parameters(alloc, behind)?;
        return Ok((with_parameters(alloc, parameters, assignment), rest));
    }
    Ok((assignment, rest))
}

/// Returns the assignments up to the first place where nothing is assigned, and what follows them.
///
/// # Errors
///
/// `Unexpected` where they aren't in the grammar, and `OutOfMemory`.
pub fn read_assignments(
    alloc: Global,
    tokens: &[Token],
) -> Result<(Vec<Assignment>, &[Token]), SyntaxFault>
    ensures found { Reads (λ assignments. map assignment_view assignments.items)
        (AssignmentsParse NESTING_LIMIT tokens.now) result }
    ensures shorter { IfOk result (λ found. length found.1.now ≤ length tokens.now) }
{
    let mut assignments = Vec::new(alloc);
    let mut rest = tokens;
    'assignments: loop {
        let Some((_name, _behind)) = take_assigned(rest) else {
            return Ok((assignments, rest));
        };
        let (assignment, after) = read_assignment(alloc, rest)?;
        assignments.push(assignment)?;
        rest = after;
    }
}
