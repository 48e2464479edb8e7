//! Reads what macros assign (X.208, Annex A): their definitions, types and values. What a macro
//! makes of its notation is not read.
ghost use Rattle.asn_modules_grammar.specs.headers.Fronts.{Answers, first_is};
ghost use Rattle.asn_modules_grammar.specs.notation.Macros.{assigned_value_at, begins_numbered};
ghost use Rattle.asn_modules_grammar.specs.notation.Macros.{macro_named, macro_type, macro_value_at};
ghost use Rattle.asn_modules_grammar.specs.notation.Macros.{numbered_at, opens_clause};
ghost use Rattle.asn_modules_grammar.specs.notation.Modules.{AssignedParses, macro_at};
ghost use Rattle.asn_modules_grammar.specs.notation.View.{assignment_view, notation_view};
ghost use Rattle.asn_modules_grammar.specs.declared.notation.value.Value.TheVariants as value;
ghost use Rattle.asn_modules_reader.specs.Macros.{MacroReads};
ghost use Rattle.asn_modules_reader.specs.parts.Reading.{Reads};
ghost use Rattle.std.specs.Prelude.{◌≡◌, ◌<◌, ◌≤◌, IfOk, MatchOption, Some, false, length, true};

use crate::limits::NESTING_LIMIT;
use crate::notation::read_notation;
use crate::parts::{
    Mark, is_capital, opens_clause, past_clauses, past_definition, read_value, take, take_clauses,
};
use asn_lexer::{Keyword, Kind, Token};
use asn_modules_grammar::headers::SyntaxFault;
use asn_modules_grammar::notation::{Assignment, Base, Closed, Leaf, Notation, Value};
use std::alloc::Global;

/// Returns the type that a macro is, which has no values.
fn macro_type(alloc: Global) -> Notation
    ensures { notation_view result ≡ macro_type }
{
    Notation {
        tags: Vec::new(alloc),
        base: Base::Leaf(Leaf::Closed(Closed::Macro)),
        sizes: Vec::new(alloc),
    }
}

/// Returns the type that the notation of the macro of this name states, as far as it is known.
fn macro_named(alloc: Global, name: Token) -> Notation
    ensures { notation_view result ≡ macro_named name }
{
    Notation {
        tags: Vec::new(alloc),
        base: Base::Reference { module: None, name },
        sizes: Vec::new(alloc),
    }
}

/// Returns a name and what follows a number after it, if they stand here: an alternative of a
/// CHOICE and its value, as X.208 has it.
fn take_numbered(tokens: &[Token]) -> Option<(Token, &[Token])>
    ensures { MatchOption result (begins_numbered tokens.now ≡ false) (λ found.
        (begins_numbered tokens.now ≡ true)
        × (numbered_at tokens.now ≡ Some (value.Other found.0, found.1.now))
        × (length found.1.now < length tokens.now)) }
{
    match tokens {
        [first, second, rest @ ..] => {
            if matches!(first.kind, Kind::Name(_)) && matches!(second.kind, Kind::Number) {
                Some((*first, rest))
            } else {
                None
            }
        }
        _ => None,
    }
}

/// Returns the value that is assigned after `::=`, and what follows it.
///
/// # Errors
///
/// Those of `read_value`.
pub(crate) fn read_assigned_value(
    alloc: Global,
    tokens: &[Token],
) -> Result<(Value, &[Token]), SyntaxFault>
    ensures found { Answers (λ value. value) (assigned_value_at tokens.now) result }
    ensures shorter { IfOk result (λ found. length found.1.now < length tokens.now) }
{
    match take_numbered(tokens) {
        Some((name, rest)) => Ok((Value::Other(name), rest)),
        None => read_value(alloc, tokens),
    }
}

/// Returns what is assigned to this name after the clauses of a macro's notation, and what follows
/// it.
///
/// # Errors
///
/// `Unexpected` where no `::=` and value stand after them, and `OutOfMemory`.
fn read_macro_value(
    alloc: Global,
    name: Token,
    tokens: &[Token],
) -> Result<(Value, &[Token]), SyntaxFault>
    ensures found { Answers (λ value. value) (macro_value_at name tokens.now) result }
    ensures shorter { IfOk result (λ found. length found.1.now ≤ length tokens.now) }
{
    let inner = past_clauses(tokens)?;
    let (_value, rest) = read_assigned_value(alloc, inner)?;
    Ok((Value::Other(name), rest))
}

/// Returns whether the first token is a word that a macro's notation has after its name.
fn begins_clauses(tokens: &[Token]) -> bool
    ensures { result ≡ first_is opens_clause tokens.now }
{
    match tokens {
        [first, ..] => opens_clause(first.kind),
        [] => false,
    }
}

/// Returns what is assigned to the name by a macro, and what follows it: by its definition, or by
/// its name and clauses after it. `None` where neither stands here.
///
/// # Errors
///
/// `Unexpected` where they stand here and aren't whole, and `OutOfMemory`.
pub(crate) fn read_macro(
    alloc: Global,
    name: Token,
    tokens: &[Token],
) -> Result<Option<(Assignment, &[Token])>, SyntaxFault>
    ensures found { MacroReads assignment_view (macro_at name tokens.now) tokens.now result }
{
    let [first, rest @ ..] = tokens else {
        return Ok(None);
    };
    if matches!(first.kind, Kind::Reserved(Keyword::Macro)) {
        let behind = past_definition(rest)?;
        let assignment = Assignment::Type {
            name,
            notation: macro_type(alloc),
        };
        return Ok(Some((assignment, behind)));
    }
    if is_capital(first.kind) && begins_clauses(rest) {
        let (value, behind) = read_macro_value(alloc, name, rest)?;
        let assignment = Assignment::Value {
            name,
            notation: macro_named(alloc, *first),
            value,
        };
        return Ok(Some((assignment, behind)));
    }
    Ok(None)
}

/// Returns the type that is assigned here after `::=`, and what follows it. After the name of a
/// macro and its clauses it is the type after `SYNTAX`, or else that of the macro.
///
/// # Errors
///
/// `Unexpected` where no type stands there, and `OutOfMemory`.
pub(crate) fn read_assigned(
    alloc: Global,
    tokens: &[Token],
) -> Result<(Notation, &[Token]), SyntaxFault>
    ensures found { Reads notation_view (AssignedParses NESTING_LIMIT tokens.now) result }
    ensures shorter { IfOk result (λ found. length found.1.now < length tokens.now) }
{
    let Some((name, behind)) = take_clauses(tokens) else {
        return read_notation(alloc, tokens, 0);
    };
    match take(Mark::Syntax, behind) {
        Some((_syntax, inner)) => read_notation(alloc, inner, 0),
        None => Ok((macro_named(alloc, name), behind)),
    }
}
