//! Reads numbers, and named numbers and bits.
ghost use Rattle.asn_modules_grammar.specs.headers.Fronts.{Answers};
ghost use Rattle.asn_modules_grammar.specs.notation.Numbers.{NamedNumbersParse, constant_at};
ghost use Rattle.asn_modules_grammar.specs.notation.Numbers.{constant_in_parens_at, named_number_at};
ghost use Rattle.asn_modules_grammar.specs.notation.Numbers.{negative_at};
ghost use Rattle.asn_modules_reader.specs.parts.Reading.{Reads};
ghost use Rattle.std.specs.Prelude.{◌≡◌, ◌<◌, ◌≤◌, IfOk, length};

use crate::parts::mark::{Mark, take};
use crate::parts::sign::{Sign, take_sign};
use asn_lexer::{Kind, Token};
use asn_modules_grammar::headers::{Expected, SyntaxFault, unexpected};
use asn_modules_grammar::notation::{Constant, NamedNumber, SignedNumber};
use std::alloc::Global;

/// Returns the number after a minus, and what follows it.
///
/// # Errors
///
/// `Unexpected` where no digits stand there.
pub(crate) fn read_negative(tokens: &[Token]) -> Result<(SignedNumber, &[Token]), SyntaxFault>
    ensures found { Answers (λ number. number) (negative_at tokens.now) result }
    ensures shorter { IfOk result (λ found. length found.1.now < length tokens.now) }
{
    match take(Mark::Number, tokens) {
        Some((digits, rest)) => {
            let number = SignedNumber {
                negative: true,
                digits,
            };
            Ok((number, rest))
        }
        None => Err(unexpected(tokens, Expected::Number)),
    }
}

/// Returns a number with its sign or the name of a value, and what follows it.
///
/// # Errors
///
/// `Unexpected` where neither stands there.
pub fn read_constant(tokens: &[Token]) -> Result<(Constant, &[Token]), SyntaxFault>
    ensures found { Answers (λ constant. constant) (constant_at tokens.now) result }
    ensures shorter { IfOk result (λ found. length found.1.now < length tokens.now) }
{
    let [first, rest @ ..] = tokens else {
        return Err(unexpected(tokens, Expected::NumberOrName));
    };
    match first.kind {
        Kind::Name(_) => Ok((Constant::Name(*first), rest)),
        Kind::Number => {
            let number = SignedNumber {
                negative: false,
                digits: *first,
            };
            Ok((Constant::Number(number), rest))
        }
        Kind::Minus => {
            let (number, after) = read_negative(rest)?;
            Ok((Constant::Number(number), after))
        }
        _ => Err(unexpected(tokens, Expected::NumberOrName)),
    }
}

/// Returns a constant between parentheses, and what follows it.
///
/// # Errors
///
/// `Unexpected` where none stands there.
pub(crate) fn read_in_parens(tokens: &[Token]) -> Result<(Constant, &[Token]), SyntaxFault>
    ensures found { Answers (λ constant. constant) (constant_in_parens_at tokens.now) result }
    ensures shorter { IfOk result (λ found. length found.1.now < length tokens.now) }
{
    let Some((_, inner)) = take(Mark::OpenParen, tokens) else {
        return Err(unexpected(tokens, Expected::OpenParen));
    };
    let (constant, behind) = read_constant(inner)?;
    match take(Mark::CloseParen, behind) {
        Some((_, rest)) => Ok((constant, rest)),
        None => Err(unexpected(behind, Expected::CloseParen)),
    }
}

/// Returns a named number or bit, and what follows it.
///
/// # Errors
///
/// `Unexpected` where none stands there.
pub fn read_named_number(tokens: &[Token]) -> Result<(NamedNumber, &[Token]), SyntaxFault>
    ensures found { Answers (λ named. named) (named_number_at tokens.now) result }
    ensures shorter { IfOk result (λ found. length found.1.now < length tokens.now) }
{
    let Some((name, behind)) = take(Mark::Word, tokens) else {
        return Err(unexpected(tokens, Expected::Word));
    };
    let (number, rest) = read_in_parens(behind)?;
    Ok((NamedNumber { name, number }, rest))
}

/// Returns the named numbers or bits between braces, if a brace opens here, and what follows them.
///
/// # Errors
///
/// `Unexpected` where they aren't in the grammar, and `OutOfMemory`.
pub fn read_named_numbers(
    alloc: Global,
    tokens: &[Token],
) -> Result<(Vec<NamedNumber>, &[Token]), SyntaxFault>
    ensures found { Reads (λ numbers. numbers.items) (NamedNumbersParse tokens.now) result }
    ensures shorter { IfOk result (λ found. length found.1.now ≤ length tokens.now) }
{
    let mut numbers = Vec::new(alloc);
    let Some(first) = take_sign(Sign::OpenBrace, tokens) else {
        return Ok((numbers, tokens));
    };
    let mut rest = first;
    'numbers: loop {
        let (number, behind) = read_named_number(rest)?;
        numbers.push(number)?;
        if let Some(after) = take_sign(Sign::CloseBrace, behind) {
            return Ok((numbers, after));
        }
        let Some(next) = take_sign(Sign::Comma, behind) else {
            return Err(unexpected(behind, Expected::CommaOrBrace));
        };
        rest = next;
    }
}
