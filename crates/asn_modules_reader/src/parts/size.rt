//! Reads constraints, of which only sizes are kept.
ghost use Rattle.asn_modules_grammar.specs.headers.Fronts.{Answers, AnswersRest, first_is};
ghost use Rattle.asn_modules_grammar.specs.notation.Grammar.{sizes_of};
ghost use Rattle.asn_modules_grammar.specs.notation.Kinds.{is_open_paren, past};
ghost use Rattle.asn_modules_grammar.specs.notation.Sizes.{begins_constraint, constraint_at, of_at};
ghost use Rattle.asn_modules_grammar.specs.notation.Sizes.{in_parens_at, past_element_name, past_of};
ghost use Rattle.asn_modules_grammar.specs.notation.Sizes.{size_alone, size_at, size_from};
ghost use Rattle.asn_modules_reader.specs.parts.Reading.{Finds, Reads};
ghost use Rattle.asn_modules_reader.specs.parts.Sizes.{SizesParse};
ghost use Rattle.std.specs.Option.{option_and_then, option_map};
ghost use Rattle.std.specs.Prelude.{◌≡◌, ◌<◌, ◌≤◌, ◌++◌, ◌∷◌, [], IfOk, OnOk, length};

use crate::parts::class::names_value;
use crate::parts::group::past;
use crate::parts::mark::{Mark, take};
use asn_lexer::{Keyword, Kind, Token};
use asn_modules_grammar::headers::{Expected, Group, SyntaxFault, unexpected};
use asn_modules_grammar::notation::Size;
use std::alloc::{AllocError, Global};

/// Returns the size from this low end, and what follows it, if that stands here.
fn take_high(low: Token, tokens: &[Token]) -> Option<(Size, &[Token])>
    ensures { Finds (size_from (low, tokens.now)) result }
{
    match take(Mark::Range, tokens) {
        None => Some((Size { low, high: low }, tokens)),
        Some((_range, behind)) => match take(Mark::NumberOrName, behind) {
            None => None,
            Some((high, rest)) => Some((Size { low, high }, rest)),
        },
    }
}

/// Returns the size after an opening parenthesis, and what follows the closing one, if a size is
/// all that stands between them.
fn take_size(tokens: &[Token]) -> Option<(Size, &[Token])>
    ensures { Finds (size_at tokens.now) result }
{
    let (low, behind) = take(Mark::NumberOrName, tokens)?;
    let (size, closing) = take_high(low, behind)?;
    let (_close, rest) = take(Mark::CloseParen, closing)?;
    Some((size, rest))
}

/// Returns the size after `SIZE (`, if that is all that stands up to `)`.
fn size_within(tokens: &[Token]) -> Option<Size>
    ensures { result ≡ option_map (λ p. p.0) (size_at tokens.now) }
{
    let (size, _rest) = take_size(tokens)?;
    Some(size)
}

/// Returns the size after `(`, if `SIZE` and its parentheses are all that stands up to `)`.
fn size_alone(tokens: &[Token]) -> Option<Size>
    ensures { result ≡ size_alone tokens.now }
{
    let (_word, opening) = take(Mark::Size, tokens)?;
    let (_open, inner) = take(Mark::OpenParen, opening)?;
    let (size, closing) = take_size(inner)?;
    let (_close, _rest) = take(Mark::CloseParen, closing)?;
    Some(size)
}

/// Returns whether a constraint begins here.
fn begins_constraint(tokens: &[Token]) -> bool
    ensures { result ≡ first_is begins_constraint tokens.now }
{
    match tokens {
        [first, ..] => matches!(first.kind, Kind::OpenParen | Kind::Reserved(Keyword::Size)),
        [] => false,
    }
}

/// Returns the size that stands after `SIZE`, if it is one, and what follows its parentheses.
///
/// # Errors
///
/// `Unexpected` where there are no parentheses, and `OutOfMemory`.
fn read_size(alloc: Global, tokens: &[Token]) -> Result<(Option<Size>, &[Token]), SyntaxFault>
    ensures found { Answers (λ size. size)
        (option_and_then (λ v. in_parens_at (λ w. option_map (λ p. p.0) (size_at w)) v)
        (past is_open_paren tokens.now)) result }
    ensures shorter { IfOk result (λ found. length found.1.now < length tokens.now) }
{
    let Some((_open, inner)) = take(Mark::OpenParen, tokens) else {
        return Err(unexpected(tokens, Expected::OpenParen));
    };
    let rest = past(alloc, Group::Parens, inner)?;
    Ok((size_within(inner), rest))
}

/// Returns the size of the constraint that stands here, if it is one, and what follows that.
///
/// # Errors
///
/// `Unexpected` where there is no constraint, and `OutOfMemory`.
fn read_constraint(alloc: Global, tokens: &[Token]) -> Result<(Option<Size>, &[Token]), SyntaxFault>
    ensures found { Answers (λ size. size) (constraint_at tokens.now) result }
    ensures shorter { IfOk result (λ found. length found.1.now < length tokens.now) }
{
    let [first, inner @ ..] = tokens else {
        return Err(unexpected(tokens, Expected::OpenParen));
    };
    match first.kind {
        Kind::OpenParen => {
            let rest = past(alloc, Group::Parens, inner)?;
            Ok((size_alone(inner), rest))
        }
        Kind::Reserved(Keyword::Size) => read_size(alloc, inner),
        _ => Err(unexpected(tokens, Expected::OpenParen)),
    }
}

/// Adds the size, if there is one.
///
/// # Errors
///
/// Where memory runs out.
fn add_size(sizes: &mut Vec<Size>, size: Option<Size>) -> Result<(), AllocError>
    ensures { OnOk result (sizes.new.items ≡ sizes.old.items ++ sizes_of (size ∷ [])) }
{
    if let Some(size) = size {
        sizes.push(size)?;
    }
    Ok(())
}

/// Returns the sizes of the constraints that stand here, of which there may be none, and what
/// follows them.
///
/// # Errors
///
/// `Unexpected` where they aren't in the grammar, and `OutOfMemory`.
pub fn read_sizes(alloc: Global, tokens: &[Token]) -> Result<(Vec<Size>, &[Token]), SyntaxFault>
    ensures found { Reads (λ sizes. sizes.items) (SizesParse tokens.now) result }
    ensures shorter { IfOk result (λ found. length found.1.now ≤ length tokens.now) }
{
    let mut sizes = Vec::new(alloc);
    let mut rest = tokens;
    'sizes: loop {
        if !begins_constraint(rest) {
            return Ok((sizes, rest));
        }
        let (size, after) = read_constraint(alloc, rest)?;
        add_size(&mut sizes, size)?;
        rest = after;
    }
}

/// Returns what follows the name of the elements of SEQUENCE OF or SET OF, if they are named.
fn past_element_name(tokens: &[Token]) -> &[Token]
    ensures found { result.now ≡ past_element_name tokens.now }
    ensures shorter { length result.now ≤ length tokens.now }
{
    if !names_value(tokens) {
        return tokens;
    }
    match tokens {
        [_name, rest @ ..] => rest,
        [] => tokens,
    }
}

/// Returns what follows `OF` and the name of the elements, if they are named.
///
/// # Errors
///
/// `Unexpected` where there is no `OF`.
fn past_of(tokens: &[Token]) -> Result<&[Token], SyntaxFault>
    ensures found { AnswersRest (past_of tokens.now) result }
    ensures shorter { IfOk result (λ rest. length rest.now < length tokens.now) }
{
    match take(Mark::Of, tokens) {
        Some((_of, rest)) => Ok(past_element_name(rest)),
        None => Err(unexpected(tokens, Expected::Of)),
    }
}

/// Returns what follows a constraint, `OF`, and the name of the elements, if they are named.
///
/// # Errors
///
/// `Unexpected` where they don't stand here, and `OutOfMemory`.
fn read_constrained_of(alloc: Global, tokens: &[Token]) -> Result<&[Token], SyntaxFault>
    ensures found { AnswersRest (option_and_then (λ p. past_of p.1) (constraint_at tokens.now))
        result }
    ensures shorter { IfOk result (λ rest. length rest.now < length tokens.now) }
{
    let (_size, behind) = read_constraint(alloc, tokens)?;
    past_of(behind)
}

/// Returns what follows `OF`, which a constraint may stand before, and the name of the elements, if
/// they are named.
///
/// # Errors
///
/// `Unexpected` where they don't stand here, and `OutOfMemory`.
pub fn read_of(alloc: Global, tokens: &[Token]) -> Result<&[Token], SyntaxFault>
    ensures found { AnswersRest (of_at tokens.now) result }
    ensures shorter { IfOk result (λ rest. length rest.now < length tokens.now) }
{
    let [first, behind @ ..] = tokens else {
        return Err(unexpected(tokens, Expected::BraceOrOf));
    };
    match first.kind {
        Kind::Reserved(Keyword::Of) => Ok(past_element_name(behind)),
        Kind::Reserved(Keyword::Size) | Kind::OpenParen => read_constrained_of(alloc, tokens),
        _ => Err(unexpected(tokens, Expected::BraceOrOf)),
    }
}
