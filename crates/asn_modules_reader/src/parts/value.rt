//! Reads values, and whether components may be absent.
ghost use Rattle.asn_modules_grammar.specs.headers.Fronts.{Answers};
ghost use Rattle.asn_modules_grammar.specs.headers.Groups.{past_groups};
ghost use Rattle.asn_modules_grammar.specs.declared.headers.group.Group.TheVariants.{Braces};
ghost use Rattle.asn_modules_grammar.specs.notation.Classes.{past_fields};
ghost use Rattle.asn_modules_grammar.specs.notation.Kinds.{first_kind};
ghost use Rattle.asn_modules_grammar.specs.notation.Numbers.{negative_at};
ghost use Rattle.asn_modules_grammar.specs.notation.Values.{presence_at, presence_by, value_at};
ghost use Rattle.asn_modules_grammar.specs.notation.Values.{named_value_at, negative_by, other_at};
ghost use Rattle.asn_modules_grammar.specs.notation.Values.{word_value_at};
ghost use Rattle.asn_modules_grammar.specs.declared.notation.notation.Presence.TheVariants.{Default};
ghost use Rattle.asn_modules_grammar.specs.declared.notation.value.Value.TheVariants as value;
ghost use Rattle.asn_modules_reader.specs.parts.Values.{value_here};
ghost use Rattle.std.specs.Option.{option_map};
ghost use Rattle.std.specs.Prelude.{◌≡◌, ◌<◌, ◌≤◌, ◌∷◌, [], IfOk, MatchOption, length};

use crate::parts::class::{past_fields, take_field};
use crate::parts::group::past;
use crate::parts::mark::{Mark, take, take_first};
use crate::parts::number::read_negative;
use asn_lexer::{Keyword, Kind, Token};
use asn_modules_grammar::headers::{Expected, Group, SyntaxFault, unexpected};
use asn_modules_grammar::notation::{Presence, SignedNumber, Value};
use std::alloc::Global;

/// Returns the value between braces of which this is the first, and what follows it.
///
/// # Errors
///
/// `Unexpected` where a group isn't closed, and `OutOfMemory`.
fn read_braced_value(
    alloc: Global,
    first: Token,
    tokens: &[Token],
) -> Result<(Value, &[Token]), SyntaxFault>
    ensures found { Answers (λ value. value)
        (option_map (λ v. (value.Other first, v)) (past_groups (Braces ∷ []) tokens.now)) result }
    ensures shorter { IfOk result (λ found. length found.1.now ≤ length tokens.now) }
{
    let rest = past(alloc, Group::Braces, tokens)?;
    Ok((Value::Other(first), rest))
}

/// Returns the value that the fields of an object are of which this is the word, and what follows
/// them.
///
/// # Errors
///
/// `Unexpected` where no name stands after `&`.
fn read_field_value(word: Token, tokens: &[Token]) -> Result<(Value, &[Token]), SyntaxFault>
    ensures found { Answers (λ value. value) (other_at word (past_fields tokens.now)) result }
    ensures shorter { IfOk result (λ found. length found.1.now ≤ length tokens.now) }
{
    let rest = past_fields(tokens)?;
    Ok((Value::Other(word), rest))
}

/// Returns the value of a name that this word begins, and what follows it. Fields of an object and
/// actual parameters make another value.
///
/// # Errors
///
/// `Unexpected` where a group isn't closed or no name stands after `&`, and `OutOfMemory`.
fn read_named_value(
    alloc: Global,
    value: Value,
    word: Token,
    tokens: &[Token],
) -> Result<(Value, &[Token]), SyntaxFault>
    ensures found { Answers (λ value. value) (named_value_at value word tokens.now) result }
    ensures shorter { IfOk result (λ found. length found.1.now ≤ length tokens.now) }
{
    if let Some(_naming) = take_field(tokens) {
        return read_field_value(word, tokens);
    }
    match take(Mark::OpenBrace, tokens) {
        Some((_brace, inner)) => read_braced_value(alloc, word, inner),
        None => Ok((value, tokens)),
    }
}

/// Returns the value that a word begins, and what follows it.
///
/// # Errors
///
/// `Unexpected` where no name stands after `.`, and those of `read_named_value`.
fn read_word_value(
    alloc: Global,
    word: Token,
    tokens: &[Token],
) -> Result<(Value, &[Token]), SyntaxFault>
    ensures found { Answers (λ value. value) (word_value_at word tokens.now) result }
    ensures shorter { IfOk result (λ found. length found.1.now ≤ length tokens.now) }
{
    if let Some(_naming) = take_field(tokens) {
        return read_named_value(alloc, Value::Word(word), word, tokens);
    }
    let Some((_point, behind)) = take(Mark::Point, tokens) else {
        return read_named_value(alloc, Value::Word(word), word, tokens);
    };
    match take(Mark::Name, behind) {
        Some((name, rest)) => {
            let qualified = Value::Qualified { module: word, name };
            read_named_value(alloc, qualified, word, rest)
        }
        None => Err(unexpected(behind, Expected::Name)),
    }
}

/// Returns the number after a minus as a value, and what follows it.
///
/// # Errors
///
/// `Unexpected` where no digits stand there.
fn read_negative_number(tokens: &[Token]) -> Result<(Value, &[Token]), SyntaxFault>
    ensures found { Answers (λ value. value)
        (option_map (λ p. (value.Number p.0, p.1)) (negative_at tokens.now)) result }
    ensures shorter { IfOk result (λ found. length found.1.now ≤ length tokens.now) }
{
    let (number, rest) = read_negative(tokens)?;
    Ok((Value::Number(number), rest))
}

/// Returns the number after this minus as a value, and what follows it. A real number is some
/// other value.
///
/// # Errors
///
/// `Unexpected` where no number stands there.
fn read_negative_value(minus: Token, tokens: &[Token]) -> Result<(Value, &[Token]), SyntaxFault>
    ensures found { Answers (λ value. value)
        (negative_by (first_kind tokens.now) minus tokens.now) result }
    ensures shorter { IfOk result (λ found. length found.1.now ≤ length tokens.now) }
{
    let [first, rest @ ..] = tokens else {
        return read_negative_number(tokens);
    };
    match first.kind {
        Kind::RealNumber => Ok((Value::Other(minus), rest)),
        _ => read_negative_number(tokens),
    }
}

/// Returns the value that stands here where it is none of an alternative, and what follows it.
///
/// # Errors
///
/// `Unexpected` where no value stands there, and `OutOfMemory`.
fn read_plain_value(alloc: Global, tokens: &[Token]) -> Result<(Value, &[Token]), SyntaxFault>
    ensures found { Answers (λ value. value) (value_here tokens.now) result }
    ensures shorter { IfOk result (λ found. length found.1.now < length tokens.now) }
{
    let Some((first, rest)) = take_first(tokens) else {
        return Err(unexpected(tokens, Expected::Value));
    };
    match first.kind {
        Kind::Number => {
            let number = SignedNumber {
                negative: false,
                digits: first,
            };
            Ok((Value::Number(number), rest))
        }
        Kind::RealNumber => Ok((Value::Other(first), rest)),
        Kind::Minus => read_negative_value(first, rest),
        Kind::Cstring => Ok((Value::Cstring(first), rest)),
        Kind::Bstring => Ok((Value::Bstring(first), rest)),
        Kind::Hstring => Ok((Value::Hstring(first), rest)),
        Kind::Name(_) | Kind::Reserved(_) => read_word_value(alloc, first, rest),
        Kind::OpenBrace => read_braced_value(alloc, first, rest),
        _ => Err(unexpected(tokens, Expected::Value)),
    }
}

/// Returns the identifier of an alternative of a CHOICE, and what follows its colon, if they stand
/// here.
#[tactic(auto, using(crate::proofs::parts::ValuesRead::value_steps))]
fn take_alternative(tokens: &[Token]) -> Option<(Token, &[Token])>
    ensures { MatchOption result (value_at tokens.now ≡ value_here tokens.now) (λ found.
        (value_at tokens.now
        ≡ option_map (λ p. (value.Other found.0, p.1)) (value_at found.1.now))
        × (length found.1.now < length tokens.now)) }
{
    let Some((word, behind)) = take(Mark::Word, tokens) else {
        return None;
    };
    match take(Mark::Colon, behind) {
        Some((_colon, rest)) => Some((word, rest)),
        None => None,
    }
}

/// Returns the value of an alternative of this identifier that stands here and is no alternative
/// again, and what follows it.
///
/// # Errors
///
/// `Unexpected` where no value stands there, and `OutOfMemory`.
fn read_last(alloc: Global, word: Token, tokens: &[Token]) -> Result<(Value, &[Token]), SyntaxFault>
    ensures found { Answers (λ value. value)
        (option_map (λ p. (value.Other word, p.1)) (value_here tokens.now)) result }
    ensures shorter { IfOk result (λ found. length found.1.now < length tokens.now) }
{
    let (_value, rest) = read_plain_value(alloc, tokens)?;
    Ok((Value::Other(word), rest))
}

/// Returns the value of an alternative of this identifier, and what follows it.
///
/// # Errors
///
/// `Unexpected` where no value stands there, and `OutOfMemory`.
fn read_alternative(
    alloc: Global,
    word: Token,
    tokens: &[Token],
) -> Result<(Value, &[Token]), SyntaxFault>
    ensures found { Answers (λ value. value)
        (option_map (λ p. (value.Other word, p.1)) (value_at tokens.now)) result }
    ensures shorter { IfOk result (λ found. length found.1.now < length tokens.now) }
{
    let mut rest = tokens;
    'alternatives: loop {
        let Some((_word, after)) = take_alternative(rest) else {
            return read_last(alloc, word, rest);
        };
        rest = after;
    }
}

/// Returns a value, and what follows it. The value of an alternative of a CHOICE is seen by its
/// identifier alone.
///
/// # Errors
///
/// `Unexpected` where no value stands there, and `OutOfMemory`.
pub fn read_value(alloc: Global, tokens: &[Token]) -> Result<(Value, &[Token]), SyntaxFault>
    ensures found { Answers (λ value. value) (value_at tokens.now) result }
    ensures shorter { IfOk result (λ found. length found.1.now < length tokens.now) }
{
    let Some((word, rest)) = take_alternative(tokens) else {
        return read_plain_value(alloc, tokens);
    };
    read_alternative(alloc, word, rest)
}

/// Returns the value of a DEFAULT after its word, and what follows it.
///
/// # Errors
///
/// Those of `read_value`.
fn read_default(alloc: Global, tokens: &[Token]) -> Result<(Presence, &[Token]), SyntaxFault>
    ensures found { Answers (λ presence. presence)
        (option_map (λ p. (Default p.0, p.1)) (value_at tokens.now)) result }
    ensures shorter { IfOk result (λ found. length found.1.now ≤ length tokens.now) }
{
    let (value, rest) = read_value(alloc, tokens)?;
    Ok((Presence::Default(value), rest))
}

/// Returns whether a component of a SEQUENCE or SET may be absent, and what follows that.
///
/// # Errors
///
/// Those of `read_value`.
fn read_stated(alloc: Global, tokens: &[Token]) -> Result<(Presence, &[Token]), SyntaxFault>
    ensures found { Answers (λ presence. presence)
        (presence_by (first_kind tokens.now) tokens.now) result }
    ensures shorter { IfOk result (λ found. length found.1.now ≤ length tokens.now) }
{
    let [first, rest @ ..] = tokens else {
        return Ok((Presence::Required, tokens));
    };
    match first.kind {
        Kind::Reserved(Keyword::Optional) => Ok((Presence::Optional, rest)),
        Kind::Reserved(Keyword::Default) => read_default(alloc, rest),
        _ => Ok((Presence::Required, tokens)),
    }
}

/// Returns whether a component may be absent, and what follows that. An alternative of a CHOICE may
/// not, and states nothing.
///
/// # Errors
///
/// Those of `read_value`.
pub fn read_presence(
    alloc: Global,
    fields: bool,
    tokens: &[Token],
) -> Result<(Presence, &[Token]), SyntaxFault>
    ensures found { Answers (λ presence. presence) (presence_at fields tokens.now) result }
    ensures shorter { IfOk result (λ found. length found.1.now ≤ length tokens.now) }
{
    if fields {
        return read_stated(alloc, tokens);
    }
    Ok((Presence::Required, tokens))
}
