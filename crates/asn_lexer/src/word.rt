//! Passes over words, numbers and strings.
ghost use Rattle.asn_lexer.specs.Words.{begins_exponent, begins_fraction, behind_digits};
ghost use Rattle.asn_lexer.specs.Words.{continues_word, is_word_char, number_at, past_exponent};
ghost use Rattle.asn_lexer.specs.Words.{past_sign, past_string, past_word, quoted_at, word_front};
ghost use Rattle.std.specs.Option.{option_map};
ghost use Rattle.std.specs.Prelude.{◌≡◌};

use crate::kind::Kind;
use crate::run::{Run, passes, past_run, past_spaced};

/// Returns whether the byte is a letter, a digit or `_`.
fn is_word_char(byte: u8) -> bool
    ensures { result ≡ is_word_char byte }
{
    byte.is_ascii_alphanumeric() || byte == b'_'
}

/// Returns whether a word goes on with the first byte.
fn continues_word(text: &[u8]) -> bool
    ensures { result ≡ continues_word text.now }
{
    match text {
        [first, rest @ ..] => {
            is_word_char(*first) || (*first == b'-' && !rest.is_empty() && is_word_char(rest[0]))
        }
        [] => false,
    }
}

/// Returns what follows the word at the front of the text.
#[tactic(auto, using(crate::proofs::Words::word_steps))]
fn past_word(text: &[u8]) -> &[u8]
    ensures { result.now ≡ past_word text.now }
{
    let mut rest = text;
    while continues_word(rest) {
        rest = &rest[1..];
    }
    rest
}

/// Returns the word at the front of the text, and what follows it.
pub fn word_at(text: &[u8]) -> (&str, &[u8])
    ensures word { result.0.now ≡ word_front text.now }
    ensures rest { result.1.now ≡ past_word text.now }
{
    let rest = past_word(text);
    match str::from_utf8(&text[..text.len() - rest.len()]) {
        Ok(word) => (word, rest),
        Err(_) => unreachable!(),
    }
}

/// Returns whether a point stands at the front of the text that isn't the first of two.
fn begins_fraction(text: &[u8]) -> bool
    ensures { result ≡ begins_fraction text.now }
{
    text.starts_with(b".".as_slice()) && !text.starts_with(b"..".as_slice())
}

/// Returns what follows the optional sign at the front of the text.
fn past_sign(text: &[u8]) -> &[u8]
    ensures { result.now ≡ past_sign text.now }
{
    match text {
        [b'+' | b'-', rest @ ..] => rest,
        _ => text,
    }
}

/// Returns whether an exponent stands at the front of the text.
fn begins_exponent(text: &[u8]) -> bool
    ensures { result ≡ begins_exponent text.now }
{
    match text {
        [b'e' | b'E', rest @ ..] => {
            let digits = past_sign(rest);
            !digits.is_empty() && passes(Run::Digits, digits[0])
        }
        _ => false,
    }
}

/// Returns what follows the optional exponent at the front of the text.
fn past_exponent(text: &[u8]) -> &[u8]
    ensures { result.now ≡ past_exponent text.now }
{
    if !begins_exponent(text) {
        return text;
    }
    match text {
        [_, rest @ ..] => past_run(Run::Digits, past_sign(rest)),
        [] => text,
    }
}

/// Returns what the number is whose digits were read, and what follows it.
fn behind_digits(text: &[u8]) -> (Kind, &[u8])
    ensures { (result.0, result.1.now) ≡ behind_digits text.now }
{
    if begins_fraction(text) {
        let rest = past_run(Run::Digits, &text[1..]);
        return (Kind::RealNumber, past_exponent(rest));
    }
    if begins_exponent(text) {
        return (Kind::RealNumber, past_exponent(text));
    }
    (Kind::Number, text)
}

/// Returns what the number at the front of the text is, and what follows it.
#[tactic(auto, unfolding(crate::specs::Words::number_at))]
pub fn number_at(text: &[u8]) -> (Kind, &[u8])
    ensures { (result.0, result.1.now) ≡ number_at text.now }
{
    match text.strip_prefix(b"0x".as_slice()) {
        Some(digits) if !digits.is_empty() && passes(Run::HexDigits, digits[0]) => {
            (Kind::Number, past_run(Run::HexDigits, digits))
        }
        _ => behind_digits(past_run(Run::Digits, text)),
    }
}

/// Returns what follows the string whose opening quote was read, or `None` where it has no end.
#[tactic(auto, using(crate::proofs::Words::string_steps))]
pub fn past_string(text: &[u8]) -> Option<&[u8]>
    ensures { option_map (λ rest. rest.now) result ≡ past_string text.now }
{
    let mut rest = text;
    'chars: loop {
        if let Some(after) = rest.strip_prefix(b"\"\"".as_slice()) {
            rest = after;
        } else if let Some(after) = rest.strip_prefix(b"\"".as_slice()) {
            return Some(after);
        } else {
            match rest {
                [_, after @ ..] => rest = after,
                [] => return None,
            }
        }
    }
}

/// Returns what the digits are whose opening apostrophe was read, and what follows them, or `None`
/// where they don't end with `'B` or `'H`.
#[tactic(auto, unfolding(crate::specs::Words::quoted_at))]
pub fn quoted_at(text: &[u8]) -> Option<(Kind, &[u8])>
    ensures { option_map (λ found. (found.0, found.1.now)) result ≡ quoted_at text.now }
{
    if let Some(rest) = past_spaced(Run::Bits, text).strip_prefix(b"'B".as_slice()) {
        return Some((Kind::Bstring, rest));
    }
    if let Some(rest) = past_spaced(Run::Octets, text).strip_prefix(b"'H".as_slice()) {
        return Some((Kind::Hstring, rest));
    }
    None
}
