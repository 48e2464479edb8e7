//! Reads words and strings.
ghost use Rattle.asn_modules_types.specs.Defaults.{is_verbatim, string_in};
ghost use Rattle.asn_modules_types.specs.Scopes.{ascii_of, name_in};
ghost use Rattle.std.specs.List.{list_all, slice_range};
ghost use Rattle.std.specs.Prelude.{◌≡◌, ◌-◌, IfOk, length, nat_le, nat_lt, option_map, string_bytes};

use crate::limits::DEFAULT_STRING_LIMIT;
use crate::lines::join_lines;
use asn_lexer::Token;
use asn_modules_errors::text_of;
use std::alloc::{AllocError, Global};

/// Returns whether the bytes are ASCII.
fn is_ascii(bytes: &[u8]) -> bool
    ensures { result ≡ list_all (λ c. nat_lt c 128) bytes.now }
{
    bytes.iter().all(|byte| *byte < 128)
}

/// Returns the word that the token is in its text: its bytes, and none where they aren't ASCII.
pub fn word_in<'t>(text: &'t str, token: Token) -> &'t [u8]
    ensures { result.now ≡ name_in text.now token }
{
    let bytes = text_of(text, token);
    if is_ascii(bytes) { bytes } else { &[] }
}

/// Returns the bytes as a string, and none where they aren't ASCII.
///
/// # Errors
///
/// Where memory runs out.
pub fn string_of(alloc: Global, bytes: &[u8]) -> Result<String, AllocError>
    ensures { IfOk result (λ s. string_bytes s ≡ ascii_of bytes.now) }
{
    if !is_ascii(bytes) {
        return Ok(String::new(alloc));
    }
    match str::from_utf8(bytes) {
        Ok(word) => String::from_str(alloc, word),
        // ASCII is UTF-8.
        Err(_fault) => Ok(String::new(alloc)),
    }
}

/// Returns the name that the token is in its text, as a string.
///
/// # Errors
///
/// Where memory runs out.
pub fn name_in(alloc: Global, text: &str, token: Token) -> Result<String, AllocError>
    ensures { IfOk result (λ s. string_bytes s ≡ name_in text.now token) }
{
    string_of(alloc, text_of(text, token))
}

/// Returns the bytes without the first and the last one.
fn inner(bytes: &[u8]) -> &[u8]
    ensures { result.now ≡ slice_range bytes.now 1 (length bytes.now - 1) }
{
    if bytes.len() < 2 {
        return &[];
    }
    &bytes[1..bytes.len() - 1]
}

/// Returns whether the byte is of a character that is itself in a string.
fn is_verbatim(byte: u8) -> bool
    ensures { result ≡ is_verbatim byte }
{
    byte >= b' ' && byte != b'"'
}

/// Returns whether each byte is of a character that is itself in a string.
fn are_verbatim(bytes: &[u8]) -> bool
    ensures { result ≡ list_all is_verbatim bytes.now }
{
    bytes.iter().all(|byte| is_verbatim(*byte))
}

/// Returns whether the bytes are few enough for a DEFAULT.
fn is_short(bytes: &[u8]) -> bool
    ensures { result ≡ nat_le (length bytes.now) DEFAULT_STRING_LIMIT }
{
    bytes.len() <= DEFAULT_STRING_LIMIT
}

/// Returns the characters of a string between its quotes, with its lines joined, or `None` where
/// they take more bytes than the limit, or a quote or a control character is among them.
///
/// # Errors
///
/// Where memory runs out.
pub fn string_in(alloc: Global, text: &str, token: Token) -> Result<Option<String>, AllocError>
    ensures { IfOk result (λ o. option_map string_bytes o ≡ string_in text.now token) }
{
    let bytes = inner(text_of(text, token));
    if !is_short(bytes) {
        return Ok(None);
    }
    let joined = join_lines(alloc, bytes)?;
    if !are_verbatim(joined.as_slice()) {
        return Ok(None);
    }
    match String::from_utf8(joined) {
        Ok(string) => Ok(Some(string)),
        Err(_fault) => Ok(None),
    }
}
