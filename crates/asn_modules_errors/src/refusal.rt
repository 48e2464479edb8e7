//! Makes errors of what is wrong at a place.
ghost use Rattle.asn_modules_errors.specs.Errors.{IsUnexpected, Refuses, Shows};
ghost use Rattle.asn_modules_errors.specs.Errors.{place_at, start_of};
ghost use Rattle.std.specs.Prelude.{◌≡◌, IfOk, option_map};

use crate::cause::Cause;
use crate::error::ModuleError;
use crate::left_out::left_out;
use crate::slice::shown;
use asn_lexer::{Kind, Place, Token, place_of};
use asn_modules_grammar::headers::Expected;
use std::alloc::{AllocError, Global};

/// Returns the line and column of what begins so many bytes from the beginning of the text.
pub fn place_at(text: &str, offset: usize) -> Place
    ensures { result ≡ place_at text.now offset }
{
    place_of(text, offset)
}

/// Returns the error that refuses the text of this name at the place for the cause.
pub fn refused(alloc: Global, file: &str, place: Place, cause: Cause) -> ModuleError
    ensures { Refuses file.now (λ p c. (p ≡ place) × (c ≡ cause)) result }
{
    match String::from_str(alloc, file) {
        Ok(file) => ModuleError::Refused { file, place, cause },
        Err(_refused) => ModuleError::OutOfMemory,
    }
}

/// Returns where the token begins, or where the text ends if there is none.
fn start_of(text: &str, met: Option<Token>) -> usize
    ensures { result ≡ start_of text.now met }
{
    match met {
        Some(token) => token.start,
        None => text.len(),
    }
}

/// Returns the kind of the token, if there is one.
fn kind_of(met: Option<Token>) -> Option<Kind>
    ensures { result ≡ option_map (λ t. t.kind) met }
{
    match met {
        Some(token) => Some(token.kind),
        None => None,
    }
}

/// Returns the text of the token, if there is one.
///
/// # Errors
///
/// Where memory runs out.
fn shown_met(alloc: Global, text: &str, met: Option<Token>) -> Result<Option<String>, AllocError>
    ensures { IfOk result (λ s. Shows text.now met s) }
{
    match met {
        Some(token) => Ok(Some(shown(alloc, text, token)?)),
        None => Ok(None),
    }
}

/// Returns the cause of meeting the token, or the end of the text, in place of what was expected.
///
/// # Errors
///
/// Where memory runs out.
fn unexpected_cause(
    alloc: Global,
    text: &str,
    met: Option<Token>,
    expected: Expected,
) -> Result<Cause, AllocError>
    ensures { IfOk result (λ cause. IsUnexpected text.now met expected cause) }
{
    if let Some(part) = left_out(kind_of(met), expected) {
        return Ok(Cause::LeftOut(part));
    }
    let met = shown_met(alloc, text, met)?;
    Ok(Cause::Unexpected { met, expected })
}

/// Returns the error that refuses the text of this name since the token, or the end of the text,
/// stands in place of what was expected.
pub fn unexpected_token(
    alloc: Global,
    file: &str,
    text: &str,
    met: Option<Token>,
    expected: Expected,
) -> ModuleError
    ensures { Refuses file.now (λ place cause. (place ≡ place_at text.now (start_of text.now met))
        × IsUnexpected text.now met expected cause) result }
{
    match unexpected_cause(alloc, text, met, expected) {
        Ok(cause) => {
            let place = place_at(text, start_of(text, met));
            refused(alloc, file, place, cause)
        }
        Err(_refused) => ModuleError::OutOfMemory,
    }
}
