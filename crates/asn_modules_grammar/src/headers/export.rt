//! Reads what a module exports.
ghost use Rattle.asn_modules_grammar.specs.headers.Fronts.{Answers};
ghost use Rattle.asn_modules_grammar.specs.headers.Headers.{exported_at, exports_at};
ghost use Rattle.std.specs.Option.{option_map};
ghost use Rattle.std.specs.Prelude.{◌≡◌};

use crate::headers::fault::{Expected, SyntaxFault, unexpected};
use crate::headers::mark::{Mark, take_mark};
use crate::headers::name::read_names;
use asn_lexer::Token;
use std::alloc::Global;

/// Returns the names after `EXPORTS`, or `None` for `ALL`, and what follows their semicolon.
///
/// # Errors
///
/// `Unexpected` where no name or semicolon stands where one has to, and `OutOfMemory`.
fn read_exported(
    alloc: Global,
    tokens: &[Token],
) -> Result<(Option<Vec<Token>>, &[Token]), SyntaxFault>
    ensures { Answers (λ names. option_map (λ v. v.items) names) (exported_at tokens.now) result }
{
    if let Some(rest) = take_mark(Mark::All, tokens) {
        return match take_mark(Mark::Semicolon, rest) {
            Some(after) => Ok((None, after)),
            None => Err(unexpected(rest, Expected::CommaOrSemicolon)),
        };
    }
    if let Some(rest) = take_mark(Mark::Semicolon, tokens) {
        let none = Vec::new(alloc);
        return Ok((Some(none), rest));
    }
    let (names, rest) = read_names(alloc, tokens)?;
    match take_mark(Mark::Semicolon, rest) {
        Some(after) => Ok((Some(names), after)),
        None => Err(unexpected(rest, Expected::CommaOrSemicolon)),
    }
}

/// Returns the names that are exported, or `None` where all are, and what follows them.
///
/// # Errors
///
/// `Unexpected` where no name or semicolon stands where one has to, and `OutOfMemory`.
pub(crate) fn read_exports(
    alloc: Global,
    tokens: &[Token],
) -> Result<(Option<Vec<Token>>, &[Token]), SyntaxFault>
    ensures { Answers (λ names. option_map (λ v. v.items) names) (exports_at tokens.now) result }
{
    match take_mark(Mark::Exports, tokens) {
        Some(rest) => read_exported(alloc, rest),
        None => Ok((None, tokens)),
    }
}
