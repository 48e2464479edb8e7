//! Reads what a module imports.
ghost use Rattle.asn_modules_grammar.specs.headers.Fronts.{Answers, AnswersRest, IsSyntax};
ghost use Rattle.asn_modules_grammar.specs.headers.Headers.{ImportsParse, follows_imported, import_at};
ghost use Rattle.asn_modules_grammar.specs.headers.Headers.{past_identifier, past_selection};
ghost use Rattle.asn_modules_grammar.specs.headers.Views.{import_view};
ghost use Rattle.asn_lexer.specs.declared.token.Token.{Token};
ghost use Rattle.std.specs.Prelude.{◌≡◌, IfErr, IfOk, List, map};

use crate::headers::fault::{Expected, SyntaxFault, unexpected};
use crate::headers::group::past_optional_braces;
use crate::headers::mark::{Mark, take_mark};
use crate::headers::name::{read_names, take_name};
use asn_lexer::{Keyword, Kind, Token};
use std::alloc::Global;

/// Holds names that are imported from a module.
#[derive(Drop)]
pub struct Import {
    /// Lists the names.
    pub names: Vec<Token>,
    /// Is the name of the module.
    pub module: Token,
}

/// Returns whether a token of the kind shows that the name before it is one of those that are
/// imported. A brace begins parameters.
fn follows_imported(kind: Kind) -> bool
    ensures { result ≡ follows_imported kind }
{
    matches!(
        kind,
        Kind::Comma | Kind::Reserved(Keyword::From) | Kind::OpenBrace
    )
}

/// Returns what follows the optional identifier of a module: the name of a value, which is none of
/// the names that are imported next, or a group in braces.
///
/// # Errors
///
/// `Unexpected` where a brace isn't closed, and `OutOfMemory`.
fn past_identifier(alloc: Global, tokens: &[Token]) -> Result<&[Token], SyntaxFault>
    ensures { AnswersRest (past_identifier tokens.now) result }
{
    let Some((_name, rest)) = take_name(tokens) else {
        return past_optional_braces(alloc, tokens);
    };
    match rest {
        [next, ..] if follows_imported(next.kind) => Ok(tokens),
        _ => Ok(rest),
    }
}

/// Returns what follows `WITH SUCCESSORS` or `WITH DESCENDANTS`, if one of them stands here.
///
/// # Errors
///
/// `Unexpected` where another token stands after `WITH`.
fn past_selection(tokens: &[Token]) -> Result<&[Token], SyntaxFault>
    ensures { AnswersRest (past_selection tokens.now) result }
{
    let Some(behind) = take_mark(Mark::With, tokens) else {
        return Ok(tokens);
    };
    if let Some(rest) = take_mark(Mark::Successors, behind) {
        return Ok(rest);
    }
    match take_mark(Mark::Descendants, behind) {
        Some(rest) => Ok(rest),
        None => Err(unexpected(behind, Expected::Selection)),
    }
}

/// Returns names and the module that they are imported from, and what follows them.
///
/// # Errors
///
/// `Unexpected` where no name or `FROM` stands where one has to, a brace isn't closed, or another
/// word than `SUCCESSORS` and `DESCENDANTS` stands after `WITH`, and `OutOfMemory`.
fn read_import(alloc: Global, tokens: &[Token]) -> Result<(Import, &[Token]), SyntaxFault>
    ensures { Answers import_view (import_at tokens.now) result }
{
    let (names, behind) = read_names(alloc, tokens)?;
    let Some(rest) = take_mark(Mark::From, behind) else {
        return Err(unexpected(behind, Expected::CommaOrFrom));
    };
    let Some((module, after)) = take_name(rest) else {
        return Err(unexpected(rest, Expected::Name));
    };
    let identified = past_identifier(alloc, after)?;
    let rest = past_selection(identified)?;
    Ok((Import { names, module }, rest))
}

/// Returns the imports, of which there may be none, and what follows them.
///
/// # Errors
///
/// `Unexpected` where they aren't in the grammar, and `OutOfMemory`.
pub(crate) fn read_imports(
    alloc: Global,
    tokens: &[Token],
) -> Result<(Vec<Import>, &[Token]), SyntaxFault>
    ensures ok { IfOk result (λ found.
        ImportsParse tokens.now (map import_view found.0.items) found.1.now) }
    ensures none { IfErr result (λ e. IsSyntax e → (imports : List (List Token × Token))
        (rest : List Token) → ImportsParse tokens.now imports rest → ⊥) }
{
    let mut imports = Vec::new(alloc);
    let Some(first) = take_mark(Mark::Imports, tokens) else {
        return Ok((imports, tokens));
    };
    let mut rest = first;
    'imports: loop {
        if let Some(after) = take_mark(Mark::Semicolon, rest) {
            return Ok((imports, after));
        }
        let (import, after) = read_import(alloc, rest)?;
        imports.push(import)?;
        rest = after;
    }
}
