//! Passes over groups of tokens.
ghost use Rattle.asn_modules_grammar.specs.headers.Fronts.{AnswersRest};
ghost use Rattle.asn_modules_grammar.specs.headers.Groups.{past_groups, past_optional_braces};
ghost use Rattle.std.specs.Prelude.{◌≡◌, ◌≤◌, ◌∷◌, [], IfOk, length};

use asn_lexer::Token;
use asn_modules_grammar::headers::{Group, SyntaxFault, past_group, past_optional_braces};
use std::alloc::Global;

/// Returns what follows the group whose opening token was read, which is no longer.
///
/// # Errors
///
/// `Unexpected` where it isn't closed, or one within it closes otherwise than it opens, and
/// `OutOfMemory`.
pub fn past(alloc: Global, group: Group, tokens: &[Token]) -> Result<&[Token], SyntaxFault>
    ensures found { AnswersRest (past_groups (group ∷ []) tokens.now) result }
    ensures shorter { IfOk result (λ rest. length rest.now ≤ length tokens.now) }
{
    past_group(alloc, group, tokens)
}

/// Returns what follows optional braces, which is no longer.
///
/// # Errors
///
/// Those of `past`.
pub fn past_parameters(alloc: Global, tokens: &[Token]) -> Result<&[Token], SyntaxFault>
    ensures found { AnswersRest (past_optional_braces tokens.now) result }
    ensures shorter { IfOk result (λ rest. length rest.now ≤ length tokens.now) }
{
    past_optional_braces(alloc, tokens)
}
