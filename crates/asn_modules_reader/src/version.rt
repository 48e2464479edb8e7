//! Passes over the numbers of versions.
ghost use Rattle.asn_modules_grammar.specs.notation.Grammar.{past_version};
ghost use Rattle.std.specs.Prelude.{◌≡◌, ◌≤◌, length};

use crate::parts::{Mark, take};
use asn_lexer::Token;

/// Returns what follows the number of a version and its colon, if they stand here.
pub(crate) fn past_version(tokens: &[Token]) -> &[Token]
    ensures found { result.now ≡ past_version tokens.now }
    ensures shorter { length result.now ≤ length tokens.now }
{
    let Some((_number, behind)) = take(Mark::Number, tokens) else {
        return tokens;
    };
    match take(Mark::Colon, behind) {
        Some((_colon, rest)) => rest,
        None => tokens,
    }
}
