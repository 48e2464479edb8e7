//! Reads how a module begins.
ghost use Rattle.asn_modules_grammar.specs.headers.Fronts.{Answers};
ghost use Rattle.asn_modules_grammar.specs.headers.Headers.{defined_at, opening_at};
ghost use Rattle.std.specs.Prelude.{◌≡◌};

use crate::headers::fault::{Expected, SyntaxFault, unexpected};
use crate::headers::group::past_optional_braces;
use crate::headers::mark::{Mark, take_mark};
use crate::headers::name::take_name;
use crate::headers::tagging::{Tagging, read_implied, read_tagging};
use asn_lexer::Token;
use std::alloc::Global;

/// Holds what a module states up to `BEGIN`.
#[derive(Clone, Copy, Drop, PartialEq, Eq)]
pub struct Opening {
    /// Is the name of the module.
    pub name: Token,
    /// States how it tags where a tag doesn't.
    pub tagging: Tagging,
    /// States whether each list without an extension marker has one (X.680, section 13.4).
    pub extensible: bool,
}

/// Returns what stands after `DEFINITIONS`, in a module of the name, and what follows `BEGIN`.
///
/// # Errors
///
/// `Unexpected` where it isn't in the grammar.
fn read_defined(name: Token, tokens: &[Token]) -> Result<(Opening, &[Token]), SyntaxFault>
    ensures { Answers (λ opening. opening) (defined_at name tokens.now) result }
{
    let (tagging, behind) = read_tagging(tokens)?;
    let (extensible, behind) = read_implied(behind)?;
    let Some(rest) = take_mark(Mark::Assignment, behind) else {
        return Err(unexpected(behind, Expected::Assignment));
    };
    let Some(after) = take_mark(Mark::Begin, rest) else {
        return Err(unexpected(rest, Expected::Begin));
    };
    let opening = Opening {
        name,
        tagging,
        extensible,
    };
    Ok((opening, after))
}

/// Returns what a module states up to `BEGIN`, and what follows that.
///
/// # Errors
///
/// `Unexpected` where it isn't in the grammar, and `OutOfMemory`.
pub(crate) fn read_opening(
    alloc: Global,
    tokens: &[Token],
) -> Result<(Opening, &[Token]), SyntaxFault>
    ensures { Answers (λ opening. opening) (opening_at tokens.now) result }
{
    let Some((name, behind)) = take_name(tokens) else {
        return Err(unexpected(tokens, Expected::Name));
    };
    let rest = past_optional_braces(alloc, behind)?;
    match take_mark(Mark::Definitions, rest) {
        Some(after) => read_defined(name, after),
        None => Err(unexpected(rest, Expected::Definitions)),
    }
}
