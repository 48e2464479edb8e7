//! Reads modules, and whole texts.
ghost use Rattle.asn_modules_grammar.specs.headers.Fronts.{IsSyntax};
ghost use Rattle.asn_modules_grammar.specs.headers.Groups.{past_optional_braces};
ghost use Rattle.asn_modules_grammar.specs.notation.Modules as spec;
ghost use Rattle.asn_modules_grammar.specs.notation.Modules.{ModulesParse, TextParses, begins_module};
ghost use Rattle.asn_modules_grammar.specs.notation.Modules.{names_module};
ghost use Rattle.asn_modules_grammar.specs.notation.View.{module_view};
ghost use Rattle.asn_modules_reader.specs.parts.Reading.{Reads};
ghost use Rattle.asn_modules_reader.specs.Modules.{ModuleParses};
ghost use Rattle.std.specs.Prelude.{◌≡◌, ◌<◌, [], IfErr, IfOk, List, MatchOption, None, false, length};
ghost use Rattle.std.specs.Prelude.{map};

use crate::assignment::read_assignments;
use crate::limits::NESTING_LIMIT;
use crate::parts::{Mark, Sign, past_parameters, take, take_sign};
use asn_lexer::{Keyword, Kind, Token};
use asn_modules_grammar::headers::{Expected, SyntaxFault, read_header, unexpected};
use asn_modules_grammar::notation::Module;
use std::alloc::Global;

/// Returns a module, and what follows it.
///
/// # Errors
///
/// `Unexpected` where none stands here, and `OutOfMemory`.
pub fn read_module(alloc: Global, tokens: &[Token]) -> Result<(Module, &[Token]), SyntaxFault>
    ensures found { Reads module_view (ModuleParses NESTING_LIMIT tokens.now) result }
    ensures shorter { IfOk result (λ found. length found.1.now < length tokens.now) }
{
    let (header, assigned) = read_header(alloc, tokens)?;
    let (assignments, behind) = read_assignments(alloc, assigned)?;
    let Some(rest) = take_sign(Sign::End, behind) else {
        return Err(unexpected(behind, Expected::NameOrEnd));
    };
    let module = Module {
        header: Some(header),
        assignments,
    };
    Ok((module, rest))
}

/// Returns the first token, if there is one.
fn first_of(tokens: &[Token]) -> Option<Token>
    ensures { MatchOption result (tokens.now ≡ []) (λ _first. tokens.now ≡ [] → ⊥) }
{
    match tokens {
        [first, ..] => Some(*first),
        [] => None,
    }
}

/// Returns the modules that all of the tokens are.
///
/// # Errors
///
/// `Unexpected` where they aren't in the grammar, and `OutOfMemory`.
fn read_modules(alloc: Global, tokens: &[Token]) -> Result<Vec<Module>, SyntaxFault>
    ensures ok { IfOk result (λ modules.
        ModulesParse NESTING_LIMIT tokens.now (map module_view modules.items)) }
    ensures none { IfErr result (λ e. IsSyntax e → (modules : List spec.Module)
        → ModulesParse NESTING_LIMIT tokens.now modules → ⊥) }
{
    let mut modules = Vec::new(alloc);
    let mut rest = tokens;
    'modules: loop {
        let Some(_first) = first_of(rest) else {
            return Ok(modules);
        };
        let (module, after) = read_module(alloc, rest)?;
        modules.push(module)?;
        rest = after;
    }
}

/// Returns the module without a header of the assignments that all of the tokens are.
///
/// # Errors
///
/// `Unexpected` where they aren't in the grammar, and `OutOfMemory`.
fn read_bare(alloc: Global, tokens: &[Token]) -> Result<Vec<Module>, SyntaxFault>
    requires { begins_module tokens.now ≡ false }
    ensures ok { IfOk result (λ modules.
        TextParses NESTING_LIMIT tokens.now (map module_view modules.items)) }
    ensures none { IfErr result (λ e. IsSyntax e → (modules : List spec.Module)
        → TextParses NESTING_LIMIT tokens.now modules → ⊥) }
{
    let (assignments, rest) = read_assignments(alloc, tokens)?;
    if let Some(_first) = first_of(rest) {
        return Err(unexpected(rest, Expected::NameOrNothing));
    }
    let module = Module {
        header: None,
        assignments,
    };
    let mut modules = Vec::new(alloc);
    modules.push(module)?;
    Ok(modules)
}

/// Returns whether a module goes on here after a name: with `DEFINITIONS`, or braces after which
/// nothing is assigned.
///
/// # Errors
///
/// `Unexpected` where braces aren't closed, and `OutOfMemory`.
fn names_module(alloc: Global, tokens: &[Token]) -> Result<bool, SyntaxFault>
    ensures ok { IfOk result (λ listed. listed ≡ names_module tokens.now) }
    ensures none { IfErr result (λ e. IsSyntax e → past_optional_braces tokens.now ≡ None) }
{
    let [first, ..] = tokens else {
        return Ok(false);
    };
    match first.kind {
        Kind::Reserved(Keyword::Definitions) => Ok(true),
        Kind::OpenBrace => {
            let behind = past_parameters(alloc, tokens)?;
            match take(Mark::Assignment, behind) {
                Some((_assignment, _rest)) => Ok(false),
                None => Ok(true),
            }
        }
        _ => Ok(false),
    }
}

/// Returns whether a module begins here, and no assignment.
///
/// # Errors
///
/// `Unexpected` where braces after a name aren't closed, and `OutOfMemory`.
fn begins_module(alloc: Global, tokens: &[Token]) -> Result<bool, SyntaxFault>
    ensures ok { IfOk result (λ listed. listed ≡ begins_module tokens.now) }
    ensures none { IfErr result (λ e. IsSyntax e → (modules : List spec.Module)
        → TextParses NESTING_LIMIT tokens.now modules → ⊥) }
{
    let Some((_name, behind)) = take(Mark::Name, tokens) else {
        return Ok(false);
    };
    let listed = names_module(alloc, behind)?;
    Ok(listed)
}

/// Returns the modules that the tokens of a whole text stand for: a list of them, or assignments
/// alone. The names in them are not compared.
///
/// # Errors
///
/// `Unexpected` exactly where the tokens stand for none, at the first token that fits nothing,
/// unless memory runs out, and `OutOfMemory`.
pub fn read_text(alloc: Global, tokens: &[Token]) -> Result<Vec<Module>, SyntaxFault>
    ensures ok { IfOk result (λ modules.
        TextParses NESTING_LIMIT tokens.now (map module_view modules.items)) }
    ensures none { IfErr result (λ e. IsSyntax e → (modules : List spec.Module)
        → TextParses NESTING_LIMIT tokens.now modules → ⊥) }
{
    let listed = begins_module(alloc, tokens)?;
    if listed {
        return read_modules(alloc, tokens);
    }
    read_bare(alloc, tokens)
}
