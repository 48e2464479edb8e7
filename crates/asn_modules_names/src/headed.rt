//! Checks the names of modules.
ghost use Rattle.asn_modules_names.specs.Assigned.{all_module_names, module_name, module_names};
ghost use Rattle.asn_modules_names.specs.Assigned.{named_again};
ghost use Rattle.asn_modules_names.specs.Faults.{Checks};
ghost use Rattle.asn_modules_names.specs.Mentions.{mention_view, source_view};
ghost use Rattle.asn_modules_grammar.specs.notation.View.{module_view};
ghost use Rattle.std.specs.Prelude.{◌≡◌, ◌++◌, IfOk, OnOk, map};

use crate::distinct::check_distinct;
use crate::mention::{Mention, mention_of};
use asn_lexer::Token;
use asn_modules_errors::{ModuleError, NameRule};
use asn_modules_grammar::notation::Module;
use asn_modules_reader::text::Source;
use std::alloc::{AllocError, Global};

/// Returns the name of the module, if it has one.
fn name_of(parsed: &Module) -> Option<Token>
    ensures { result ≡ module_name (module_view parsed.now) }
{
    match &parsed.header {
        Some(header) => Some(header.opening.name),
        None => None,
    }
}

/// Appends the names of these modules of the text.
///
/// # Errors
///
/// Where memory runs out.
fn add_names<'t>(
    names: &mut Vec<Mention<'t>>,
    source: &Source<'t>,
    modules: &[Module],
) -> Result<(), AllocError>
    ensures { OnOk result (map mention_view names.new.items ≡ map mention_view names.old.items
        ++ module_names (source_view source.now) (map module_view modules.now)) }
{
    for parsed in modules {
        if let Some(name) = name_of(parsed) {
            names.push(mention_of(source, name))?;
        }
    }
    Ok(())
}

/// Returns the names of the modules of all texts, in order.
///
/// # Errors
///
/// Where memory runs out.
pub fn names_of<'t>(alloc: Global, sources: &[Source<'t>]) -> Result<Vec<Mention<'t>>, AllocError>
    ensures { IfOk result (λ names.
        map mention_view names.items ≡ all_module_names (map source_view sources.now)) }
{
    let mut names = Vec::new(alloc);
    for source in sources {
        add_names(&mut names, source, source.modules.as_slice())?;
    }
    Ok(names)
}

/// Checks that modules have names of their own, over all texts.
///
/// # Errors
///
/// The name of the first module that one before it has, and `OutOfMemory`.
pub fn check_modules(alloc: Global, sources: &[Source<'_>]) -> Result<(), ModuleError>
    ensures { Checks (named_again (map source_view sources.now)) result }
{
    let names = names_of(alloc, sources)?;
    check_distinct(alloc, NameRule::ModuleTwice, names.as_slice())
}
