//! Lists the modules that are imported from and that none of the texts has.
ghost use Rattle.asn_modules_grammar.specs.headers.Views as headers;
ghost use Rattle.asn_modules_names.specs.lookup.Homes.{home_view};
ghost use Rattle.asn_modules_names.specs.lookup.Indexes.{same_name};
ghost use Rattle.asn_modules_names.specs.Mentions.{mention_view, name_of, source_view};
ghost use Rattle.asn_modules_names.specs.Missing.{missing_modules, new_names, origins_in};
ghost use Rattle.asn_modules_names.specs.Missing.{origins_of};
ghost use Rattle.asn_model.specs.Shape.{is_item};
ghost use Rattle.std.specs.Borrow.{Bor};
ghost use Rattle.std.specs.HashSet.{contains};
ghost use Rattle.std.specs.Prelude.{◌≡◌, ◌++◌, ℕ, IfOk, List, OnOk, map};

use crate::headed::names_of;
use crate::lookup::{Home, homes_of, imports_of};
use crate::mention::{Mention, mention_of};
use asn_modules_errors::text_of;
use asn_modules_grammar::headers::Import;
use asn_modules_reader::text::Source;
use std::alloc::{AllocError, Global};
use std::collections::HashSet;

/// Appends the names after FROM in these imports of a module of the text.
///
/// # Errors
///
/// Where memory runs out.
fn add_origins<'t>(
    origins: &mut Vec<Mention<'t>>,
    source: &Source<'t>,
    imports: &[Import],
) -> Result<(), AllocError>
    ensures { OnOk result (map mention_view origins.new.items ≡ map mention_view origins.old.items
        ++ origins_in (source_view source.now) (map headers.import_view imports.now)) }
{
    for import in imports {
        origins.push(mention_of(source, import.module))?;
    }
    Ok(())
}

/// Returns the names after FROM in all these modules, in order.
///
/// # Errors
///
/// Where memory runs out.
fn origins_of<'t>(alloc: Global, homes: &[Home<'_, 't>]) -> Result<Vec<Mention<'t>>, AllocError>
    ensures { IfOk result (λ origins.
        map mention_view origins.items ≡ origins_of (map home_view homes.now)) }
{
    let mut origins = Vec::new(alloc);
    for home in homes {
        add_origins(&mut origins, home.source, imports_of(&home.parsed.header))?;
    }
    Ok(origins)
}

/// Returns the names as a set.
///
/// # Errors
///
/// Where memory runs out.
fn set_of<'t>(alloc: Global, names: &[Mention<'t>]) -> Result<HashSet<&'t [u8]>, AllocError>
    ensures { IfOk result (λ set. (q : Bor (List ℕ))
        → contains same_name set q ≡ is_item (map name_of (map mention_view names.now)) q.now) }
{
    let mut set = HashSet::new(alloc);
    for name in names {
        set.insert(text_of(name.text, name.token))?;
    }
    Ok(set)
}

/// Returns those of the names that are none of the known ones, each where it stands first.
///
/// # Errors
///
/// Where memory runs out.
fn new_names<'t>(
    alloc: Global,
    known: &[Mention<'t>],
    names: &[Mention<'t>],
) -> Result<Vec<Mention<'t>>, AllocError>
    ensures { IfOk result (λ found. map mention_view found.items
        ≡ new_names (map name_of (map mention_view known.now)) (map mention_view names.now)) }
{
    let mut seen = set_of(alloc, known)?;
    let mut found = Vec::new(alloc);
    for name in names {
        let is_new = seen.insert(text_of(name.text, name.token))?;
        if is_new {
            found.push(*name)?;
        }
    }
    Ok(found)
}

/// Returns the modules that modules of these texts import from and that none of the texts has, each
/// once, where it is named first after FROM, in the order of the texts.
///
/// # Errors
///
/// Where memory runs out.
pub fn missing_modules<'t>(
    alloc: Global,
    sources: &[Source<'t>],
) -> Result<Vec<Mention<'t>>, AllocError>
    ensures { IfOk result (λ missing.
        map mention_view missing.items ≡ missing_modules (map source_view sources.now)) }
{
    let given = names_of(alloc, sources)?;
    let homes = homes_of(alloc, sources)?;
    let origins = origins_of(alloc, homes.as_slice())?;
    new_names(alloc, given.as_slice(), origins.as_slice())
}
