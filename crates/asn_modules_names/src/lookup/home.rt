//! Lists the modules of all texts.
ghost use Rattle.asn_modules_names.specs.lookup.Homes.{home_view, homes, homes_in};
ghost use Rattle.asn_modules_names.specs.Mentions.{source_view};
ghost use Rattle.asn_modules_grammar.specs.notation.View.{module_view};
ghost use Rattle.std.specs.Prelude.{◌≡◌, ◌++◌, IfOk, OnOk, map};

use asn_modules_grammar::notation::Module;
use asn_modules_reader::text::Source;
use std::alloc::{AllocError, Global};

/// Is a module in its text.
#[derive(Clone, Copy, Drop)]
pub struct Home<'s, 't> {
    /// Is the text.
    pub source: &'s Source<'t>,
    /// Is the module.
    pub parsed: &'s Module,
}

/// Appends these modules of the text.
///
/// # Errors
///
/// Where memory runs out.
fn add_homes<'s, 't>(
    found: &mut Vec<Home<'s, 't>>,
    source: &'s Source<'t>,
    modules: &'s [Module],
) -> Result<(), AllocError>
    ensures { OnOk result (map home_view found.new.items ≡ map home_view found.old.items
        ++ homes_in (source_view source.now) (map module_view modules.now)) }
{
    for parsed in modules {
        found.push(Home { source, parsed })?;
    }
    Ok(())
}

/// Returns the modules of all texts, in order.
///
/// # Errors
///
/// Where memory runs out.
pub fn homes_of<'s, 't>(
    alloc: Global,
    sources: &'s [Source<'t>],
) -> Result<Vec<Home<'s, 't>>, AllocError>
    ensures { IfOk result (λ found.
        map home_view found.items ≡ homes (map source_view sources.now)) }
{
    let mut found = Vec::new(alloc);
    for source in sources {
        add_homes(&mut found, source, source.modules.as_slice())?;
    }
    Ok(found)
}
