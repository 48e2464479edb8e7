//! Lists the modules that are imported from and aren't given.
ghost use Rattle.asn_modules.specs.Missing.{missing_in, missing_of, missing_view};
ghost use Rattle.asn_modules_names.specs.Mentions.{mention_view, source_view};
ghost use Rattle.std.specs.Prelude.{◌≡◌, IfOk, map};

use asn_lexer::Place;
use asn_modules_errors::place_at;
use asn_modules_names::{Mention, missing_modules};
use asn_modules_reader::text::Source;
use asn_modules_types::name_in;
use std::alloc::{AllocError, Global};

/// Is a module that another one imports from and that isn't given.
#[derive(Drop)]
pub struct MissingModule {
    /// Is the name of the text in which it is named first after FROM, as of its file.
    pub file: String,
    /// Is the line and column at which its name stands there.
    pub place: Place,
    /// Is its name.
    pub name: String,
}

/// Returns the module of the name, which stands after FROM.
///
/// # Errors
///
/// Where memory runs out.
fn missing_of(alloc: Global, name: &Mention<'_>) -> Result<MissingModule, AllocError>
    ensures { IfOk result (λ m. missing_view m ≡ missing_of (mention_view name.now)) }
{
    Ok(MissingModule {
        file: String::from_str(alloc, name.file)?,
        place: place_at(name.text, name.token.start),
        name: name_in(alloc, name.text, name.token)?,
    })
}

/// Returns the modules of these names, which stand after FROM.
///
/// # Errors
///
/// Where memory runs out.
fn each_missing(alloc: Global, names: &[Mention<'_>]) -> Result<Vec<MissingModule>, AllocError>
    ensures { IfOk result (λ missing. map missing_view missing.items
        ≡ map missing_of (map mention_view names.now)) }
{
    let mut missing = Vec::new(alloc);
    for name in names {
        let found = missing_of(alloc, name)?;
        missing.push(found)?;
    }
    Ok(missing)
}

/// Returns the modules that modules of these texts import from and that none of the texts has, each
/// once, in the order in which they are named after FROM.
///
/// # Errors
///
/// Where memory runs out.
pub fn missing_in(alloc: Global, sources: &[Source<'_>]) -> Result<Vec<MissingModule>, AllocError>
    ensures { IfOk result (λ missing. map missing_view missing.items
        ≡ missing_in (map source_view sources.now)) }
{
    let names = missing_modules(alloc, sources)?;
    each_missing(alloc, names.as_slice())
}
