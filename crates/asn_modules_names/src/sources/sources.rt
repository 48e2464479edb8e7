//! Reads several texts.
ghost use Rattle.asn_modules_names.specs.Mentions.{Source as SourceView, source_view};
ghost use Rattle.asn_modules_names.specs.sources.Reading.{AreRead, IsFirstRefused, named_view};
ghost use Rattle.asn_modules_reader.specs.text.Texts.{IsRefused};
ghost use Rattle.std.specs.Prelude.{IfErr, IfOk, List, map};

use asn_modules_reader::text::{ModuleError, Source, read_source};
use std::alloc::Global;

/// Returns the texts with their modules, in order. Each text stands after its name, as that of its
/// file.
///
/// # Errors
///
/// `Refused` of the first text that is none of modules, as `read_source` tells it, and
/// `OutOfMemory`.
pub fn read_sources<'t>(
    alloc: Global,
    texts: &[(&'t str, &'t str)],
) -> Result<Vec<Source<'t>>, ModuleError>
    ensures ok { IfOk result (λ sources.
        AreRead (map named_view texts.now) (map source_view sources.items)) }
    ensures refused { IfErr result (IsFirstRefused (map named_view texts.now)) }
    ensures none { IfErr result (λ e. IsRefused e → (sources : List SourceView)
        → AreRead (map named_view texts.now) sources → ⊥) }
{
    let mut sources = Vec::new(alloc);
    for named in texts {
        let source = read_source(alloc, named.0, named.1)?;
        sources.push(source)?;
    }
    Ok(sources)
}
