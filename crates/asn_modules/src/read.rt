//! Reads modules.
ghost use Rattle.asn_modules.specs.Modules.{Modules as ModulesView, modules_view};
ghost use Rattle.asn_modules.specs.Reading.{AreModules, IsModulesRefusal};
ghost use Rattle.asn_modules_names.specs.sources.Reading.{named_view};
ghost use Rattle.asn_modules_reader.specs.text.Texts.{IsRefused};
ghost use Rattle.std.specs.Prelude.{IfErr, IfOk, map};

use crate::missing::missing_in;
use crate::modules::Modules;
use crate::names::type_names;
use asn_modules_names::lookup::{Sort, index_of};
use asn_modules_names::sources::read_sources;
use asn_modules_reader::text::ModuleError;
use asn_modules_rules::checks::check_all;
use asn_modules_types::linked_types;
use std::alloc::Global;

/// Returns the types that the modules of these texts assign. Each text stands after its name, as
/// that of its file, and may hold several modules. A part of a type that isn't read is refused
/// where a value reaches it.
///
/// # Errors
///
/// `Refused` of the first text that is none of modules, else of the first name or number that
/// breaks a rule of ASN.1, or with which COMPONENTS OF includes more bytes or levels of types than
/// the limits, with the file, line and column. `OutOfMemory`, also where 2^32 types are assigned,
/// or one type has so many parts.
pub fn read_modules(alloc: Global, texts: &[(&str, &str)]) -> Result<Modules, ModuleError>
    ensures ok { IfOk result (λ m. AreModules (map named_view texts.now) (modules_view m)) }
    ensures refused { IfErr result (IsModulesRefusal (map named_view texts.now)) }
    ensures none { IfErr result (λ e. IsRefused e → (m : ModulesView)
        → AreModules (map named_view texts.now) m → ⊥) }
{
    let sources = read_sources(alloc, texts)?;
    check_all(alloc, sources.as_slice())?;
    let index = index_of(alloc, Sort::Types, sources.as_slice())?;
    let names = type_names(alloc, sources.as_slice())?;
    let missing = missing_in(alloc, sources.as_slice())?;
    match linked_types(alloc, sources.as_slice(), &index) {
        Ok(types) => Ok(Modules::new(names, types, missing)),
        Err(_fault) => Err(ModuleError::OutOfMemory),
    }
}
