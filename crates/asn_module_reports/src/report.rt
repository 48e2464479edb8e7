//! Makes the reports.
ghost use Rattle.asn_module.specs.Faults.{IsRefusal};
ghost use Rattle.asn_module_reports.specs.Reports.{AreTypesOf, GrowthFails, IsGrowthReport};
ghost use Rattle.asn_module_reports.specs.Reports.{IsModuleText, IsPrinting, growth_line};
ghost use Rattle.asn_notation.specs.declared.limits.TheConstants.{NESTING_LIMIT};
ghost use Rattle.std.specs.Prelude.{◌≡◌, IfErr, IfOk, string_bytes};
ghost use Rattle.std.specs.Str.{chars};

use asn_core::OutOfMemory;
use asn_growth::{Growth, grows_check};
use asn_module::{ModuleFault, module_shape, print_module, read_module};
use std::alloc::Global;

/// Returns the printed text of the module that the text stands for.
///
/// # Errors
///
/// Those of `read_module`: where the text stands for no module, the reason; `OutOfMemory`.
pub fn printed_module(alloc: Global, text: &str) -> Result<String, ModuleFault>
    ensures printed { IfOk result (λ s. IsPrinting text.now (string_bytes s)) }
    ensures refused { IfErr result (λ e. IsRefusal NESTING_LIMIT (chars text.now) e) }
    // A text that stands for a module is printed, unless memory runs out.
    ensures complete { IsModuleText text.now → IfErr result (λ e. e ≡ ModuleFault.OutOfMemory) }
{
    let module = read_module(alloc, text)?;
    Ok(print_module(alloc, &module)?)
}

/// Returns the line of an answer on growth: `grows`, or `differs at ` and the place.
///
/// # Errors
///
/// `OutOfMemory` alone.
fn answer_line(alloc: Global, growth: Growth) -> Result<String, OutOfMemory>
    ensures { IfOk result (λ s. string_bytes s ≡ growth_line growth) }
{
    match growth {
        Growth::Grows => Ok(String::from_str(alloc, "grows\n")?),
        Growth::Differs { place, .. } => Ok(format!(in alloc; "differs at {place}\n")?),
    }
}

/// Returns the line that says whether the newer type of the module that the text stands for is a
/// later version of the older one: `grows`, or `differs at ` and the number of the first node of
/// the older type that differs.
///
/// # Errors
///
/// Those of `read_module`, else those of `module_shape` for the older type, else those for the
/// newer one.
pub fn growth_report(alloc: Global, old: &str, new: &str, text: &str) -> Result<String, ModuleFault>
    ensures report { IfOk result (λ s. IsGrowthReport old.now new.now text.now (string_bytes s)) }
    ensures refused { IfErr result (λ e. GrowthFails old.now new.now text.now e) }
    // Where both types have shapes, there is a report, unless memory runs out.
    ensures complete { AreTypesOf old.now new.now text.now
        → IfErr result (λ e. e ≡ ModuleFault.OutOfMemory) }
{
    let module = read_module(alloc, text)?;
    let older = module_shape(alloc, &module, old)?;
    let newer = module_shape(alloc, &module, new)?;
    Ok(answer_line(alloc, grows_check(&older, &newer))?)
}
