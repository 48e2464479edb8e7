//! Checks the numbers in all texts.
ghost use Rattle.asn_modules_rules.specs.lists.Written.{written_view};
ghost use Rattle.asn_modules_names.specs.Assigned.{first_found};
ghost use Rattle.asn_modules_names.specs.Faults.{Checks};
ghost use Rattle.asn_modules_names.specs.Mentions.{source_view};
ghost use Rattle.asn_modules_grammar.specs.notation.View.{items_view};
ghost use Rattle.asn_modules_grammar.specs.declared.notation.number.Item as spec;
ghost use Rattle.asn_modules_rules.specs.numbers.Faults.{added_items, first_number_fault, number_fault};
ghost use Rattle.asn_modules_rules.specs.numbers.Faults.{numbers_fault};
ghost use Rattle.asn_modules_reader.specs.Views.{base_view};
ghost use Rattle.std.specs.Global.{Vec};
ghost use Rattle.std.specs.Prelude.{◌≡◌, IfOk, map};

use crate::lists::{WrittenType, written_types};
use crate::numbers::rules::{Broken, bits_fault, enumerated_fault};
use asn_modules_errors::ModuleError;
use asn_modules_grammar::notation::{Base, Item};
use asn_modules_names::{broken, mention_of};
use asn_modules_reader::text::Source;
use std::alloc::{AllocError, Global};

/// Returns the items after the extension marker.
fn added_items(added: &Option<Vec<Item>>) -> &[Item]
    ensures { (items : Vec spec.Item) → result.now ≡ added_items (items_view items added.now) }
{
    match added {
        Some(added) => added.as_slice(),
        None => &[],
    }
}

/// Returns what breaks a rule in the numbers of the type.
///
/// # Errors
///
/// Where memory runs out.
fn number_fault(alloc: Global, text: &str, base: &Base) -> Result<Option<Broken>, AllocError>
    ensures { IfOk result (λ found. found ≡ number_fault text.now (base_view base.now)) }
{
    match base {
        Base::BitString(bits) => bits_fault(alloc, text, bits.as_slice()),
        Base::Enumerated { items, added } => {
            enumerated_fault(alloc, text, items.as_slice(), added_items(added))
        }
        Base::Leaf(_leaf) => Ok(None),
        Base::Integer(_numbers) => Ok(None),
        Base::Sequence(_members) => Ok(None),
        Base::Set(_members) => Ok(None),
        Base::SequenceOf(_element) => Ok(None),
        Base::SetOf(_element) => Ok(None),
        Base::Choice(_alternatives) => Ok(None),
        Base::Reference { .. } => Ok(None),
        Base::Instance { .. } => Ok(None),
    }
}

/// Checks the numbers of the type.
///
/// # Errors
///
/// The first that breaks a rule, and `OutOfMemory`.
fn check_type(alloc: Global, written: WrittenType<'_, '_>) -> Result<(), ModuleError>
    ensures { Checks (numbers_fault (written_view written.entry)) result }
{
    match number_fault(alloc, written.source.text, written.base)? {
        Some((rule, name)) => Err(broken(alloc, rule, mention_of(written.source, name))),
        None => Ok(()),
    }
}

/// Checks the numbers of each of the types.
///
/// # Errors
///
/// The first that breaks a rule, and `OutOfMemory`.
fn check_types(alloc: Global, types: &[WrittenType<'_, '_>]) -> Result<(), ModuleError>
    ensures { Checks (first_found numbers_fault (map written_view types.now)) result }
{
    for written in types {
        check_type(alloc, *written)?;
    }
    Ok(())
}

/// Checks the numbers of items and bits: items have numbers of their own, those of extension
/// additions rise, and bits have numbers of their own that aren't negative. Items that state no
/// number have those that X.680 gives them (section 20).
///
/// # Errors
///
/// The first name whose number breaks a rule, where lists are in the order in which their types
/// begin, and `OutOfMemory`.
pub fn check_numbers(alloc: Global, sources: &[Source<'_>]) -> Result<(), ModuleError>
    ensures { Checks (first_number_fault (map source_view sources.now)) result }
{
    let types = written_types(alloc, sources)?;
    check_types(alloc, types.as_slice())
}
