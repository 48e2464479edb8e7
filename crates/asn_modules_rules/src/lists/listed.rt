//! Collects the names in the lists of types.
ghost use Rattle.asn_modules_rules.specs.lists.Listed.{item_names, listed_names, number_names};
ghost use Rattle.asn_modules_names.specs.Mentions.{mention_in, mention_view, source_view};
ghost use Rattle.asn_modules_grammar.specs.notation.View.{items_view};
ghost use Rattle.asn_modules_reader.specs.Views.{base_view};
ghost use Rattle.std.specs.Prelude.{◌≡◌, ◌++◌, IfOk, OnOk, Some, map};

use crate::lists::members::add_members;
use asn_lexer::Token;
use asn_modules_grammar::notation::{Base, Item, NamedNumber};
use asn_modules_names::{Mention, mention_of};
use asn_modules_reader::text::Source;
use std::alloc::{AllocError, Global};

/// Appends the names of named numbers or bits.
///
/// # Errors
///
/// Where memory runs out.
fn add_numbers(names: &mut Vec<Token>, numbers: &[NamedNumber]) -> Result<(), AllocError>
    ensures { OnOk result (names.new.items ≡ names.old.items ++ number_names numbers.now) }
{
    for number in numbers {
        names.push(number.name)?;
    }
    Ok(())
}

/// Appends the names of items.
///
/// # Errors
///
/// Where memory runs out.
fn add_items(names: &mut Vec<Token>, items: &[Item]) -> Result<(), AllocError>
    ensures { OnOk result (names.new.items
        ≡ names.old.items ++ item_names (map (λ i. Some i) items.now)) }
{
    for item in items {
        names.push(item.name)?;
    }
    Ok(())
}

/// Appends the names of the items, and of those after the extension marker.
///
/// # Errors
///
/// Where memory runs out.
fn add_enumerated(
    names: &mut Vec<Token>,
    items: &Vec<Item>,
    added: &Option<Vec<Item>>,
) -> Result<(), AllocError>
    ensures { OnOk result (names.new.items
        ≡ names.old.items ++ item_names (items_view items.now added.now)) }
{
    add_items(names, items.as_slice())?;
    match added {
        Some(added) => add_items(names, added.as_slice()),
        None => Ok(()),
    }
}

/// Appends the names in the list that the type has between braces, if it has one, in order.
///
/// # Errors
///
/// Where memory runs out.
fn add_names(names: &mut Vec<Token>, base: &Base) -> Result<(), AllocError>
    ensures { OnOk result
        (names.new.items ≡ names.old.items ++ listed_names (base_view base.now)) }
{
    match base {
        Base::Integer(numbers) => add_numbers(names, numbers.as_slice()),
        Base::BitString(bits) => add_numbers(names, bits.as_slice()),
        Base::Enumerated { items, added } => add_enumerated(names, items, added),
        Base::Sequence(members) => add_members(names, members),
        Base::Set(members) => add_members(names, members),
        Base::Choice(alternatives) => add_members(names, alternatives),
        Base::Leaf(_leaf) => Ok(()),
        Base::SequenceOf(_element) => Ok(()),
        Base::SetOf(_element) => Ok(()),
        Base::Reference { .. } => Ok(()),
        Base::Instance { .. } => Ok(()),
    }
}

/// Returns the names in the list that the type has between braces, if it has one, in order.
///
/// # Errors
///
/// Where memory runs out.
pub fn listed_names(alloc: Global, base: &Base) -> Result<Vec<Token>, AllocError>
    ensures { IfOk result (λ names. names.items ≡ listed_names (base_view base.now)) }
{
    let mut names = Vec::new(alloc);
    add_names(&mut names, base)?;
    Ok(names)
}

/// Returns the names that these tokens are in the text.
///
/// # Errors
///
/// Where memory runs out.
pub fn mentions_of<'t>(
    alloc: Global,
    source: &Source<'t>,
    names: &[Token],
) -> Result<Vec<Mention<'t>>, AllocError>
    ensures { IfOk result (λ mentions. map mention_view mentions.items
        ≡ map (mention_in (source_view source.now)) names.now) }
{
    let mut mentions = Vec::new(alloc);
    for name in names {
        mentions.push(mention_of(source, *name))?;
    }
    Ok(mentions)
}
