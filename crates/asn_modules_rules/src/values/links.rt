//! Lists which value is the name of which other.
ghost use Rattle.asn_modules_names.specs.lookup.Homes.{home_view};
ghost use Rattle.asn_modules_names.specs.lookup.Indexes.{IsIndexOf};
ghost use Rattle.asn_modules_names.specs.declared.lookup.sort.Sort.TheVariants.{Values};
ghost use Rattle.asn_modules_names.specs.Mentions.{Source};
ghost use Rattle.asn_modules_grammar.specs.notation.View.{assignment_view};
ghost use Rattle.asn_modules_rules.specs.values.ValueLinks.{link_as, link_view, links_in, links_of};
ghost use Rattle.asn_modules_rules.specs.values.ValueLinks.{next_of};
ghost use Rattle.std.specs.List.{cons_option};
ghost use Rattle.std.specs.Prelude.{◌≡◌, ◌++◌, [], IfOk, List, OnOk, map, option_map};

use asn_modules_errors::text_of;
use asn_modules_grammar::notation::Assignment;
use asn_modules_names::lookup::{Home, Index};
use asn_modules_names::references::value_name;
use asn_modules_names::{Mention, mention_of};
use std::alloc::{AllocError, Global};

/// Is a value that is assigned, as far as it is the name of another one.
#[derive(Clone, Copy, Drop)]
pub struct ValueLink<'t> {
    /// Is the name that it is assigned to.
    pub name: Mention<'t>,
    /// Is the number of the value that it is the name of; `None` where it is no name, or that value
    /// is missing.
    pub next: Option<usize>,
}

/// Returns the number of the value whose name is assigned in the module of the number, or `None`
/// where no name of a value is assigned, or that value is missing.
fn next_of<'t>(
    index: &Index<'t>,
    number: usize,
    home: Home<'_, 't>,
    assignment: &Assignment,
) -> Option<usize>
    ensures { (ss : List Source) → IsIndexOf Values ss index.now
        → result ≡ next_of ss number (home_view home.entry) (assignment_view assignment.now) }
{
    match value_name(assignment) {
        Some(name) => index.find(number, None, text_of(home.source.text, name)),
        None => None,
    }
}

/// Returns what is assigned in the module of the number, or `None` where it is no value.
fn link_of<'t>(
    index: &Index<'t>,
    number: usize,
    home: Home<'_, 't>,
    assignment: &Assignment,
) -> Option<ValueLink<'t>>
    ensures { (ss : List Source) → IsIndexOf Values ss index.now → option_map link_view result
        ≡ link_as ss number (home_view home.entry) (assignment_view assignment.now) }
{
    match assignment {
        Assignment::Type { .. } => None,
        Assignment::Template { .. } => None,
        Assignment::Value { name, .. } => Some(ValueLink {
            name: mention_of(home.source, *name),
            next: next_of(index, number, home, assignment),
        }),
    }
}

/// Appends the value, if there is one.
///
/// # Errors
///
/// Where memory runs out.
fn add_link<'t>(
    links: &mut Vec<ValueLink<'t>>,
    link: Option<ValueLink<'t>>,
) -> Result<(), AllocError>
    ensures { OnOk result (links.new.items ≡ links.old.items ++ cons_option link.entry []) }
{
    match link {
        Some(link) => {
            links.push(link)?;
            Ok(())
        }
        None => Ok(()),
    }
}

/// Appends the values among these assignments of the module of the number.
///
/// # Errors
///
/// Where memory runs out.
fn add_links<'t>(
    links: &mut Vec<ValueLink<'t>>,
    index: &Index<'t>,
    number: usize,
    home: Home<'_, 't>,
    assignments: &[Assignment],
) -> Result<(), AllocError>
    ensures { OnOk result ((ss : List Source) → IsIndexOf Values ss index.now
        → map link_view links.new.items ≡ map link_view links.old.items
        ++ links_in ss number (home_view home.entry) (map assignment_view assignments.now)) }
{
    for assignment in assignments {
        add_link(links, link_of(index, number, home, assignment))?;
    }
    Ok(())
}

/// Returns the values that the modules assign, in the order of their numbers, by the index of
/// values.
///
/// # Errors
///
/// Where memory runs out.
pub fn links_of<'t>(
    alloc: Global,
    index: &Index<'t>,
    homes: &[Home<'_, 't>],
) -> Result<Vec<ValueLink<'t>>, AllocError>
    ensures { IfOk result (λ links. (ss : List Source) → IsIndexOf Values ss index.now
        → map link_view links.items ≡ links_of ss 0 (map home_view homes.now)) }
{
    let mut links = Vec::new(alloc);
    for (number, home) in homes.iter().enumerate() {
        add_links(
            &mut links,
            index,
            number,
            *home,
            home.parsed.assignments.as_slice(),
        )?;
    }
    Ok(links)
}
