//! Lists the named numbers of types.
ghost use Rattle.asn_modules_types.specs.named_numbers.Entries.{entries_in, entries_of};
ghost use Rattle.asn_modules_types.specs.named_numbers.Named.{numbers_in};
ghost use Rattle.asn_modules_types.specs.named_numbers.Views.{entry_view, type_view};
ghost use Rattle.asn_modules_grammar.specs.notation.View.{notation_view};
ghost use Rattle.std.specs.Prelude.{◌≡◌, ◌++◌, IfOk, OnOk, map};

use asn_modules_errors::text_of;
use asn_modules_grammar::notation::{Base, Constant, NamedNumber, Notation};
use std::alloc::{AllocError, Global};

/// Is a type and the text that it stands in.
#[derive(Clone, Copy, Drop)]
pub struct StatedType<'s, 't> {
    /// Is the text.
    pub text: &'t str,
    /// Is the type.
    pub notation: &'s Notation,
}

/// Is the name of a number after the number of its type.
pub type Key<'t> = (usize, &'t [u8]);

/// Returns the named numbers of an INTEGER, and none of another type.
fn numbers_in(notation: &Notation) -> &[NamedNumber]
    ensures { result.now ≡ numbers_in (notation_view notation.now) }
{
    match &notation.base {
        Base::Integer(named) => named.as_slice(),
        Base::Leaf(_) => &[],
        Base::BitString(_) => &[],
        Base::Enumerated { .. } => &[],
        Base::Sequence(_) => &[],
        Base::Set(_) => &[],
        Base::SequenceOf(_) => &[],
        Base::SetOf(_) => &[],
        Base::Choice(_) => &[],
        Base::Reference { .. } => &[],
        Base::Instance { .. } => &[],
    }
}

/// Appends these named numbers of the type of the number in its text.
///
/// # Errors
///
/// Where memory runs out.
fn add_numbers<'t>(
    entries: &mut Vec<(Key<'t>, Constant)>,
    number: usize,
    text: &'t str,
    named: &[NamedNumber],
) -> Result<(), AllocError>
    ensures { OnOk result (map entry_view entries.new.items
        ≡ map entry_view entries.old.items ++ entries_in number text.now named.now) }
{
    for entry in named {
        entries.push(((number, text_of(text, entry.name)), entry.number))?;
    }
    Ok(())
}

/// Returns the named numbers of all types, in order.
///
/// # Errors
///
/// Where memory runs out.
pub fn entries_of<'t>(
    alloc: Global,
    types: &[StatedType<'_, 't>],
) -> Result<Vec<(Key<'t>, Constant)>, AllocError>
    ensures { IfOk result (λ entries.
        map entry_view entries.items ≡ entries_of 0 (map type_view types.now)) }
{
    let mut entries = Vec::new(alloc);
    for (number, stated) in types.iter().enumerate() {
        let named = numbers_in(stated.notation);
        add_numbers(&mut entries, number, stated.text, named)?;
    }
    Ok(entries)
}
