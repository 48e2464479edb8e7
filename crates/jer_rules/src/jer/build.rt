//! Makes JSON values of the slots that an encoder has collected. Values are moved in, and names
//! that are constants aren't copied.
ghost use Rattle.asn_core.specs.Numbers.{signed};
ghost use Rattle.asn_slots.specs.Trees.{trees_of};
ghost use Rattle.asn_traits.specs.Canonical.{sorted_items};
ghost use Rattle.asn_traits.specs.Notation.{Notation};
ghost use Rattle.asn_names.specs.Rows.{row_names};
ghost use Rattle.asn_names.specs.Text.{name_text};
ghost use Rattle.asn_traits.specs.Writable.{IsEncodableInt};
ghost use Rattle.jer_rules.specs.Holding.{members_onto};
ghost use Rattle.jer_values.specs.Names.{name_bytes};
ghost use Rattle.jer_values.specs.Views.{data_of, integer_num, items_view, members_view};
ghost use Rattle.serde_json.specs.Data.{Members};
ghost use Rattle.serde_json.specs.Find.{of_integer};
ghost use Rattle.std.specs.Prelude.{◌≡◌, IfOk, MatchOption};

use asn_core::OutOfMemory;
use asn_sorting::ByText;
use asn_traits::{Name, NameList};
use jer_values::{JerName, JerValue, JsonInteger, put_member};
use std::alloc::Global;

/// Returns the number with this sign and magnitude, or `None` exactly where it is below -2^63 or
/// not below 2^64.
pub fn integer_of(negative: bool, magnitude: u128) -> Option<JsonInteger>
    ensures { MatchOption result (IsEncodableInt Notation.jer (signed negative magnitude) → ⊥)
        (λ n. IsEncodableInt Notation.jer (signed negative magnitude)
        × (integer_num n ≡ of_integer (signed negative magnitude))) }
{
    if magnitude > 18_446_744_073_709_551_615 {
        return None;
    }
    // The cast loses nothing below 2^64, and so the sign can't overflow.
    let number = magnitude as i128;
    JsonInteger::from_i128(if negative { -number } else { number })
}

/// Returns a name as a member has it: a constant as it is, and else a copy of the text.
///
/// # Errors
///
/// `OutOfMemory` alone.
pub fn member_name(alloc: Global, name: Name<'_>) -> Result<JerName, OutOfMemory>
    ensures { IfOk result (λ n. name_bytes n ≡ name_text name.entry) }
{
    match name {
        Name::Constant(text) => Ok(JerName::Constant(text)),
        Name::Borrowed(text) => Ok(JerName::Owned(String::from_str(alloc, text)?)),
    }
}

/// Returns the members of the slots that are present, each with the name at its place. Absent slots
/// are left out.
///
/// # Errors
///
/// `OutOfMemory` alone.
pub fn members_of<N: NameList>(
    alloc: Global,
    slots: Vec<Option<JerValue>>,
    names: &N,
) -> Result<Vec<(JerName, JerValue)>, OutOfMemory>
    ensures { IfOk result (λ ms. members_view ms.items
        ≡ members_onto (trees_of data_of slots.items) (row_names (N.rows names.now))
        Members.no_members) }
{
    let mut slots = slots;
    let mut members = Vec::with_capacity(alloc, slots.len())?;
    // Slots come off the end, so the number of those left is the place of this one.
    while let Some(slot) = slots.pop() {
        if let Some(value) = slot {
            let name = member_name(alloc, names.encoded_name(slots.len()))?;
            put_member(&mut members, name, value)?;
        }
    }
    Ok(members)
}

/// Returns the values in byte order of their compact texts, repeats kept. Values are moved, and no
/// text stays.
///
/// # Errors
///
/// `OutOfMemory` alone.
pub fn in_text_order(alloc: Global, items: Vec<JerValue>) -> Result<Vec<JerValue>, OutOfMemory>
    ensures { IfOk result (λ sorted. items_view sorted.items
        ≡ sorted_items (items_view items.items)) }
{
    let mut entries = ByText::new(alloc);
    for item in items {
        let text = item.to_text(alloc)?;
        entries.add(text, item)?;
    }
    entries.into_sorted()
}
