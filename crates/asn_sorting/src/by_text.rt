//! Sorts values by their texts.
ghost use Rattle.asn_model.specs.Sorting.{sort, by_text};
ghost use Rattle.asn_sorting.specs.Entries.{text_of, value_of};
ghost use Rattle.asn_sorting.specs.Groups.{group_text, group_values, entries_of};
ghost use Rattle.std.specs.Prelude.{◌≡◌, ◌++◌, ◌∷◌, [], map, string_bytes, IfOk, OnOk, OnErr};

use asn_core::OutOfMemory;
use std::alloc::Global;
use std::marker::Model;

/// Values of one text, in the order in which they came.
#[derive(Drop)]
struct Group<V> {
    /// The text of each.
    text: String,
    /// The first value.
    first: V,
    /// The values after it.
    others: Vec<V>,
}

/// Values that are to be sorted by their texts. Contracts see the list of texts, as bytes, and
/// values, in the order in which they were added.
///
/// Values of equal texts that come one after the other share their text, so repeats are sorted
/// together.
#[derive(Drop)]
pub struct ByText<V> {
    /// Where memory comes from.
    alloc: Global,
    /// The values, those of equal texts that came one after the other together.
    groups: Vec<Group<V>>,
    /// How many values there are, which is only a guess of the room for them.
    count: usize,
}

/// Lets contracts see a list of texts and values.
impl<V> Model for ByText<V> {
    ghost use Rattle.asn_sorting.specs.Groups.{entries_of};
    ghost use Rattle.std.specs.Prelude.{List, ℕ};

    ghost Value = { List (List ℕ × V) };

    ghost view = { λ b. entries_of b.groups.items };
}

/// Sorts groups by the bytes of their texts. Those of equal texts keep their order.
///
/// # Errors
///
/// `OutOfMemory` alone, and then the groups stay as they were.
fn sort_groups<V: Drop>(groups: &mut Vec<Group<V>>) -> Result<(), OutOfMemory>
    ensures sorted { OnOk result (groups.new.items ≡ sort (by_text group_text) groups.old.items) }
    ensures kept { OnErr result (groups.new.items ≡ groups.old.items) }
{
    groups.sort_by(|left, right| left.text.cmp(&right.text))?;
    Ok(())
}

impl<V: Drop> ByText<V> {
    /// Returns no values. It takes no memory.
    pub fn new(alloc: Global) -> ByText<V>
        ensures { result ≡ [] }
    {
        ByText {
            alloc,
            groups: Vec::new(alloc),
            count: 0,
        }
    }

    /// Adds a value with its text after the others.
    ///
    /// # Errors
    ///
    /// `OutOfMemory` alone.
    pub fn add(&mut self, text: String, value: V) -> Result<(), OutOfMemory>
        ensures { OnOk result (self.new ≡ self.old ++ (string_bytes text, value) ∷ []) }
    {
        self.count = self.count.saturating_add(1);
        if let Some(group) = self.groups.last_mut() {
            if group.text == text {
                group.others.push(value)?;
                return Ok(());
            }
        }
        let group = Group {
            text,
            first: value,
            others: Vec::new(self.alloc),
        };
        self.groups.push(group)?;
        Ok(())
    }

    /// Returns the values by the bytes of their texts. Those of equal texts keep their order. The
    /// values are moved, and the texts dropped.
    ///
    /// # Errors
    ///
    /// `OutOfMemory` alone.
    pub fn into_sorted(self) -> Result<Vec<V>, OutOfMemory>
        ensures { IfOk result (λ values. values.items
            ≡ map value_of (sort (by_text text_of) self)) }
    {
        let mut groups = self.groups;
        sort_groups(&mut groups)?;
        let mut values = Vec::with_capacity(self.alloc, self.count)?;
        for group in groups {
            values.push(group.first)?;
            let mut others = group.others;
            values.append(&mut others)?;
        }
        Ok(values)
    }
}
