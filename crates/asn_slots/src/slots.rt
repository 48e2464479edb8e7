//! Takes the slots of one frame off the end of the vector that holds the slots of all frames.
//! Each function has the place where the frame begins, and leaves what stands before it.
ghost use Rattle.asn_slots.specs.Slots.{last_present, present_of, first_of};
ghost use Rattle.std.specs.Prelude.{◌≡◌, ◌≤◌, IfOk, OnOk, OnErr, take, drop, vec_len};

use asn_core::OutOfMemory;
use std::alloc::Global;

/// Takes out the slots from `start` on, and returns the values of those that are present, in
/// their order, in a vector with room for every slot that was taken.
///
/// # Errors
///
/// `OutOfMemory` alone, and then the slots stay.
pub fn take_present<V: Drop>(
    alloc: Global,
    slots: &mut Vec<Option<V>>,
    start: usize,
) -> Result<Vec<V>, OutOfMemory>
    requires { start ≤ vec_len slots.old }
    ensures present { IfOk result
        (λ values. values.items ≡ present_of (drop start slots.old.items)) }
    ensures taken { OnOk result (slots.new.items ≡ take start slots.old.items) }
    ensures kept { OnErr result (slots.new.items ≡ slots.old.items) }
{
    // All that needs memory is done first, so that an error leaves the slots as they were.
    let mut values = Vec::with_capacity(alloc, slots.len() - start)?;
    // Slots come off the end, so the values stand in reverse until the loop is done.
    'taking: while slots.len() > start {
        if let Some(value) = slots.take_last() {
            values.push_reserved(value);
        }
    }
    values.reverse();
    Ok(values)
}

/// Takes out the slots from `start` on, and returns the first of them, absent where there is
/// none. It takes no memory.
pub fn take_first<V: Drop>(slots: &mut Vec<Option<V>>, start: usize) -> Option<V>
    requires { start ≤ vec_len slots.old }
    ensures first { result ≡ first_of (drop start slots.old.items) }
    ensures taken { slots.new.items ≡ take start slots.old.items }
{
    if slots.len() == start {
        return None;
    }
    // What follows the first slot is dropped where it lies.
    slots.truncate(start + 1);
    slots.take_last()
}

/// Takes out the slots from `start` on, and returns the value of the last of them that is
/// present, or `None` where none is. It takes no memory.
pub fn take_last_present<V: Drop>(slots: &mut Vec<Option<V>>, start: usize) -> Option<V>
    requires { start ≤ vec_len slots.old }
    ensures last { result ≡ last_present (drop start slots.old.items) }
    ensures taken { slots.new.items ≡ take start slots.old.items }
{
    // Absent slots at the end are dropped, until one is present: the slots before it go at once.
    'taking: while slots.len() > start {
        if let Some(value) = slots.take_last() {
            slots.truncate(start);
            return Some(value);
        }
    }
    None
}
