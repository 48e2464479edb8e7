//! Holds the pending slots of a decoder: those that are still to be read, the next one first.
//! Opening a SEQUENCE puts a slot for each of its fields, and reading a field takes one.
ghost use Rattle.asn_slots.specs.Pending.{TakesAbsent, run_before, slots_of};
ghost use Rattle.std.specs.Prelude.{◌≡◌, ◌∷◌, [], ◌++◌, List, Option, Some, map, MatchOption, OnOk, OnErr};
ghost use Rattle.std.specs.Prelude.{IfSome, None, ◌<◌, ◌+◌, reverse, vec_len, vec_capacity};

use asn_core::OutOfMemory;
use std::alloc::Global;
use std::collections::VecDeque;
use std::marker::Model;
use std::mem;

/// Holds slots that are set aside: one that stands apart, if there is one, and the values after it,
/// each of which is a present slot.
#[derive(Drop)]
struct Batch<V> {
    /// Holds the slot that is read first, if it stands apart.
    first: Option<Option<V>>,
    /// Holds the values after it, in the vector that they came in.
    later: VecDeque<V>,
}

/// Holds the slots that a decoder has still to read. Contracts see a list, the next one first.
/// A list of values is kept in the vector that it came in, so that putting it moves none of them,
/// and one slot is kept apart, so that putting it takes no memory.
#[derive(Drop)]
pub struct Pending<V> {
    /// Allocates the runs and the vectors that hold no value.
    alloc: Global,
    /// Holds the slot that is read next, if it stands apart.
    first: Option<Option<V>>,
    /// Holds the values that are read after it, each a present slot.
    later: VecDeque<V>,
    /// Holds the runs after them, the first of them at the end.
    runs: Vec<Batch<V>>,
}

/// Lets contracts see the slots as one list, whatever runs they are kept in.
impl<V> Model for Pending<V> {
    ghost use Rattle.asn_slots.specs.Pending.{run_before, slots_of};
    ghost use Rattle.std.specs.Prelude.{List, Option, reverse};

    ghost Value = { List (Option V) };

    ghost view = { λ p. run_before p.first p.later.items (slots_of (reverse p.runs.items)) };
}

/// Sets the slots that are read next aside as a run, for which there is room, so that none stands
/// before the runs.
fn set_aside<V>(
    alloc: Global,
    first: &mut Option<Option<V>>,
    later: &mut VecDeque<V>,
    runs: &mut Vec<Batch<V>>,
)
    requires { vec_len runs.old < vec_capacity runs.old }
    ensures first { first.new ≡ None }
    ensures later { later.new.items ≡ [] }
    ensures runs { slots_of (reverse runs.new.items)
        ≡ run_before first.old later.old.items (slots_of (reverse runs.old.items)) }
    ensures count { vec_len runs.new ≡ vec_len runs.old + 1 }
    ensures capacity { vec_capacity runs.new ≡ vec_capacity runs.old }
{
    let run = Batch {
        first: first.take(),
        later: mem::replace(later, VecDeque::new(alloc)),
    };
    runs.push_reserved(run);
}

/// Puts slots before the others, and takes the next one.
impl<V: Drop> Pending<V> {
    /// Returns a list without slots. It takes no memory.
    pub fn new(alloc: Global) -> Pending<V>
        ensures { result ≡ [] }
    {
        Pending {
            alloc,
            first: None,
            later: VecDeque::new(alloc),
            runs: Vec::new(alloc),
        }
    }

    /// Returns a list of one slot. It takes no memory.
    pub fn of(alloc: Global, slot: Option<V>) -> Pending<V>
        ensures { result ≡ slot ∷ [] }
    {
        Pending {
            alloc,
            first: Some(slot),
            later: VecDeque::new(alloc),
            runs: Vec::new(alloc),
        }
    }

    /// Puts a slot before the others.
    ///
    /// # Errors
    ///
    /// `OutOfMemory` alone, and then nothing is put.
    pub fn put(&mut self, slot: Option<V>) -> Result<(), OutOfMemory>
        ensures put { OnOk result (self.new ≡ slot ∷ self.old) }
        ensures kept { OnErr result (self.new ≡ self.old) }
    {
        if self.first.is_some() {
            self.runs.reserve(1)?;
            set_aside(self.alloc, &mut self.first, &mut self.later, &mut self.runs);
        }
        self.first = Some(slot);
        Ok(())
    }

    /// Puts these slots before the others, in their order, each as a run of its own.
    ///
    /// # Errors
    ///
    /// `OutOfMemory` alone, and then none is put.
    pub fn put_all(&mut self, slots: Vec<Option<V>>) -> Result<(), OutOfMemory>
        ensures put { OnOk result (self.new ≡ slots.items ++ self.old) }
        ensures kept { OnErr result (self.new ≡ self.old) }
    {
        let mut slots = slots;
        // Room for all of them, and for the slots that were next, is made first: either every slot
        // is put, or none.
        self.runs.reserve(slots.len() + 1)?;
        set_aside(self.alloc, &mut self.first, &mut self.later, &mut self.runs);
        // The last slot goes in first, since the end of `runs` is read first.
        while let Some(slot) = slots.pop() {
            self.runs.push_reserved(Batch {
                first: Some(slot),
                later: VecDeque::new(self.alloc),
            });
        }
        Ok(())
    }

    /// Puts these values before the slots, each present and in their order. The vector stays as it
    /// is, and no value is moved.
    ///
    /// # Errors
    ///
    /// `OutOfMemory` alone, and then none is put.
    pub fn put_present(&mut self, values: Vec<V>) -> Result<(), OutOfMemory>
        ensures put { OnOk result (self.new ≡ map Some values.items ++ self.old) }
        ensures kept { OnErr result (self.new ≡ self.old) }
    {
        if values.is_empty() {
            return Ok(());
        }
        if self.first.is_some() || self.later.len() > 0 {
            self.runs.reserve(1)?;
            set_aside(self.alloc, &mut self.first, &mut self.later, &mut self.runs);
        }
        self.later = VecDeque::from_vec(values);
        Ok(())
    }

    /// Takes the next slot and returns it: `Some(None)` is an absent one, and `None` comes exactly
    /// where no slot is left. It takes no memory.
    pub fn take(&mut self) -> Option<Option<V>>
        ensures { MatchOption result ((self.old ≡ []) × (self.new ≡ self.old))
            (λ slot. self.old ≡ slot ∷ self.new) }
    {
        if let Some(slot) = self.first.take() {
            return Some(slot);
        }
        // A value of a list moves alone: what is left of it stays where it is.
        match self.later.pop_front() {
            Some(value) => Some(Some(value)),
            None => self.take_between_runs(),
        }
    }

    /// Takes the next slot as `take` does, wherever the run stands that it begins.
    #[inline(never)]
    fn take_between_runs(&mut self) -> Option<Option<V>>
        ensures { MatchOption result ((self.old ≡ []) × (self.new ≡ self.old))
            (λ slot. self.old ≡ slot ∷ self.new) }
    {
        'runs: loop {
            if let Some(slot) = self.first.take() {
                return Some(slot);
            }
            if let Some(value) = self.later.pop_front() {
                return Some(Some(value));
            }
            let Batch { first, later } = self.runs.pop()?;
            self.first = first;
            self.later = later;
        }
    }

    /// Returns the value of the next slot where it is at hand, and leaves it there. `None` says
    /// nothing: the slot may be absent, or stand in a later run, or there may be none.
    #[inline(always)]
    pub fn at_hand(&self) -> Option<&V>
        ensures { IfSome result (λ value. (rest : List (Option V))
            × (self.now ≡ Some value.now ∷ rest)) }
    {
        match &self.first {
            Some(slot) => slot.as_ref(),
            None => self.later.front(),
        }
    }

    /// Takes the next slot if it is absent, and returns whether it was: a present one stays for the
    /// next call. `None` comes exactly where no slot is left.
    pub fn take_absent(&mut self) -> Option<bool>
        ensures { TakesAbsent self.old result self.new }
    {
        'runs: loop {
            match &self.first {
                Some(Some(_)) => return Some(false),
                Some(None) => {
                    self.first = None;
                    return Some(true);
                }
                None => {}
            }
            if self.later.len() > 0 {
                return Some(false);
            }
            let Batch { first, later } = self.runs.pop()?;
            self.first = first;
            self.later = later;
        }
    }
}
