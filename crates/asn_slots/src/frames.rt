//! Holds the open frames of an encoder. A frame is the list of slots that were written since it
//! was opened; closing it hands them over, and the codec makes one value of them.
ghost use Rattle.asn_slots.specs.Frames.{push, Closes, last_start};
ghost use Rattle.asn_slots.specs.Slots.{last_present, present_of, first_of};
ghost use Rattle.std.specs.Prelude.{◌≡◌, ◌∷◌, [], List, Option, length, reverse, OnOk, OnErr, IfOk};
ghost use Rattle.std.specs.Prelude.{drop};

use crate::slots::{take_first, take_last_present, take_present};
use asn_core::OutOfMemory;
use std::alloc::Global;
use std::marker::Model;

/// Holds the open frames of slots that an encoder has written. Contracts see a list, the last
/// frame first. One frame at least is open, the root's. The slots of all frames lie in one vector,
/// whose room is kept for later frames, so that opening and closing seldom need memory.
#[derive(Drop)]
pub struct Frames<V> {
    /// Allocates what is handed over when a frame is closed.
    alloc: Global,
    /// Holds the slots of all frames, the root's first.
    slots: Vec<Option<V>>,
    /// Holds where in `slots` the frames above the root's begin, the last frame's place at the end.
    starts: Vec<usize>,
}

/// Lets contracts see a list of frames. The invariant is that no place falls below that of the
/// frame before it, and that none lies beyond the end of `slots`.
impl<V> Model for Frames<V> {
    ghost use Rattle.asn_slots.specs.Frames.{frames_from, Rise};
    ghost use Rattle.std.specs.Prelude.{List, Option, length, reverse};

    ghost Value = { List (List (Option V)) };

    ghost view = { λ f. frames_from f.slots.items (reverse f.starts.items) };

    ghost invariant = { λ f. Rise (length f.slots.items) (reverse f.starts.items) };
}

/// Returns the place where the last frame begins: the last of the places, or 0 where only the
/// root's frame is open.
fn last_start(starts: &[usize]) -> usize
    ensures { result ≡ last_start (reverse starts.now) }
{
    match starts.last() {
        Some(&start) => start,
        None => 0,
    }
}

/// Removes the place where the last frame begins, if any above the root's is open.
fn forget_last(starts: &mut Vec<usize>)
    ensures { reverse starts.new.items ≡ drop 1 (reverse starts.old.items) }
{
    let _start = starts.pop();
}

/// Opens frames, adds slots to the last one, and closes it in four ways.
impl<V: Drop> Frames<V> {
    /// Returns one open frame, the root's, which is empty. It takes no memory.
    pub fn new(alloc: Global) -> Frames<V>
        ensures { result ≡ [] ∷ [] }
    {
        Frames {
            alloc,
            slots: Vec::new(alloc),
            starts: Vec::new(alloc),
        }
    }

    /// Opens an empty frame after the others.
    ///
    /// # Errors
    ///
    /// `OutOfMemory` alone, and then none is opened.
    pub fn open(&mut self) -> Result<(), OutOfMemory>
        ensures opened { OnOk result (self.new ≡ [] ∷ self.old) }
        ensures kept { OnErr result (self.new ≡ self.old) }
    {
        self.starts.push(self.slots.len())?;
        Ok(())
    }

    /// Adds a slot at the end of the last frame.
    ///
    /// # Errors
    ///
    /// `OutOfMemory` alone, and then nothing is added.
    pub fn add(&mut self, slot: Option<V>) -> Result<(), OutOfMemory>
        ensures added { OnOk result (self.new ≡ push slot self.old) }
        ensures kept { OnErr result (self.new ≡ self.old) }
    {
        self.slots.reserve(1)?;
        self.slots.push_reserved(slot);
        Ok(())
    }

    /// Closes the last frame and returns its slots, in a vector with room for these alone. Where
    /// it is the only one, an empty one takes its place.
    ///
    /// # Errors
    ///
    /// `OutOfMemory` alone, and then the frame stays.
    pub fn close(&mut self) -> Result<Vec<Option<V>>, OutOfMemory>
        ensures closed { IfOk result (λ slots. Closes self.old slots.items self.new) }
        ensures kept { OnErr result (self.new ≡ self.old) }
    {
        // The place is removed only after the step that can fail.
        let slots = self.slots.split_off(last_start(&self.starts))?;
        forget_last(&mut self.starts);
        Ok(slots)
    }

    /// Closes the last frame as `close` does, and returns the values of its slots that are
    /// present, in a vector with room for its slots alone.
    ///
    /// # Errors
    ///
    /// `OutOfMemory` alone, and then the frame stays.
    pub fn close_list(&mut self) -> Result<Vec<V>, OutOfMemory>
        ensures closed { IfOk result (λ values. (slots : List (Option V))
            × Closes self.old slots self.new × (values.items ≡ present_of slots)) }
        ensures kept { OnErr result (self.new ≡ self.old) }
    {
        let start = last_start(&self.starts);
        let values = take_present(self.alloc, &mut self.slots, start)?;
        forget_last(&mut self.starts);
        Ok(values)
    }

    /// Closes the last frame as `close` does, and returns its first slot, absent where there is
    /// none. It takes no memory.
    pub fn close_first(&mut self) -> Option<V>
        ensures { (slots : List (Option V))
            × Closes self.old slots self.new × (result ≡ first_of slots) }
    {
        let first = take_first(&mut self.slots, last_start(&self.starts));
        forget_last(&mut self.starts);
        first
    }

    /// Closes the last frame as `close` does, and returns the value of its last slot that is
    /// present, or `None` where none is. It takes no memory.
    pub fn close_last(&mut self) -> Option<V>
        ensures { (slots : List (Option V))
            × Closes self.old slots self.new × (result ≡ last_present slots) }
    {
        let last = take_last_present(&mut self.slots, last_start(&self.starts));
        forget_last(&mut self.starts);
        last
    }
}
