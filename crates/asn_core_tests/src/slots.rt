//! Calls each function of the pending slots and the open frames with ample memory, at a concrete
//! type. The expected values follow from the contracts, which see both as lists.
use asn_slots::{Frames, Pending};
use std::test::Fail;

/// A slot that is put is taken, and none comes when all are taken.
#[test]
fn a_slot_is_taken(rt: HostRuntime) -> Result<(), Fail> {
    let mut pending: Pending<u8> = Pending::new(rt.alloc());
    pending.put(Some(5))?;
    assert_eq!(rt; pending.take(), Some(Some(5)));
    assert_eq!(rt; pending.take(), None);
    Ok(())
}

/// A list that is made of one slot has that one alone.
#[test]
fn one_slot_is_taken(rt: HostRuntime) {
    let mut pending: Pending<u8> = Pending::of(rt.alloc(), Some(6));
    assert_eq!(rt; pending.take(), Some(Some(6)));
    assert_eq!(rt; pending.take(), None);
}

/// Values that are put as a whole vector come one by one, in order.
#[test]
fn values_come_one_by_one(rt: HostRuntime) -> Result<(), Fail> {
    let mut pending: Pending<u8> = Pending::new(rt.alloc());
    pending.put_present([3, 4].to_vec(rt.alloc())?)?;
    assert_eq!(rt; pending.take(), Some(Some(3)));
    assert_eq!(rt; pending.take(), Some(Some(4)));
    Ok(())
}

/// An absent slot is taken by the call for it, and a present one stays.
#[test]
fn absent_slots_are_taken(rt: HostRuntime) -> Result<(), Fail> {
    let mut pending: Pending<u8> = Pending::new(rt.alloc());
    pending.put_all([None, Some(1)].to_vec(rt.alloc())?)?;
    assert_eq!(rt; pending.take_absent(), Some(true));
    assert_eq!(rt; pending.take_absent(), Some(false));
    Ok(())
}

/// A closed frame gives its slots.
#[test]
fn a_frame_closes_as_its_slots(rt: HostRuntime) -> Result<(), Fail> {
    let mut frames: Frames<u8> = Frames::new(rt.alloc());
    frames.open()?;
    frames.add(None)?;
    frames.add(Some(2))?;
    assert_eq!(rt; frames.close()?.as_slice(), [None, Some(2)].as_slice());
    Ok(())
}

/// The root's frame closes as its last present slot, and is empty afterwards.
#[test]
fn the_root_closes_as_its_last_value(rt: HostRuntime) -> Result<(), Fail> {
    let mut frames: Frames<u8> = Frames::new(rt.alloc());
    frames.add(Some(1))?;
    frames.add(None)?;
    assert_eq!(rt; frames.close_last(), Some(1));
    assert_eq!(rt; frames.close_last(), None);
    Ok(())
}

/// A frame closes as the list of its present values: an absent slot is left out.
#[test]
fn a_frame_closes_as_a_list(rt: HostRuntime) -> Result<(), Fail> {
    let mut frames: Frames<u8> = Frames::new(rt.alloc());
    frames.open()?;
    frames.add(None)?;
    frames.add(Some(2))?;
    assert_eq!(rt; frames.close_list()?.as_slice(), [2].as_slice());
    Ok(())
}

/// A frame closes as its first slot.
#[test]
fn a_frame_closes_as_its_first_value(rt: HostRuntime) -> Result<(), Fail> {
    let mut frames: Frames<u8> = Frames::new(rt.alloc());
    frames.open()?;
    frames.add(Some(3))?;
    frames.add(Some(4))?;
    assert_eq!(rt; frames.close_first(), Some(3));
    Ok(())
}
