//! Implements sources and sinks in memory: two that never fail, and two that fail at the calls
//! that a list names, give and take small pieces, and run out of room. Tests run the whole
//! program over them, and contracts state exactly which call fails.
ghost use Rattle.std.specs.Prelude.{◌≡◌, ◌≤◌, ◌<◌, ◌+◌, ◌-◌, ◌^◌, ◌↔◌, ◌⊎◌, [], length, min, Some, Ok};
ghost use Rattle.std.specs.Prelude.{None, vec_len, vec_capacity, IfOk, IsErr, IsTrue, Contains};
ghost use Rattle.std.specs.Io.{ReadsAtMost, WritesAtMost};
ghost use Rattle.std.specs.Io.KnownBytes.{ReadConsumes, WriteAppends};
ghost use Rattle.asn_streams.specs.Faults.{HasCause, next_count};

use crate::io::{Failed, Sink, Source};
use asn_core::OutOfMemory;
use std::alloc::Global;

/// Gives its bytes, as many as the slice takes, and never fails.
#[derive(Drop)]
pub struct SteadySource {
    /// Holds all bytes, those given included.
    bytes: Vec<u8>,
    /// Counts the bytes that were given.
    at: usize,
    /// No more bytes were given than there are.
    ghost within: { at ≤ vec_len bytes },
}

/// Makes a source of bytes.
impl SteadySource {
    ghost use Rattle.asn_streams.specs.Memory.{bytes_left};

    /// Returns a source that has all of the bytes left.
    pub fn new(bytes: Vec<u8>) -> SteadySource
        ensures { bytes_left result ≡ bytes.items }
    {
        SteadySource { bytes, at: 0 }
    }
}

/// Copies bytes from `at` on, and lets contracts see those that are left.
impl Source for SteadySource {
    ghost use Rattle.asn_streams.specs.Memory.{bytes_left};

    ghost left = { λ s. Some (bytes_left s) };

    ghost faults = { λ _. 0 };

    fn read(&mut self, into: &mut [u8]) -> Result<usize, Failed>
        ensures bound { ReadsAtMost result into.new }
        ensures bytes { ReadConsumes (Some (bytes_left self.old)) (Some (bytes_left self.new))
            result into.new }
        ensures cause { HasCause 0 0 result }
        ensures steady { result ≡ Ok (min (length into.new) (length (bytes_left self.old))) }
    {
        // The copy is as long as the shorter of the two, and 0 at the end or for an empty slice.
        let left = &self.bytes[self.at..];
        let count = into.len().min(left.len());
        into[..count].copy_from_slice(&left[..count]);
        self.at += count;
        Ok(count)
    }
}

/// Takes every piece whole and forgets it, lets contracts see no bytes, and never fails.
#[derive(Drop)]
pub struct SteadySink;

/// Makes such a sink.
impl SteadySink {
    ghost use Rattle.asn_streams.specs.declared.memory.SteadySink.{SteadySink};

    /// Returns a sink that has one state alone, which no write changes.
    pub fn new() -> SteadySink
        ensures { (sink : SteadySink) → result ≡ sink }
    {
        SteadySink
    }
}

/// Takes the length of each slice.
impl Sink for SteadySink {
    ghost written = { λ _. None };

    ghost faults = { λ _. 0 };

    fn write(&mut self, from: &[u8]) -> Result<usize, Failed>
        ensures bound { WritesAtMost result from.now }
        ensures bytes { WriteAppends None None result from.now }
        ensures moves { IfOk result (λ n. 0 < length from.now → 0 < n) }
        ensures cause { HasCause 0 0 result }
        ensures whole { result ≡ Ok (length from.now) }
    {
        Ok(from.len())
    }
}

/// Counts calls and faults, and lists the numbers of the calls that are to fail.
#[derive(Drop)]
struct Calls {
    /// Counts the calls that were made, up to 2^64 - 1.
    made: u64,
    /// Counts those that failed, up to 2^64 - 1.
    faults: u64,
    /// Lists the numbers of the calls that are to fail, counted from 1, in any order.
    failing: Vec<u64>,
}

/// Counts the calls of a source or a sink.
impl Calls {
    ghost use Rattle.asn_streams.specs.Calls.{IsToFail, next_number};

    /// Returns the state before the first call.
    fn new(failing: Vec<u64>) -> Calls
        ensures { result ≡ record { made = 0; faults = 0; failing = failing } }
    {
        Calls {
            made: 0,
            faults: 0,
            failing,
        }
    }

    /// Counts a call, and returns whether it is to fail.
    fn next_fails(&mut self) -> bool
        ensures made { self.new ≡ record self.old { made = next_number self.old } }
        ensures value { IsTrue result ↔ IsToFail self.old }
    {
        self.made = self.made.saturating_add(1);
        self.failing.contains(&self.made)
    }

    /// Counts a fault, and returns the error for it.
    fn fail(&mut self) -> Failed
        ensures counted { self.new ≡ record self.old { faults = next_count self.old.faults } }
        ensures later { self.old.faults ≤ self.new.faults }
    {
        self.faults = self.faults.saturating_add(1);
        Failed
    }
}

/// Gives its bytes, at most `piece` of them per call. A call fails exactly where its number,
/// counted from 1, is listed.
#[derive(Drop)]
pub struct MemorySource {
    /// Holds the bytes and the place among them.
    bytes: SteadySource,
    /// Limits the bytes of one call.
    piece: usize,
    /// Counts calls, and lists those that are to fail.
    calls: Calls,
    /// A call that doesn't fail gives a byte, if one is left.
    ghost gives: { 0 < piece },
}

/// Makes a source of bytes that fails at the listed calls.
impl MemorySource {
    ghost use Rattle.asn_streams.specs.Memory.{bytes_left};

    /// Returns a source that has all of the bytes left, and of which no call was made.
    pub fn new(bytes: Vec<u8>, piece: usize, failing: Vec<u64>) -> MemorySource
        requires { 0 < piece }
        ensures left { bytes_left result.bytes ≡ bytes.items }
        ensures piece { result.piece ≡ piece }
        ensures failing { result.calls ≡ record { made = 0; faults = 0; failing = failing } }
    {
        MemorySource {
            bytes: SteadySource::new(bytes),
            piece,
            calls: Calls::new(failing),
        }
    }
}

/// Gives bytes as `SteadySource` does, in pieces, unless the call is to fail. The clauses after
/// the trait's three state exactly when a call fails (`fails`), how much it gives (`gives`), and
/// what it leaves for the next one (`piece`, `calls`).
impl Source for MemorySource {
    ghost use Rattle.asn_streams.specs.Memory.{bytes_left};
    ghost use Rattle.asn_streams.specs.Calls.{IsToFail, calls_after};

    ghost left = { λ s. Some (bytes_left s.bytes) };

    ghost faults = { λ s. s.calls.faults };

    fn read(&mut self, into: &mut [u8]) -> Result<usize, Failed>
        ensures bound { ReadsAtMost result into.new }
        ensures bytes { ReadConsumes (Some (bytes_left self.old.bytes))
            (Some (bytes_left self.new.bytes)) result into.new }
        ensures cause { HasCause self.old.calls.faults self.new.calls.faults result }
        ensures fails { IsErr result ↔ IsToFail self.old.calls }
        ensures gives { IfOk result (λ n. n ≡ min (min (length into.new) self.old.piece)
            (length (bytes_left self.old.bytes))) }
        ensures piece { self.new.piece ≡ self.old.piece }
        ensures calls { self.new.calls ≡ calls_after self.old.calls result }
    {
        // A call that fails takes nothing, so the next one goes on at the same byte.
        if self.calls.next_fails() {
            return Err(self.calls.fail());
        }
        let count = into.len().min(self.piece);
        self.bytes.read(&mut into[..count])
    }
}

/// Takes bytes as far as its room goes, at most `piece` of them per call. A call fails exactly
/// where its number, counted from 1, is listed, or where its slice is not empty and no room is
/// left.
#[derive(Drop)]
pub struct MemorySink {
    /// Holds what was written.
    bytes: Vec<u8>,
    /// Limits the bytes that are ever taken.
    room: usize,
    /// Limits the bytes of one call.
    piece: usize,
    /// Counts calls, and lists those that are to fail.
    calls: Calls,
    /// No more was written than there is room for.
    ghost within: { vec_len bytes ≤ room },
    /// Memory for all of the room is there from the start.
    ghost reserved: { room ≤ vec_capacity bytes },
    /// A call that doesn't fail takes a byte, if one is given and there is room.
    ghost takes: { 0 < piece },
}

/// Makes a sink with room for a number of bytes, and shows what it was given.
impl MemorySink {
    /// Returns a sink to which nothing is written, and of which no call was made. Memory for `room`
    /// bytes is taken here and none later.
    ///
    /// # Errors
    ///
    /// `OutOfMemory` alone.
    pub fn new(
        alloc: Global,
        room: usize,
        piece: usize,
        failing: Vec<u64>,
    ) -> Result<MemorySink, OutOfMemory>
        requires { 0 < piece }
        ensures empty { IfOk result (λ s. s.bytes.items ≡ []) }
        ensures room { IfOk result (λ s. s.room ≡ room) }
        ensures piece { IfOk result (λ s. s.piece ≡ piece) }
        ensures failing { IfOk result
            (λ s. s.calls ≡ record { made = 0; faults = 0; failing = failing }) }
    {
        let bytes = Vec::with_capacity(alloc, room)?;
        Ok(MemorySink {
            bytes,
            room,
            piece,
            calls: Calls::new(failing),
        })
    }

    /// Returns what was written.
    pub fn bytes(&self) -> &[u8]
        ensures { result.now ≡ self.now.bytes.items }
    {
        &self.bytes
    }
}

/// Takes bytes into the room that is left, unless the call is to fail. The clauses after the
/// trait's four state exactly when a call fails (`fails`), how much it takes (`takes`), and what it
/// leaves for the next one (`piece`, `room`, `calls`).
impl Sink for MemorySink {
    ghost use Rattle.asn_streams.specs.Calls.{IsToFail, calls_after};

    ghost written = { λ s. Some s.bytes.items };

    ghost faults = { λ s. s.calls.faults };

    fn write(&mut self, from: &[u8]) -> Result<usize, Failed>
        ensures bound { WritesAtMost result from.now }
        ensures bytes { WriteAppends (Some self.old.bytes.items) (Some self.new.bytes.items)
            result from.now }
        ensures moves { IfOk result (λ n. 0 < length from.now → 0 < n) }
        ensures cause { HasCause self.old.calls.faults self.new.calls.faults result }
        ensures fails { IsErr result ↔ (IsToFail self.old.calls
            ⊎ (0 < length from.now × (self.old.room ≡ vec_len self.old.bytes))) }
        ensures takes { IfOk result (λ n. n ≡ min (min (length from.now) self.old.piece)
            (self.old.room - vec_len self.old.bytes)) }
        ensures piece { self.new.piece ≡ self.old.piece }
        ensures room { self.new.room ≡ self.old.room }
        ensures calls { self.new.calls ≡ calls_after self.old.calls result }
    {
        // Without room a write fails, and doesn't take 0 bytes, which a caller might try for ever.
        let room = self.room - self.bytes.len();
        let full = room == 0 && !from.is_empty();
        if self.calls.next_fails() || full {
            return Err(self.calls.fail());
        }
        let count = from.len().min(self.piece).min(room);
        // `count` is at most the room that is left, for which there is memory by `reserved`.
        match self.bytes.extend_from_slice(&from[..count]) {
            Ok(()) => Ok(count),
            Err(_) => unreachable!(),
        }
    }
}
