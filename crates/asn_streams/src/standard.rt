//! Makes a source of any reader of std, and a sink of any writer: standard input and output in
//! the program.
ghost use Rattle.std.specs.Prelude.{◌≡◌};

use crate::io::{Failed, Sink, Source};
use std::io::{Read, Write};

/// Reads from a reader of std. Each read is one call of the reader; each error of it, an
/// interruption too, is a fault.
#[derive(Drop)]
pub struct StdSource<R: Read> {
    /// Gives the bytes.
    reader: R,
    /// Counts the errors of the reader, up to 2^64 - 1.
    faults: u64,
}

/// Makes a source of a reader.
impl<R: Read> StdSource<R> {
    /// Returns a source of the reader's bytes, with no fault so far.
    pub fn new(reader: R) -> StdSource<R>
        ensures { result ≡ record { reader = reader; faults = 0 } }
    {
        StdSource { reader, faults: 0 }
    }
}

/// Passes each call on, and lets contracts see the bytes that std's contract of the reader does.
impl<R: Read> Source for StdSource<R> {
    ghost left = { λ s. R.remaining s.reader };

    ghost faults = { λ s. s.faults };

    fn read(&mut self, into: &mut [u8]) -> Result<usize, Failed> {
        match self.reader.read(into) {
            Ok(count) => Ok(count),
            // Which error it was is not kept: no status depends on it.
            Err(_) => {
                self.faults = self.faults.saturating_add(1);
                Err(Failed)
            }
        }
    }
}

/// Writes to a writer of std. Each write is one call of the writer; each error of it, and each
/// write that takes none of a slice that is not empty, is a fault.
#[derive(Drop)]
pub struct StdSink<W: Write> {
    /// Takes the bytes.
    writer: W,
    /// Counts the errors of the writer and its writes of nothing, up to 2^64 - 1.
    faults: u64,
}

/// Makes a sink of a writer.
impl<W: Write> StdSink<W> {
    /// Returns a sink to the writer, with no fault so far.
    pub fn new(writer: W) -> StdSink<W>
        ensures { result ≡ record { writer = writer; faults = 0 } }
    {
        StdSink { writer, faults: 0 }
    }
}

/// Passes each call on, and lets contracts see the bytes that std's contract of the writer does.
impl<W: Write> Sink for StdSink<W> {
    ghost written = { λ s. W.contents s.writer };

    ghost faults = { λ s. s.faults };

    fn write(&mut self, from: &[u8]) -> Result<usize, Failed> {
        match self.writer.write(from) {
            Ok(count) if count > 0 || from.is_empty() => Ok(count),
            _ => {
                self.faults = self.faults.saturating_add(1);
                Err(Failed)
            }
        }
    }
}
