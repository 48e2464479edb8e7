//! Defines what is done with each line, and who is shown how far a run is.
ghost use Rattle.std.specs.Prelude.{ℕ, List, IfOk};
ghost use Rattle.asn_lines.specs.declared.work.LineReply.{LineReply};

use asn_core::OutOfMemory;
use std::alloc::Global;

/// Holds what a line comes to, whole, with its line feeds.
#[derive(Debug, Drop)]
pub enum LineReply {
    /// Holds what is written to the output.
    Answer(String),
    /// Holds what is written to the errors, where the line is refused.
    Refusal(String),
}

/// Answers lines, one at a time.
pub trait LineWork {
    /// Relates the number of a line, counted from 1, and its bytes without the line feed to what it
    /// comes to.
    ghost answers: { Self → ℕ → List ℕ → LineReply → Type 0 };

    /// Returns what the line of this number comes to. Its bytes may be no UTF-8, and a carriage
    /// return before the line feed is one of them.
    ///
    /// # Errors
    ///
    /// `OutOfMemory` alone.
    fn answer(&self, alloc: Global, number: u64, line: &[u8]) -> Result<LineReply, OutOfMemory>
        ensures { IfOk result (answers self.now number line.now) };
}

/// Is shown how far a run is.
pub trait Progress {
    /// Shows how many lines are answered, and how many of them are refused. It is called after what
    /// the lines of a piece come to is written, and changes nothing of the run.
    fn show(&mut self, lines: u64, refused: u64);
}

/// Shows nothing.
#[derive(Clone, Copy, Debug)]
pub struct NoProgress;

/// Drops what it is shown.
impl Progress for NoProgress {
    fn show(&mut self, _lines: u64, _refused: u64) {}
}
