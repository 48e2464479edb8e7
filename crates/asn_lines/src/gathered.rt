//! Gathers what the lines of a piece come to.
ghost use Rattle.std.specs.Prelude.{◌≤◌, vec_len};
ghost use Rattle.asn_lines.specs.Splits.{HasNoFeed};
ghost use Rattle.asn_lines.specs.declared.limits.TheConstants.{MOST_LINES};
ghost use Rattle.asn_streams.specs.Input.{input_limit};

use crate::limits::MOST_LINES;
use crate::parting::split_line;
use crate::work::{LineReply, LineWork};
use asn_core::OutOfMemory;
use asn_streams::{Failed, MOST_BYTES, Sink, write_all};
use std::alloc::{AllocError, Global};

/// States why no more lines are answered.
#[derive(Clone, Copy, Debug, PartialEq, Eq, Drop)]
pub enum Stop {
    /// There was no memory.
    OutOfMemory,
    /// The next line has more bytes than the limit, or a number above the limit.
    TooLong,
}

/// Makes `?` turn a work's refusal of memory into `OutOfMemory`.
impl From<OutOfMemory> for Stop {
    ghost use Rattle.std.specs.Prelude.{◌≡◌};
    ghost use Rattle.asn_lines.specs.declared.gathered.Stop.TheVariants.{OutOfMemory};

    ghost from_gives = { λ _ e. e ≡ OutOfMemory };

    fn from(_error: OutOfMemory) -> Stop {
        Stop::OutOfMemory
    }
}

/// Makes `?` turn a refusal of memory into `OutOfMemory`.
impl From<AllocError> for Stop {
    ghost use Rattle.std.specs.Prelude.{◌≡◌};
    ghost use Rattle.asn_lines.specs.declared.gathered.Stop.TheVariants.{OutOfMemory};

    ghost from_gives = { λ _ e. e ≡ OutOfMemory };

    fn from(_error: AllocError) -> Stop {
        Stop::OutOfMemory
    }
}

/// Holds the line that isn't whole yet, and what the lines before it came to.
#[derive(Drop)]
pub struct Gathered {
    /// Holds the bytes of the line that isn't whole yet.
    line: Vec<u8>,
    /// Counts the lines that were answered, from the first one of the input.
    lines: u64,
    /// Counts those of them that were refused.
    refused: u64,
    /// Holds the answers that aren't written yet.
    output: Vec<u8>,
    /// Holds the refusals that aren't written yet.
    errors: Vec<u8>,
    /// The line has no line feed.
    ghost plain: { HasNoFeed line.items },
    /// The line is within the limit.
    ghost short: { vec_len line ≤ input_limit },
    /// The number of the line is a `u64`.
    ghost few: { lines ≤ MOST_LINES },
    /// No more lines were refused than answered.
    ghost some: { refused ≤ lines },
}

/// Takes pieces, answers the lines in them, and writes the answers.
impl Gathered {
    ghost use Rattle.std.specs.Prelude.{◌≡◌, ◌<◌, ◌+◌, ◌++◌, ◌∷◌, [], length, ⊤};
    ghost use Rattle.std.specs.Prelude.{IsErrOf, OnErr, OnOk};
    ghost use Rattle.std.specs.Io.KnownBytes.{Appends};
    ghost use Rattle.asn_lines.specs.Gathering.{Gathers, Keeps, Stops, TakesEnd, TakesPiece};
    ghost use Rattle.asn_lines.specs.Splits.{IsPastLimit};
    ghost use Rattle.asn_lines.specs.Writing.{WritesBoth};
    ghost use Rattle.asn_streams.specs.Transfer.{transfer_of};

    /// Returns the state before the first byte.
    pub fn new(alloc: Global) -> Gathered
        ensures line { result.line.items ≡ [] }
        ensures lines { result.lines ≡ 0 }
        ensures refused { result.refused ≡ 0 }
        ensures output { result.output.items ≡ [] }
        ensures errors { result.errors.items ≡ [] }
    {
        Gathered {
            line: Vec::new(alloc),
            lines: 0,
            refused: 0,
            output: Vec::new(alloc),
            errors: Vec::new(alloc),
        }
    }

    /// Returns how many lines were answered.
    pub fn lines(&self) -> u64
        ensures { result ≡ self.now.lines }
    {
        self.lines
    }

    /// Returns how many of them were refused.
    pub fn refused(&self) -> u64
        ensures { result ≡ self.now.refused }
    {
        self.refused
    }

    /// Takes the next piece of the input, or its end where the piece is empty: answers each line
    /// that ends there.
    ///
    /// # Errors
    ///
    /// `TooLong` where a line is past the limits, `OutOfMemory`. The lines before it are answered.
    pub fn take<W: LineWork>(&mut self, alloc: Global, work: &W, piece: &[u8]) -> Result<(), Stop>
        ensures more { OnOk result (0 < length piece.now
            → TakesPiece (W.answers work.now) self.old self.new piece.now) }
        ensures end { OnOk result (length piece.now ≡ 0
            → TakesEnd (W.answers work.now) self.old self.new) }
        ensures early { OnErr result
            (Stops (W.answers work.now) self.old self.new piece.now (λ _ _. ⊤)) }
        ensures too_long { IsErrOf result Stop.TooLong
            → Stops (W.answers work.now) self.old self.new piece.now IsPastLimit }
    {
        if piece.is_empty() {
            self.take_end(alloc, work)
        } else {
            self.take_piece(alloc, work, piece)
        }
    }

    /// Answers each line that the piece ends, and keeps what stands after them.
    ///
    /// # Errors
    ///
    /// `TooLong` where a line is past the limits, `OutOfMemory`. The lines before it are answered.
    fn take_piece<W: LineWork>(&mut self, alloc: Global, work: &W, piece: &[u8]) -> Result<(), Stop>
        ensures taken { OnOk result
            (TakesPiece (W.answers work.now) self.old self.new piece.now) }
        ensures early { OnErr result
            (Stops (W.answers work.now) self.old self.new piece.now (λ _ _. ⊤)) }
        ensures too_long { IsErrOf result Stop.TooLong
            → Stops (W.answers work.now) self.old self.new piece.now IsPastLimit }
    {
        let mut rest = piece;
        'lines: while let Some((part, after)) = split_line(rest) {
            self.extend(part)?;
            self.end_line(alloc, work)?;
            rest = after;
        }
        self.extend(rest)
    }

    /// Answers the line that isn't whole as the last one, unless it is empty.
    ///
    /// # Errors
    ///
    /// `TooLong` where its number is past the limit, `OutOfMemory`.
    fn take_end<W: LineWork>(&mut self, alloc: Global, work: &W) -> Result<(), Stop>
        ensures taken { OnOk result (TakesEnd (W.answers work.now) self.old self.new) }
        ensures kept { OnErr result (Keeps self.old self.new) }
        ensures too_long { IsErrOf result Stop.TooLong
            → (self.old.lines ≡ MOST_LINES) × (0 < vec_len self.old.line) }
    {
        if self.line.is_empty() {
            return Ok(());
        }
        self.end_line(alloc, work)
    }

    /// Puts bytes without a line feed behind those of the line.
    ///
    /// # Errors
    ///
    /// `TooLong` where the line would have more bytes than the limit, `OutOfMemory`.
    fn extend(&mut self, part: &[u8]) -> Result<(), Stop>
        requires { HasNoFeed part.now }
        ensures line { OnOk result (self.new.line.items ≡ self.old.line.items ++ part.now) }
        ensures kept { Keeps self.old self.new }
        ensures too_long { IsErrOf result Stop.TooLong
            → input_limit < vec_len self.old.line + length part.now }
    {
        // The line is within the limit, so the subtraction doesn't go below 0.
        if part.len() > MOST_BYTES - self.line.len() {
            return Err(Stop::TooLong);
        }
        Ok(self.line.extend_from_slice(part)?)
    }

    /// Answers the line as a whole one, and begins the next one.
    ///
    /// # Errors
    ///
    /// `TooLong` where its number is past the limit, `OutOfMemory`.
    fn end_line<W: LineWork>(&mut self, alloc: Global, work: &W) -> Result<(), Stop>
        ensures gathers { OnOk result
            (Gathers (W.answers work.now) self.old self.new (self.old.line.items ∷ [])) }
        ensures empty { OnOk result (self.new.line.items ≡ []) }
        ensures kept { OnErr result (Keeps self.old self.new) }
        ensures too_long { IsErrOf result Stop.TooLong → self.old.lines ≡ MOST_LINES }
    {
        if self.lines == MOST_LINES {
            return Err(Stop::TooLong);
        }
        match work.answer(alloc, self.lines + 1, &self.line)? {
            LineReply::Answer(text) => self.output.extend_from_slice(text.as_bytes())?,
            LineReply::Refusal(text) => {
                self.errors.extend_from_slice(text.as_bytes())?;
                self.refused += 1;
            }
        }
        self.lines += 1;
        self.line.clear();
        Ok(())
    }

    /// Writes what was gathered, the answers first, and forgets it.
    ///
    /// # Errors
    ///
    /// `Failed` where a write failed, and then a front part of either is written.
    pub fn write_out<K: Sink, E: Sink>(
        &mut self,
        output: &mut K,
        errors: &mut E,
    ) -> Result<(), Failed>
        ensures written { WritesBoth self.old.output.items self.old.errors.items
            (transfer_of K.written K.faults output.old output.new)
            (transfer_of E.written E.faults errors.old errors.new) result }
        ensures line { OnOk result (self.new.line.items ≡ self.old.line.items) }
        ensures lines { OnOk result (self.new.lines ≡ self.old.lines) }
        ensures refused { OnOk result (self.new.refused ≡ self.old.refused) }
        ensures no_output { OnOk result (self.new.output.items ≡ []) }
        ensures no_errors { OnOk result (self.new.errors.items ≡ []) }
    {
        write_all(output, &self.output)?;
        write_all(errors, &self.errors)?;
        self.output.clear();
        self.errors.clear();
        Ok(())
    }
}
