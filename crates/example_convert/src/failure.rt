//! Defines why the program gives no text, with the line and the exit status of each.
use asn::TranscodeError;
use std::io;
use thiserror::Error;

/// States why the program gives no text.
#[derive(Debug, Drop, Error)]
pub enum Failure {
    /// The command line is another one.
    #[error("usage: example_convert jer|avn [FILE]")]
    Usage,
    /// The text can't be read from its file or from standard input, or isn't UTF-8.
    #[error("reading failed: {0}")]
    Read(io::Error),
    /// The text is of no alarm, or the alarm can't be written in the other notation.
    #[error("refused: {0}")]
    Refused(TranscodeError),
    /// The text can't be written.
    #[error("writing failed: {0}")]
    Write(io::Error),
}

impl Failure {
    /// Returns the exit status.
    pub fn status(&self) -> u8 {
        match self {
            Failure::Refused(_) => 1,
            Failure::Usage => 2,
            Failure::Read(_) => 3,
            Failure::Write(_) => 4,
        }
    }
}
