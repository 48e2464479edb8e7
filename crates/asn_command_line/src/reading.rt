//! Reads a command line.
ghost use Rattle.std.specs.Prelude.{◌≡◌, ◌≢◌, ◌⊎◌, IfOk};
ghost use Rattle.asn_command_line.specs.Taken.{HasTextNotations};
ghost use Rattle.clap.specs.Words.{kind_of};

use crate::asked::{Asked, Untaken, taken};
use crate::commands::command_line;
use clap::Error;
use clap::error::ErrorKind;
use std::alloc::{AllocError, Global};
use std::convert::AsStr;

/// Is told where a conversion has no notation to read by.
const NO_NOTATION: &str = "error: the name of the file doesn't tell the notation of its text\n\n  \
    tip: give --from jer or --from avn\n\nFor more information, try '--help'.\n";

/// States why a command line asks for nothing.
#[derive(Debug, Drop)]
pub enum Unasked {
    /// Help or the version is asked for. Holds the text of it, for standard output.
    Help(String),
    /// The words are wrong. Holds why and how they should be, for standard error.
    Usage(String),
    /// Memory ran out.
    OutOfMemory,
}

/// Makes `?` turn a refusal of memory into `OutOfMemory`.
impl From<AllocError> for Unasked {
    fn from(_error: AllocError) -> Unasked {
        Unasked::OutOfMemory
    }
}

/// Returns what the words of a command line ask for, of which the first is the name of the program.
///
/// # Errors
///
/// `Help` where help or the version is asked for, `Usage` where the words are none that the program
/// knows, `OutOfMemory`.
pub fn read_command_line<'a, S: AsStr>(alloc: Global, words: &'a [S]) -> Result<Asked<'a>, Unasked>
    ensures { IfOk result HasTextNotations }
{
    let matches = match command_line(alloc)?.try_get_matches_from(words) {
        Ok(matches) => matches,
        Err(error) => return Err(refusal(alloc, &error)),
    };
    let Some((name, found)) = matches.subcommand() else {
        return Err(no_notation(alloc));
    };
    match taken(alloc, name, found) {
        Ok(asked) => Ok(asked),
        Err(Untaken::Missing) => Err(no_notation(alloc)),
        Err(Untaken::OutOfMemory) => Err(Unasked::OutOfMemory),
    }
}

/// Returns the refusal that an error of `clap` states.
fn refusal(alloc: Global, error: &Error) -> Unasked
    ensures help { (text : _) → result ≡ Unasked.Help text
        → (kind_of error.now ≡ ErrorKind.DisplayHelp)
        ⊎ (kind_of error.now ≡ ErrorKind.DisplayVersion) }
    ensures usage { (text : _) → result ≡ Unasked.Usage text
        → (kind_of error.now ≢ ErrorKind.DisplayHelp)
        × (kind_of error.now ≢ ErrorKind.DisplayVersion) }
{
    if error.kind() == ErrorKind::OutOfMemory {
        return Unasked::OutOfMemory;
    }
    match error.to_string(alloc) {
        Ok(text) if error.use_stderr() => Unasked::Usage(text),
        Ok(text) => Unasked::Help(text),
        Err(_) => Unasked::OutOfMemory,
    }
}

/// Returns the refusal of a conversion that has no notation to read by.
fn no_notation(alloc: Global) -> Unasked {
    match String::from_str(alloc, NO_NOTATION) {
        Ok(text) => Unasked::Usage(text),
        Err(_) => Unasked::OutOfMemory,
    }
}
