//! Reads the command line of the program `asn`: which command it is, with which files, type and
//! notations. What is no command line of it, or asks for help, is told by the text to print.
#![tactic(auto)]

mod asked;
mod commands;
mod completions;
mod notations;
mod reading;

pub use asked::Asked;
pub use completions::BASH_COMPLETIONS;
pub use notations::{codec_of, codec_of_file};
pub use reading::{Unasked, read_command_line};
