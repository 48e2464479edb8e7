//! Tests by direct calls what the command `asn` stands on, where no text that is given to it shows
//! it: the tokens of modules, runs over lines, command lines, streams and whole files of which a
//! read or a write fails, the calls on published modules that their page shows, and what is shown
//! of types that name each other by number.
#![tactic(auto)]

#[cfg(test)]
mod command_line;
#[cfg(test)]
mod example;
#[cfg(test)]
mod lexer;
#[cfg(test)]
mod lines;
#[cfg(test)]
mod linked;
#[cfg(test)]
mod streams;
