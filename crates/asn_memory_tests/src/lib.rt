//! Tests the program over a source and a sink that never fail, and over some that do, and what is
//! answered and what is left where memory is refused. There is nothing here but tests; a script
//! refuses one allocation after the other (`tools/refused_memory.sh`).
#![tactic(auto)]

#[cfg(test)]
mod faults;
#[cfg(test)]
mod pieces;
#[cfg(test)]
mod program;
#[cfg(test)]
mod requests;
#[cfg(test)]
mod values;
