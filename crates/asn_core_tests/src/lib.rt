//! Tests what the notations stand on by direct calls, and shows what no contract states: that calls
//! succeed where there is memory. There are the plain types of `asn_core` and the slots that a
//! codec keeps, the texts of errors, and the values of AVN with their printer and parser.
#![tactic(auto)]

#[cfg(test)]
mod avn;
#[cfg(test)]
mod errors;
#[cfg(test)]
mod plain_types;
#[cfg(test)]
mod slots;
