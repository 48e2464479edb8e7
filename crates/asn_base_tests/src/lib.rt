//! Tests the plain types, the character strings, the times and the multisets by examples. There is
//! nothing here but tests: they stand apart from the crates that they test, so that these are
//! proved once and not once more with their tests.
#![tactic(auto)]

#[cfg(test)]
mod alphabets;
#[cfg(test)]
mod checks;
#[cfg(test)]
mod plain_types;
#[cfg(test)]
mod sets;
#[cfg(test)]
mod times;
