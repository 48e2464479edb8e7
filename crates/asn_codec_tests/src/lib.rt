//! Tests the codecs by direct calls, and shows what no contract states: that calls succeed where
//! there is memory. There is nothing here but tests, a file for each part of the library. Contracts
//! are proved for every input, so a test has one input of a kind, or one at each edge.
#![tactic(auto)]

#[cfg(test)]
mod avn_texts;
#[cfg(test)]
mod binary;
#[cfg(test)]
mod checks;
#[cfg(test)]
mod codecs;
#[cfg(test)]
mod example;
#[cfg(test)]
mod integers;
#[cfg(test)]
mod json;
#[cfg(test)]
mod named_calls;
#[cfg(test)]
mod octets;
#[cfg(test)]
mod texts;
#[cfg(test)]
mod wide;
