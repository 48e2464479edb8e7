//! Tests the sample types, and the calls of both codecs that take one, by direct calls; and what no
//! contract sees: which tag, constraints and identifier the default calls of `Encode` and `Decode`
//! hand to a type's own call, and the constants that no contract can name. There is nothing here
//! but tests; others of the codecs stand in `asn_codec_tests`.
#![tactic(auto)]

#[cfg(test)]
mod by_hand;
#[cfg(test)]
mod calls;
#[cfg(test)]
mod checks;
#[cfg(test)]
mod constants;
#[cfg(test)]
mod handed;
#[cfg(test)]
mod samples;
#[cfg(test)]
mod shapes;
#[cfg(test)]
mod tables;
