//! Compares pairs of shapes that differ in one thing, makes values that have no Rust type of their
//! own, and shows what no contract states: that the calls succeed where there is memory.

mod builders;
mod checks;
mod large;
mod nested;
mod reasons;
mod values;
