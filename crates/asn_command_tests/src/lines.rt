//! Tests runs over lines: what is written for which lines in pieces of each length, and after each
//! read or write that fails.

mod capitals;
mod faults;
mod lines;
