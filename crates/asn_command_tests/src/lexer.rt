//! Tests the splitting of modules into tokens by direct calls: examples of X.680, hostile texts,
//! and that calls succeed where there is memory.

mod texts;
