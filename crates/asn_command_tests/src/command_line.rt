//! Tests command lines: what they ask for, and what is reported of those that ask for nothing.

mod words;
