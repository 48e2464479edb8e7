//! Tests the values of AVN, their printer and their parser, by direct calls, and shows what no
//! contract states: that calls succeed where there is memory. The texts are written by the rules of
//! X.680, as far as the crate `rasn` 0.30.0 reads them, and in its layout: a line for each field
//! and item, indented by two spaces a level.

mod depth;
mod kinds;
mod texts;
mod values;
