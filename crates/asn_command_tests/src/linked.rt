//! Tests types that name each other by number, by direct calls, and shows what no contract states:
//! that types which are meant to be read are reported so.

mod kinds;
mod lists;
mod samples;
