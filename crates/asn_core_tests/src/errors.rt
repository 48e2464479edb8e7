//! Tests the text of each kind of error by tables of kinds, and by a test for each kind that holds
//! another error or a list of tags; and chains of errors. The texts follow those of the crate
//! `rasn` 0.30.0, with texts and numbers in place of foreign errors; that of memory is the
//! library's own.

mod chains;
mod checks;
mod codec_kinds;
mod constraints;
mod decode_kinds;
mod encode_kinds;
