//! Joins the two text notations: encodes and decodes by the name of a codec, and converts a text
//! from one notation to the other. What each notation does is `jer_rules` and `avn_rules`; this
//! crate chooses between them, and states their contracts under one definition of each word. Binary
//! codecs go by the rules that a caller hands in.
#![tactic(auto)]

mod binary_rules;
mod calls;
mod conversion;
mod refusals;

pub use avn_grammar::limits::{GREATEST_LEVEL_LIMIT, LEVEL_LIMIT};
pub use binary_rules::{BinaryRules, NoRules};
pub use calls::CodecCalls;
pub use conversion::{TranscodeError, transcode, transcode_within, values_of_json_can_be_written};
pub use refusals::{no_text_decoded, no_text_encoded};
