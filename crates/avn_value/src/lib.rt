//! Reads and prints values of the ASN.1 value notation (X.680), as owned values (`AvnValue`) and as
//! tables of nodes (`NodeTable`), and gives their normal form.
#![tactic(auto)]

mod brace_items;
mod clone;
mod fault;
mod node_table;
mod normal;
mod parse;
mod print;
mod put;
mod quoted;
mod text;
mod token;
mod value;
mod well_formed;

pub use avn_grammar::laws::larger_limit_reads;
pub use avn_grammar::limits::{GREATEST_LEVEL_LIMIT, LEVEL_LIMIT};
pub use avn_nodes::NodeKind;
pub use node_table::NodeTable;
pub use text::{parse_avn, parse_scan, parse_scan_within};
pub use value::AvnValue;
