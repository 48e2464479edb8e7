//! Keeps a value of the ASN.1 value notation (X.680) as a flat list of nodes in preorder, and
//! prints it from there.
#![tactic(auto)]

mod digits;
mod node_kind;
mod nodes;
mod print_nodes;
pub mod print_parts;

pub use node_kind::NodeKind;
pub use nodes::Nodes;
