//! Reports on the module that a text stands for: its printed text, and whether one of its types is
//! a later version of another.
#![tactic(auto)]

mod reply;
mod report;

pub use reply::{Reply, growth_reply, printing_reply};
pub use report::{growth_report, printed_module};
