//! Defines what a command comes to: a text for standard output, or the lines by which it is refused
//! for standard error, and the exit status. Reads the text of a file whole, and writes what a
//! command comes to.
#![tactic(auto)]

mod delivery;
mod feed;
mod naming;
mod read;
mod reply;
mod status;

pub use delivery::deliver;
pub use feed::with_feed;
pub use naming::missing_reply;
pub use read::{Unread, read_module_text, read_text, unread_reply};
pub use reply::Reply;
pub use status::Status;
