//! Goes over a stream line by line in the memory of one line: each line is answered or refused, and
//! its answer is written before the next piece of the input is read. What a line comes to is up to
//! the caller's `LineWork`, and so is whether it is text.
#![tactic(auto)]

mod gathered;
mod limits;
mod parting;
mod run;
mod work;

pub use limits::{MOST_LINES, stated_line_limit};
pub use run::{LinesEnd, run_lines};
pub use work::{LineReply, LineWork, NoProgress, Progress};
