//! Makes the lines that say why the text of a value isn't converted: the file, the line and column
//! where the text itself is at fault, the way to what is refused, and the reason.
#![tactic(auto)]

mod fault;
mod lines;
mod origin;
mod shown;

pub use lines::refusal_lines;
pub use origin::{Origin, not_text_line, origin_of};
