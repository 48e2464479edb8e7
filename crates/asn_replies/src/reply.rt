//! Defines what a command comes to.
use crate::status::Status;

/// Is what a command comes to, before it is written.
#[derive(Debug, Drop)]
pub enum Reply {
    /// Holds what was asked for, as lines for standard output. The status is `Done`.
    Answer(String),
    /// Says why it isn't done.
    Refusal {
        /// Is the exit status.
        status: Status,
        /// Holds the lines for standard error.
        line: String,
    },
}

/// Makes refusals.
impl Reply {
    ghost use Rattle.asn_replies.specs.declared.reply.Reply.TheVariants as reply;
    ghost use Rattle.asn_replies.specs.declared.status.Status.TheVariants as status;
    ghost use Rattle.std.specs.Prelude.{◌≡◌};

    /// Returns the refusal of a value or a module by these lines.
    pub fn refused(line: String) -> Reply
        ensures { result ≡ reply.Refusal status.Refused line }
    {
        Reply::Refusal {
            status: Status::Refused,
            line,
        }
    }
}
