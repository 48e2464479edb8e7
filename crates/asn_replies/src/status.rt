//! Defines how a command ends.
ghost use Rattle.std.specs.Prelude.{◌≡◌};

/// States how a command ended. Its number is the exit status of the program.
#[derive(Clone, Copy, Debug, PartialEq, Eq, Drop)]
pub enum Status {
    /// What was asked for was written whole.
    Done,
    /// A value or a module was refused, and why was written whole.
    Refused,
    /// The command line is wrong.
    BadCommand,
    /// Reading failed.
    ReadFault,
    /// Writing failed, and a front part of what was due may be written.
    WriteFault,
    /// Memory ran out.
    WantOfMemory,
    /// A file, or a line of a stream, has more than 16,777,216 bytes.
    TooLong,
    /// A file is not UTF-8.
    NotText,
}

/// Gives the statuses their numbers.
impl Status {
    ghost use Rattle.asn_replies.specs.Status.{status_number};

    /// Returns the exit status, from 0 for `Done` to 7 for `NotText`.
    pub fn number(self) -> u8
        ensures { result ≡ status_number self }
    {
        match self {
            Status::Done => 0,
            Status::Refused => 1,
            Status::BadCommand => 2,
            Status::ReadFault => 3,
            Status::WriteFault => 4,
            Status::WantOfMemory => 5,
            Status::TooLong => 6,
            Status::NotText => 7,
        }
    }
}
