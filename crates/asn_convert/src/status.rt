//! Defines how a run of the program ends.
ghost use Rattle.std.specs.Prelude.{◌≡◌};

/// States how a run ended. Its number is the exit status of the program.
#[derive(Clone, Copy, Debug, PartialEq, Eq, Drop)]
pub enum Status {
    /// What the request asks for was written whole.
    Done,
    /// The text was refused, or lines of it, and why was written whole.
    Refused,
    /// The first line is no request, or it is one to make a document and a text follows.
    BadRequest,
    /// Reading failed.
    ReadFault,
    /// Writing failed, and a front part of what was due may be written.
    WriteFault,
    /// Memory ran out, and nothing was written.
    WantOfMemory,
    /// The input has more than 16,777,216 bytes.
    TooLong,
    /// The input is not UTF-8.
    NotText,
}

/// Gives the statuses their numbers.
impl Status {
    ghost use Rattle.asn_convert.specs.Status.{status_number};

    /// Returns the exit status, from 0 for `Done` to 7 for `NotText`.
    pub fn number(&self) -> u8
        ensures { result ≡ status_number self.now }
    {
        match self {
            Status::Done => 0,
            Status::Refused => 1,
            Status::BadRequest => 2,
            Status::ReadFault => 3,
            Status::WriteFault => 4,
            Status::WantOfMemory => 5,
            Status::TooLong => 6,
            Status::NotText => 7,
        }
    }
}
