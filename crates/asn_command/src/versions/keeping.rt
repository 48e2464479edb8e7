//! Cuts a stream of texts of a newer version of a type to what an older one knows.
ghost use Rattle.asn_command.specs.versions.Keeping.{IsLineKept};
ghost use Rattle.asn_model.specs.ShapeView.{shape_view};
ghost use Rattle.std.specs.Prelude.{◌≡◌, IfOk};

use crate::versions::pair::Versions;
use asn_core::{Codec, OutOfMemory};
use asn_filter::cut;
use asn_lines::{LineReply, LineWork};
use asn_replies::with_feed;
use asn_value_refusals::{Origin, not_text_line, refusal_lines};
use simdutf8::basic::from_utf8;
use std::alloc::Global;

/// Cuts lines of a stream, each a text of the newer version of a type.
#[derive(Drop)]
pub struct KeepLines<'a> {
    /// Names the notation of the lines.
    from: Codec,
    /// Are the two versions.
    versions: &'a Versions,
    /// Is the name of the file that the stream is.
    file: &'a str,
}

impl<'a> KeepLines<'a> {
    /// Returns the work that cuts lines of the file so.
    pub fn new(from: Codec, versions: &'a Versions, file: &'a str) -> KeepLines<'a>
        ensures from { result.from ≡ from }
        ensures versions { result.versions ≡ versions.entry }
        ensures file { result.file ≡ file.entry }
    {
        KeepLines {
            from,
            versions,
            file,
        }
    }
}

/// Answers a line by the JSON text of what the older version knows of its value, or refuses it
/// after the name of the file and its number.
impl LineWork for KeepLines<'_> {
    ghost answers = { λ work number line reply. IsLineKept work.from
        (shape_view work.versions.now.older) (shape_view work.versions.now.newer)
        work.file number line reply };

    fn answer(&self, alloc: Global, number: u64, line: &[u8]) -> Result<LineReply, OutOfMemory> {
        let origin = Origin {
            file: self.file,
            line: Some(number),
        };
        let Ok(text) = from_utf8(line) else {
            return Ok(LineReply::Refusal(not_text_line(alloc, origin)?));
        };
        let versions = self.versions;
        match cut(alloc, self.from, &versions.older, &versions.newer, text)? {
            Ok(kept) => Ok(LineReply::Answer(with_feed(kept)?)),
            Err(fault) => {
                let lines = refusal_lines(alloc, origin, text, &fault, false)?;
                Ok(LineReply::Refusal(lines))
            }
        }
    }
}
