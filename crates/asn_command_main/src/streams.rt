//! Converts files and streams.
ghost use Rattle.asn_model.specs.Readable.{is_readable};
ghost use Rattle.std.specs.Prelude.{◌≡◌, [], true};

use crate::files::Ended;
use crate::progress::Meter;
use asn_command::{Conversion, ConvertLines, answer_lines, convert_whole};
use asn_dynamic::Part;
use asn_lines::LineWork;
use asn_replies::{Status, Unread, deliver, unread_reply};
use asn_streams::{Source, StdSink, StdSource};
use std::fs;

/// States which file is worked through, and how.
#[derive(Clone, Copy)]
pub struct Stream<'a> {
    /// Is the name of the file; `-` is standard input.
    pub file: &'a str,
    /// States whether each line is a text of its own.
    pub lines: bool,
    /// States whether to show how far it is.
    pub progress: bool,
}

/// Writes a reply.
pub fn write(rt: &HostRuntime, reply: Ended) -> Status {
    deliver(
        reply,
        &mut StdSink::new(rt.stdout()),
        &mut StdSink::new(rt.stderr()),
    )
}

/// Says that the file can't be read.
fn unread(rt: &HostRuntime, file: &str) -> Status {
    write(rt, unread_reply(rt.alloc(), file, Unread::Fault))
}

/// Answers each line of the source.
fn work_from<S: Source, W: LineWork>(
    rt: &HostRuntime,
    work: &W,
    stream: Stream<'_>,
    source: &mut S,
) -> Status {
    let ended = answer_lines(
        rt.alloc(),
        work,
        stream.file,
        source,
        &mut StdSink::new(rt.stdout()),
        &mut StdSink::new(rt.stderr()),
        &mut Meter::new(rt, stream.progress),
    );
    match ended {
        Ok(status) => status,
        Err(unread) => write(rt, unread),
    }
}

/// Answers each line of the file.
pub fn work_through<W: LineWork>(rt: &HostRuntime, work: &W, stream: Stream<'_>) -> Status {
    if stream.file == "-" {
        return work_from(rt, work, stream, &mut StdSource::new(rt.stdin()));
    }
    match fs::open(rt, stream.file) {
        Ok(file) => work_from(rt, work, stream, &mut StdSource::new(file)),
        Err(_fault) => unread(rt, stream.file),
    }
}

/// Converts the text of the source whole.
fn convert_from<P: Part, S: Source>(
    rt: &HostRuntime,
    conversion: Conversion<P>,
    file: &str,
    source: &mut S,
) -> Status
    requires { is_readable (P.shape [] conversion.part) ≡ true }
{
    convert_whole(
        rt.alloc(),
        conversion,
        file,
        source,
        &mut StdSink::new(rt.stdout()),
        &mut StdSink::new(rt.stderr()),
    )
}

/// Converts the file, whole or line by line.
pub fn convert<P: Part>(rt: &HostRuntime, conversion: Conversion<P>, stream: Stream<'_>) -> Status
    requires { is_readable (P.shape [] conversion.part) ≡ true }
{
    let file = stream.file;
    if stream.lines {
        return work_through(rt, &ConvertLines::new(conversion, file), stream);
    }
    if file == "-" {
        return convert_from(rt, conversion, file, &mut StdSource::new(rt.stdin()));
    }
    match fs::open(rt, file) {
        Ok(opened) => convert_from(rt, conversion, file, &mut StdSource::new(opened)),
        Err(_fault) => unread(rt, file),
    }
}
