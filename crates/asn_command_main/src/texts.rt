//! Does the commands that read texts of values: finds the type, and works the file through.
use crate::files::{Ended, modules_of};
use crate::streams::{Stream, convert, work_through, write};
use asn_command::Conversion;
use asn_command::versions::{KeepLines, Versions, versions_of};
use asn_core::{Codec, OutOfMemory};
use asn_replies::{Status, missing_reply};
use asn_samples::shape_of;

/// States how values are converted, aside from their type.
#[derive(Clone, Copy)]
pub struct How {
    /// Names the notation of the text.
    pub from: Codec,
    /// Names the notation that is written.
    pub to: Codec,
    /// States whether a refusal is explained.
    pub explain: bool,
}

/// Converts by a type that is built in.
pub fn convert_built_in(rt: &HostRuntime, name: &str, how: How, stream: Stream<'_>) -> Status {
    let How { from, to, explain } = how;
    match shape_of(rt.alloc(), name) {
        Ok(Some(shape)) => {
            let conversion = Conversion {
                part: &shape,
                from,
                to,
                explain,
            };
            convert(rt, conversion, stream)
        }
        Ok(None) => write(rt, missing_reply(rt.alloc(), name)),
        Err(OutOfMemory) => Status::WantOfMemory,
    }
}

/// Converts by a type of the modules of these files.
pub fn convert_by(
    rt: &HostRuntime,
    files: &[&str],
    name: &str,
    how: How,
    stream: Stream<'_>,
) -> Status {
    let modules = match modules_of(rt, files) {
        Ok(modules) => modules,
        Err(ended) => return write(rt, ended),
    };
    let How { from, to, explain } = how;
    match modules.find(name) {
        Some(part) => {
            let conversion = Conversion {
                part,
                from,
                to,
                explain,
            };
            convert(rt, conversion, stream)
        }
        None => write(rt, missing_reply(rt.alloc(), name)),
    }
}

/// Returns the versions of the type of the name in the two files.
///
/// # Errors
///
/// The reply where there are none.
fn versions_in(rt: &HostRuntime, old: &str, new: &str, name: &str) -> Result<Versions, Ended> {
    let older = modules_of(rt, &[old])?;
    let newer = modules_of(rt, &[new])?;
    match versions_of(rt.alloc(), &older, &newer, name) {
        Ok(Ok(versions)) => Ok(versions),
        Ok(Err(reply)) => Err(Ok(reply)),
        Err(OutOfMemory) => Err(Err(OutOfMemory)),
    }
}

/// Cuts each line of the file to what the type of the name in the older file knows.
pub fn keep(
    rt: &HostRuntime,
    files: (&str, &str),
    name: &str,
    from: Codec,
    stream: Stream<'_>,
) -> Status {
    let (old, new) = files;
    match versions_in(rt, old, new, name) {
        Ok(versions) => work_through(rt, &KeepLines::new(from, &versions, stream.file), stream),
        Err(ended) => write(rt, ended),
    }
}
