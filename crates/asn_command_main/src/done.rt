//! Does what is asked for.
use crate::files::Ended;
use crate::modules::{checked, compared, listed};
use crate::showing::shown;
use crate::streams::{Stream, write};
use crate::texts::{How, convert_built_in, convert_by, keep};
use asn_command_line::{Asked, BASH_COMPLETIONS};
use asn_replies::{Reply, Status};

/// Returns what bash completes words by.
fn completions(rt: &HostRuntime) -> Ended {
    Ok(Reply::Answer(String::from_str(rt.alloc(), BASH_COMPLETIONS)?))
}

/// Does what is asked for, and returns how it ended.
pub fn reply_to(rt: &HostRuntime, asked: &Asked<'_>) -> Status {
    match asked {
        Asked::Convert {
            modules,
            name,
            from,
            to,
            lines,
            explain,
            progress,
            file,
        } => {
            let stream = Stream {
                file,
                lines: *lines,
                progress: *progress,
            };
            let how = How {
                from: *from,
                to: *to,
                explain: *explain,
            };
            if modules.is_empty() {
                convert_built_in(rt, name, how, stream)
            } else {
                convert_by(rt, modules.as_slice(), name, how, stream)
            }
        }
        Asked::Check { files } => write(rt, checked(rt, files.as_slice())),
        Asked::Types { files } => write(rt, listed(rt, files.as_slice())),
        Asked::Show {
            files,
            name,
            example,
            full,
        } => write(rt, shown(rt, files.as_slice(), name, *example, *full)),
        Asked::Grows { old, new, name } => write(rt, compared(rt, old, new, name)),
        Asked::Keep {
            old,
            new,
            name,
            from,
            progress,
            file,
        } => {
            let stream = Stream {
                file,
                lines: true,
                progress: *progress,
            };
            keep(rt, (old, new), name, *from, stream)
        }
        Asked::Completions => write(rt, completions(rt)),
    }
}
