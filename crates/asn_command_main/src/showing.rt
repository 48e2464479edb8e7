//! Does the command that shows a type, or a value of it.
use crate::files::{Ended, modules_of};
use asn_command::show::{Extent, example_reply, show_reply};
use asn_core::Codec;
use asn_replies::missing_reply;

/// Returns what showing the type of the name in the files comes to: the type with those that it
/// names, or where a notation is given a value of it, with every part that may be absent or none.
pub fn shown(
    rt: &HostRuntime,
    files: &[&str],
    name: &str,
    example: Option<Codec>,
    full: bool,
) -> Ended {
    let modules = match modules_of(rt, files) {
        Ok(modules) => modules,
        Err(ended) => return ended,
    };
    let reply = match example {
        None => show_reply(rt.alloc(), &modules, name)?,
        Some(notation) => {
            let extent = if full { Extent::Full } else { Extent::Smallest };
            example_reply(rt.alloc(), &modules, name, extent, notation)?
        }
    };
    match reply {
        Some(reply) => Ok(reply),
        None => missing_reply(rt.alloc(), name),
    }
}
