//! Does the commands that read modules alone.
use crate::files::{Ended, modules_of, named, texts_of};
use asn_command::versions::growth_reply;
use asn_command::{check_reply, types_reply};

/// Returns what checking the files comes to.
pub fn checked(rt: &HostRuntime, files: &[&str]) -> Ended {
    match texts_of(rt, files) {
        Ok(texts) => check_reply(rt.alloc(), &named(rt.alloc(), files, texts.as_slice())?),
        Err(unread) => unread,
    }
}

/// Returns what listing the types of the files comes to.
pub fn listed(rt: &HostRuntime, files: &[&str]) -> Ended {
    match texts_of(rt, files) {
        Ok(texts) => types_reply(rt.alloc(), &named(rt.alloc(), files, texts.as_slice())?),
        Err(unread) => unread,
    }
}

/// Returns what comparing the type of the name in both files comes to.
pub fn compared(rt: &HostRuntime, old: &str, new: &str, name: &str) -> Ended {
    let older = match modules_of(rt, &[old]) {
        Ok(modules) => modules,
        Err(ended) => return ended,
    };
    match modules_of(rt, &[new]) {
        Ok(newer) => growth_reply(rt.alloc(), &older, &newer, name),
        Err(ended) => ended,
    }
}
