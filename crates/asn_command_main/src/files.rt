//! Reads files of modules.
use asn_command::types_of;
use asn_core::OutOfMemory;
use asn_modules::Modules;
use asn_replies::{Reply, Unread, read_module_text, unread_reply};
use asn_streams::StdSource;
use std::alloc::{AllocError, Global};
use std::fs;

/// Is what a command comes to: its reply, or that memory ran out.
pub type Ended = Result<Reply, OutOfMemory>;

/// Returns the text of the file of modules, or that of standard input where its name is `-`.
///
/// # Errors
///
/// Why it isn't read.
fn text_of(rt: &HostRuntime, name: &str) -> Result<String, Unread> {
    if name == "-" {
        return read_module_text(rt.alloc(), &mut StdSource::new(rt.stdin()));
    }
    match fs::open(rt, name) {
        Ok(file) => read_module_text(rt.alloc(), &mut StdSource::new(file)),
        Err(_fault) => Err(Unread::Fault),
    }
}

/// Returns the texts of the files, in order.
///
/// # Errors
///
/// The reply on the first file that isn't read.
pub fn texts_of(rt: &HostRuntime, names: &[&str]) -> Result<Vec<String>, Ended> {
    let mut texts = Vec::new(rt.alloc());
    for name in names {
        let text = match text_of(rt, name) {
            Ok(text) => text,
            Err(why) => return Err(unread_reply(rt.alloc(), name, why)),
        };
        if texts.push(text).is_err() {
            return Err(Err(OutOfMemory));
        }
    }
    Ok(texts)
}

/// Returns the text after the byte order mark that some editors put first.
fn past_mark(text: &str) -> &str {
    text.strip_prefix('\u{feff}').unwrap_or(text)
}

/// Returns each text after the name of its file.
///
/// # Errors
///
/// Where memory runs out.
pub fn named<'a>(
    alloc: Global,
    names: &[&'a str],
    texts: &'a [String],
) -> Result<Vec<(&'a str, &'a str)>, AllocError> {
    let mut pairs = Vec::new(alloc);
    for (name, text) in names.iter().zip(texts) {
        pairs.push((*name, past_mark(text)))?;
    }
    Ok(pairs)
}

/// Returns the types of the modules of these texts, each after the name of its file, or the reply
/// on them.
///
/// # Errors
///
/// Where memory runs out before they are read.
fn types_in(
    alloc: Global,
    names: &[&str],
    texts: &[String],
) -> Result<Result<Modules, Ended>, AllocError> {
    Ok(types_of(alloc, &named(alloc, names, texts)?))
}

/// Returns the types of the modules that the files have.
///
/// # Errors
///
/// The reply on the first file that isn't read, or on the modules.
pub fn modules_of(rt: &HostRuntime, names: &[&str]) -> Result<Modules, Ended> {
    let texts = texts_of(rt, names)?;
    match types_in(rt.alloc(), names, texts.as_slice()) {
        Ok(found) => found,
        Err(_refused) => Err(Err(OutOfMemory)),
    }
}
