//! Reads the text of a file whole.
ghost use Rattle.asn_replies.specs.Reading.{IsModuleText, IsUnreadReply};
ghost use Rattle.asn_replies.specs.declared.read.Unread.TheVariants as unread;
ghost use Rattle.asn_streams.specs.Faults.{Increased};
ghost use Rattle.asn_streams.specs.Input.{IsWholeInput, ReadPastLimit, ReadWhole};
ghost use Rattle.asn_streams.specs.Transfer.{transfer_of};
ghost use Rattle.std.specs.Prelude.{◌≡◌, IfOk, IsErrOf, IsUtf8, string_bytes};
ghost use Rattle.std.specs.Str.{encode_utf8_all};

use crate::reply::Reply;
use crate::status::Status;
use asn_core::OutOfMemory;
use asn_streams::{Source, Stopped, read_to_end};
use std::alloc::Global;

/// States why the text of a file isn't read.
#[derive(Clone, Copy, Debug, PartialEq, Eq, Drop)]
pub enum Unread {
    /// Reading failed.
    Fault,
    /// The file has more than 16,777,216 bytes.
    TooLong,
    /// It is not UTF-8.
    NotText,
    /// Memory ran out.
    OutOfMemory,
}

/// Returns the bytes that the source has.
///
/// # Errors
///
/// `Fault` where a read failed; `TooLong` where there are more bytes than the limit; `OutOfMemory`.
fn read_bytes<S: Source>(alloc: Global, source: &mut S) -> Result<Vec<u8>, Unread>
    ensures bytes { IfOk result (λ v. IsWholeInput
        (transfer_of S.left S.faults source.old source.new) v.items) }
    ensures fault { IsErrOf result unread.Fault
        → Increased (S.faults source.old) (S.faults source.new) }
    ensures too_long { IsErrOf result unread.TooLong
        → ReadPastLimit (transfer_of S.left S.faults source.old source.new) }
    ensures text { ¬ IsErrOf result unread.NotText }
{
    match read_to_end(alloc, source) {
        Ok(bytes) => Ok(bytes),
        Err(Stopped::Fault) => Err(Unread::Fault),
        Err(Stopped::TooLong) => Err(Unread::TooLong),
        Err(Stopped::OutOfMemory) => Err(Unread::OutOfMemory),
    }
}

/// Returns the text that the source has.
///
/// # Errors
///
/// `Fault` where a read failed; `TooLong` where there are more bytes than the limit; `NotText`
/// where they are not UTF-8; `OutOfMemory`.
pub fn read_text<S: Source>(alloc: Global, source: &mut S) -> Result<String, Unread>
    ensures text { IfOk result (λ s. IsWholeInput
        (transfer_of S.left S.faults source.old source.new) (string_bytes s)) }
    ensures fault { IsErrOf result unread.Fault
        → Increased (S.faults source.old) (S.faults source.new) }
    ensures too_long { IsErrOf result unread.TooLong
        → ReadPastLimit (transfer_of S.left S.faults source.old source.new) }
    ensures not_text { IsErrOf result unread.NotText
        → ReadWhole (transfer_of S.left S.faults source.old source.new) (λ input. ¬ IsUtf8 input) }
{
    let bytes = read_bytes(alloc, source)?;
    match String::from_utf8(bytes) {
        Ok(text) => Ok(text),
        Err(_fault) => Err(Unread::NotText),
    }
}

/// Returns the characters whose numbers the bytes are (ISO/IEC 8859-1).
///
/// # Errors
///
/// `OutOfMemory` alone.
fn latin_text(alloc: Global, bytes: &[u8]) -> Result<String, OutOfMemory>
    ensures { IfOk result (λ s. string_bytes s ≡ encode_utf8_all bytes.now) }
{
    let mut text = String::new(alloc);
    for byte in bytes {
        text.push(char::from(*byte))?;
    }
    Ok(text)
}

/// Returns the text of modules that the source has: its bytes as UTF-8, or where they are not, each
/// byte as the character of its number (ISO/IEC 8859-1). Files of modules are published so, with
/// such characters in comments.
///
/// # Errors
///
/// `Fault` where a read failed; `TooLong` where there are more bytes than the limit; `OutOfMemory`.
pub fn read_module_text<S: Source>(alloc: Global, source: &mut S) -> Result<String, Unread>
    ensures text { IfOk result (λ s. ReadWhole
        (transfer_of S.left S.faults source.old source.new)
        (λ input. IsModuleText input (string_bytes s))) }
    ensures fault { IsErrOf result unread.Fault
        → Increased (S.faults source.old) (S.faults source.new) }
    ensures too_long { IsErrOf result unread.TooLong
        → ReadPastLimit (transfer_of S.left S.faults source.old source.new) }
    ensures any_text { ¬ IsErrOf result unread.NotText }
{
    let bytes = read_bytes(alloc, source)?;
    match String::from_utf8(bytes) {
        Ok(text) => Ok(text),
        Err(fault) => match latin_text(alloc, fault.as_bytes()) {
            Ok(text) => Ok(text),
            Err(OutOfMemory) => Err(Unread::OutOfMemory),
        },
    }
}

/// Returns the refusal of a command whose file of this name isn't read.
///
/// # Errors
///
/// `OutOfMemory` alone, also where that is why.
pub fn unread_reply(alloc: Global, file: &str, why: Unread) -> Result<Reply, OutOfMemory>
    ensures { IfOk result (IsUnreadReply file.now why) }
{
    let (status, line) = match why {
        Unread::Fault => (
            Status::ReadFault,
            format!(in alloc; "{file}: can't be read\n")?,
        ),
        Unread::TooLong => (
            Status::TooLong,
            format!(in alloc; "{file}: has more than 16777216 bytes\n")?,
        ),
        Unread::NotText => (Status::NotText, format!(in alloc; "{file}: isn't UTF-8\n")?),
        Unread::OutOfMemory => return Err(OutOfMemory),
    };
    Ok(Reply::Refusal { status, line })
}
