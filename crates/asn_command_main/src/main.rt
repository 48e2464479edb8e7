//! The command `asn`: converts values by published ASN.1 modules, checks modules, lists and shows
//! their types and compares versions of them. The command line is read by `asn_command_line`, and
//! what a command comes to is the work of `asn_command`, `asn_command::show` and
//! `asn_command::versions`; this program opens the files and makes the calls.
#![tactic(auto)]

mod done;
mod files;
mod modules;
mod progress;
mod showing;
mod streams;
mod texts;

use crate::done::reply_to;
use crate::files::Ended;
use crate::streams::write;
use asn_command_line::{Unasked, read_command_line};
use asn_core::OutOfMemory;
use asn_replies::{Reply, Status};
use std::env;
use std::io::{Error, ErrorKind};
use std::process::ExitCode;

/// Returns the refusal of words by this line.
fn usage(line: String) -> Ended {
    Ok(Reply::Refusal {
        status: Status::BadCommand,
        line,
    })
}

/// Does what the words of the command line ask for, and returns how it ended. The first of them is
/// the name of the program, which is `asn`, whatever its file is called.
fn run(rt: &HostRuntime, words: Vec<String>) -> Status {
    let mut words = words;
    if let Some(first) = words.first_mut() {
        match String::from_str(rt.alloc(), "asn") {
            Ok(name) => *first = name,
            Err(_refused) => return Status::WantOfMemory,
        }
    }
    match read_command_line(rt.alloc(), words.as_slice()) {
        Ok(asked) => reply_to(rt, &asked),
        Err(Unasked::Help(text)) => write(rt, Ok(Reply::Answer(text))),
        Err(Unasked::Usage(line)) => write(rt, usage(line)),
        Err(Unasked::OutOfMemory) => Status::WantOfMemory,
    }
}

/// Returns how the command ends whose words can't be had.
fn unread_words(rt: &HostRuntime, error: &Error) -> Ended {
    if error.kind() == ErrorKind::OutOfMemory {
        return Err(OutOfMemory);
    }
    let line = "asn: a word of the command line isn't UTF-8\n";
    usage(String::from_str(rt.alloc(), line)?)
}

/// Runs the command over the words of the process, its files and its standard streams.
fn main(rt: HostRuntime) -> ExitCode {
    let status = match env::args(&rt) {
        Ok(words) => match words.collect::<Vec<String>>(rt.alloc()) {
            Ok(words) => run(&rt, words),
            Err(_refused) => Status::WantOfMemory,
        },
        Err(error) => write(&rt, unread_words(&rt, &error)),
    };
    ExitCode::from(status.number())
}
