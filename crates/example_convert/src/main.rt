//! Converts an alarm from one notation to the other: a whole program over types of one's own, the
//! example of `docs/FROM-A-PROGRAM.md`. `example_convert jer FILE` reads JSON and writes AVN,
//! `example_convert avn FILE` the other way; without a file it reads standard input.
#![tactic(auto, using(asn_coding::proofs::Passing::field_steps))]

mod alarm;
mod failure;
mod origin;
mod setting;
mod severity;

use alarm::Alarm;
use asn::{Codec, TranscodeError, transcode};
use failure::Failure;
use std::alloc::Global;
use std::process::ExitCode;
use std::rt::{Env, Files};
use std::{env, fs, io};

/// Returns the text of an alarm in the other notation.
///
/// # Errors
///
/// Those of `transcode`.
fn in_other_notation(alloc: Global, from: Codec, text: &str) -> Result<String, TranscodeError> {
    let to = match from {
        Codec::Jer => Codec::Avn,
        _ => Codec::Jer,
    };
    transcode::<Alarm>(alloc, from, to, text)
}

/// Reads the text that the command line names, and prints it in the other notation.
///
/// # Errors
///
/// Each kind of `Failure`.
fn convert<R: Files + Env + Input + Print + AllocGlobal>(rt: &R) -> Result<(), Failure> {
    let mut words = env::args(rt).map_err(Failure::Read)?.skip(1);
    let from = match words.next().as_deref() {
        Some("jer") => Codec::Jer,
        Some("avn") => Codec::Avn,
        _ => return Err(Failure::Usage),
    };
    let text = match words.next() {
        Some(path) => fs::read_to_string(rt, path.as_str()),
        None => io::read_to_string(rt.alloc(), rt.reader()),
    };
    let text = text.map_err(Failure::Read)?;
    let written = in_other_notation(rt.alloc(), from, text.as_str()).map_err(Failure::Refused)?;
    println!(rt; "{written}").map_err(Failure::Write)
}

/// Runs the program. What went wrong is one line on standard error, and an exit status.
fn main(rt: HostRuntime) -> ExitCode {
    match convert(&rt) {
        Ok(()) => ExitCode::SUCCESS,
        Err(failure) => {
            let _ = eprintln!(rt; "example_convert: {failure}");
            ExitCode::from(failure.status())
        }
    }
}
