//! The program `permissions`: does what its arguments ask for, over standard input and output.
#![tactic(auto)]

ghost use Rattle.std.specs.Prelude.{◌≡◌, ◌≢◌};
ghost use Rattle.std.specs.IoError.{error_kind};
ghost use Rattle.permissions.specs.ExitStatuses as spec;

use pe_io::{StdSink, StdSource};
use pe_session::{Status, serve};
use std::alloc::AllocError;
use std::io::ErrorKind;
use std::process::ExitCode;
use std::{env, io};

/// The exit status where an argument is no text.
const NO_TEXT: u8 = 9;

/// The exit status of each way to end.
fn exit_status(status: Status) -> u8
    ensures { result ≡ spec.exit_status status }
{
    match status {
        Status::Clean => 0,
        Status::Refusals => 1,
        Status::Words => 2,
        Status::ReadFault => 3,
        Status::WriteFault => 4,
        Status::Memory => 5,
        Status::InputTooLong => 6,
    }
}

/// The exit status where the arguments cannot be had.
fn status_without_words(error: &io::Error) -> u8
    ensures memory { error_kind error.now ≡ ErrorKind.OutOfMemory → result ≡ spec.exit_status Status.Memory }
    ensures text { error_kind error.now ≢ ErrorKind.OutOfMemory → result ≡ NO_TEXT }
{
    if error.kind() == ErrorKind::OutOfMemory {
        exit_status(Status::Memory)
    } else {
        NO_TEXT
    }
}

/// The arguments after the program's name.
fn words(rt: &HostRuntime) -> io::Result<Vec<String>> {
    let mut words = Vec::new(rt.alloc());
    for word in env::args(rt)?.skip(1) {
        words.push(word).map_err(AllocError::from)?;
    }
    Ok(words)
}

fn main(rt: HostRuntime) -> ExitCode {
    let words = match words(&rt) {
        Ok(words) => words,
        Err(error) => return ExitCode::from(status_without_words(&error)),
    };
    let mut source = StdSource::new(rt.reader());
    let mut sink = StdSink::new(io::writer(&rt));
    let status = serve(rt.alloc(), &words, &mut source, &mut sink);
    ExitCode::from(exit_status(status))
}
