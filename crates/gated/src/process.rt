//! The program as a process: what `main` does.
use gate_types::tap::Tap;
use gated_cli::{program, unread};
use std::process::ExitCode;
use std::{env, io};

/// The program over the words and the streams of its process.
pub(crate) fn started(rt: &HostRuntime) -> ExitCode {
    let mut input = Tap::new(rt.stdin());
    let mut output = Tap::new(rt.stdout());
    let mut errors = Tap::new(rt.stderr());
    ExitCode::from(match words(rt) {
        Ok(words) => program(rt, words.as_slice(), &mut input, &mut output, &mut errors),
        Err(error) => unread(rt.alloc(), &error, &mut errors),
    })
}

/// The words of the command line.
fn words(rt: &HostRuntime) -> io::Result<Vec<String>> {
    Ok(env::args(rt)?.collect(rt.alloc())?)
}
