//! The program `bseries`: a script on standard input, its text on standard output, and one line on standard error where
//! it is not done. The exit code is that of the status (`bs_top::Status`).
#![tactic(auto)]

use bs_io::{StdSink, StdSource};
use bs_top::{OpenGate, Status, report, run_main};
use std::env;
use std::io::{self, ErrorKind};
use std::process::ExitCode;

/// The words after the program's name. One that isn't text is an error.
fn words(rt: &HostRuntime) -> io::Result<Vec<String>> {
    Ok(env::args(rt)?.skip(1).collect(rt.alloc())?)
}

fn main(rt: HostRuntime) -> ExitCode {
    let mut source = StdSource::new(rt.stdin());
    let mut sink = StdSink::new(rt.stdout());
    let mut errs = StdSink::new(rt.stderr());
    let status = match words(&rt) {
        Ok(words) => run_main(
            &rt,
            rt.alloc(),
            &words,
            &mut source,
            &mut sink,
            &mut errs,
            &OpenGate,
        ),
        Err(error) => {
            let status = match error.kind() {
                ErrorKind::OutOfMemory => Status::NoMemory,
                _ => Status::Usage,
            };
            let _ = report(&mut errs, &status);
            status
        }
    };
    ExitCode::from(status.code())
}
