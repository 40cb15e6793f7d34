//! The command `sg`: hands the words and the streams of the process to `run`, and ends with its status.
#![tactic(auto)]

use sg_cli::{Fault, run, tell};
use sg_io::{Sink, StdSink, StdSource};
use std::io::ErrorKind;
use std::process::ExitCode;
use std::{env, io};

/// Tells that memory was wanted, before there were words to run.
fn no_memory<E: Sink>(err: &mut E) -> ExitCode {
    tell(err, Fault::NoMemory);
    ExitCode::from(Fault::NoMemory.status())
}

/// Words that are no texts end it with status 1, by the error of `env::args`.
fn main(rt: HostRuntime) -> io::Result<ExitCode> {
    let alloc = rt.alloc();
    let mut err = StdSink::new(rt.stderr());
    let mut words = Vec::new(alloc);
    let args = match env::args(&rt) {
        Ok(args) => args,
        Err(fault) if fault.kind() == ErrorKind::OutOfMemory => return Ok(no_memory(&mut err)),
        Err(fault) => return Err(fault),
    };
    for word in args.skip(1) {
        if words.push(word).is_err() {
            return Ok(no_memory(&mut err));
        }
    }
    let mut source = StdSource::new(rt.stdin());
    let mut out = StdSink::new(rt.stdout());
    let status = run(alloc, &words, &mut source, &mut out, &mut err);
    Ok(ExitCode::from(status))
}
