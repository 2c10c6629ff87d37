//! The program `bcl` over the words of its command line and the standard streams.
#![tactic(auto)]

use bcl_io::{StdSink, StdSource, write_all};
use bcl_phase::Always;
use bcl_run::top;
use std::alloc::Global;
use std::io::ErrorKind;
use std::process::ExitCode;
use std::rt::Env;
use std::{env, io};

/// The status for a want of memory.
const NO_MEMORY: u8 = 5;

/// The words behind the program's name.
fn words_of(rt: &(impl Env + AllocGlobal), alloc: Global) -> io::Result<Vec<String>> {
    let mut words = Vec::new(alloc);
    for word in env::args(rt)?.skip(1) {
        words.push(word)?;
    }
    Ok(words)
}

fn main(rt: HostRuntime) -> ExitCode {
    let alloc = rt.alloc();
    let mut src = StdSource::new(rt.stdin());
    let mut out = StdSink::new(rt.stdout());
    let mut err = StdSink::new(rt.stderr());
    let words = match words_of(&rt, alloc) {
        Ok(words) => words,
        Err(error) if error.kind() == ErrorKind::OutOfMemory => {
            let _ = write_all(&mut err, b"out of memory\n");
            return ExitCode::from(NO_MEMORY);
        }
        // Words that are no text ask for nothing.
        Err(_) => Vec::new(alloc),
    };
    let ended = top(&rt, alloc, &words, &mut src, &mut out, &mut err, &Always);
    ExitCode::from(ended.status)
}
