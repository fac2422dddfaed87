//! The program `jsparse`: a JavaScript parser whose answers are proved.
#![tactic(auto)]

use js_run::{Status, StdinSource, StdoutSink, run};
use std::process::ExitCode;
use std::rt::Env;
use std::{env, io};

/// The words after the program's name.
fn program_words<R: Env + AllocGlobal>(rt: &R) -> io::Result<Vec<String>> {
    let mut words = env::args(rt)?;
    let _ = words.next();
    Ok(words.collect(rt.alloc())?)
}

fn main(rt: HostRuntime) -> ExitCode {
    let status = match program_words(&rt) {
        Ok(words) => {
            let mut source = StdinSource::new(rt.stdin());
            let mut sink = StdoutSink::new(rt.stdout());
            run(rt.alloc(), &words, &mut source, &mut sink)
        }
        Err(e) if e.kind() == io::ErrorKind::OutOfMemory => Status::NoMemory,
        Err(_) => Status::Usage,
    };
    ExitCode::from(status.code())
}
