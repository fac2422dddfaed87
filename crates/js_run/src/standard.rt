//! Standard input and standard output as the ends of a run. What the system gives and takes is trusted, and no bytes
//! are told.

ghost use Rattle.std.specs.Prelude.{◌≡◌, None};

use crate::ends::{Failed, Sink, Source};
use std::io::{Read, Write};
use std::rt::{Stdin, Stdout};

/// Standard input.
#[derive(Drop)]
pub struct StdinSource {
    input: Stdin,
    faults: u64,
}

impl StdinSource {
    /// The source of standard input, at which no call has failed yet.
    pub fn new(input: Stdin) -> StdinSource
        ensures { result.faults ≡ 0 }
    {
        StdinSource { input, faults: 0 }
    }
}

impl Source for StdinSource {
    ghost remaining = { λ _. None };

    ghost faults = { λ s. s.faults };

    fn read(&mut self, into: &mut [u8]) -> Result<usize, Failed> {
        match self.input.read(into) {
            Ok(n) => Ok(n),
            Err(_) => {
                self.faults = self.faults.saturating_add(1);
                Err(Failed)
            }
        }
    }
}

/// Standard output.
#[derive(Drop)]
pub struct StdoutSink {
    output: Stdout,
    faults: u64,
}

impl StdoutSink {
    /// The sink of standard output, at which no call has failed yet.
    pub fn new(output: Stdout) -> StdoutSink
        ensures { result.faults ≡ 0 }
    {
        StdoutSink { output, faults: 0 }
    }
}

impl Sink for StdoutSink {
    ghost taken = { λ _. None };

    ghost faults = { λ s. s.faults };

    fn write(&mut self, piece: &[u8]) -> Result<usize, Failed> {
        match self.output.write(piece) {
            Ok(n) if n > 0 || piece.is_empty() => Ok(n),
            _ => {
                self.faults = self.faults.saturating_add(1);
                Err(Failed)
            }
        }
    }
}
