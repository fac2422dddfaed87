//! A source that never fails.

ghost use Rattle.std.specs.Prelude.{◌≡◌, ◌≤◌, Some, length, drop, min, IsOk, IfOk};
ghost use Rattle.js_run.specs.Ends.{Steady, GivesNext};

use crate::ends::{Failed, Source};
use std::marker::Model;

/// A source over bytes in memory, which never fails.
#[derive(Drop)]
pub struct SteadySource {
    bytes: Vec<u8>,
    at: usize,
}

impl Model for SteadySource {
    ghost Value = { Steady };

    ghost view = { λ s. record { left = drop s.at s.bytes.items } };

    ghost invariant = { λ s. s.at ≤ length s.bytes.items };
}

impl SteadySource {
    /// A source of these bytes.
    pub fn new(bytes: Vec<u8>) -> SteadySource
        ensures { result ≡ record { left = bytes.items } }
    {
        SteadySource { bytes, at: 0 }
    }
}

impl Source for SteadySource {
    ghost remaining = { λ s. Some s.left };

    ghost faults = { λ _. 0 };

    fn read(&mut self, into: &mut [u8]) -> Result<usize, Failed>
        ensures never_fails { IsOk result }
        ensures count { IfOk result (λ n. n ≡ min (length into.new) (length self.old.left)) }
        ensures next { IfOk result (λ n. GivesNext self.old.left self.new.left into.new n) }
    {
        let n = into.len().min(self.bytes.len() - self.at);
        into[..n].copy_from_slice(&self.bytes[self.at..self.at + n]);
        self.at += n;
        Ok(n)
    }
}
