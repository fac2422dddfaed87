//! A source that fails at calls that are listed.

ghost use Rattle.std.specs.Prelude.{◌≡◌, ◌≤◌, Some, OnErr};
ghost use Rattle.js_run.specs.Ends.{Failing, FailingRead, CountsFault};

use crate::ends::{Failed, Source};
use crate::steady::SteadySource;
use std::marker::Model;

/// A source over bytes in memory that fails at the calls that are listed, the first of which has the number 1.
#[derive(Drop)]
pub struct FailingSource {
    source: SteadySource,
    fails: Vec<u64>,
    calls: u64,
    faults: u64,
}

impl Model for FailingSource {
    ghost Value = { Failing };

    ghost view = { λ s. record { left = s.source.left; fails = s.fails.items; calls = s.calls; faults = s.faults } };
}

impl FailingSource {
    /// A source of these bytes that fails at these calls.
    pub fn new(bytes: Vec<u8>, fails: Vec<u64>) -> FailingSource
        ensures { result ≡ record { left = bytes.items; fails = fails.items; calls = 0; faults = 0 } }
    {
        FailingSource {
            source: SteadySource::new(bytes),
            fails,
            calls: 0,
            faults: 0,
        }
    }
}

impl Source for FailingSource {
    ghost remaining = { λ s. Some s.left };

    ghost faults = { λ s. s.faults };

    fn read(&mut self, into: &mut [u8]) -> Result<usize, Failed>
        ensures read { FailingRead self.old self.new into.new result }
        ensures counts { self.old.faults ≤ self.new.faults }
        ensures failed { OnErr result (CountsFault self.old.faults self.new.faults) }
    {
        self.calls = self.calls.saturating_add(1);
        if self.fails.contains(&self.calls) {
            self.faults = self.faults.saturating_add(1);
            return Err(Failed);
        }
        self.source.read(into)
    }
}
