//! A count of steps that contracts see and that costs nothing when the program runs.

ghost use Rattle.std.specs.Prelude.{◌≡◌, ℕ, ◌+◌};

use std::marker::Model;

/// What counts ticks. Code that is generic in its ledger can only add to a count: it makes none and resets none.
pub trait Ledger: Drop {
    // The number of ticks so far.
    ghost ticks: { Self → ℕ };

    /// One tick more.
    fn tick(&mut self)
        ensures { ticks self.new ≡ ticks self.old + 1 };
}

/// A ledger that keeps nothing at run time: its count stands in the proofs alone.
#[derive(Drop)]
pub struct TickLedger {
    ghost count: { ℕ },
}

impl Model for TickLedger {
    ghost use base.Fml.{ftrue};

    ghost also_owns = { λ _. ftrue };
}

impl TickLedger {
    /// A count of 0.
    fn start() -> TickLedger
        ensures { result.count ≡ 0 }
    {
        TickLedger {}
    }

    /// Adds one to the count; there is nothing to run.
    fn add_one(&mut self)
        ensures { self.new.count ≡ self.old.count + 1 }
    {}
}

impl Ledger for TickLedger {
    ghost ticks = { λ ledger. ledger.count };

    fn tick(&mut self) {
        self.add_one();
    }
}

/// A count of steps, seen as the number of its ticks.
#[derive(Drop)]
pub struct Steps<L: Ledger> {
    ledger: L,
}

impl<L: Ledger> Model for Steps<L> {
    ghost use Rattle.std.specs.Prelude.{ℕ};

    ghost Value = { ℕ };

    ghost view = { λ steps. L.ticks steps.ledger };
}

impl Steps<TickLedger> {
    /// No tick yet. There is none for a ledger that a type parameter names, so that code which is given a count keeps it.
    pub fn new() -> Steps<TickLedger>
        ensures { result ≡ 0 }
    {
        Steps {
            ledger: TickLedger::start(),
        }
    }
}

impl<L: Ledger> Steps<L> {
    /// One tick more.
    pub fn tick(&mut self)
        ensures { self.new ≡ self.old + 1 }
    {
        self.ledger.tick();
    }
}
