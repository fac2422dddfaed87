//! What every crate of the parser stands on: lists, want of memory, and counts of steps.
#![tactic(auto)]

mod list;
mod no_memory;
mod steps;

pub use list::List;
pub use no_memory::NoMemory;
pub use steps::{Ledger, Steps, TickLedger};
