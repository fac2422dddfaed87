//! Want of memory.

ghost use Rattle.std.specs.Prelude.{Some, codes};

use std::alloc::{AllocError, AllocFailed};
use std::fmt;

/// The error of a call that takes memory: the allocator refused it.
#[derive(Debug, Drop)]
pub struct NoMemory;

impl fmt::Display for NoMemory {
    ghost output = { λ _. Some (codes "memory was refused") };

    /// Writes that memory was refused.
    fn fmt<W: fmt::Write>(&self, f: &mut fmt::Formatter<W>) -> fmt::Result {
        f.write_str("memory was refused")
    }
}

impl From<AllocError> for NoMemory {
    /// What the allocator answers where it refuses memory.
    fn from(_e: AllocError) -> NoMemory {
        NoMemory
    }
}

impl<T: Drop> From<AllocFailed<T>> for NoMemory {
    /// The same, where a value comes back with the answer; the value is let go.
    fn from(_e: AllocFailed<T>) -> NoMemory {
        NoMemory
    }
}
