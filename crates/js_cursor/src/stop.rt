//! Why a parse function stops.

use js_base::NoMemory;
use std::alloc::{AllocError, AllocFailed};

/// Why a parse function stops.
#[derive(Debug, Drop)]
pub enum Stop {
    /// What is due can't be read; the diagnostic that says so was kept as the last one.
    Fatal,
    /// Memory was refused.
    NoMemory,
}

/// What comes next in a list between brackets.
#[derive(Debug, Clone, Copy, PartialEq, Eq)]
pub enum ListStep {
    /// An item.
    Element,
    /// The closing bracket, which stands here.
    End,
    /// The closing bracket, which stands here, behind a comma that begins at this place, in bytes.
    EndAfterComma(u32),
}

impl From<NoMemory> for Stop {
    ghost use Rattle.std.specs.Prelude.{◌≡◌};
    ghost use Rattle.js_cursor.specs.declared.stop.Stop.TheVariants.{NoMemory as no_memory};

    ghost from_gives = { λ _ e. e ≡ no_memory };

    fn from(_e: NoMemory) -> Stop {
        Stop::NoMemory
    }
}

impl From<AllocError> for Stop {
    ghost use Rattle.std.specs.Prelude.{◌≡◌};
    ghost use Rattle.js_cursor.specs.declared.stop.Stop.TheVariants.{NoMemory as no_memory};

    ghost from_gives = { λ _ e. e ≡ no_memory };

    fn from(_e: AllocError) -> Stop {
        Stop::NoMemory
    }
}

impl<T: Drop> From<AllocFailed<T>> for Stop {
    ghost use Rattle.std.specs.Prelude.{◌≡◌};
    ghost use Rattle.js_cursor.specs.declared.stop.Stop.TheVariants.{NoMemory as no_memory};

    ghost from_gives = { λ _ e. e ≡ no_memory };

    fn from(_e: AllocFailed<T>) -> Stop {
        Stop::NoMemory
    }
}
