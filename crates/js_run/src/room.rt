//! A sink with room for so many bytes.

ghost use Rattle.std.specs.Prelude.{◌≡◌, ◌<◌, ◌≤◌, [], Some, length, IfOk, OnErr, vec_capacity};
ghost use Rattle.js_run.specs.Ends.{Room, RoomWrite, CountsFault};

use crate::ends::{Failed, Sink};
use js_base::NoMemory;
use std::alloc::Global;
use std::marker::Model;

/// A sink in memory with room for so many bytes, which fails at the calls that are listed, the first of which has
/// the number 1, and where there is no room.
#[derive(Drop)]
pub struct RoomSink {
    taken: Vec<u8>,
    room: usize,
    fails: Vec<u64>,
    calls: u64,
    faults: u64,
}

impl Model for RoomSink {
    ghost Value = { Room };

    ghost view = { λ s. record { taken = s.taken.items; room = s.room; fails = s.fails.items; calls = s.calls; faults = s.faults } };

    ghost invariant = { λ s. (length s.taken.items ≤ s.room) × (s.room ≤ vec_capacity s.taken) };
}

impl RoomSink {
    /// A sink with this room, which is taken at once, that fails at these calls.
    pub fn with_room(alloc: Global, room: usize, fails: Vec<u64>) -> Result<RoomSink, NoMemory>
        ensures { IfOk result (λ s. s ≡ record { taken = []; room = room; fails = fails.items; calls = 0; faults = 0 }) }
    {
        match Vec::with_capacity(alloc, room) {
            Ok(taken) => Ok(RoomSink {
                taken,
                room,
                fails,
                calls: 0,
                faults: 0,
            }),
            Err(_) => Err(NoMemory),
        }
    }

    /// The bytes that were taken so far, in order.
    pub fn bytes(&self) -> &[u8]
        ensures { result.now ≡ self.now.taken }
    {
        &self.taken
    }
}

impl Sink for RoomSink {
    ghost taken = { λ s. Some s.taken };

    ghost faults = { λ s. s.faults };

    fn write(&mut self, piece: &[u8]) -> Result<usize, Failed>
        ensures write { RoomWrite self.old self.new piece.now result }
        ensures goes_on { IfOk result (λ n. 0 < length piece.now → 0 < n) }
        ensures counts { self.old.faults ≤ self.new.faults }
        ensures failed { OnErr result (CountsFault self.old.faults self.new.faults) }
    {
        self.calls = self.calls.saturating_add(1);
        let left = self.room - self.taken.len();
        if self.fails.contains(&self.calls) || (left == 0 && !piece.is_empty()) {
            self.faults = self.faults.saturating_add(1);
            return Err(Failed);
        }
        let n = piece.len().min(left);
        self.taken.extend_from_slice(&piece[..n]).unwrap();
        Ok(n)
    }
}
