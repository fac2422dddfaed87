//! Laws of runs over ends that are known.

ghost use Rattle.std.specs.Prelude.{◌≡◌, Some, map, string_bytes};
ghost use Rattle.js_run.specs.Runs.{HasCause, FitsWords};

use crate::ends::Sink;
use crate::program::run;
use crate::status::Status;
use crate::steady::SteadySource;
use std::alloc::Global;

/// A run over a source that never fails: each status has its cause, and a fault of the source never comes.
pub fn run_steady<K: Sink>(
    alloc: Global,
    words: &Vec<String>,
    source: &mut SteadySource,
    sink: &mut K,
) -> Status
    ensures cause { HasCause result (map string_bytes words.now.items) (record {
      given = Some source.old.left;
      left = Some source.new.left;
      read_faults = 0;
      read_faults_after = 0;
      before = K.taken sink.old;
      after = K.taken sink.new;
      write_faults = K.faults sink.old;
      write_faults_after = K.faults sink.new;
    }) }
    ensures words { FitsWords result (map string_bytes words.now.items) }
    ensures no_read_fault { result ≡ Status.ReadFault → ⊥ }
{
    run(alloc, words, source, sink)
}
