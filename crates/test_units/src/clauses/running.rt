//! The call of `js_run`.

ghost use Rattle.std.specs.Prelude.{◌≡◌, ◌+◌, ◌<◌, ◌≤◌, ◌⊎◌, length, map, string_bytes, IfSome};
ghost use Rattle.std.specs.Str.{IsUtf8};
ghost use Rattle.js_grammar.specs.CommandLine.{Admitted};
ghost use Rattle.js_grammar.specs.CoreTexts.{CoreSource};
ghost use Rattle.js_grammar.specs.Settings.{Settings as Set};
ghost use Rattle.js_run.specs.Outputs.{AsksForTree};
ghost use Rattle.js_run.specs.Runs.{limit, ReadsUpTo, told, HasCause, FitsWords, LeavesSink, LeavesSource, ComesBefore, IsAnswerTo, IsMarkedAnswerTo, IsCoreAnswerTo, IsText};

use js_run::{Sink, Source, Status};
use std::alloc::Global;

/// `run`.
pub fn run<S: Source, K: Sink>(
    alloc: Global,
    words: &Vec<String>,
    source: &mut S,
    sink: &mut K,
) -> Status
    ensures core_headline { IfSome (S.remaining source.old) (λ text. IsText text → CoreSource text → (s : Set) → Admitted (map string_bytes words.now.items) s → AsksForTree s →
        IsCoreAnswerTo s text (told S.remaining S.faults K.taken K.faults source.old source.new sink.old sink.new) result) }
    ensures headline { IfSome (S.remaining source.old) (λ text. IsText text → (s : Set) → Admitted (map string_bytes words.now.items) s →
        IsAnswerTo s text (told S.remaining S.faults K.taken K.faults source.old source.new sink.old sink.new) result) }
    ensures marks { IfSome (S.remaining source.old) (λ text. IsText text → (s : Set) → Admitted (map string_bytes words.now.items) s →
        IsMarkedAnswerTo s text (told S.remaining S.faults K.taken K.faults source.old source.new sink.old sink.new) result) }
    ensures cause { HasCause result (map string_bytes words.now.items) (told S.remaining S.faults K.taken K.faults source.old source.new sink.old sink.new) }
    ensures words { FitsWords result (map string_bytes words.now.items) }
    ensures leaves_source { LeavesSource result source.old source.new }
    ensures leaves_sink { LeavesSink result sink.old sink.new }
    ensures too_long { IfSome (S.remaining source.old) (λ bytes. limit < length bytes → (result ≡ Status.TooLong) ⊎ ComesBefore result) }
    ensures not_utf8 { IfSome (S.remaining source.old) (λ bytes. length bytes ≤ limit → (IsUtf8 bytes → ⊥) → (result ≡ Status.NotUtf8) ⊎ ComesBefore result) }
    ensures reads { ReadsUpTo (limit + 1) (S.remaining source.old) (S.remaining source.new) }
    ensures read_counts { S.faults source.old ≤ S.faults source.new }
    ensures write_counts { K.faults sink.old ≤ K.faults sink.new }
{
    js_run::run(alloc, words, source, sink)
}
