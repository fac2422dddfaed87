//! A run: from the words and the source's bytes to the sink's bytes and a status.

ghost use Rattle.std.specs.Prelude.{◌≡◌, ◌+◌, ◌-◌, ◌<◌, ◌≤◌, ◌⊎◌, length, map, string_bytes, IfOk, IfErr, OnOk, OnErr, IfSome, vec_len};
ghost use Rattle.std.specs.Str.{IsUtf8};
ghost use Rattle.std.specs.Io.KnownBytes.{Appends};
ghost use Rattle.js_grammar.specs.CommandLine.{Admitted};
ghost use Rattle.js_grammar.specs.CoreTexts.{CoreSource};
ghost use Rattle.js_grammar.specs.Settings.{Settings as Set};
ghost use Rattle.js_run.specs.Ends.{CountsFault};
ghost use Rattle.js_run.specs.Outputs.{AsksForTree};
ghost use Rattle.js_run.specs.Runs.{limit, ReadsUpTo, Gave, told, HasCause, FitsWords, LeavesSink, LeavesSource, ComesBefore, IsAnswerTo, IsMarkedAnswerTo, IsCoreAnswerTo, IsText};
ghost use Rattle.js_run.specs.Steps.{ReadPiece, ReadCause, StopCause, Made, TookFront, PutCause};
ghost use Rattle.js_run.specs.Words.{settings_of};

use crate::answer::{Answer, answer_to};
use crate::ends::{Failed, Sink, Source};
use crate::status::Status;
use crate::words::{Settings, WordsError, read_words};
use std::alloc::{AllocError, Global};

/// The greatest number of bytes of a text.
const LIMIT: usize = 67_108_864;

/// The greatest number of bytes that a read asks for.
const PIECE: usize = 65_536;

/// So many zeros.
fn zeros(alloc: Global, len: usize) -> Result<Vec<u8>, AllocError>
    ensures { IfOk result (λ v. vec_len v ≡ len) }
{
    vec![in alloc; 0u8; len]
}

/// Reads once, and puts what was read behind `bytes`. At most one byte more than the limit is read.
fn read_piece<S: Source>(
    source: &mut S,
    buffer: &mut [u8],
    bytes: &mut Vec<u8>,
) -> Result<usize, Status>
    requires room { vec_len bytes.old ≤ limit }
    requires buffer { length buffer.old ≡ 65536 }
    ensures ok { IfOk result (λ n. ReadPiece (S.remaining source.old) (S.remaining source.new) bytes.old.items bytes.new.items n) }
    ensures stopped { IfErr result (λ status. ReadCause status (S.remaining source.old) (S.remaining source.new) (S.faults source.old) (S.faults source.new)) }
    ensures reads { ReadsUpTo (limit + 1 - vec_len bytes.old) (S.remaining source.old) (S.remaining source.new) }
    ensures counts { S.faults source.old ≤ S.faults source.new }
{
    let room = (LIMIT + 1 - bytes.len()).min(PIECE);
    let Ok(n) = source.read(&mut buffer[..room]) else {
        return Err(Status::ReadFault);
    };
    match bytes.extend_from_slice(&buffer[..n]) {
        Ok(()) => Ok(n),
        Err(_) => Err(Status::NoMemory),
    }
}

/// Reads all that the source has.
fn read_all<S: Source>(alloc: Global, source: &mut S) -> Result<Vec<u8>, Status>
    ensures ok { IfOk result (λ bytes. (length bytes.items ≤ limit) × Gave (S.remaining source.old) (S.remaining source.new) bytes.items) }
    ensures stopped { IfErr result (λ status. StopCause status (S.remaining source.old) (S.remaining source.new) (S.faults source.old) (S.faults source.new)) }
    ensures reads { ReadsUpTo (limit + 1) (S.remaining source.old) (S.remaining source.new) }
    ensures counts { S.faults source.old ≤ S.faults source.new }
{
    let Ok(mut buffer) = zeros(alloc, PIECE) else {
        return Err(Status::NoMemory);
    };
    let mut bytes = Vec::new(alloc);
    while bytes.len() <= LIMIT {
        match read_piece(source, &mut buffer, &mut bytes) {
            Ok(0) => return Ok(bytes),
            Ok(_) => {}
            Err(status) => return Err(status),
        }
    }
    Err(Status::TooLong)
}

/// Reads the source's text, and makes what is put out for it.
fn make<S: Source>(alloc: Global, settings: &Settings, source: &mut S) -> Result<Answer, Status>
    ensures ok { IfOk result (λ a. Made (settings_of settings.now) (S.remaining source.old) (S.remaining source.new) a.refused a.output.items) }
    ensures stopped { IfErr result (λ status. StopCause status (S.remaining source.old) (S.remaining source.new) (S.faults source.old) (S.faults source.new)) }
    ensures reads { ReadsUpTo (limit + 1) (S.remaining source.old) (S.remaining source.new) }
    ensures counts { S.faults source.old ≤ S.faults source.new }
{
    let bytes = read_all(alloc, source)?;
    let Ok(text) = str::from_utf8(&bytes) else {
        return Err(Status::NotUtf8);
    };
    match answer_to(alloc, text, settings) {
        Ok(made) => Ok(made),
        Err(_) => Err(Status::NoMemory),
    }
}

/// Writes all of these bytes.
fn write_all<K: Sink>(sink: &mut K, out: &[u8]) -> Result<(), Failed>
    ensures ok { OnOk result (Appends (K.taken sink.old) (K.taken sink.new) out.now) }
    ensures failed { OnErr result (CountsFault (K.faults sink.old) (K.faults sink.new)) }
    ensures part { OnErr result (TookFront (K.taken sink.old) (K.taken sink.new) out.now) }
    ensures counts { K.faults sink.old ≤ K.faults sink.new }
{
    let mut done = 0;
    while done < out.len() {
        match sink.write(&out[done..]) {
            Ok(n) => done += n,
            Err(failed) => return Err(failed),
        }
    }
    Ok(())
}

/// Writes what is put out for a text.
fn put<K: Sink>(sink: &mut K, made: &Answer) -> Status
    ensures cause { PutCause result made.now.refused made.now.output.items (K.taken sink.old) (K.taken sink.new) (K.faults sink.old) (K.faults sink.new) }
    ensures counts { K.faults sink.old ≤ K.faults sink.new }
{
    if write_all(sink, &made.output).is_err() {
        return Status::WriteFault;
    }
    if made.refused {
        Status::Refused
    } else {
        Status::Ok
    }
}

/// The steps of a run, in order.
fn steps<S: Source, K: Sink>(
    alloc: Global,
    words: &Vec<String>,
    source: &mut S,
    sink: &mut K,
) -> Status
    ensures words { FitsWords result (map string_bytes words.now.items) }
    ensures cause { HasCause result (map string_bytes words.now.items) (told S.remaining S.faults K.taken K.faults source.old source.new sink.old sink.new) }
    ensures leaves_source { LeavesSource result source.old source.new }
    ensures leaves_sink { LeavesSink result sink.old sink.new }
    ensures reads { ReadsUpTo (limit + 1) (S.remaining source.old) (S.remaining source.new) }
    ensures read_counts { S.faults source.old ≤ S.faults source.new }
    ensures write_counts { K.faults sink.old ≤ K.faults sink.new }
{
    let settings = match read_words(alloc, words) {
        Ok(settings) => settings,
        Err(WordsError::Usage) => return Status::Usage,
        Err(WordsError::NoMemory) => return Status::NoMemory,
    };
    match make(alloc, &settings, source) {
        Ok(made) => put(sink, &made),
        Err(status) => status,
    }
}

/// Runs the program: reads the words, reads the source's text, and writes what is put out for it.
pub fn run<S: Source, K: Sink>(
    alloc: Global,
    words: &Vec<String>,
    source: &mut S,
    sink: &mut K,
) -> Status
    // For every core text that the source gives, at any goal and V8 setting: 0 exactly where the text has a reading, and
    // the lines of the reading, the only one, are written; else 1, and the lines of one diagnostic or more, each at a
    // span inside the text; faults of source or sink and want of memory aside.
    ensures core_headline { IfSome (S.remaining source.old) (λ text. IsText text → CoreSource text → (s : Set) → Admitted (map string_bytes words.now.items) s → AsksForTree s →
        IsCoreAnswerTo s text (told S.remaining S.faults K.taken K.faults source.old source.new sink.old sink.new) result) }

    // Where the words are admitted and the source tells its bytes, and these are a text: its only reading is written
    // and 0 answered, or it has none, one diagnostic or more are written, each at a span inside the text, and 1
    // answered; faults and want of memory aside. Readings are by the productions that are built, over lexemes of the
    // kinds that are read so far. They are valid by the whole language, and where no lexeme is of another kind or begins
    // another production no other tree is.
    ensures headline { IfSome (S.remaining source.old) (λ text. IsText text → (s : Set) → Admitted (map string_bytes words.now.items) s →
        IsAnswerTo s text (told S.remaining S.faults K.taken K.faults source.old source.new sink.old sink.new) result) }

    // The same, and each diagnostic has its mark: what its kind says stands at its span.
    ensures marks { IfSome (S.remaining source.old) (λ text. IsText text → (s : Set) → Admitted (map string_bytes words.now.items) s →
        IsMarkedAnswerTo s text (told S.remaining S.faults K.taken K.faults source.old source.new sink.old sink.new) result) }

    // Each status has its cause.
    ensures cause { HasCause result (map string_bytes words.now.items) (told S.remaining S.faults K.taken K.faults source.old source.new sink.old sink.new) }

    // `Usage` comes exactly where no settings are admitted, and leaves the source as it was.
    ensures words { FitsWords result (map string_bytes words.now.items) }
    ensures leaves_source { LeavesSource result source.old source.new }

    // `Usage`, `ReadFault`, `NoMemory`, `NotUtf8` and `TooLong` leave the sink as it was.
    ensures leaves_sink { LeavesSink result sink.old sink.new }

    // Bytes that are too many, and bytes that are not UTF-8, are answered so, where no refusal came before.
    ensures too_long { IfSome (S.remaining source.old) (λ bytes. limit < length bytes → (result ≡ Status.TooLong) ⊎ ComesBefore result) }
    ensures not_utf8 { IfSome (S.remaining source.old) (λ bytes. length bytes ≤ limit → (IsUtf8 bytes → ⊥) → (result ≡ Status.NotUtf8) ⊎ ComesBefore result) }

    // At most one byte more than a text may have is read, and no count of faults falls.
    ensures reads { ReadsUpTo (limit + 1) (S.remaining source.old) (S.remaining source.new) }
    ensures read_counts { S.faults source.old ≤ S.faults source.new }
    ensures write_counts { K.faults sink.old ≤ K.faults sink.new }
{
    steps(alloc, words, source, sink)
}
