//! What a scan at a place answers.

use js_base::{DiagnosticKind, Kind};

/// A lexeme that stands at the place of a scan.
#[derive(Clone, Copy)]
pub struct Scanned {
    pub kind: Kind,
    /// Whether it is a word or a private name with an escape sequence.
    pub escaped: bool,
    /// Whether it is a number with a separator.
    pub has_separator: bool,
    /// The place behind it.
    pub end: usize,
}

/// A fault that stops the lexemes: what stands at the place of a scan where no lexeme does.
#[derive(Clone, Copy)]
pub struct Fault {
    pub kind: DiagnosticKind,
    /// The place at which it begins, not before the place of the scan.
    pub start: usize,
    /// The place behind it.
    pub end: usize,
}

/// The lexeme at a place, or why none stands there.
pub type Scan = Result<Scanned, Fault>;
