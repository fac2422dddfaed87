//! Names and private names (ECMA-262, section 12.7).

ghost use Rattle.std.specs.Prelude.{◌≡◌, ◌<◌, ◌≤◌, ℕ, ◌+◌, Bool, ◌||◌, ◌==◌, List, [], ◌∷◌, ◌++◌, true, false, MatchOption, IfSome, IsCharBoundary, IsTrue};
ghost use Rattle.js_base.specs.Keywords.{keyword_of};
ghost use Rattle.js_grammar.specs.Characters.{begins, is_identifier_start, is_identifier_part};
ghost use Rattle.js_grammar.specs.LexicalFaults.{behind};
ghost use Rattle.js_grammar.specs.Lexemes.{division};
ghost use Rattle.part_words.specs.Names as names;
ghost use Rattle.js_base.specs.declared.diagnostic.DiagnosticKind.TheVariants.{InvalidEscape};
ghost use Rattle.part_words.specs.Faults.{PartsEnd};
ghost use Rattle.part_words.specs.Places.{Word};
ghost use Rattle.part_words.specs.Scans.{Scans, IsScanned, IsStopped};

use crate::byte_class::class_of;
use crate::character::next_character;
use crate::class;
use crate::part::{ascii_parts_end, parts_end};
use crate::place::{byte_at, is_at};
use crate::scan::{Fault, Scan, Scanned};
use crate::word::kind_of_word;
use js_base::{CodePointEscape, CodePointStep, DiagnosticKind, Kind};

/// Where a code point stands in a name.
#[derive(Clone, Copy)]
pub enum Position {
    /// At its beginning: IdentifierStart.
    Start,
    /// Behind that: IdentifierPart.
    Part,
}

/// An escape sequence: the code point that it names, and the place behind it.
#[derive(Clone, Copy)]
struct Escape {
    code_point: u32,
    end: usize,
}

/// A character or an escape sequence of a name: its code point, the place behind it, and whether it is escaped.
#[derive(Clone, Copy)]
struct Piece {
    code_point: u32,
    end: usize,
    escaped: bool,
}

/// The first code points of a name, of which as many are kept as the longest word of the keyword table has.
#[derive(Clone, Copy)]
struct Letters {
    letters: [u8; 11],
    len: usize,
    /// Whether the name is no word of the table, whatever else follows.
    is_other: bool,
}

/// No code points.
const NO_LETTERS: Letters = Letters {
    letters: [0; 11],
    len: 0,
    is_other: false,
};

/// A name that stands at a place: the kind of its word, the place behind it, and whether an escape sequence is in it.
#[derive(Clone, Copy)]
struct Name {
    kind: Kind,
    end: usize,
    escaped: bool,
}

/// The name at a place (ECMA-262, section 12.7), with the kind of the word that it stands for.
pub fn name_at(text: &str, at: usize) -> Scan
    requires boundary { IsCharBoundary text.now at }
    requires first { begins (λ c. is_identifier_start c || (c == 92)) (behind text.now at) ≡ true }
    ensures { Scans division text.now at result }
{
    match longest_name(text, at) {
        Some(name) => Ok(Scanned {
            kind: name.kind,
            end: name.end,
            escaped: name.escaped,
            has_separator: false,
        }),
        None => Err(invalid_escape(text, at)),
    }
}

/// The name at a place where all of it is ASCII characters, none of them escaped; none where that is not known at once.
#[inline(always)]
pub fn ascii_name_at(text: &str, at: usize) -> Option<Scanned>
    requires { IsCharBoundary text.now at }
    ensures { IfSome result (λ s. IsScanned division text.now at s) }
{
    match ascii_name_end(text, at) {
        Some(end) => {
            let name = ascii_name(text, at, end);
            Some(Scanned {
                kind: name.kind,
                end: name.end,
                escaped: name.escaped,
                has_separator: false,
            })
        }
        None => None,
    }
}

/// The end of the name at a place where all of it is ASCII characters, none of them escaped; none where that is not
/// known at once.
#[inline(always)]
fn ascii_name_end(text: &str, at: usize) -> Option<usize>
    requires { IsCharBoundary text.now at }
    ensures { IfSome result (λ end. names.IsAsciiName text.now at end) }
{
    match byte_at(text, at) {
        Some(byte) if class_of(byte).is_letter() => {
            let end = ascii_parts_end(text, at + 1);
            if ends_ascii(text, end) {
                Some(end)
            } else {
                None
            }
        }
        _ => None,
    }
}

/// Whether the text ends at a place, or goes on with an ASCII character that is no backslash.
#[inline(always)]
fn ends_ascii(text: &str, at: usize) -> bool
    requires boundary { IsCharBoundary text.now at }
    requires stops { begins names.is_ascii_part (behind text.now at) ≡ false }
    ensures { IsTrue result → names.NoFrontPasses is_identifier_part (behind text.now at) }
{
    match byte_at(text, at) {
        Some(byte) => byte < 128 && byte != b'\\',
        None => true,
    }
}

/// The private name at a place (ECMA-262, section 12.7): `#` and a name.
pub fn private_name_at(text: &str, at: usize) -> Scan
    requires boundary { IsCharBoundary text.now at }
    requires first { begins (λ c. c == 35) (behind text.now at) ≡ true }
    ensures { Scans division text.now at result }
{
    let place = at + 1;
    match longest_name(text, place) {
        Some(name) => Ok(Scanned {
            kind: Kind::PrivateIdentifier,
            end: name.end,
            escaped: name.escaped,
            has_separator: false,
        }),
        None => Err(fault_behind_mark(text, at, place)),
    }
}

/// The fault of a backslash that begins no escape sequence of a name, with the characters of a name behind it.
fn invalid_escape(text: &str, at: usize) -> Fault
    requires { Word text.now at (at + 1) (92 ∷ []) }
    ensures kind { result.kind ≡ InvalidEscape }
    ensures start { result.start ≡ at }
    ensures end { PartsEnd false text.now (at + 1) result.end }
{
    Fault {
        kind: DiagnosticKind::InvalidEscape,
        start: at,
        end: parts_end(text, at + 1, false),
    }
}

/// What stands at a `#` with no name behind it: an escape sequence that is none of a name, or the `#` alone.
fn fault_behind_mark(text: &str, at: usize, place: usize) -> Fault
    requires boundary { IsCharBoundary text.now at }
    requires mark { Word text.now at place (35 ∷ []) }
    requires none { names.NoFrontPasses is_identifier_start (behind text.now place) }
    ensures { IsStopped division text.now at result }
{
    if is_at(text, place, b'\\') {
        invalid_escape(text, place)
    } else {
        Fault {
            kind: DiagnosticKind::InvalidCharacter,
            start: at,
            end: place,
        }
    }
}

/// The longest name at a place.
fn longest_name(text: &str, at: usize) -> Option<Name>
    requires { IsCharBoundary text.now at }
    ensures { MatchOption result (names.NoFrontPasses is_identifier_start (behind text.now at)) (λ n. names.IsName text.now at n) }
{
    match piece_at(text, at, Position::Start) {
        Some(first) => Some(name_from(text, at, first)),
        None => None,
    }
}

/// The longest name whose first code point is known.
fn name_from(text: &str, at: usize, first: Piece) -> Name
    requires boundary { IsCharBoundary text.now at }
    requires first { names.IsPiece is_identifier_start text.now at first }
    ensures { names.IsName text.now at result }
{
    if first.code_point < 128 && !first.escaped {
        let end = ascii_parts_end(text, first.end);
        if is_at_end(text, end) {
            return ascii_name(text, at, end);
        }
    }
    name_by_pieces(text, at, first)
}

/// A name of ASCII characters, none of them escaped, of which the end is known.
fn ascii_name(text: &str, at: usize, end: usize) -> Name
    requires boundary { IsCharBoundary text.now at }
    requires name { names.AsciiName text.now at end }
    requires ends { names.NoFrontPasses is_identifier_part (behind text.now end) }
    ensures { names.IsName text.now at result }
{
    Name {
        kind: kind_of_word(&text.as_bytes()[at..end]),
        end,
        escaped: false,
    }
}

/// Whether a name ends at a place behind its ASCII characters.
fn is_at_end(text: &str, at: usize) -> bool
    requires boundary { IsCharBoundary text.now at }
    requires stops { begins names.is_ascii_part (behind text.now at) ≡ false }
    ensures { IsTrue result → names.NoFrontPasses is_identifier_part (behind text.now at) }
{
    if ends_ascii(text, at) {
        return true;
    }
    match piece_at(text, at, Position::Part) {
        Some(_) => false,
        None => true,
    }
}

/// The longest name whose first code point is known, each character of it taken for what it stands for.
fn name_by_pieces(text: &str, at: usize, first: Piece) -> Name
    requires { names.IsPiece is_identifier_start text.now at first }
    ensures { names.IsName text.now at result }
{
    let mut letters = with_letter(NO_LETTERS, first.code_point);
    let mut end = first.end;
    let mut escaped = first.escaped;
    'pieces: while let Some(piece) = piece_at(text, end, Position::Part) {
        letters = with_letter(letters, piece.code_point);
        end = piece.end;
        escaped = escaped || piece.escaped;
    }
    Name {
        kind: kind_of_letters(letters),
        end,
        escaped,
    }
}

/// Letters and one code point more.
fn with_letter(before: Letters, code_point: u32) -> Letters
    requires { before.len ≤ 11 }
    ensures { (ps : List ℕ) → names.Holds before ps → names.Holds result (ps ++ code_point ∷ []) }
{
    if before.is_other || code_point >= 128 || before.len == before.letters.len() {
        return Letters {
            is_other: true,
            ..before
        };
    }
    let mut letters = before.letters;
    letters[before.len] = code_point as u8;
    Letters {
        letters,
        len: before.len + 1,
        is_other: false,
    }
}

/// The kind of the word that the letters are.
fn kind_of_letters(letters: Letters) -> Kind
    requires { letters.len ≤ 11 }
    ensures { (ps : List ℕ) → names.Holds letters ps → result ≡ keyword_of ps }
{
    if letters.is_other {
        Kind::Ident
    } else {
        kind_of_word(&letters.letters[..letters.len])
    }
}

/// The character or the escape sequence at a place, if its code point may stand there in a name.
fn piece_at(text: &str, at: usize, position: Position) -> Option<Piece>
    requires { IsCharBoundary text.now at }
    ensures { MatchOption result (names.NoFrontPasses (names.may_stand position) (behind text.now at)) (λ p. names.IsPiece (names.may_stand position) text.now at p) }
{
    if is_at(text, at, b'\\') {
        return escaped_piece(text, at, position);
    }
    match next_character(text, at) {
        Some(next) if may_stand(next.value, position) => Some(Piece {
            code_point: next.value as u32,
            end: next.end,
            escaped: false,
        }),
        _ => None,
    }
}

/// An escape sequence, if the code point that it names may stand in a name.
fn escaped_piece(text: &str, at: usize, position: Position) -> Option<Piece>
    requires { Word text.now at (at + 1) (92 ∷ []) }
    ensures { MatchOption result (names.NoFrontPasses (names.may_stand position) (behind text.now at)) (λ p. names.IsPiece (names.may_stand position) text.now at p) }
{
    match escape_at(text, at) {
        Some(escape) if may_code_point_stand(escape.code_point, position) => Some(Piece {
            code_point: escape.code_point,
            end: escape.end,
            escaped: true,
        }),
        _ => None,
    }
}

/// Whether a character may stand in a name.
fn may_stand(c: char, position: Position) -> bool
    ensures { result ≡ names.may_stand position c }
{
    match position {
        Position::Start => class::is_identifier_start(c),
        Position::Part => class::is_identifier_part(c),
    }
}

/// Whether a code point may stand in a name; a surrogate may not.
fn may_code_point_stand(code_point: u32, position: Position) -> bool
    ensures { result ≡ names.may_stand position code_point }
{
    match char::from_u32(code_point) {
        Some(c) => may_stand(c, position),
        None => false,
    }
}

/// The escape sequence that begins with the backslash at a place (UnicodeEscapeSequence, ECMA-262, section 12.9.4).
fn escape_at(text: &str, at: usize) -> Option<Escape>
    requires { Word text.now at (at + 1) (92 ∷ []) }
    ensures { MatchOption result ((test : ℕ → Bool) → names.NoFrontPasses test (behind text.now at)) (λ e. names.IsEscape text.now at e) }
{
    if !is_at(text, at + 1, b'u') {
        return None;
    }
    let mut end = at + 2;
    let mut escape = CodePointEscape::Unicode;
    'escape: loop {
        match byte_at(text, end) {
            Some(byte) => match escape.step(byte as char) {
                CodePointStep::Goes(next) => {
                    escape = next;
                    end += 1;
                }
                CodePointStep::Names(code_point) => {
                    return Some(Escape {
                        code_point,
                        end: end + 1,
                    });
                }
                CodePointStep::Fails => return None,
            },
            None => return None,
        }
    }
}
