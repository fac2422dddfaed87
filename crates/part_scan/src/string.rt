//! String literals (ECMA-262, section 12.9.4).

ghost use Rattle.std.specs.Prelude.{◌≡◌, ◌<◌, ◌∷◌, [], true, false, IsCharBoundary};
ghost use Rattle.js_base.specs.part_text.Characters.{one_of};
ghost use Rattle.js_base.specs.declared.kind.Kind.TheVariants.{Str};
ghost use Rattle.part_words.specs.js_grammar.Characters.{begins};
ghost use Rattle.part_words.specs.js_grammar.LexicalFaults.{behind};
ghost use Rattle.part_words.specs.js_grammar.Lexemes.{division};
ghost use Rattle.part_words.specs.Places.{Peeks};
ghost use Rattle.part_words.specs.Scans.{Scans};
ghost use Rattle.part_scan.specs.Strings.{IsInner, Passes, OneCharacter, Escapes, EndsLine, IsInside, StandsBetween};

use js_base::{DiagnosticKind, Kind, invalid_escape};
use part_words::character::character_of;
use part_words::part::parts_end;
use part_words::place::byte_at;
use part_words::scan::{Fault, Scan, Scanned};

/// The inside of a string, as far as it goes.
#[derive(Clone, Copy)]
struct Inside {
    /// The place behind it.
    end: usize,
    /// Whether the closing quote stands there.
    is_closed: bool,
    /// Whether a backslash is in it.
    has_backslash: bool,
}

/// The string literal at a place, where a quote stands. Without another such quote on its line it is unterminated; an
/// escape in it that is ill-formed is a fault, too (ECMA-262, section 12.9.4).
pub fn string_at(text: &str, at: usize) -> Scan
    requires boundary { IsCharBoundary text.now at }
    requires quote { begins (one_of (34 ∷ 39 ∷ [])) (behind text.now at) ≡ true }
    ensures { Scans division text.now at result }
{
    let Some(quote) = byte_at(text, at) else {
        unreachable!()
    };
    let inside = inside_at(text, at + 1, quote);
    if !inside.is_closed {
        return Err(Fault {
            kind: DiagnosticKind::UnterminatedString,
            start: at,
            end: inside.end,
        });
    }
    if inside.has_backslash {
        escaped_string(text, at, inside.end)
    } else {
        Ok(string_to(inside.end + 1))
    }
}

/// A string literal that ends at a place.
fn string_to(end: usize) -> Scanned
    ensures kind { result.kind ≡ Str }
    ensures end { result.end ≡ end }
    ensures escaped { result.escaped ≡ false }
    ensures separated { result.has_separator ≡ false }
{
    Scanned {
        kind: Kind::Str,
        end,
        escaped: false,
        has_separator: false,
    }
}

/// The inside of a string from a place on, up to its closing quote, or to the end of the line or of the text.
fn inside_at(text: &str, at: usize, quote: u8) -> Inside
    requires boundary { IsCharBoundary text.now at }
    requires quote { one_of (34 ∷ 39 ∷ []) quote ≡ true }
    ensures { IsInside quote text.now at result }
{
    let mut end = at;
    let mut has_backslash = false;
    'inside: while let Some(byte) = byte_at(text, end) {
        if byte == quote {
            return Inside {
                end,
                is_closed: true,
                has_backslash,
            };
        }
        if byte == b'\n' || byte == b'\r' {
            break;
        }
        has_backslash |= byte == b'\\';
        end = passed_end(text, end, byte, quote);
    }
    Inside {
        end,
        is_closed: false,
        has_backslash,
    }
}

/// The place behind that with which the inside of a string goes on: a character, or a backslash and what stands behind
/// it.
#[inline]
fn passed_end(text: &str, at: usize, byte: u8, quote: u8) -> usize
    requires boundary { IsCharBoundary text.now at }
    requires byte { Peeks text.now at byte }
    requires quote { one_of (34 ∷ 39 ∷ []) quote ≡ true }
    requires inner { IsInner quote byte }
    ensures passes { Passes quote text.now at byte result }
    ensures ordered { at < result }
{
    if byte == b'\\' {
        escaped_end(text, at + 1)
    } else {
        character_end(text, at, byte)
    }
}

/// The place behind the character that begins with a byte.
#[inline]
fn character_end(text: &str, at: usize, byte: u8) -> usize
    requires boundary { IsCharBoundary text.now at }
    requires byte { Peeks text.now at byte }
    ensures { OneCharacter text.now at byte result }
{
    character_of(text, at, byte).end
}

/// The place behind what a backslash directly before a place escapes: a character, or CR LF, which counts as one
/// (ECMA-262, section 12.3).
fn escaped_end(text: &str, at: usize) -> usize
    requires { IsCharBoundary text.now at }
    ensures { Escapes text.now at result }
{
    match byte_at(text, at) {
        None => at,
        Some(b'\r') => line_feed_end(text, at + 1),
        Some(byte) => character_end(text, at, byte),
    }
}

/// The place behind the LF at a place, if one stands there.
fn line_feed_end(text: &str, at: usize) -> usize
    requires { IsCharBoundary text.now at }
    ensures { EndsLine text.now at result }
{
    match byte_at(text, at) {
        Some(b'\n') => at + 1,
        _ => at,
    }
}

/// The string literal up to a closing quote, unless an escape in its inside is ill-formed.
fn escaped_string(text: &str, at: usize, end: usize) -> Scan
    requires { StandsBetween text.now at end }
    ensures { Scans division text.now at result }
{
    match invalid_escape(&text[at + 1..end]) {
        None => Ok(string_to(end + 1)),
        Some(escape) => {
            let start = at + 1 + escape.start;
            Err(Fault {
                kind: DiagnosticKind::InvalidEscape,
                start,
                end: parts_end(text, start + 1, false),
            })
        }
    }
}
