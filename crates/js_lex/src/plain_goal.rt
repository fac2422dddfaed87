//! The plain lexical goal: InputElementDiv (ECMA-262, chapter 12).

ghost use Rattle.std.specs.Prelude.{◌≡◌, ◌<◌, ◌≤◌, Bool, IsTrue, IfSome, IsCharBoundary, codes};
ghost use Rattle.part_words.specs.js_grammar.Longest.{none_begins};
ghost use Rattle.part_words.specs.js_grammar.Trivia.{is_trivia_piece};
ghost use Rattle.js_base.specs.part_text.Characters.{one_of};
ghost use Rattle.part_words.specs.js_grammar.Lexemes.{division};
ghost use Rattle.js_lex.specs.TriviaPassed.{NoTrivia};
ghost use Rattle.part_words.specs.js_grammar.Lexemes as lexemes;
ghost use Rattle.part_words.specs.js_grammar.LexicalFaults.{behind};
ghost use Rattle.part_words.specs.Scans.{Scans, IsScanned};
ghost use Rattle.js_lex.specs.Openings.{end_at, opening_told};

use js_base::Kind;
use part_scan::number::number_at;
use part_scan::punctuator::{lone_at, punctuator_at};
use part_scan::string::string_at;
use part_scan::template::template_at;
use part_words::byte_class::{ByteClass, class_of};
use part_words::character::next_character;
use part_words::class::is_identifier_start;
use part_words::name::{ascii_name_at, name_at, private_name_at};
use part_words::place::{byte_at, digit_at};
use part_words::scan::{Scan, Scanned};

/// What a character begins.
#[derive(Clone, Copy)]
enum Opening {
    Name,
    Number,
    String,
    Template,
    PrivateName,
    Punctuator,
}

/// The lexeme of the plain goal that stands at a place, where its first bytes tell that it is one of the frequent ones:
/// a name of ASCII characters, or a punctuator of one character with which neither a comment nor a longer one begins.
#[inline(always)]
pub(crate) fn frequent_at(text: &str, at: usize) -> Option<Scanned>
    requires { IsCharBoundary text.now at }
    ensures lexeme { IfSome result (λ s. IsScanned division text.now at s) }
    ensures no_trivia { IfSome result (λ s. NoTrivia text.now at) }
{
    let byte = byte_at(text, at)?;
    if class_of(byte).is_letter() {
        ascii_name_at(text, at)
    } else if may_begin_comment(byte) {
        None
    } else {
        lone_at(text, at, byte)
    }
}

/// Whether a comment may begin with a byte.
#[inline(always)]
fn may_begin_comment(byte: u8) -> bool
    ensures { result ≡ one_of (codes "/<-") byte }
{
    byte == b'/' || byte == b'<' || byte == b'-'
}

/// The lexeme of the plain goal that stands at a place, where no trivia does. Of the punctuators that begin with `>` it
/// is the longest one.
#[inline(never)]
pub(crate) fn plain_at(text: &str, at: usize) -> Scan
    requires boundary { IsCharBoundary text.now at }
    requires no_trivia { (first : Bool) × IsTrue (none_begins (is_trivia_piece first) (behind text.now at)) }
    ensures { Scans division text.now at result }
{
    let Some(first) = next_character(text, at) else {
        return Ok(end_of_text(at));
    };
    let before_digit = first.value == '.' && digit_at(text, first.end, 10);
    match opening_of(first.value, before_digit) {
        Opening::Name => name_at(text, at),
        Opening::Number => number_at(text, at),
        Opening::String => string_at(text, at),
        Opening::Template => template_at(text, at),
        Opening::PrivateName => private_name_at(text, at),
        Opening::Punctuator => punctuator_at(text, at),
    }
}

/// The end of the text.
fn end_of_text(at: usize) -> Scanned
    ensures { result ≡ end_at at }
{
    Scanned {
        kind: Kind::Eof,
        end: at,
        escaped: false,
        has_separator: false,
    }
}

/// What a character begins, a dot before a digit or not.
#[inline]
fn opening_of(c: char, before_digit: bool) -> Opening
    ensures { opening_told result ≡ lexemes.opening c before_digit }
{
    if c.is_ascii() {
        ascii_opening(c as u8, before_digit)
    } else {
        high_opening(c)
    }
}

/// What an ASCII character begins, a dot before a digit or not.
#[inline]
fn ascii_opening(byte: u8, before_digit: bool) -> Opening
    requires { byte < 128 }
    ensures { opening_told result ≡ lexemes.opening byte before_digit }
{
    match class_of(byte) {
        ByteClass::Letter | ByteClass::Backslash => Opening::Name,
        ByteClass::Digit => Opening::Number,
        ByteClass::Quote => Opening::String,
        ByteClass::Backquote => Opening::Template,
        ByteClass::Hash => Opening::PrivateName,
        ByteClass::Dot if before_digit => Opening::Number,
        ByteClass::Dot
        | ByteClass::Alone
        | ByteClass::Sign
        | ByteClass::Blank
        | ByteClass::Control
        | ByteClass::Angle
        | ByteClass::Star
        | ByteClass::Solidus
        | ByteClass::LineEnd
        | ByteClass::High => Opening::Punctuator,
    }
}

/// What a character above ASCII begins.
fn high_opening(c: char) -> Opening
    requires { 128 ≤ c }
    ensures { (digit : Bool) → opening_told result ≡ lexemes.opening c digit }
{
    if is_identifier_start(c) {
        Opening::Name
    } else {
        Opening::Punctuator
    }
}
