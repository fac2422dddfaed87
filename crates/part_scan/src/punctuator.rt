//! Punctuators (ECMA-262, section 12.8), and characters at which no token begins.

ghost use Rattle.std.specs.Prelude.{◌≡◌, ◌+◌, true, false, [], ◌∷◌, Some, IfSome, IsCharBoundary, IsTrue, codes};
ghost use Rattle.js_base.specs.part_text.Characters.{one_of};
ghost use Rattle.part_words.specs.js_grammar.CoreTexts.{starts};
ghost use Rattle.part_words.specs.js_grammar.LexicalFaults.{behind};
ghost use Rattle.part_words.specs.js_grammar.Lexemes.{division};
ghost use Rattle.part_words.specs.Places.{Word, Peeks};
ghost use Rattle.part_scan.specs.Punctuators.{punctuator_of, OpensPunctuator, BeginsNone, begins_no_comment, opens_no_comment, is_free, IsPunctuator, ReadsPunctuator, StandsAlone, EndsSign};
ghost use Rattle.part_words.specs.Scans.{Scans, IsScanned, IsStopped};

use js_base::Kind::*;
use js_base::{DiagnosticKind, Kind};
use part_words::byte_class::class_of;
use part_words::character::next_character;
use part_words::place::{byte_at, digit_at, is_at};
use part_words::scan::{Fault, Scan, Scanned};

/// A punctuator at a place.
#[derive(Clone, Copy)]
struct Punctuator {
    kind: Kind,
    /// The place behind it.
    end: usize,
}

/// The longest punctuator (12.8), or `@`, at a place at which no comment begins that ends.
pub fn punctuator_at(text: &str, at: usize) -> Scan
    requires boundary { IsCharBoundary text.now at }
    requires opens { OpensPunctuator (behind text.now at) }
    requires no_comment { begins_no_comment (behind text.now at) ≡ true }
    ensures { Scans division text.now at result }
{
    if opens_comment(text, at) {
        return Err(Fault {
            kind: DiagnosticKind::UnterminatedComment,
            start: at,
            end: text.len(),
        });
    }
    match read_punctuator(text, at) {
        Some(punctuator) => Ok(Scanned {
            kind: punctuator.kind,
            end: punctuator.end,
            escaped: false,
            has_separator: false,
        }),
        None => Err(stray_at(text, at)),
    }
}

/// The punctuator of one character at a place where no longer one begins; none where that is not known at once.
#[inline(always)]
pub fn lone_at(text: &str, at: usize, byte: u8) -> Option<Scanned>
    requires { Peeks text.now at byte }
    ensures lexeme { IfSome result (λ s. IsScanned division text.now at s) }
    ensures written { IfSome result (λ s. punctuator_of (byte ∷ []) ≡ Some s.kind) }
{
    let kind = single(byte)?;
    if stands_alone(text, at, byte) {
        Some(Scanned {
            kind,
            end: at + 1,
            escaped: false,
            has_separator: false,
        })
    } else {
        None
    }
}

/// Whether it is known at once that a punctuator of one character is the longest one at a place.
#[inline(always)]
fn stands_alone(text: &str, at: usize, byte: u8) -> bool
    requires { Word text.now at (at + 1) (byte ∷ []) }
    ensures { IsTrue result → StandsAlone text.now at byte }
{
    class_of(byte).is_alone() || ends_sign_at(text, at + 1)
}

/// Whether it is known at once that a punctuator of one character ends at a place behind it.
#[inline(always)]
fn ends_sign_at(text: &str, at: usize) -> bool
    requires { IsCharBoundary text.now at }
    ensures { IsTrue result → EndsSign text.now at }
{
    match byte_at(text, at) {
        Some(byte) => class_of(byte).ends_sign(),
        None => true,
    }
}

/// The longest punctuator at a place, or none where no punctuator begins with the character there.
fn read_punctuator(text: &str, at: usize) -> Option<Punctuator>
    requires boundary { IsCharBoundary text.now at }
    requires opens { OpensPunctuator (behind text.now at) }
    requires no_comment { opens_no_comment (behind text.now at) ≡ true }
    ensures { ReadsPunctuator text.now at result }
{
    match byte_at(text, at) {
        Some(b'.') => Some(dots_at(text, at)),
        Some(b'?') => Some(question_at(text, at)),
        Some(b'/') => Some(slash_at(text, at)),
        Some(first) => other_punctuator(text, at, first),
        None => None,
    }
}

/// The longest punctuator that begins with a byte at a place, or none where none does.
#[inline]
fn other_punctuator(text: &str, at: usize, first: u8) -> Option<Punctuator>
    requires boundary { IsCharBoundary text.now at }
    requires first { Peeks text.now at first }
    requires free { one_of (46 ∷ 47 ∷ 63 ∷ []) first ≡ false }
    ensures { ReadsPunctuator text.now at result }
{
    match single(first) {
        Some(kind) => Some(longer_than_one(text, at, first, kind)),
        None => None,
    }
}

/// Whether MultiLineComment (12.4) is begun at a place.
fn opens_comment(text: &str, at: usize) -> bool
    requires { IsCharBoundary text.now at }
    ensures { result ≡ starts (codes "/*") (behind text.now at) }
{
    is_at(text, at, b'/') && is_at(text, at + 1, b'*')
}

/// The fault of a character that no lexeme begins with.
fn stray_at(text: &str, at: usize) -> Fault
    requires boundary { IsCharBoundary text.now at }
    requires opens { OpensPunctuator (behind text.now at) }
    requires none { BeginsNone (behind text.now at) }
    ensures { IsStopped division text.now at result }
{
    match next_character(text, at) {
        Some(next) if next.value == '\u{fffd}' => Fault {
            kind: DiagnosticKind::BinaryFile,
            start: at,
            end: next.end,
        },
        Some(next) => Fault {
            kind: DiagnosticKind::InvalidCharacter,
            start: at,
            end: next.end,
        },
        None => unreachable!(),
    }
}

/// `.` or `...`.
fn dots_at(text: &str, at: usize) -> Punctuator
    requires { Word text.now at (at + 1) (46 ∷ []) }
    ensures { IsPunctuator text.now at result }
{
    if is_at(text, at + 1, b'.') && is_at(text, at + 2, b'.') {
        Punctuator {
            kind: Kind::Dot3,
            end: at + 3,
        }
    } else {
        Punctuator {
            kind: Kind::Dot,
            end: at + 1,
        }
    }
}

/// `?`, `?.` before no digit, `??` or `??=`.
fn question_at(text: &str, at: usize) -> Punctuator
    requires { Word text.now at (at + 1) (63 ∷ []) }
    ensures { IsPunctuator text.now at result }
{
    if is_at(text, at + 1, b'?') {
        longer_than_two(text, at, b'?', b'?', Kind::Question2)
    } else if is_at(text, at + 1, b'.') && !digit_at(text, at + 2, 10) {
        Punctuator {
            kind: Kind::QuestionDot,
            end: at + 2,
        }
    } else {
        Punctuator {
            kind: Kind::Question,
            end: at + 1,
        }
    }
}

/// `/` or `/=`.
fn slash_at(text: &str, at: usize) -> Punctuator
    requires word { Word text.now at (at + 1) (47 ∷ []) }
    requires no_comment { opens_no_comment (behind text.now at) ≡ true }
    ensures { IsPunctuator text.now at result }
{
    if is_at(text, at + 1, b'=') {
        Punctuator {
            kind: Kind::SlashEq,
            end: at + 2,
        }
    } else {
        Punctuator {
            kind: Kind::Slash,
            end: at + 1,
        }
    }
}

/// The longest punctuator that begins with one of one character.
fn longer_than_one(text: &str, at: usize, first: u8, kind: Kind) -> Punctuator
    requires word { Word text.now at (at + 1) (first ∷ []) }
    requires kind { punctuator_of (first ∷ []) ≡ Some kind }
    requires free { one_of (46 ∷ 47 ∷ 63 ∷ []) first ≡ false }
    ensures { IsPunctuator text.now at result }
{
    let alone = Punctuator { kind, end: at + 1 };
    match byte_at(text, at + 1) {
        Some(second) => match double(first, second) {
            Some(longer) => longer_than_two(text, at, first, second, longer),
            None => alone,
        },
        None => alone,
    }
}

/// The longest punctuator that begins with one of two characters.
fn longer_than_two(text: &str, at: usize, first: u8, second: u8, kind: Kind) -> Punctuator
    requires word { Word text.now at (at + 2) (first ∷ second ∷ []) }
    requires kind { punctuator_of (first ∷ second ∷ []) ≡ Some kind }
    requires free { IsTrue (is_free (first ∷ second ∷ [])) }
    ensures { IsPunctuator text.now at result }
{
    let alone = Punctuator { kind, end: at + 2 };
    match byte_at(text, at + 2) {
        Some(third) => match triple(first, second, third) {
            Some(longer) => longer_than_three(text, at, first, second, third, longer),
            None => alone,
        },
        None => alone,
    }
}

/// The longest punctuator that begins with one of three characters.
fn longer_than_three(
    text: &str,
    at: usize,
    first: u8,
    second: u8,
    third: u8,
    kind: Kind,
) -> Punctuator
    requires word { Word text.now at (at + 3) (first ∷ second ∷ third ∷ []) }
    requires kind { punctuator_of (first ∷ second ∷ third ∷ []) ≡ Some kind }
    requires free { IsTrue (is_free (first ∷ second ∷ third ∷ [])) }
    ensures { IsPunctuator text.now at result }
{
    let alone = Punctuator { kind, end: at + 3 };
    match byte_at(text, at + 3) {
        Some(fourth) => match quadruple(first, second, third, fourth) {
            Some(longer) => Punctuator {
                kind: longer,
                end: at + 4,
            },
            None => alone,
        },
        None => alone,
    }
}

/// The punctuators that are written as one character.
static SINGLES: [Option<Kind>; 256] = [
    None,
    None,
    None,
    None,
    None,
    None,
    None,
    None,
    None,
    None,
    None,
    None,
    None,
    None,
    None,
    None,
    None,
    None,
    None,
    None,
    None,
    None,
    None,
    None,
    None,
    None,
    None,
    None,
    None,
    None,
    None,
    None,
    None,
    Some(Bang),
    None,
    None,
    None,
    Some(Percent),
    Some(Amp),
    None,
    Some(LParen),
    Some(RParen),
    Some(Star),
    Some(Plus),
    Some(Comma),
    Some(Minus),
    Some(Dot),
    Some(Slash),
    None,
    None,
    None,
    None,
    None,
    None,
    None,
    None,
    None,
    None,
    Some(Colon),
    Some(Semicolon),
    Some(LAngle),
    Some(Eq),
    Some(RAngle),
    Some(Question),
    Some(At),
    None,
    None,
    None,
    None,
    None,
    None,
    None,
    None,
    None,
    None,
    None,
    None,
    None,
    None,
    None,
    None,
    None,
    None,
    None,
    None,
    None,
    None,
    None,
    None,
    None,
    None,
    Some(LBrack),
    None,
    Some(RBrack),
    Some(Caret),
    None,
    None,
    None,
    None,
    None,
    None,
    None,
    None,
    None,
    None,
    None,
    None,
    None,
    None,
    None,
    None,
    None,
    None,
    None,
    None,
    None,
    None,
    None,
    None,
    None,
    None,
    None,
    None,
    Some(LCurly),
    Some(Pipe),
    Some(RCurly),
    Some(Tilde),
    None,
    None,
    None,
    None,
    None,
    None,
    None,
    None,
    None,
    None,
    None,
    None,
    None,
    None,
    None,
    None,
    None,
    None,
    None,
    None,
    None,
    None,
    None,
    None,
    None,
    None,
    None,
    None,
    None,
    None,
    None,
    None,
    None,
    None,
    None,
    None,
    None,
    None,
    None,
    None,
    None,
    None,
    None,
    None,
    None,
    None,
    None,
    None,
    None,
    None,
    None,
    None,
    None,
    None,
    None,
    None,
    None,
    None,
    None,
    None,
    None,
    None,
    None,
    None,
    None,
    None,
    None,
    None,
    None,
    None,
    None,
    None,
    None,
    None,
    None,
    None,
    None,
    None,
    None,
    None,
    None,
    None,
    None,
    None,
    None,
    None,
    None,
    None,
    None,
    None,
    None,
    None,
    None,
    None,
    None,
    None,
    None,
    None,
    None,
    None,
    None,
    None,
    None,
    None,
    None,
    None,
    None,
    None,
    None,
    None,
    None,
    None,
    None,
    None,
    None,
    None,
    None,
    None,
    None,
    None,
    None,
    None,
    None,
    None,
    None,
    None,
    None,
    None,
    None,
];

/// The punctuator that is written as one character.
#[inline(always)]
fn single(byte: u8) -> Option<Kind>
    ensures { result ≡ punctuator_of (byte ∷ []) }
{
    SINGLES[byte as usize]
}

/// The punctuator that is written as two characters.
#[tactic(auto, unfolding(js_base::specs::Texts::punctuators))]
fn double(first: u8, second: u8) -> Option<Kind>
    ensures { result ≡ punctuator_of (first ∷ second ∷ []) }
{
    match (first, second) {
        (_, b'=') => with_equals_sign(first),
        (b'=', b'>') => Some(Kind::Arrow),
        (b'?', b'.') => Some(Kind::QuestionDot),
        (b'?', b'?') => Some(Kind::Question2),
        (b'+', b'+') => Some(Kind::Plus2),
        (b'-', b'-') => Some(Kind::Minus2),
        (b'*', b'*') => Some(Kind::Star2),
        (b'<', b'<') => Some(Kind::ShiftLeft),
        (b'>', b'>') => Some(Kind::ShiftRight),
        (b'&', b'&') => Some(Kind::Amp2),
        (b'|', b'|') => Some(Kind::Pipe2),
        _ => None,
    }
}

/// The punctuator that is written as a character and `=`.
#[tactic(auto, unfolding(js_base::specs::Texts::punctuators))]
fn with_equals_sign(first: u8) -> Option<Kind>
    ensures { result ≡ punctuator_of (first ∷ 61 ∷ []) }
{
    match first {
        b'+' => Some(Kind::PlusEq),
        b'-' => Some(Kind::MinusEq),
        b'*' => Some(Kind::StarEq),
        b'/' => Some(Kind::SlashEq),
        b'%' => Some(Kind::PercentEq),
        b'=' => Some(Kind::Eq2),
        b'!' => Some(Kind::Neq),
        b'<' => Some(Kind::LtEq),
        b'>' => Some(Kind::GtEq),
        b'&' => Some(Kind::AmpEq),
        b'|' => Some(Kind::PipeEq),
        b'^' => Some(Kind::CaretEq),
        _ => None,
    }
}

/// The punctuator that is written as three characters.
#[tactic(auto, unfolding(js_base::specs::Texts::punctuators))]
fn triple(first: u8, second: u8, third: u8) -> Option<Kind>
    ensures { result ≡ punctuator_of (first ∷ second ∷ third ∷ []) }
{
    match (first, second, third) {
        (b'.', b'.', b'.') => Some(Kind::Dot3),
        (b'>', b'>', b'>') => Some(Kind::ShiftRight3),
        (b'>', b'>', b'=') => Some(Kind::ShiftRightEq),
        (b'<', b'<', b'=') => Some(Kind::ShiftLeftEq),
        (b'=', b'=', b'=') => Some(Kind::Eq3),
        (b'!', b'=', b'=') => Some(Kind::Neq2),
        (b'*', b'*', b'=') => Some(Kind::Star2Eq),
        (b'&', b'&', b'=') => Some(Kind::Amp2Eq),
        (b'|', b'|', b'=') => Some(Kind::Pipe2Eq),
        (b'?', b'?', b'=') => Some(Kind::Question2Eq),
        _ => None,
    }
}

/// The punctuator that is written as four characters.
#[tactic(auto, unfolding(js_base::specs::Texts::punctuators))]
fn quadruple(first: u8, second: u8, third: u8, fourth: u8) -> Option<Kind>
    ensures { result ≡ punctuator_of (first ∷ second ∷ third ∷ fourth ∷ []) }
{
    match (first, second, third, fourth) {
        (b'>', b'>', b'>', b'=') => Some(Kind::ShiftRight3Eq),
        _ => None,
    }
}
