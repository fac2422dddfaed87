//! Numbers (ECMA-262, section 12.9.3), outside strict mode.

ghost use Rattle.std.specs.Prelude.{◌≡◌, ◌≤◌, ◌<◌, ◌==◌, true, false, IsCharBoundary, IfErr};
ghost use Rattle.js_base.specs.part_text.Characters.{is_decimal};
ghost use Rattle.js_base.specs.declared.diagnostic.DiagnosticKind.TheVariants.{InvalidNumber};
ghost use Rattle.js_base.specs.declared.kind.Kind.TheVariants.{Float};
ghost use Rattle.part_words.specs.js_grammar.Characters.{begins};
ghost use Rattle.part_words.specs.js_grammar.LexicalFaults.{behind};
ghost use Rattle.part_words.specs.js_grammar.Lexemes.{division};
ghost use Rattle.part_words.specs.js_grammar.Numbers.{stops_number, number_kind, zero_rest, integer_rest, decimal_rest, fraction, exponent, signed, digits, suffix, ends};
ghost use Rattle.part_words.specs.Places.{in_radix};
ghost use Rattle.part_scan.specs.Numbers.{begins_number, AreDigits, AreLegacy, Reads};
ghost use Rattle.part_words.specs.Faults.{PartsEnd};
ghost use Rattle.part_words.specs.Scans.{Scans};

use js_base::{DiagnosticKind, Kind};
use part_words::character::next_character;
use part_words::class::is_identifier_start;
use part_words::part::parts_end;
use part_words::place::{digit_at, is_at, is_either_at};
use part_words::scan::{Fault, Scan, Scanned};

/// A number, or what is left of one at a place.
#[derive(Clone, Copy)]
struct Number {
    kind: Kind,
    /// The place behind it.
    end: usize,
    /// Whether a separator is in it.
    has_separator: bool,
}

/// The longest number, or the place at which one that is begun lacks a digit.
type Reading = Result<Number, usize>;

/// Digits and separators as far as they go on.
#[derive(Clone, Copy)]
struct Digits {
    /// The place behind them.
    end: usize,
    /// Whether a digit stands directly before the end.
    complete: bool,
    /// Whether a separator is among them.
    has_separator: bool,
}

/// The digits behind a `0` as far as they go on.
#[derive(Clone, Copy)]
struct Legacy {
    /// The place behind them.
    end: usize,
    /// Whether an 8 or 9 is among them.
    above: bool,
}

/// NumericLiteral (12.9.3) at a place, with which no digit, no name and no backslash is joined.
pub fn number_at(text: &str, at: usize) -> Scan
    requires boundary { IsCharBoundary text.now at }
    requires begun { begins_number (behind text.now at) ≡ true }
    ensures { Scans division text.now at result }
{
    match read_number(text, at) {
        Ok(number) => {
            if stops_at(text, number.end) {
                Ok(Scanned {
                    kind: number.kind,
                    end: number.end,
                    escaped: false,
                    has_separator: number.has_separator,
                })
            } else {
                Err(invalid_number(text, at))
            }
        }
        Err(_) => Err(invalid_number(text, at)),
    }
}

/// The fault of a number that doesn't stop, as far as characters of a name and dots go on.
fn invalid_number(text: &str, start: usize) -> Fault
    requires { IsCharBoundary text.now start }
    ensures kind { result.kind ≡ InvalidNumber }
    ensures start { result.start ≡ start }
    ensures end { PartsEnd true text.now start result.end }
{
    Fault {
        kind: DiagnosticKind::InvalidNumber,
        start,
        end: parts_end(text, start, true),
    }
}

/// Whether a number stops before a place: no digit, no IdentifierStart and no backslash stands there (12.9.3).
fn stops_at(text: &str, at: usize) -> bool
    requires { IsCharBoundary text.now at }
    ensures { result ≡ stops_number (behind text.now at) }
{
    match next_character(text, at) {
        Some(next) => {
            !(next.value.is_ascii_digit() || next.value == '\\' || is_identifier_start(next.value))
        }
        None => true,
    }
}

/// NumericLiteral (12.9.3), the longest at a place.
fn read_number(text: &str, at: usize) -> Reading
    requires boundary { IsCharBoundary text.now at }
    requires begun { begins_number (behind text.now at) ≡ true }
    ensures reads { Reads number_kind false text.now at result }
    ensures ordered { IfErr result (λ end. at < end) }
{
    if is_at(text, at, b'.') {
        read_fraction_digits(text, at + 1, false)
    } else if is_at(text, at, b'0') {
        read_zero_rest(text, at + 1)
    } else {
        read_integer(text, at)
    }
}

/// What may stand behind a `0` that begins a number.
fn read_zero_rest(text: &str, at: usize) -> Reading
    requires { IsCharBoundary text.now at }
    ensures { Reads zero_rest false text.now at result }
{
    if digit_at(text, at, 10) {
        read_legacy(text, at)
    } else if is_either_at(text, at, b'X', b'x') {
        read_in_radix(text, at + 1, 16, Kind::Hex, Kind::HexBigInt)
    } else if is_either_at(text, at, b'O', b'o') {
        read_in_radix(text, at + 1, 8, Kind::Octal, Kind::OctalBigInt)
    } else if is_either_at(text, at, b'B', b'b') {
        read_in_radix(text, at + 1, 2, Kind::Binary, Kind::BinaryBigInt)
    } else {
        read_integer_rest(text, at, false)
    }
}

/// LegacyOctalIntegerLiteral, and NonOctalDecimalIntegerLiteral with its rest (12.9.3), behind their `0`.
fn read_legacy(text: &str, at: usize) -> Reading
    requires boundary { IsCharBoundary text.now at }
    requires digit { begins is_decimal (behind text.now at) ≡ true }
    ensures { Reads zero_rest false text.now at result }
{
    let digits = legacy_digits_at(text, at);
    if digits.above {
        read_decimal_rest(text, digits.end, false)
    } else {
        Ok(Number {
            kind: Kind::Octal,
            end: digits.end,
            has_separator: false,
        })
    }
}

/// The digits of a radix behind its prefix, and BigIntLiteralSuffix or nothing (12.9.3).
fn read_in_radix(text: &str, at: usize, radix: u32, kind: Kind, big: Kind) -> Reading
    requires boundary { IsCharBoundary text.now at }
    requires radix { 2 ≤ radix }
    requires radix_within { radix ≤ 16 }
    ensures { Reads (digits (in_radix radix) (suffix kind big) false) false text.now at result }
{
    let digits = digits_at(text, at, radix);
    if digits.complete {
        read_suffix(text, digits.end, kind, big, digits.has_separator)
    } else {
        Err(digits.end)
    }
}

/// BigIntLiteralSuffix or nothing (12.9.3).
fn read_suffix(text: &str, at: usize, kind: Kind, big: Kind, separated: bool) -> Reading
    requires { IsCharBoundary text.now at }
    ensures { Reads (suffix kind big) separated text.now at result }
{
    if is_at(text, at, b'n') {
        Ok(Number {
            kind: big,
            end: at + 1,
            has_separator: separated,
        })
    } else {
        Ok(Number {
            kind,
            end: at,
            has_separator: separated,
        })
    }
}

/// A number that begins with a digit, and not with `0` (12.9.3).
fn read_integer(text: &str, at: usize) -> Reading
    requires boundary { IsCharBoundary text.now at }
    requires digit { begins is_decimal (behind text.now at) ≡ true }
    ensures reads { Reads (digits is_decimal integer_rest false) false text.now at result }
    ensures ordered { IfErr result (λ end. at < end) }
{
    let digits = digits_at(text, at, 10);
    if digits.complete {
        read_integer_rest(text, digits.end, digits.has_separator)
    } else {
        Err(digits.end)
    }
}

/// What may stand behind a DecimalIntegerLiteral, with BigIntLiteralSuffix (12.9.3).
fn read_integer_rest(text: &str, at: usize, separated: bool) -> Reading
    requires { IsCharBoundary text.now at }
    ensures { Reads integer_rest separated text.now at result }
{
    if is_at(text, at, b'n') {
        Ok(Number {
            kind: Kind::DecimalBigInt,
            end: at + 1,
            has_separator: separated,
        })
    } else {
        read_decimal_rest(text, at, separated)
    }
}

/// What may stand behind a DecimalIntegerLiteral (12.9.3).
fn read_decimal_rest(text: &str, at: usize, separated: bool) -> Reading
    requires { IsCharBoundary text.now at }
    ensures { Reads decimal_rest separated text.now at result }
{
    if is_at(text, at, b'.') {
        read_fraction(text, at + 1, separated)
    } else {
        read_exponent(text, at, Kind::Decimal, separated)
    }
}

/// What may stand behind the dot of a number (12.9.3).
fn read_fraction(text: &str, at: usize, separated: bool) -> Reading
    requires { IsCharBoundary text.now at }
    ensures { Reads fraction separated text.now at result }
{
    if digit_at(text, at, 10) {
        read_fraction_digits(text, at, separated)
    } else {
        read_exponent(text, at, Kind::Float, separated)
    }
}

/// DecimalDigits, and ExponentPart or nothing (12.9.3).
fn read_fraction_digits(text: &str, at: usize, separated: bool) -> Reading
    requires { IsCharBoundary text.now at }
    ensures { Reads (digits is_decimal (exponent Float) false) separated text.now at result }
{
    let digits = digits_at(text, at, 10);
    if digits.complete {
        read_exponent(
            text,
            digits.end,
            Kind::Float,
            separated || digits.has_separator,
        )
    } else {
        Err(digits.end)
    }
}

/// ExponentPart or nothing (12.9.3); `kind` is that of a number without one.
fn read_exponent(text: &str, at: usize, kind: Kind, separated: bool) -> Reading
    requires { IsCharBoundary text.now at }
    ensures { Reads (exponent kind) separated text.now at result }
{
    if is_either_at(text, at, b'E', b'e') {
        read_signed(text, at + 1, separated)
    } else {
        Ok(Number {
            kind,
            end: at,
            has_separator: separated,
        })
    }
}

/// SignedInteger (12.9.3).
fn read_signed(text: &str, at: usize, separated: bool) -> Reading
    requires { IsCharBoundary text.now at }
    ensures { Reads signed separated text.now at result }
{
    if is_at(text, at, b'-') {
        read_exponent_digits(text, at + 1, Kind::NegativeExponential, separated)
    } else if is_at(text, at, b'+') {
        read_exponent_digits(text, at + 1, Kind::PositiveExponential, separated)
    } else {
        read_exponent_digits(text, at, Kind::PositiveExponential, separated)
    }
}

/// The digits of an exponent (12.9.3).
fn read_exponent_digits(text: &str, at: usize, kind: Kind, separated: bool) -> Reading
    requires { IsCharBoundary text.now at }
    ensures { Reads (digits is_decimal (ends kind) false) separated text.now at result }
{
    let digits = digits_at(text, at, 10);
    if digits.complete {
        Ok(Number {
            kind,
            end: digits.end,
            has_separator: separated || digits.has_separator,
        })
    } else {
        Err(digits.end)
    }
}

/// Digits of a radix, and single separators behind digits, as far as they go on (12.9.3).
fn digits_at(text: &str, at: usize, radix: u32) -> Digits
    requires boundary { IsCharBoundary text.now at }
    requires radix { 2 ≤ radix }
    requires radix_within { radix ≤ 16 }
    ensures { AreDigits radix text.now at result }
{
    let mut end = at;
    let mut complete = false;
    let mut has_separator = false;
    'digits: loop {
        if digit_at(text, end, radix) {
            complete = true;
            end += 1;
        } else if complete && is_at(text, end, b'_') {
            complete = false;
            has_separator = true;
            end += 1;
        } else {
            break;
        }
    }
    Digits {
        end,
        complete,
        has_separator,
    }
}

/// Decimal digits as far as they go on (12.9.3).
fn legacy_digits_at(text: &str, at: usize) -> Legacy
    requires { IsCharBoundary text.now at }
    ensures { AreLegacy text.now at result }
{
    let mut end = at;
    let mut above = false;
    'digits: while digit_at(text, end, 10) {
        if is_either_at(text, end, b'8', b'9') {
            above = true;
        }
        end += 1;
    }
    Legacy { end, above }
}
