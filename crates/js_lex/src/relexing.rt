//! To read a token again, by another lexical goal: a slash as a regular expression, a brace as a template part, a `>` as
//! the longest punctuator (ECMA-262, chapter 12).

ghost use Rattle.std.specs.Prelude.{◌≡◌, ◌≤◌, ℕ, List, [], false, length, IfOk, OnOk, OnErr, IsCharBoundary};
ghost use Rattle.js_base.specs.declared.kind.Kind.TheVariants.{RegExp};
ghost use Rattle.part_words.specs.Places.{Word};
ghost use Rattle.js_lex.specs.Kept.{Grows, Extends};
ghost use Rattle.js_lex.specs.Reading.{flag_faults};
ghost use Rattle.js_lex.specs.Settling.{Fits, SettledAgain, HasFlags, FlagsKept, SettledBehind};

use crate::output::LexerOutput;
use crate::reading::{is_kept, settle_fault, token_of};
use js_base::{DiagnosticKind, Kind, MAX_LEN, NoMemory, Span, Token};
use part_scan::regular_expression::{NONE_SEEN, RegularExpression, flag_at};
use part_words::scan::{Scan, Scanned};

/// The token of what a scan at the start of a token answers. It is put in place of the token kept last, where tokens are
/// asked for, unless no lexeme stands there; then the fault is kept. Before it each wrong flag of a regular expression is
/// kept as a fault.
pub(crate) fn settle_again(
    text: &str,
    keeps_tokens: bool,
    given: Token,
    scan: Scan,
    flags: Option<RegularExpression>,
    kept: &mut LexerOutput,
) -> Result<Token, NoMemory>
    requires short { length text.now ≤ MAX_LEN }
    requires fits { Fits MAX_LEN given.span.start scan }
    requires flags { HasFlags text.now flags }
    ensures ok { IfOk result (λ t. SettledBehind text.now keeps_tokens given scan flags kept.old kept.new t) }
    ensures err { OnErr result (Extends kept.old kept.new) }
{
    keep_flags(text, flags, kept)?;
    put_again(kept, keeps_tokens, given, scan)
}

/// The token of what a scan at the start of a token answers, in place of the one kept last; or the fault, which is kept.
fn put_again(
    kept: &mut LexerOutput,
    keeps_tokens: bool,
    given: Token,
    scan: Scan,
) -> Result<Token, NoMemory>
    requires { Fits MAX_LEN given.span.start scan }
    ensures ok { IfOk result (λ t. SettledAgain keeps_tokens given scan kept.old kept.new t) }
    ensures err { OnErr result (Extends kept.old kept.new) }
{
    let start = given.start() as usize;
    match scan {
        Ok(scanned) => {
            let token = token_of(scanned, start, given.is_on_new_line());
            if keeps_tokens && is_kept(token.kind()) {
                kept.tokens.replace_last(token);
            }
            Ok(token)
        }
        Err(fault) => settle_fault(kept, start, given.is_on_new_line(), fault),
    }
}

/// The lexeme that a regular expression is.
pub(crate) fn scanned_regular_expression(found: RegularExpression) -> Scanned
    ensures { result ≡ record { kind = RegExp; end = found.end; escaped = false; has_separator = false } }
{
    Scanned {
        kind: Kind::RegExp,
        end: found.end,
        escaped: false,
        has_separator: false,
    }
}

/// Keeps the fault that each wrong flag is, where a regular expression has been found.
fn keep_flags(
    text: &str,
    flags: Option<RegularExpression>,
    kept: &mut LexerOutput,
) -> Result<(), NoMemory>
    requires short { length text.now ≤ MAX_LEN }
    requires flags { HasFlags text.now flags }
    ensures ok { OnOk result (FlagsKept text.now flags kept.old kept.new) }
    ensures err { OnErr result (Extends kept.old kept.new) }
{
    match flags {
        Some(found) => keep_wrong_flags(text, found, kept),
        None => Ok(()),
    }
}

/// Keeps the fault that each wrong flag of a regular expression is: one that is none of the eight, or stood before.
fn keep_wrong_flags(
    text: &str,
    found: RegularExpression,
    kept: &mut LexerOutput,
) -> Result<(), NoMemory>
    requires begins { IsCharBoundary text.now found.pattern_end }
    requires short { length text.now ≤ MAX_LEN }
    requires flags { (fs : List ℕ) × Word text.now found.pattern_end found.end fs }
    ensures ok { OnOk result ((fs : List ℕ) → Word text.now found.pattern_end found.end fs → Grows kept.old kept.new [] [] [] (flag_faults found.pattern_end [] fs)) }
    ensures err { OnErr result (Extends kept.old kept.new) }
{
    let mut at = found.pattern_end;
    let mut seen = NONE_SEEN;
    'flags: while at < found.end {
        let Some(flag) = flag_at(text, at, seen) else {
            return Ok(());
        };
        if flag.is_wrong {
            let span = Span::new(at as u32, flag.end as u32);
            kept.keep_fault(DiagnosticKind::RegExpFlag, span)?;
        }
        at = flag.end;
        seen = flag.seen;
    }
    Ok(())
}
