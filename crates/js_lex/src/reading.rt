//! How a token is made of what a scan answers, and what is kept of it.

ghost use Rattle.std.specs.Prelude.{Ok, Err, ◌≡◌, ◌≤◌, ◌<◌, ◌+◌, [], length, IfOk, IfSome, OnOk, OnErr, IsCharBoundary, false};
ghost use Rattle.part_words.specs.js_grammar.Lexemes.{division};
ghost use Rattle.js_lex.specs.Kept.{Grows, Extends};
ghost use Rattle.js_lex.specs.States.{goal_of};
ghost use Rattle.js_lex.specs.Reading as reading;
ghost use Rattle.js_lex.specs.Reading.{GivesNext, kept_token};
ghost use Rattle.js_lex.specs.Settling as settling;
ghost use Rattle.js_lex.specs.Settling.{Fits, Settled, GivesAtOnce, TellsLexeme};

use crate::output::LexerOutput;
use crate::plain_goal::{frequent_at, plain_at};
use crate::trivia::{begins_no_trivia, pass_blanks, pass_trivia};
use js_base::{Kind, MAX_LEN, NoMemory, SourceType, Span, Token};
use part_words::scan::{Fault, Scan, Scanned};

/// The next token of the plain goal from a place on; of a punctuator that begins with `>` this sign alone. What is
/// passed and given is kept. After want of memory what was kept before is still there.
pub(crate) fn read_plain(
    text: &str,
    source_type: SourceType,
    keeps_tokens: bool,
    at: usize,
    kept: &mut LexerOutput,
) -> Result<Token, NoMemory>
    requires boundary { IsCharBoundary text.now at }
    requires short { length text.now ≤ MAX_LEN }
    ensures ok { IfOk result (λ t. GivesNext division (record { text = text.now; goal = goal_of source_type; keeps_tokens = keeps_tokens; place = at; kept = kept.old }) (record { text = text.now; goal = goal_of source_type; keeps_tokens = keeps_tokens; place = t.span.end; kept = kept.new }) t) }
    ensures boundary { IfOk result (λ t. IsCharBoundary text.now t.span.end) }
    ensures err { OnErr result (Extends kept.old kept.new) }
{
    let trivia = pass_trivia(text, source_type.is_module(), at, kept)?;
    if let Some(scanned) = frequent_at(text, trivia.end) {
        let shown = first_sign(trivia.end, scanned);
        return settle_lexeme(kept, keeps_tokens, trivia.end, trivia.has_newline, shown);
    }
    let scan = first_angle(trivia.end, plain_at(text, trivia.end));
    settle(kept, keeps_tokens, trivia.end, trivia.has_newline, scan)
}

/// The next token of the plain goal from a place on, where a lexeme stands behind spaces, tabs, CR and LF alone. Nothing
/// is kept, as where no tokens are.
#[inline(always)]
pub(crate) fn quick_at(text: &str, at: usize) -> Option<Token>
    requires boundary { IsCharBoundary text.now at }
    requires short { length text.now ≤ MAX_LEN }
    ensures gives { IfSome result (λ t. GivesAtOnce text.now at t) }
    ensures boundary { IfSome result (λ t. IsCharBoundary text.now t.span.end) }
{
    let blanks = pass_blanks(text, at);
    quick_behind(text, blanks.end, blanks.has_newline)
}

/// The token of the lexeme of the plain goal at a place; none where that is not known at once.
#[inline(always)]
fn quick_behind(text: &str, at: usize, is_on_new_line: bool) -> Option<Token>
    requires boundary { IsCharBoundary text.now at }
    requires short { length text.now ≤ MAX_LEN }
    ensures { IfSome result (λ t. TellsLexeme text.now at is_on_new_line t) }
{
    match frequent_at(text, at) {
        Some(scanned) => {
            let shown = first_sign(at, scanned);
            Some(token_of(shown, at, is_on_new_line))
        }
        None => match other_behind(text, at, is_on_new_line) {
            Some(token) => Some(copy_of(&token)),
            None => None,
        },
    }
}

/// The token of the lexeme of the plain goal at a place; none where trivia may stand, or no lexeme does.
///
/// It is part of its caller's code, so that the token isn't read from memory in one piece right behind the call that wrote
/// it in several.
#[inline(always)]
fn other_behind(text: &str, at: usize, is_on_new_line: bool) -> Option<Token>
    requires boundary { IsCharBoundary text.now at }
    requires short { length text.now ≤ MAX_LEN }
    ensures { IfSome result (λ t. TellsLexeme text.now at is_on_new_line t) }
{
    if !begins_no_trivia(text, at) {
        return None;
    }
    match first_angle(at, plain_at(text, at)) {
        Ok(shown) => Some(token_of(shown, at, is_on_new_line)),
        Err(_) => None,
    }
}

/// A token, field by field, so that the one that a call answers in memory slows nothing else.
#[inline(always)]
pub(crate) fn copy_of(token: &Token) -> Token
    ensures { result ≡ token.now }
{
    Token::new(
        token.kind(),
        token.span(),
        token.is_on_new_line(),
        token.escaped(),
        token.has_separator(),
    )
}

/// Of a punctuator that begins with `>`, the sign alone; else what was scanned.
#[inline(always)]
fn first_sign(start: usize, scanned: Scanned) -> Scanned
    requires { start < MAX_LEN + 1 }
    ensures { Ok result ≡ settling.shown_scan start (Ok scanned) }
{
    if is_right_angle(scanned.kind) {
        Scanned {
            kind: Kind::RAngle,
            end: start + 1,
            escaped: scanned.escaped,
            has_separator: scanned.has_separator,
        }
    } else {
        scanned
    }
}

/// Of a punctuator that begins with `>`, the sign alone; else what was scanned.
#[inline(always)]
fn first_angle(start: usize, scan: Scan) -> Scan
    requires { start < MAX_LEN + 1 }
    ensures { result ≡ settling.shown_scan start scan }
{
    match scan {
        Ok(scanned) => Ok(first_sign(start, scanned)),
        Err(fault) => Err(fault),
    }
}

/// Whether it is a punctuator that begins with `>`.
#[inline(always)]
fn is_right_angle(kind: Kind) -> bool
    ensures { result ≡ reading.is_right_angle kind }
{
    matches!(
        kind,
        Kind::RAngle
            | Kind::GtEq
            | Kind::ShiftRight
            | Kind::ShiftRightEq
            | Kind::ShiftRight3
            | Kind::ShiftRight3Eq
    )
}

/// The token of what a scan at a place answers, which is kept, as is its fault.
#[inline(always)]
pub(crate) fn settle(
    kept: &mut LexerOutput,
    keeps_tokens: bool,
    start: usize,
    is_on_new_line: bool,
    scan: Scan,
) -> Result<Token, NoMemory>
    requires { Fits MAX_LEN start scan }
    ensures ok { IfOk result (λ t. Settled keeps_tokens start is_on_new_line scan kept.old kept.new t) }
    ensures err { OnErr result (Extends kept.old kept.new) }
{
    match scan {
        Ok(scanned) => settle_lexeme(kept, keeps_tokens, start, is_on_new_line, scanned),
        Err(fault) => settle_fault(kept, start, is_on_new_line, fault),
    }
}

/// The token of a lexeme, which is kept.
#[inline(always)]
fn settle_lexeme(
    kept: &mut LexerOutput,
    keeps_tokens: bool,
    start: usize,
    is_on_new_line: bool,
    scanned: Scanned,
) -> Result<Token, NoMemory>
    requires { Fits MAX_LEN start (Ok scanned) }
    ensures ok { IfOk result (λ t. Settled keeps_tokens start is_on_new_line (Ok scanned) kept.old kept.new t) }
    ensures err { OnErr result (Extends kept.old kept.new) }
{
    let token = token_of(scanned, start, is_on_new_line);
    keep_token(kept, keeps_tokens, token)?;
    Ok(token)
}

/// The token that stands for a fault, which is kept.
pub(crate) fn settle_fault(
    kept: &mut LexerOutput,
    start: usize,
    is_on_new_line: bool,
    fault: Fault,
) -> Result<Token, NoMemory>
    requires { Fits MAX_LEN start (Err fault) }
    ensures ok { IfOk result (λ t. Settled false start is_on_new_line (Err fault) kept.old kept.new t) }
    ensures err { OnErr result (Extends kept.old kept.new) }
{
    kept.keep_fault(fault.kind, Span::new(fault.start as u32, fault.end as u32))?;
    Ok(undetermined(fault, start, is_on_new_line))
}

/// The token of a lexeme.
#[inline(always)]
pub(crate) fn token_of(scanned: Scanned, start: usize, is_on_new_line: bool) -> Token
    requires ordered { start ≤ scanned.end }
    requires short { scanned.end ≤ MAX_LEN }
    ensures { result ≡ settling.token_of scanned start is_on_new_line }
{
    let span = Span::new(start as u32, scanned.end as u32);
    Token::new(
        scanned.kind,
        span,
        is_on_new_line,
        scanned.escaped,
        scanned.has_separator,
    )
}

/// The token that stands for a fault.
fn undetermined(fault: Fault, start: usize, is_on_new_line: bool) -> Token
    requires ordered { start ≤ fault.end }
    requires short { fault.end ≤ MAX_LEN }
    ensures { result ≡ settling.undetermined_of fault start is_on_new_line }
{
    let span = Span::new(start as u32, fault.end as u32);
    Token::new(Kind::Undetermined, span, is_on_new_line, false, false)
}

/// Keeps a token, where tokens are asked for, unless it is a hashbang, the end of the text or no lexeme.
fn keep_token(kept: &mut LexerOutput, keeps_tokens: bool, token: Token) -> Result<(), NoMemory>
    ensures ok { OnOk result (Grows kept.old kept.new [] [] (kept_token keeps_tokens token) []) }
    ensures err { OnErr result (Extends kept.old kept.new) }
{
    if keeps_tokens && is_kept(token.kind()) {
        kept.tokens.push(token)?;
    }
    Ok(())
}

/// Whether tokens of this kind are kept.
pub(crate) fn is_kept(kind: Kind) -> bool
    ensures { result ≡ reading.is_kept kind }
{
    !matches!(kind, Kind::HashbangComment | Kind::Eof | Kind::Undetermined)
}
