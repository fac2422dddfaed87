//! Trivia: white space, line terminators and comments (ECMA-262, sections 12.2 to 12.4, and B.1.1 for the HTML-like
//! comments).

ghost use Rattle.std.specs.Prelude.{◌≡◌, ◌≤◌, ◌+◌, [], ◌∷◌, Bool, ◌&&◌, false, length, IfOk, OnErr, OnOk, Some, None, IsTrue, IsCharBoundary};
ghost use Rattle.js_base.specs.part_text.Characters.{one_of};
ghost use Rattle.part_words.specs.ByteClasses as classes;
ghost use Rattle.part_words.specs.ByteClasses.{Stays};
ghost use Rattle.part_words.specs.Places.{Word};
ghost use Rattle.js_lex.specs.Kept.{Grows, Extends};
ghost use Rattle.js_lex.specs.TriviaPassed.{PieceAt, BlankAt, PlainBlankAt, BlockEnd, IsLineEnd, block_kind, told, comment_told, blank_told, fault_told, IsPassed, PassesBlanks};
ghost use Rattle.js_lex.specs.declared.comment.CommentKind.TheVariants.{Line};

use crate::comment::{Comment, CommentKind, attach};
use crate::output::LexerOutput;
use js_base::{DiagnosticKind, MAX_LEN, NoMemory, Span};
use part_words::byte_class::class_of;
use part_words::character::{Character, character_of, next_character};
use part_words::class::{is_line_terminator, is_white_space};
use part_words::place::{byte_at, goes_on};

/// A piece of trivia: one white space or line terminator, or one comment.
#[derive(Clone, Copy)]
pub(crate) struct Piece {
    /// The place behind it.
    end: usize,
    /// Its kind, if it is a comment.
    comment: Option<CommentKind>,
    /// Whether it is an HTML-like comment.
    is_html: bool,
    /// Whether it is white space or a line terminator other than space, tab, CR and LF.
    is_irregular: bool,
    /// Whether it is or has a line terminator.
    has_newline: bool,
}

/// The trivia between two places.
#[derive(Clone, Copy)]
pub(crate) struct Trivia {
    /// The place behind it.
    pub end: usize,
    /// Whether a line terminator is in it.
    pub has_newline: bool,
}

/// Passes all trivia from a place on, and keeps its comments, attached to the place behind it, its irregular white
/// space and, in a module, the fault that each HTML-like comment is. After want of memory what was kept before is still
/// there.
pub(crate) fn pass_trivia(
    text: &str,
    is_module: bool,
    at: usize,
    kept: &mut LexerOutput,
) -> Result<Trivia, NoMemory>
    requires boundary { IsCharBoundary text.now at }
    requires short { length text.now ≤ MAX_LEN }
    ensures ok { IfOk result (λ t. IsPassed is_module text.now at t.end kept.old kept.new t) }
    ensures err { OnErr result (Extends kept.old kept.new) }
{
    let first_comment = kept.comments.len();
    let trivia = pass_pieces(text, is_module, at, kept)?;
    attach(&mut kept.comments, first_comment, trivia.end as u32);
    Ok(trivia)
}

/// Passes spaces, tabs, CR and LF from a place on.
#[inline(always)]
pub(crate) fn pass_blanks(text: &str, at: usize) -> Trivia
    requires boundary { IsCharBoundary text.now at }
    requires short { length text.now ≤ MAX_LEN }
    ensures boundary { IsCharBoundary text.now result.end }
    ensures passes { PassesBlanks text.now at result }
{
    let mut end = at;
    let mut has_newline = false;
    'blanks: loop {
        if is_space_at(text, end) {
            end += 1;
            continue;
        }
        let Some(is_newline) = plain_blank_at(text, end) else {
            return Trivia { end, has_newline };
        };
        has_newline |= is_newline;
        end += 1;
    }
}

/// Passes all trivia from a place on; the comments are attached to nothing yet.
fn pass_pieces(
    text: &str,
    is_module: bool,
    at: usize,
    kept: &mut LexerOutput,
) -> Result<Trivia, NoMemory>
    requires boundary { IsCharBoundary text.now at }
    requires short { length text.now ≤ MAX_LEN }
    ensures ok { IfOk result (λ t. IsPassed is_module text.now at 0 kept.old kept.new t) }
    ensures err { OnErr result (Extends kept.old kept.new) }
{
    let mut end = at;
    let mut has_newline = false;
    'pieces: loop {
        if is_space_at(text, end) {
            end += 1;
            continue;
        }
        if let Some(is_newline) = plain_blank_at(text, end) {
            has_newline |= is_newline;
            end += 1;
            continue;
        }
        if begins_no_trivia(text, end) {
            return Ok(Trivia { end, has_newline });
        }
        let Some(piece) = piece_at(text, end, (at == 0) | has_newline) else {
            return Ok(Trivia { end, has_newline });
        };
        keep_piece(kept, is_module, end, piece)?;
        has_newline |= piece.has_newline;
        end = piece.end;
    }
}

/// Whether a space stands at a place.
#[inline]
fn is_space_at(text: &str, at: usize) -> bool
    requires { IsCharBoundary text.now at }
    ensures { IsTrue result → PlainBlankAt text.now at (Some false) }
{
    match byte_at(text, at) {
        Some(byte) => byte == b' ',
        None => false,
    }
}

/// Whether the space, tab, CR or LF at a place is a line terminator; none where no such character stands there.
#[inline]
fn plain_blank_at(text: &str, at: usize) -> Option<bool>
    requires { IsCharBoundary text.now at }
    ensures { PlainBlankAt text.now at result }
{
    match byte_at(text, at) {
        Some(byte) if is_plain_blank(byte) => Some(ends_line(byte)),
        _ => None,
    }
}

/// Whether a byte is a space, tab, CR or LF.
#[inline]
fn is_plain_blank(byte: u8) -> bool
    ensures { result ≡ one_of (32 ∷ 9 ∷ 10 ∷ 13 ∷ []) byte }
{
    byte == b' ' || byte == b'\t' || byte == b'\n' || byte == b'\r'
}

/// Whether a byte is an LF or a CR.
#[inline]
fn ends_line(byte: u8) -> bool
    ensures { result ≡ one_of (10 ∷ 13 ∷ []) byte }
{
    byte == b'\n' || byte == b'\r'
}

/// Whether it is known at once that no trivia begins at a place.
#[inline]
pub(crate) fn begins_no_trivia(text: &str, at: usize) -> bool
    requires { IsCharBoundary text.now at }
    ensures { IsTrue result → (first : Bool) → PieceAt first text.now at None }
{
    match byte_at(text, at) {
        Some(byte) => !class_of(byte).may_begin_trivia(),
        None => true,
    }
}

/// Keeps what a piece that begins at a place is.
fn keep_piece(
    kept: &mut LexerOutput,
    is_module: bool,
    start: usize,
    piece: Piece,
) -> Result<(), NoMemory>
    requires ordered { start ≤ piece.end }
    requires short { piece.end ≤ MAX_LEN }
    ensures ok { OnOk result (Grows kept.old kept.new (comment_told piece.comment (told start piece)) (blank_told piece.is_irregular (told start piece)) [] (fault_told (is_module && piece.is_html) (told start piece))) }
    ensures err { OnErr result (Extends kept.old kept.new) }
{
    let span = Span::new(start as u32, piece.end as u32);
    keep_comment(kept, piece.comment, span)?;
    keep_blank(kept, piece.is_irregular, span)?;
    if is_module && piece.is_html {
        kept.keep_fault(DiagnosticKind::HtmlCommentInModule, span)?;
    }
    Ok(())
}

/// Keeps a comment, if there is one.
fn keep_comment(
    kept: &mut LexerOutput,
    comment: Option<CommentKind>,
    span: Span,
) -> Result<(), NoMemory>
    ensures ok { OnOk result (Grows kept.old kept.new (comment_told comment span) [] [] []) }
    ensures err { OnErr result (Extends kept.old kept.new) }
{
    if let Some(kind) = comment {
        kept.comments.push(Comment {
            span,
            kind,
            attached_to: 0,
        })?;
    }
    Ok(())
}

/// Keeps irregular white space.
fn keep_blank(kept: &mut LexerOutput, is_irregular: bool, span: Span) -> Result<(), NoMemory>
    ensures ok { OnOk result (Grows kept.old kept.new [] (blank_told is_irregular span) [] []) }
    ensures err { OnErr result (Extends kept.old kept.new) }
{
    if is_irregular {
        kept.irregular_whitespaces.push(span)?;
    }
    Ok(())
}

/// The longest piece of trivia that begins at a place. `is_first`: only trivia stands before it on its line, or in the
/// text; there alone `-->` begins a comment.
#[inline(never)]
fn piece_at(text: &str, at: usize, is_first: bool) -> Option<Piece>
    requires boundary { IsCharBoundary text.now at }
    requires short { length text.now ≤ MAX_LEN }
    ensures { PieceAt is_first text.now at result }
{
    match byte_at(text, at) {
        None => None,
        Some(b'/') => comment_at(text, at),
        Some(b'<') => html_open_at(text, at),
        Some(b'-') => html_close_at(text, at, is_first),
        Some(byte) if b' ' < byte && byte < 127 => None,
        Some(byte) => blank(character_of(text, at, byte)),
    }
}

/// A character as a piece, if it is white space or a line terminator.
fn blank(character: Character) -> Option<Piece>
    ensures { BlankAt character.value character.end result }
{
    let c = character.value;
    let has_newline = is_line_terminator(c);
    if !(has_newline || is_white_space(c)) {
        return None;
    }
    Some(Piece {
        end: character.end,
        comment: None,
        is_html: false,
        is_irregular: !(c == ' ' || c == '\t' || c == '\r' || c == '\n'),
        has_newline,
    })
}

/// The comment that begins with the slash at a place, if one does.
fn comment_at(text: &str, at: usize) -> Option<Piece>
    requires boundary { IsCharBoundary text.now at }
    requires slash { Word text.now at (at + 1) (47 ∷ []) }
    requires short { length text.now ≤ MAX_LEN }
    ensures { (first : Bool) → PieceAt first text.now at result }
{
    if goes_on(text, at, b"//") {
        return Some(line_comment(line_end(text, at + 2), false));
    }
    if !goes_on(text, at, b"/*") {
        return None;
    }
    match block_comment_end(text, at + 2) {
        Some(block) => Some(block_comment(block)),
        None => None,
    }
}

/// A comment to the end of its line.
fn line_comment(end: usize, is_html: bool) -> Piece
    ensures { result ≡ record { end = end; comment = Some Line; is_html = is_html; is_irregular = false; has_newline = false } }
{
    Piece {
        end,
        comment: Some(CommentKind::Line),
        is_html,
        is_irregular: false,
        has_newline: false,
    }
}

/// A comment from `/*` to `*/`.
fn block_comment(block: Trivia) -> Piece
    ensures { result ≡ record { end = block.end; comment = Some (block_kind block.has_newline); is_html = false; is_irregular = false; has_newline = block.has_newline } }
{
    let kind = if block.has_newline {
        CommentKind::MultiLineBlock
    } else {
        CommentKind::SingleLineBlock
    };
    Piece {
        end: block.end,
        comment: Some(kind),
        is_html: false,
        is_irregular: false,
        has_newline: block.has_newline,
    }
}

/// The HTML-like comment that begins with `<!--` at a place, if one does.
fn html_open_at(text: &str, at: usize) -> Option<Piece>
    requires boundary { IsCharBoundary text.now at }
    requires less { Word text.now at (at + 1) (60 ∷ []) }
    requires short { length text.now ≤ MAX_LEN }
    ensures { (first : Bool) → PieceAt first text.now at result }
{
    if goes_on(text, at, b"<!--") {
        Some(line_comment(line_end(text, at + 4), true))
    } else {
        None
    }
}

/// The HTML-like comment that begins with `-->` at a place, if one does: only where it is the first on its line.
fn html_close_at(text: &str, at: usize, is_first: bool) -> Option<Piece>
    requires boundary { IsCharBoundary text.now at }
    requires minus { Word text.now at (at + 1) (45 ∷ []) }
    requires short { length text.now ≤ MAX_LEN }
    ensures { PieceAt is_first text.now at result }
{
    if !is_first {
        return None;
    }
    if goes_on(text, at, b"-->") {
        Some(line_comment(line_end(text, at + 3), true))
    } else {
        None
    }
}

/// The place of the first line terminator from a place on, or the end of the text.
pub(crate) fn line_end(text: &str, at: usize) -> usize
    requires { IsCharBoundary text.now at }
    ensures { IsLineEnd text.now at result }
{
    let mut end = at;
    'line: loop {
        if stays_on_line(text, end) {
            end += 1;
            continue;
        }
        let Some(next) = next_character(text, end) else {
            return end;
        };
        if is_line_terminator(next.value) {
            return end;
        }
        end = next.end;
    }
}

/// Whether an ASCII character that ends no line stands at a place.
#[inline]
fn stays_on_line(text: &str, at: usize) -> bool
    requires { IsCharBoundary text.now at }
    ensures { IsTrue result → Stays classes.stays_on_line text.now at }
{
    match byte_at(text, at) {
        Some(byte) => !class_of(byte).may_end_line(),
        None => false,
    }
}

/// Whether an ASCII character that ends neither a line nor a block comment stands at a place.
#[inline]
fn stays_in_comment(text: &str, at: usize) -> bool
    requires { IsCharBoundary text.now at }
    ensures { IsTrue result → Stays classes.stays_in_comment text.now at }
{
    match byte_at(text, at) {
        Some(byte) => !class_of(byte).may_end_comment(),
        None => false,
    }
}

/// The end of a block comment from behind its opening on, and whether a line terminator stands before it; none where
/// nothing closes it.
fn block_comment_end(text: &str, at: usize) -> Option<Trivia>
    requires { IsCharBoundary text.now at }
    ensures { BlockEnd text.now at result }
{
    let mut end = at;
    let mut star = false;
    let mut has_newline = false;
    'block: loop {
        if stays_in_comment(text, end) {
            star = false;
            end += 1;
            continue;
        }
        let Some(next) = next_character(text, end) else {
            return None;
        };
        if star && next.value == '/' {
            return Some(Trivia {
                end: next.end,
                has_newline,
            });
        }
        star = next.value == '*';
        has_newline |= is_line_terminator(next.value);
        end = next.end;
    }
}
