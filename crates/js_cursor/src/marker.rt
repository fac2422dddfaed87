//! Markers of a merge conflict.

ghost use Rattle.std.specs.Prelude.{◌≡◌, ◌≤◌, length, IfOk};
ghost use Rattle.js_base.specs.declared.TheConstants.{MAX_LEN};
ghost use Rattle.js_base.specs.Spans.{LiesIn};
ghost use Rattle.js_tree.specs.js_grammar.Grammar.{last};
ghost use Rattle.js_tree.specs.js_grammar.Marks.{begins_marker, begins_some_marker, middle_marker, closing_marker};
ghost use Rattle.js_cursor.specs.Markers.{lexeme_of, marker_of, or_else, middle_with, GivesPlain, Scanned};

use crate::kinds::is_kind;
use js_base::{Kind, MAX_LEN, NoMemory, Span, Token};
use js_lex::{Lexer, LexerConfig};

/// The markers behind a place: the one between the versions, and the one at the end.
#[derive(Clone, Copy)]
pub(crate) struct Partners {
    pub(crate) middle: Option<Span>,
    pub(crate) closing: Option<Span>,
}

/// Whether the token begins with these seven signs and is the first on its line.
fn begins(text: &str, token: Token, signs: &[u8]) -> bool
    requires lies { LiesIn token.span text.now }
    requires seven { length signs.now ≡ 7 }
    ensures { result ≡ begins_marker signs.now text.now (lexeme_of token) }
{
    let rest = &text.as_bytes()[token.start() as usize..];
    (token.is_on_new_line() || token.start() == 0) && rest.starts_with(signs)
}

/// The span of these seven signs, where the token begins with them and is the first on its line.
fn marker(text: &str, token: Token, signs: &[u8]) -> Option<Span>
    requires lies { LiesIn token.span text.now }
    requires short { length text.now ≤ MAX_LEN }
    requires seven { length signs.now ≡ 7 }
    ensures { result ≡ marker_of signs.now text.now token }
{
    if !begins(text, token, signs) {
        return None;
    }
    Some(Span::sized(token.start(), 7))
}

/// Whether the token begins a marker of a merge conflict.
pub(crate) fn is_marker(text: &str, token: Token) -> bool
    requires { LiesIn token.span text.now }
    ensures { result ≡ begins_some_marker text.now (lexeme_of token) }
{
    begins(text, token, b"<<<<<<<")
        || begins(text, token, b"=======")
        || begins(text, token, b">>>>>>>")
        || begins(text, token, b"|||||||")
}

impl Partners {
    /// The same, with what the next token shows.
    fn with(self, text: &str, token: Token) -> Partners
        requires lies { LiesIn token.span text.now }
        requires short { length text.now ≤ MAX_LEN }
        ensures middle { result.middle ≡ middle_with self.closing self.middle (middle_marker text.now (last (lexeme_of token))) }
        ensures closing { result.closing ≡ or_else self.closing (closing_marker text.now (last (lexeme_of token))) }
    {
        if self.closing.is_some() {
            return self;
        }
        let middle = match self.middle {
            Some(span) => Some(span),
            None => marker(text, token, b"======="),
        };
        Partners {
            middle,
            closing: marker(text, token, b">>>>>>>"),
        }
    }
}

/// The next token of the plain goal, told whole.
fn next_plain<L: LexerConfig>(lexer: &mut Lexer<'_, L>) -> Result<Token, NoMemory>
    ensures { IfOk result (λ t. GivesPlain lexer.old lexer.new t) }
{
    let token = lexer.next_token()?;
    if is_kind(token.kind(), Kind::RAngle) {
        return lexer.re_lex_right_angle(token);
    }
    Ok(token)
}

/// The markers behind the lexer's place, up to the end of the text or a fault that stops. It passes each lexeme once.
pub(crate) fn scan<L: LexerConfig>(
    lexer: &mut Lexer<'_, L>,
    text: &str,
) -> Result<Partners, NoMemory>
    requires reads { lexer.old.text ≡ text.now }
    requires short { length text.now ≤ MAX_LEN }
    ensures { IfOk result (λ p. Scanned lexer.old lexer.new p) }
{
    let mut partners = Partners {
        middle: None,
        closing: None,
    };
    loop {
        let token = next_plain(lexer)?;
        if is_kind(token.kind(), Kind::Undetermined) {
            return Ok(partners);
        }
        partners = partners.with(text, token);
        if is_kind(token.kind(), Kind::Eof) {
            return Ok(partners);
        }
    }
}
