//! Placed lexemes.

ghost use Rattle.std.specs.Prelude.{◌≡◌, false, slice_range};
ghost use Rattle.js_base.specs.Spans.{LiesIn};
ghost use Rattle.js_base.specs.declared.kind.Kind.TheVariants.{Eof};

use crate::kind::Kind;
use crate::span::Span;
use part_memory::List;

/// A placed lexeme (ECMA-262, chapter 12).
#[derive(Debug, Clone, Copy, PartialEq, Eq)]
pub struct Token {
    // In this order it takes twelve bytes, and its span is read back as it was written, by one word.
    span: Span,
    kind: Kind,
    is_on_new_line: bool,
    escaped: bool,
    has_separator: bool,
}

/// A list of tokens.
pub type Tokens = List<Token>;

impl Token {
    /// The token of these fields, each of which the call of its name answers.
    pub fn new(
        kind: Kind,
        span: Span,
        is_on_new_line: bool,
        escaped: bool,
        has_separator: bool,
    ) -> Token
        ensures kind { result.kind ≡ kind }
        ensures span { result.span ≡ span }
        ensures is_on_new_line { result.is_on_new_line ≡ is_on_new_line }
        ensures escaped { result.escaped ≡ escaped }
        ensures has_separator { result.has_separator ≡ has_separator }
    {
        Token {
            kind,
            span,
            is_on_new_line,
            escaped,
            has_separator,
        }
    }

    /// What it is.
    pub fn kind(&self) -> Kind
        ensures { result ≡ self.now.kind }
    {
        self.kind
    }

    /// The byte place at which it begins.
    pub fn start(&self) -> u32
        ensures { result ≡ self.now.span.start }
    {
        self.span.start
    }

    /// The byte place behind it.
    pub fn end(&self) -> u32
        ensures { result ≡ self.now.span.end }
    {
        self.span.end
    }

    /// Where it stands, in bytes from the start of the text.
    pub fn span(&self) -> Span
        ensures { result ≡ self.now.span }
    {
        self.span
    }

    /// Whether a line terminator (ECMA-262, section 12.3) stands between it and the lexeme before.
    pub fn is_on_new_line(&self) -> bool
        ensures { result ≡ self.now.is_on_new_line }
    {
        self.is_on_new_line
    }

    /// Whether it is a word with an escape sequence (ECMA-262, section 12.7.1).
    pub fn escaped(&self) -> bool
        ensures { result ≡ self.now.escaped }
    {
        self.escaped
    }

    /// Whether it is a number with a separator, `_` (ECMA-262, section 12.9.3).
    pub fn has_separator(&self) -> bool
        ensures { result ≡ self.now.has_separator }
    {
        self.has_separator
    }

    /// The slice of a text at the token's span, without copying. The span has to lie in the text and to split no
    /// character, as it does in the text that the token was read from.
    pub fn text<'s>(&self, source: &'s str) -> &'s str
        requires { LiesIn self.now.span source.now }
        ensures { result.now ≡ slice_range source.now self.now.span.start self.now.span.end }
    {
        &source[self.span.start as usize..self.span.end as usize]
    }
}

impl Default for Token {
    ghost is_default = { λ t. (t.kind ≡ Eof) × (t.span.start ≡ 0) × (t.span.end ≡ 0)
        × (t.is_on_new_line ≡ false) × (t.escaped ≡ false) × (t.has_separator ≡ false) };

    /// The end of an empty text.
    fn default() -> Token {
        Token::new(Kind::Eof, Span::empty(0), false, false, false)
    }
}
