//! What comes of a text, as it is written.

use js_base::{Span, Token, Tokens};
use js_lex::{CommentKind, LexerOutput};
use std::alloc::Global;

/// What comes of a text. Where memory is wanted that is kept, and what is put from then on may be missing.
#[derive(Drop)]
pub struct Answer {
    /// What was put so far.
    pub text: String,
    /// Whether memory was wanted.
    pub failed: bool,
}

impl Answer {
    /// Nothing was put yet.
    pub(crate) fn new(alloc: Global) -> Answer {
        Answer {
            text: String::new(alloc),
            failed: false,
        }
    }

    /// Memory is wanted.
    pub(crate) fn fail(&mut self) {
        self.failed = true;
    }

    /// Puts a text.
    pub(crate) fn put(&mut self, text: &str) {
        if self.text.push_str(text).is_err() {
            self.failed = true;
        }
    }

    /// Puts a number.
    pub(crate) fn put_number(&mut self, number: usize) {
        if write!(&mut self.text, "{number}").is_err() {
            self.failed = true;
        }
    }

    /// Puts a span.
    pub(crate) fn put_span(&mut self, span: Span) {
        self.put_number(span.start as usize);
        self.put("..");
        self.put_number(span.end as usize);
    }

    /// Puts a word, with `, ` before it where something stands there.
    pub(crate) fn put_item(&mut self, word: &str) {
        if !(self.text.is_empty() || self.text.as_str().ends_with(": ")) {
            self.put(", ");
        }
        self.put(word);
    }

    /// Puts a name and a span, likewise.
    pub(crate) fn put_place(&mut self, name: &str, span: Span) {
        self.put_item(name);
        self.put(" ");
        self.put_span(span);
    }

    /// Puts a token and its marks, likewise.
    pub(crate) fn put_token(&mut self, token: Token) {
        self.put_place(token.kind().name(), token.span());
        if token.is_on_new_line() {
            self.put(" newline");
        }
        if token.escaped() {
            self.put(" escaped");
        }
        if token.has_separator() {
            self.put(" separator");
        }
    }
}

/// Puts tokens.
pub(crate) fn put_tokens(out: &mut Answer, tokens: &Tokens) {
    for i in 0..tokens.len() {
        if let Some(token) = tokens.get(i) {
            out.put_token(*token);
        }
    }
}

/// Puts comments, and the places that they are attached to.
pub(crate) fn put_comments(out: &mut Answer, output: &LexerOutput) {
    out.put("; comments: ");
    for i in 0..output.comments.len() {
        if let Some(comment) = output.comments.get(i) {
            out.put_place(comment_name(comment.kind), comment.span);
            out.put(" to ");
            out.put_number(comment.attached_to as usize);
        }
    }
}

/// The name of a kind of comments.
fn comment_name(kind: CommentKind) -> &'static str {
    match kind {
        CommentKind::Line => "Line",
        CommentKind::SingleLineBlock => "SingleLineBlock",
        CommentKind::MultiLineBlock => "MultiLineBlock",
    }
}

/// Puts white space.
pub(crate) fn put_blanks(out: &mut Answer, output: &LexerOutput) {
    out.put("; blanks: ");
    for i in 0..output.irregular_whitespaces.len() {
        if let Some(span) = output.irregular_whitespaces.get(i) {
            out.put_place("blank", *span);
        }
    }
}

/// Puts faults, where there are any.
pub(crate) fn put_faults(out: &mut Answer, output: &LexerOutput) {
    if output.errors.is_empty() {
        return;
    }
    out.put("; faults: ");
    for i in 0..output.errors.len() {
        if let Some(fault) = output.errors.get(i) {
            out.put_place(fault.kind.name(), fault.span);
        }
    }
}
