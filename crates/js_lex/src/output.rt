//! What a lexer keeps.

ghost use Rattle.std.specs.Prelude.{◌≡◌, [], ◌∷◌, OnOk, OnErr};
ghost use Rattle.js_lex.specs.Kept.{IsEmpty, Grows, Extends, fault_at, lengths_of, first_kept};

use crate::checkpoint::Lengths;
use crate::comment::Comments;
use js_base::{Diagnostic, DiagnosticKind, Diagnostics, NoMemory, Span, Spans, Tokens};
use std::alloc::Global;

/// What was kept while a text was read, each list in the order of the text.
#[derive(Drop)]
pub struct LexerOutput {
    /// The comments.
    pub comments: Comments,
    /// The white space and line terminators between lexemes other than space, tab, CR and LF, one character per span.
    pub irregular_whitespaces: Spans,
    /// The tokens, where the config asks for them; neither a hashbang nor the end of the text is among them.
    pub tokens: Tokens,
    /// The lexical faults.
    pub errors: Diagnostics,
}

impl LexerOutput {
    /// Four empty lists; they take no memory.
    pub(crate) fn new(alloc: Global) -> LexerOutput
        ensures { IsEmpty result }
    {
        LexerOutput {
            comments: Comments::new(alloc),
            irregular_whitespaces: Spans::new(alloc),
            tokens: Tokens::new(alloc),
            errors: Diagnostics::new(alloc),
        }
    }

    /// Keeps a fault, behind those that are kept. After want of memory what was kept is still there.
    pub(crate) fn keep_fault(&mut self, kind: DiagnosticKind, span: Span) -> Result<(), NoMemory>
        ensures ok { OnOk result (Grows self.old self.new [] [] [] (fault_at kind span ∷ [])) }
        ensures err { OnErr result (Extends self.old self.new) }
    {
        self.errors.push(Diagnostic {
            kind,
            span,
            first: None,
            second: None,
        })
    }

    /// How much was kept.
    pub(crate) fn lengths(&self) -> Lengths
        ensures { result ≡ lengths_of self.now }
    {
        Lengths {
            comments: self.comments.len(),
            irregular_whitespaces: self.irregular_whitespaces.len(),
            tokens: self.tokens.len(),
            errors: self.errors.len(),
        }
    }

    /// Keeps so much of each list alone.
    pub(crate) fn truncate(&mut self, lengths: Lengths)
        ensures { self.new ≡ first_kept lengths self.old }
    {
        self.comments.truncate(lengths.comments);
        self.irregular_whitespaces
            .truncate(lengths.irregular_whitespaces);
        self.tokens.truncate(lengths.tokens);
        self.errors.truncate(lengths.errors);
    }
}
