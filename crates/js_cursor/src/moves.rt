//! Moves over lexemes of a kind that is due.

ghost use Rattle.std.specs.Prelude.{◌≡◌, ◌↔◌, Bool, IsTrue, None, Some, MatchResult, IfOk};
ghost use Rattle.js_base.specs.declared.kind.Kind.TheVariants.{Undetermined};
ghost use Rattle.js_base.specs.declared.diagnostic.DiagnosticKind.TheVariants.{UnexpectedToken, ExpectToken, ExpectClosing};
ghost use Rattle.js_tree.specs.js_grammar.Marks.{Mark};
ghost use Rattle.js_cursor.specs.Places.{IsAt, goal};
ghost use Rattle.js_cursor.specs.Moves.{IsKind, Eats, KeepsDiagnostic, GivesUp, OnlyMemory, StandsHere, IsHere, IsUnexpected, MayTell, Opened, Expects, MayEnd, EndsOr, Steps};
ghost use Rattle.js_cursor.specs.Markers.{Related};

use crate::kinds::{ends_statement, is_kind};
use crate::marker::{Partners, is_marker, scan};
use crate::parser::ParserImpl;
use crate::stop::{ListStep, Stop};
use js_base::{Diagnostic, DiagnosticKind, Kind, NoMemory, Span};
use js_lex::ParserConfig;

/// A lexeme that can't stand there.
fn unexpected_token(span: Span) -> Diagnostic
    ensures { result ≡ record { kind = UnexpectedToken; span = span; first = None; second = None } }
{
    Diagnostic {
        kind: DiagnosticKind::UnexpectedToken,
        span,
        first: None,
        second: None,
    }
}

impl<'a, C: ParserConfig> ParserImpl<'a, C> {
    /// Whether the current lexeme is of this kind, and no word with an escape.
    pub(crate) fn is_at(&self, kind: Kind) -> bool
        ensures { IsTrue result ↔ IsKind kind self.now }
    {
        let token = self.cur_token();
        is_kind(token.kind(), kind) && !token.escaped()
    }

    /// Moves on over a lexeme of this kind that isn't escaped, and tells so; else all stays. Never `Fatal`.
    pub fn eat(&mut self, kind: Kind) -> Result<bool, Stop>
        requires { IsAt self.old }
        ensures { MatchResult result (λ b. Eats kind self.old self.new b) OnlyMemory }
    {
        if !self.is_at(kind) {
            return Ok(false);
        }
        self.bump_any()?;
        Ok(true)
    }

    /// Keeps a diagnostic, which has its mark; the parser goes on where it is. After want of memory it is as it was.
    pub fn error(&mut self, found: Diagnostic) -> Result<(), NoMemory>
        requires at { IsAt self.old }
        requires mark { Mark (goal self.old) self.old.text found }
        ensures { MatchResult result (λ _. KeepsDiagnostic found self.old self.new) (λ _. self.new ≡ self.old) }
    {
        self.errors.push(found)?;
        Ok(())
    }

    /// Keeps a diagnostic, which has its mark, and gives up.
    pub fn set_fatal_error(&mut self, found: Diagnostic) -> Stop
        requires at { IsAt self.old }
        requires mark { Mark (goal self.old) self.old.text found }
        ensures { GivesUp (λ d. d ≡ found) self.old self.new result }
    {
        match self.error(found) {
            Ok(()) => Stop::Fatal,
            Err(NoMemory) => Stop::NoMemory,
        }
    }

    /// Moves on over a lexeme of this kind that isn't escaped; else all stays. Never `Fatal`.
    pub fn bump(&mut self, kind: Kind) -> Result<(), Stop>
        requires { IsAt self.old }
        ensures { MatchResult result (λ _. (b : Bool) × Eats kind self.old self.new b) OnlyMemory }
    {
        self.eat(kind)?;
        Ok(())
    }

    /// Moves on over a lexeme of this kind that isn't escaped. `Fatal` exactly where none stands here, with the kind
    /// `ExpectToken`.
    pub fn expect(&mut self, kind: Kind) -> Result<(), Stop>
        requires { IsAt self.old }
        ensures { Expects (IsKind kind) ExpectToken None self.old self.new result }
    {
        if !self.is_at(kind) {
            return Err(self.refuse(DiagnosticKind::ExpectToken, None));
        }
        self.bump_any()
    }

    /// Moves on over a lexeme of this kind, which closes a bracket that was opened at a span. `Fatal` exactly where none
    /// stands here, with the kind `ExpectClosing` and the opening bracket as the related place.
    pub fn expect_closing(&mut self, kind: Kind, opening: Span) -> Result<(), Stop>
        requires at { IsAt self.old }
        requires opened { Opened self.old opening }
        ensures { Expects (λ p. p.token.kind ≡ kind) ExpectClosing (Some opening) self.old self.new result }
    {
        if !self.at(kind) {
            return Err(self.refuse(DiagnosticKind::ExpectClosing, Some(opening)));
        }
        self.bump_any()
    }

    /// What comes next in a list between brackets, `first` where no item was read: an item; or the closing bracket of
    /// this kind, which stays, behind a comma or not. A comma is passed. `Fatal` exactly where behind an item neither a
    /// comma nor the closing bracket stands, with the kind `ExpectClosingOrSeparator` and the opening bracket as the
    /// related place.
    pub fn delimited_step(
        &mut self,
        close: Kind,
        opening: Span,
        first: bool,
    ) -> Result<ListStep, Stop>
        requires at { IsAt self.old }
        requires opened { Opened self.old opening }
        ensures { Steps close opening first self.old self.new result }
    {
        if self.at(close) {
            return Ok(ListStep::End);
        }
        if first {
            return Ok(ListStep::Element);
        }
        if !self.at(Kind::Comma) {
            return Err(self.refuse(DiagnosticKind::ExpectClosingOrSeparator, Some(opening)));
        }
        let comma = self.cur_start();
        self.bump_any()?;
        if self.at(close) {
            Ok(ListStep::EndAfterComma(comma))
        } else {
            Ok(ListStep::Element)
        }
    }

    /// Whether a semicolon may be left out here, or stands here: at `;`, at `}`, at the end of the text, and on a new
    /// line (ECMA-262, section 12.10).
    pub fn can_insert_semicolon(&self) -> bool
        ensures { IsTrue result ↔ MayEnd self.now }
    {
        let token = self.cur_token();
        ends_statement(token.kind()) || token.is_on_new_line()
    }

    /// Moves on over a semicolon where one stands. `Fatal` exactly where none may be left out either, with the kind
    /// `ExpectToken`.
    pub fn asi(&mut self) -> Result<(), Stop>
        requires { IsAt self.old }
        ensures { EndsOr self.old self.new result }
    {
        if self.at(Kind::Semicolon) {
            return self.bump_any();
        }
        if self.can_insert_semicolon() {
            return Ok(());
        }
        Err(self.refuse(DiagnosticKind::ExpectToken, None))
    }

    /// Gives up with what is told of what can't stand here: a copy of the fault, where no lexeme stands; a merge conflict
    /// marker, where one begins with the current lexeme, with those behind it as related places; else `UnexpectedToken` at
    /// the current lexeme. For the markers the rest of the text is passed once.
    pub fn set_unexpected(&mut self) -> Stop
        requires { IsAt self.old }
        ensures { GivesUp (IsUnexpected self.old) self.old self.new result }
    {
        match self.unexpected() {
            Ok(found) => self.set_fatal_error(found),
            Err(NoMemory) => Stop::NoMemory,
        }
    }

    /// What is told of what can't stand here.
    fn unexpected(&mut self) -> Result<Diagnostic, NoMemory>
        requires { IsAt self.old }
        ensures told { IfOk result (IsUnexpected self.old) }
        ensures same { IfOk result (λ _. self.new ≡ self.old) }
    {
        let token = self.cur_token();
        if self.at(Kind::Undetermined) {
            return Ok(self.fault());
        }
        if !is_marker(self.source_text, token) {
            return Ok(unexpected_token(token.span()));
        }
        let partners = self.partners()?;
        Ok(Diagnostic {
            kind: DiagnosticKind::MergeConflictMarker,
            span: Span::sized(token.start(), 7),
            first: partners.middle,
            second: partners.closing,
        })
    }

    /// The fault for which no lexeme stands here.
    fn fault(&self) -> Diagnostic
        requires at { IsAt self.now }
        requires none { self.now.token.kind ≡ Undetermined }
        ensures { IsUnexpected self.now result }
    {
        match self.lexer.last_fault() {
            Some(fault) => fault,
            None => unexpected_token(self.token.span()),
        }
    }

    /// The markers of a merge conflict that stand behind the current lexeme.
    fn partners(&mut self) -> Result<Partners, NoMemory>
        requires { IsAt self.old }
        ensures related { IfOk result (λ r. Related self.old.text self.old.token.span.end r.middle r.closing) }
        ensures same { IfOk result (λ _. self.new ≡ self.old) }
    {
        let here = self.lexer.checkpoint();
        let partners = scan(&mut self.lexer, self.source_text)?;
        self.lexer.rewind(here);
        Ok(partners)
    }

    /// The span of what stands here.
    fn here(&self) -> Span
        requires { IsAt self.now }
        ensures { StandsHere self.now result }
    {
        if !self.at(Kind::Undetermined) {
            return self.cur_token().span();
        }
        match self.lexer.last_fault() {
            Some(fault) => fault.span,
            None => self.cur_token().span(),
        }
    }

    /// Gives up with a diagnostic of what stands here.
    fn refuse(&mut self, kind: DiagnosticKind, first: Option<Span>) -> Stop
        requires at { IsAt self.old }
        requires may { MayTell kind self.old first }
        ensures { GivesUp (IsHere kind self.old first) self.old self.new result }
    {
        let span = self.here();
        self.set_fatal_error(Diagnostic {
            kind,
            span,
            first,
            second: None,
        })
    }
}
