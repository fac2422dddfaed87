//! The lexer: one token at a time, by the lexical goal that is asked for (ECMA-262, chapter 12).

ghost use Rattle.std.specs.Prelude.{◌≡◌, ◌≤◌, ◌-◌, ◌⊎◌, List, [], true, false, length, IfOk, OnErr, Some, IsCharBoundary, chars, slice_range, slice_get};
ghost use Rattle.js_base.specs.declared.kind.Kind.TheVariants.{Str, Slash, SlashEq, RAngle, RCurly};
ghost use Rattle.js_base.specs.declared.diagnostic.Diagnostic.{Diagnostic};
ghost use Rattle.js_base.specs.Kinds.{one_of_kinds};
ghost use Rattle.js_base.specs.KindSets.{identifier_name_kinds};
ghost use Rattle.js_base.specs.Spans.{LiesIn};
ghost use Rattle.js_base.specs.part_text.Decoding.{string_units};
ghost use Rattle.part_words.specs.js_grammar.Strings.{string_kind, string_inside};
ghost use Rattle.part_words.specs.js_grammar.Lexemes.{division, regular_expression, template_tail};
ghost use Rattle.js_base.specs.declared.token.Token.{Token};
ghost use Rattle.part_words.specs.js_grammar.CommentMarks.{is_pure_comment, is_no_side_effects_comment};
ghost use Rattle.js_lex.specs.Comments.{has_before};
ghost use Rattle.js_lex.specs.Kept.{IsEmpty, LieIn, lengths_of, first_kept, AreAtMost};
ghost use Rattle.js_lex.specs.States.{State, goal_of, SameText};
ghost use Rattle.js_lex.specs.Reading.{GivesNext, GivesFirst, GivesBehind, GivesLexeme, GivesAgain, WasGiven, FlagsStand};
ghost use Rattle.js_lex.specs.Settling.{Fits, HasFlags, SettledBehind, ScanEnds};

use crate::checkpoint::LexerCheckpoint;
use crate::comment::follow;
use crate::config::LexerConfig;
use crate::hashbang::hashbang_at;
use crate::mark::{Sort, is_marked};
use crate::output::LexerOutput;
use crate::plain_goal::plain_at;
use crate::reading::{copy_of, quick_at, read_plain, token_of};
use crate::relexing::{scanned_regular_expression, settle_again};
use js_base::{Diagnostic, JsStr, MAX_LEN, NoMemory, SourceType, Token, decode_string};
use part_scan::regular_expression::{RegularExpression, regular_expression_at};
use part_scan::template::template_tail_at;
use part_words::scan::Scan;
use std::alloc::Global;
use std::marker::Model;

/// Reads the lexemes of a text, and keeps its comments, its irregular white space, its lexical faults and, where the
/// config asks for them, its tokens. A lexical fault is never an error of a call: it is kept, and where it stops the
/// lexemes, the token has the kind `Undetermined`.
#[derive(Drop)]
pub struct Lexer<'a, C: LexerConfig> {
    alloc: Global,
    source_text: &'a str,
    source_type: SourceType,
    config: C,
    place: usize,
    kept: LexerOutput,
    /// Whether the comments are known to stand in the order of the places that they are attached to.
    in_order: bool,
}

impl<'a, C: LexerConfig> Model for Lexer<'a, C> {
    ghost use Rattle.js_lex.specs.States.{State, IsReady, goal_of};

    ghost Value = { State };

    ghost view = { λ l. record { text = l.source_text.now; goal = goal_of l.source_type; keeps_tokens = C.asks_for_tokens l.config; place = l.place; kept = l.kept } };

    ghost invariant = { λ l. IsReady l.source_text.now l.place l.kept l.in_order };
}

impl<'a, C: LexerConfig> Lexer<'a, C> {
    /// A lexer at the start of a text, which has at most `MAX_LEN` bytes. It takes no memory.
    pub fn new(alloc: Global, source_text: &'a str, source_type: SourceType, config: C) -> Self
        requires { length source_text.now ≤ MAX_LEN }
        ensures text { result.text ≡ source_text.now }
        ensures goal { result.goal ≡ goal_of source_type }
        ensures keeps_tokens { result.keeps_tokens ≡ C.asks_for_tokens config }
        ensures place { result.place ≡ 0 }
        ensures kept { IsEmpty result.kept }
    {
        Lexer {
            alloc,
            source_text,
            source_type,
            config,
            place: 0,
            kept: LexerOutput::new(alloc),
            in_order: true,
        }
    }

    /// The next token: the longest lexeme of the plain goal behind as much trivia as stands there. Of a punctuator that
    /// begins with `>` this sign alone is given, and `/`, `/=` and `}` are punctuators. Where no lexeme stands, the kind
    /// is `Undetermined`, and the fault is kept. At the end of the text, and ever after, it is `Eof`. After want of
    /// memory the lexer is as it was.
    ///
    /// It is part of its caller's code, which then has the token at hand, and not in memory.
    #[inline(always)]
    pub fn next_token(&mut self) -> Result<Token, NoMemory>
        ensures ok { IfOk result (λ t. GivesNext division self.old self.new t) }
        ensures err { OnErr result (self.new ≡ self.old) }
    {
        if !self.config.tokens() {
            if let Some(token) = quick_at(self.source_text, self.place) {
                self.place = token.end() as usize;
                return Ok(token);
            }
        }
        let token = self.read_next()?;
        Ok(copy_of(&token))
    }

    /// How far the text is read, in bytes: the end of the token that was given last.
    #[inline(always)]
    pub fn place(&self) -> usize
        ensures { result ≡ self.now.place }
    {
        self.place
    }

    /// The first token: a hashbang comment where the text begins with `#!` (ECMA-262, section 12.5), else what
    /// `next_token` gives. Condition: nothing was read.
    pub fn first_token(&mut self) -> Result<Token, NoMemory>
        requires { self.old.place ≡ 0 }
        ensures ok { IfOk result (λ t. GivesFirst self.old self.new t) }
        ensures err { OnErr result (self.new ≡ self.old) }
    {
        match hashbang_at(self.source_text, self.place) {
            Some(scanned) => {
                self.place = scanned.end;
                Ok(token_of(scanned, 0, false))
            }
            None => self.next_token(),
        }
    }

    /// What `next_token` would give, also where no lexeme stands; nothing moves and nothing is kept, a fault included.
    #[inline(always)]
    pub fn peek_token(&mut self) -> Result<Token, NoMemory>
        ensures ok { IfOk result (λ t. (after : State) × GivesNext division self.old after t) }
        ensures only { IfOk result (λ t. (after : State) (u : Token) → GivesNext division self.old after u → u ≡ t) }
        ensures same { self.new ≡ self.old }
    {
        if !self.config.tokens() {
            if let Some(token) = quick_at(self.source_text, self.place) {
                return Ok(token);
            }
        }
        let here = self.checkpoint();
        let token = self.next_token();
        self.rewind(here);
        token
    }

    /// What stands behind a place between characters, as `next_token` would give it there; nothing moves and nothing is
    /// kept.
    pub fn token_behind(&self, place: u32) -> Result<Token, NoMemory>
        requires { IsCharBoundary self.now.text place }
        ensures { IfOk result (λ t. GivesBehind self.now.text place t) }
    {
        let mut kept = LexerOutput::new(self.alloc);
        let at = place as usize;
        read_plain(self.source_text, self.source_type, false, at, &mut kept)
    }

    /// The whole punctuator behind a place of which `token_behind` tells the `>` that it begins with: `>`, `>=`, `>>`,
    /// `>>>`, `>>=` or `>>>=`; nothing moves and nothing is kept.
    pub fn whole_right_angle(&self, place: u32, token: Token) -> Token
        requires given { GivesBehind self.now.text place token }
        requires kind { token.kind ≡ RAngle }
        ensures { GivesLexeme division (λ y. y) self.now.text place result }
    {
        let start = token.start() as usize;
        match plain_at(self.source_text, start) {
            Ok(scanned) => token_of(scanned, start, token.is_on_new_line()),
            Err(_) => token,
        }
    }

    /// Reads the slash or `/=` that was given last as a regular expression. The answer is its token and the place at
    /// which its pattern ends, the one behind the second slash; or, where none stands, an undetermined token and that
    /// token's end, and the fault is kept. Each wrong flag is a fault that is kept, too.
    pub fn re_lex_regex(&mut self, token: Token) -> Result<(Token, u32), NoMemory>
        requires given { WasGiven self.old token }
        requires kind { (token.kind ≡ Slash) ⊎ (token.kind ≡ SlashEq) }
        ensures ok { IfOk result (λ r. (going_on : List Diagnostic) × (faults : List Diagnostic) × GivesAgain regular_expression self.old self.new token r.0 going_on faults × FlagsStand self.old.text r.1 r.0 going_on) }
        ensures err { OnErr result (self.new ≡ self.old) }
    {
        match regular_expression_at(self.source_text, token.start() as usize) {
            Ok(found) => {
                let scan = Ok(scanned_regular_expression(found));
                let again = self.settle_again(token, scan, Some(found))?;
                Ok((again, found.pattern_end as u32))
            }
            Err(fault) => {
                let again = self.settle_again(token, Err(fault), None)?;
                Ok((again, again.end()))
            }
        }
    }

    /// Reads the `>` that was given last as the longest punctuator that it begins: `>`, `>=`, `>>`, `>>>`, `>>=` or
    /// `>>>=`.
    pub fn re_lex_right_angle(&mut self, token: Token) -> Result<Token, NoMemory>
        requires given { WasGiven self.old token }
        requires kind { token.kind ≡ RAngle }
        ensures ok { IfOk result (λ t. GivesAgain division self.old self.new token t [] []) }
        ensures err { OnErr result (self.new ≡ self.old) }
    {
        let scan = plain_at(self.source_text, token.start() as usize);
        self.settle_again(token, scan, None)
    }

    /// Reads the `}` that was given last as the beginning of a template part: `TemplateMiddle` up to `${`,
    /// `TemplateTail` up to a backquote; or, where neither follows, an undetermined token, and the fault is kept.
    pub fn re_lex_template_tail(&mut self, token: Token) -> Result<Token, NoMemory>
        requires given { WasGiven self.old token }
        requires kind { token.kind ≡ RCurly }
        ensures ok { IfOk result (λ t. (faults : List Diagnostic) × GivesAgain template_tail self.old self.new token t [] faults) }
        ensures err { OnErr result (self.new ≡ self.old) }
    {
        let scan = template_tail_at(self.source_text, token.start() as usize);
        self.settle_again(token, scan, None)
    }

    /// Where the lexer is, and how much it has kept.
    pub fn checkpoint(&self) -> LexerCheckpoint
        ensures place { result.place ≡ self.now.place }
        ensures between { IsCharBoundary self.now.text result.place }
        ensures lengths { result.lengths ≡ lengths_of self.now.kept }
    {
        LexerCheckpoint {
            place: self.place,
            lengths: self.kept.lengths(),
        }
    }

    /// Goes back to a place, and keeps of each list what was kept there. Condition: the place lies in this text and
    /// splits no character, and no list is shorter than the checkpoint says.
    pub fn rewind(&mut self, c: LexerCheckpoint)
        requires between { IsCharBoundary self.old.text c.place }
        requires longer { AreAtMost c.lengths (lengths_of self.old.kept) }
        ensures same { SameText self.old self.new }
        ensures place { self.new.place ≡ c.place }
        ensures kept { self.new.kept ≡ first_kept c.lengths self.old.kept }
    {
        self.place = c.place;
        self.kept.truncate(c.lengths);
    }

    /// The code units that a string token of this text stands for: its SV (ECMA-262, section 12.9.4.2).
    pub fn decode(&self, token: Token) -> Result<JsStr, NoMemory>
        requires lies { LiesIn token.span self.now.text }
        requires string { string_kind (chars (slice_range self.now.text token.span.start token.span.end)) ≡ Some Str }
        ensures { IfOk result (λ units. Some units ≡ string_units (string_inside (chars (slice_range self.now.text token.span.start token.span.end)))) }
    {
        let literal = token.text(self.source_text);
        decode_string(self.alloc, &literal[1..literal.len() - 1])
    }

    /// The name that a token of this text is, without copying. Condition: it has no escape sequence.
    pub fn name(&self, token: Token) -> &'a str
        requires lies { LiesIn token.span self.now.text }
        requires name { one_of_kinds identifier_name_kinds token.kind ≡ true }
        requires plain { token.escaped ≡ false }
        ensures { result.now ≡ slice_range self.now.text token.span.start token.span.end }
    {
        token.text(self.source_text)
    }

    /// The fault that was kept last; none exactly where none is kept.
    pub fn last_fault(&self) -> Option<Diagnostic>
        ensures { result ≡ slice_get self.now.kept.errors (length self.now.kept.errors - 1) }
    {
        match self.kept.errors.len() {
            0 => None,
            len => self.kept.errors.get(len - 1).copied(),
        }
    }

    /// Whether a comment that is attached to a token's start is a pure comment: one that holds `@__PURE__` or
    /// `#__PURE__`.
    pub fn pure_before(&self, token: Token) -> bool
        ensures { result ≡ has_before is_pure_comment self.now.text token.span.start self.now.kept.comments }
    {
        is_marked(
            self.source_text,
            &self.kept.comments,
            self.in_order,
            token.start(),
            Sort::Pure,
        )
    }

    /// Whether a comment that is attached to a token's start is a no-side-effects comment: one that holds
    /// `@__NO_SIDE_EFFECTS__` or `#__NO_SIDE_EFFECTS__`.
    pub fn no_side_effects_before(&self, token: Token) -> bool
        ensures { result ≡ has_before is_no_side_effects_comment self.now.text token.span.start self.now.kept.comments }
    {
        is_marked(
            self.source_text,
            &self.kept.comments,
            self.in_order,
            token.start(),
            Sort::NoSideEffects,
        )
    }

    /// What was kept. Each span in it lies in the text and splits no character.
    pub fn finish(self) -> LexerOutput
        ensures kept { result ≡ self.entry.kept }
        ensures lies { LieIn self.entry.text result }
    {
        self.kept
    }

    /// What `next_token` gives, whatever stands there.
    #[inline(never)]
    fn read_next(&mut self) -> Result<Token, NoMemory>
        ensures ok { IfOk result (λ t. GivesNext division self.old self.new t) }
        ensures err { OnErr result (self.new ≡ self.old) }
    {
        let lengths = self.kept.lengths();
        match read_plain(
            self.source_text,
            self.source_type,
            self.config.tokens(),
            self.place,
            &mut self.kept,
        ) {
            Ok(token) => {
                self.place = token.end() as usize;
                self.in_order = self.in_order && follow(&self.kept.comments, lengths.comments);
                Ok(token)
            }
            Err(error) => {
                self.kept.truncate(lengths);
                Err(error)
            }
        }
    }

    /// The token of what a scan at the start of the token given last answers, in place of that one; of a regular
    /// expression each wrong flag is kept before it.
    fn settle_again(
        &mut self,
        token: Token,
        scan: Scan,
        flags: Option<RegularExpression>,
    ) -> Result<Token, NoMemory>
        requires starts { IsCharBoundary self.old.text token.span.start }
        requires fits { Fits MAX_LEN token.span.start scan }
        requires ends { ScanEnds self.old.text scan }
        requires flags { HasFlags self.old.text flags }
        ensures same { SameText self.old self.new }
        ensures ok { IfOk result (λ t. (self.new.place ≡ t.span.end) × SettledBehind self.old.text self.old.keeps_tokens token scan flags self.old.kept self.new.kept t) }
        ensures err { OnErr result (self.new ≡ self.old) }
    {
        let lengths = self.kept.lengths();
        match settle_again(
            self.source_text,
            self.config.tokens(),
            token,
            scan,
            flags,
            &mut self.kept,
        ) {
            Ok(again) => {
                self.place = again.end() as usize;
                Ok(again)
            }
            Err(error) => {
                self.kept.truncate(lengths);
                Err(error)
            }
        }
    }
}
