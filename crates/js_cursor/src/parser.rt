//! The parser's state.

ghost use Rattle.std.specs.Prelude.{◌≡◌, length, ◌≢◌, ◌≤◌, ◌⊎◌, ◌↔◌, IsTrue, IfOk, OnOk, OnErr, MatchResult, ◌+◌, ◌<◌};
ghost use Rattle.js_base.specs.declared.kind.Kind.TheVariants.{RAngle, RCurly, Slash, SlashEq, Eof};
ghost use Rattle.js_base.specs.Sources.{is_goal};
ghost use Rattle.js_base.specs.declared.source_type.Goal.TheVariants.{Unambiguous};
ghost use Rattle.js_base.specs.Contexts.{bits_of};
ghost use Rattle.js_cursor.specs.Notes.{is_noted};
ghost use Rattle.js_cursor.specs.Starts.{AtStart, Starts};
ghost use Rattle.js_cursor.specs.Places.{IsAt};
ghost use Rattle.js_cursor.specs.Moves.{IsWholeToken, Passed, Completed, IsRegularExpression, IsTemplatePart, Peeks, Told, MovesOn, OnlyMemory, Enters, Leaves, NotesArrow, NotesNoOperand};

use crate::kinds::{is_kind, is_last};
use crate::state::ParserState;
use crate::stop::Stop;
use js_base::{
    Context, Diagnostics, Kind, MAX_LEN, NoMemory, ParseOptions, SourceType, Span, Token,
};
use js_lex::{Lexer, ParserConfig};
use js_tree::ParserAstBuilder;
use part_visits::ModuleRecordBuilder;
use std::alloc::Global;
use std::marker::Model;

/// A parser: the place that it has reached in its text, and what it has made and kept. Contracts see it as a `Parser`.
#[derive(Drop)]
pub struct ParserImpl<'a, C: ParserConfig> {
    /// Where memory comes from.
    pub alloc: Global,
    /// The text.
    pub source_text: &'a str,
    /// How it is read: as a script, a module or CommonJS.
    pub source_type: SourceType,
    /// What is read beyond that.
    pub options: ParseOptions,
    /// The lexer, which gave the current lexeme last.
    pub lexer: Lexer<'a, C::LexerConfig>,
    /// The nodes made so far.
    pub ast: ParserAstBuilder,
    /// What the declarations of a module add to its record.
    pub module_record_builder: ModuleRecordBuilder,
    /// What is noted on the way, to be judged later or not to be tried again.
    pub state: ParserState,
    /// The grammar parameters in force.
    pub ctx: Context,
    /// What was found wrong.
    pub errors: Diagnostics,
    pub(crate) token: Token,
    pub(crate) cut: bool,
    pub(crate) prev_token_end: u32,
    pub(crate) depth: u32,
}

/// What a parser has made and kept.
#[derive(Drop)]
pub struct ParserParts<'a, C: ParserConfig> {
    /// The lexer.
    pub lexer: Lexer<'a, C::LexerConfig>,
    /// The nodes.
    pub ast: ParserAstBuilder,
    /// What the declarations of a module add to its record.
    pub module_record_builder: ModuleRecordBuilder,
    /// What is noted still.
    pub state: ParserState,
    /// What was found wrong.
    pub errors: Diagnostics,
}

impl<'a, C: ParserConfig> Model for ParserImpl<'a, C> {
    ghost use Rattle.js_cursor.specs.Parsers.{Parser};

    ghost Value = { Parser };

    ghost view = { λ p. record { text = p.source_text.now; source_type = p.source_type; options = p.options; lexer = p.lexer; token = p.token; cut = p.cut; prev_token_end = p.prev_token_end; nodes = p.ast; visits = p.module_record_builder; state = p.state; ctx = p.ctx; errors = p.errors; depth = p.depth } };
}

/// How many levels deep productions may be nested: where more are asked for, `enter` answers `NoMemory`, so that no text
/// overflows the stack.
pub const MAX_DEPTH: u32 = 15_500;

/// The parameters in force where a text begins.
fn context_at_start(source_type: SourceType, options: ParseOptions) -> Context
    ensures { AtStart source_type options result }
{
    let awaits = source_type.is_module();
    let is_body = source_type.is_commonjs();
    Context::default()
        .and_await(awaits)
        .and_await_expression(awaits)
        .and_return(is_body || options.allow_return_outside_function)
        .and_new_target(is_body)
}

impl<'a, C: ParserConfig> ParserImpl<'a, C> {
    /// A parser at the start of a text, which has at most `MAX_LEN` bytes and is read for a named goal. What the lexer's
    /// `first_token` gives is the current lexeme.
    pub fn new(
        alloc: Global,
        source_text: &'a str,
        source_type: SourceType,
        options: ParseOptions,
        config: C,
    ) -> Result<Self, NoMemory>
        requires short { length source_text.now ≤ MAX_LEN }
        requires named { is_goal source_type ≢ Unambiguous }
        ensures { IfOk result (λ p. Starts source_text.now source_type options (C.asks_for_tokens config) p) }
    {
        let mut lexer = Lexer::new(alloc, source_text, source_type, config.lexer_config());
        let token = lexer.first_token()?;
        let ast = ParserAstBuilder::for_text(alloc, source_text.len())?;
        Ok(ParserImpl {
            alloc,
            source_text,
            source_type,
            options,
            lexer,
            ast,
            module_record_builder: ModuleRecordBuilder::new(alloc, source_type),
            state: ParserState::new(alloc),
            ctx: context_at_start(source_type, options),
            errors: Diagnostics::new(alloc),
            token,
            cut: is_kind(token.kind(), Kind::RAngle),
            prev_token_end: 0,
            depth: 0,
        })
    }

    /// The current lexeme.
    pub fn cur_token(&self) -> Token
        ensures { result ≡ self.now.token }
    {
        self.token
    }

    /// Its kind.
    pub fn cur_kind(&self) -> Kind
        ensures { result ≡ self.now.token.kind }
    {
        self.token.kind()
    }

    /// Where it begins, in bytes.
    pub fn cur_start(&self) -> u32
        ensures { result ≡ self.now.token.span.start }
    {
        self.token.start()
    }

    /// Whether it is of this kind, escaped or not.
    pub fn at(&self, kind: Kind) -> bool
        ensures { IsTrue result ↔ (self.now.token.kind ≡ kind) }
    {
        is_kind(self.token.kind(), kind)
    }

    /// Where the lexeme before it ends, in bytes; 0 at the beginning.
    pub fn prev_token_end(&self) -> u32
        ensures { result ≡ self.now.prev_token_end }
    {
        self.prev_token_end
    }

    /// The span from a place to the end of the lexeme before the current one.
    pub fn end_span(&self, start: u32) -> Span
        requires { start ≤ self.now.prev_token_end }
        ensures start { result.start ≡ start }
        ensures end { result.end ≡ self.now.prev_token_end }
    {
        Span::new(start, self.prev_token_end)
    }

    /// Moves over the current lexeme, which is told whole, and isn't the end.
    pub(crate) fn pass(&mut self) -> Result<(), NoMemory>
        requires at { IsAt self.old }
        requires whole { IsWholeToken self.old }
        requires some { self.old.token.kind ≢ Eof }
        ensures { IfOk result (λ _. Passed self.old self.new) }
    {
        let next = self.lexer.next_token()?;
        self.prev_token_end = self.token.end();
        self.cut = is_kind(next.kind(), Kind::RAngle);
        self.token = next;
        Ok(())
    }

    /// The whole of a punctuator that begins with `>`, where only this sign of it is told, becomes the current token; any
    /// other token stays.
    pub(crate) fn complete(&mut self) -> Result<(), NoMemory>
        requires { IsAt self.old }
        ensures { IfOk result (λ _. Told self.old self.new) }
    {
        if self.cut {
            self.token = self.lexer.re_lex_right_angle(self.token)?;
            self.cut = false;
        }
        Ok(())
    }

    /// What a punctuator that begins with `>` is: the current token becomes the whole of it. Never `Fatal`.
    pub fn re_lex_right_angle(&mut self) -> Result<(), Stop>
        requires at { IsAt self.old }
        requires kind { self.old.token.kind ≡ RAngle }
        ensures { MatchResult result (λ _. Completed self.old self.new × IsAt self.new) OnlyMemory }
    {
        self.complete()?;
        Ok(())
    }

    /// Moves one lexeme on. At the end of the text, and where no lexeme stands, all stays. Never `Fatal`.
    pub fn bump_any(&mut self) -> Result<(), Stop>
        requires { IsAt self.old }
        ensures { MatchResult result (λ _. MovesOn self.old self.new) OnlyMemory }
    {
        self.complete()?;
        if is_last(self.token.kind()) {
            return Ok(());
        }
        self.pass()?;
        Ok(())
    }

    /// What stands behind the current token, as the lexer's `peek_token` gives it; behind a `>` that begins a longer
    /// punctuator, what stands behind this sign. Nothing moves, and nothing is kept. Never `Fatal`.
    ///
    /// The lexer's code is part of it, so it has a frame of its own: those who call it may recurse.
    #[inline(never)]
    pub fn peek_token(&mut self) -> Result<Token, Stop>
        requires { IsAt self.old }
        ensures answer { MatchResult result (λ t. Peeks self.old t) OnlyMemory }
        ensures same { self.new ≡ self.old }
    {
        Ok(self.lexer.peek_token()?)
    }

    /// Reads the current slash or `/=` as a regular expression, whose token becomes the current one. The answer is the
    /// place at which its pattern ends, the one behind the second slash; where none stands, the token is undetermined,
    /// and the answer is its end. Never `Fatal`.
    pub fn re_lex_regex(&mut self) -> Result<u32, Stop>
        requires at { IsAt self.old }
        requires kind { (self.old.token.kind ≡ Slash) ⊎ (self.old.token.kind ≡ SlashEq) }
        ensures { MatchResult result (λ end. IsRegularExpression end self.old self.new) OnlyMemory }
    {
        let (token, pattern_end) = self.lexer.re_lex_regex(self.token)?;
        self.token = token;
        Ok(pattern_end)
    }

    /// Reads the current `}` as the beginning of a template part, whose token becomes the current one; where none
    /// stands, it is undetermined. Never `Fatal`.
    pub fn re_lex_template_tail(&mut self) -> Result<(), Stop>
        requires at { IsAt self.old }
        requires kind { self.old.token.kind ≡ RCurly }
        ensures { MatchResult result (λ _. IsTemplatePart self.old self.new) OnlyMemory }
    {
        self.token = self.lexer.re_lex_template_tail(self.token)?;
        Ok(())
    }

    /// Whether it is known that no head of an arrow function stands at a place, under the parameters that are in
    /// force.
    pub fn arrow_failed(&self, place: u32) -> bool
        ensures found { result ≡ is_noted self.now.state.failed self.now.ctx place }
        ensures small { bits_of self.now.ctx < 65536 }
    {
        self.state.arrow_failed(self.ctx, place)
    }

    /// Notes that none stands there, under the parameters that are in force. It stays noted when the parser goes back. The
    /// only error is want of memory, and then all stays.
    pub fn note_arrow_failed(&mut self, place: u32) -> Result<(), NoMemory>
        requires { IsAt self.old }
        ensures ok { OnOk result (NotesArrow place self.old self.new) }
        ensures err { OnErr result (self.new ≡ self.old) }
    {
        self.state.note_arrow_failed(self.ctx, place)
    }

    /// Whether it is known that no operand stands at a place, since the head of an arrow function does, under the
    /// parameters that are in force.
    pub fn operand_failed(&self, place: u32) -> bool
        ensures found { result ≡ is_noted self.now.state.operands self.now.ctx place }
        ensures small { bits_of self.now.ctx < 65536 }
    {
        self.state.operand_failed(self.ctx, place)
    }

    /// Notes that none stands there, under the parameters that are in force. It stays noted when the parser goes back. The
    /// only error is want of memory, and then all stays.
    pub fn note_operand_failed(&mut self, place: u32) -> Result<(), NoMemory>
        requires { IsAt self.old }
        ensures ok { OnOk result (NotesNoOperand place self.old self.new) }
        ensures err { OnErr result (self.new ≡ self.old) }
    {
        self.state.note_operand_failed(self.ctx, place)
    }

    /// Goes so many levels deeper. `NoMemory` exactly where that is deeper than `MAX_DEPTH`, and all then stays.
    pub fn enter(&mut self, levels: u32) -> Result<(), NoMemory>
        requires { IsAt self.old }
        ensures ok { OnOk result ((self.old.depth + levels ≤ MAX_DEPTH) × Enters levels self.old self.new) }
        ensures err { OnErr result ((MAX_DEPTH < self.old.depth + levels) × (self.new ≡ self.old)) }
    {
        let depth = self.depth.saturating_add(levels);
        if depth > MAX_DEPTH {
            return Err(NoMemory);
        }
        self.depth = depth;
        Ok(())
    }

    /// Comes back from so many levels that were entered.
    pub fn leave(&mut self, levels: u32)
        requires at { IsAt self.old }
        requires entered { levels ≤ self.old.depth }
        ensures { Leaves levels self.old self.new }
    {
        self.depth -= levels;
    }

    /// Takes the parser apart; it takes no memory.
    pub fn into_parts(self) -> ParserParts<'a, C>
        ensures lexer { result.lexer ≡ self.entry.lexer }
        ensures ast { result.ast ≡ self.entry.nodes }
        ensures visits { result.module_record_builder ≡ self.entry.visits }
        ensures state { result.state ≡ self.entry.state }
        ensures errors { result.errors ≡ self.entry.errors }
    {
        ParserParts {
            lexer: self.lexer,
            ast: self.ast,
            module_record_builder: self.module_record_builder,
            state: self.state,
            errors: self.errors,
        }
    }
}
