//! To go back to a place that was read before.

ghost use Rattle.std.specs.Prelude.{◌≡◌, IfOk, IsOk};
ghost use Rattle.js_cursor.specs.Places.{IsAt};
ghost use Rattle.js_cursor.specs.Checkpoints.{Remembers, MayGoBack, GoesBack};

use crate::parser::ParserImpl;
use js_base::{Context, NoMemory, Token};
use js_lex::{LexerCheckpoint, ParserConfig};

/// A place of a parser, with the parameters in force there, how deep it was, and how much it and its lexer had kept and
/// noted.
#[derive(Debug, Drop)]
pub struct ParserCheckpoint {
    pub(crate) token: Token,
    pub(crate) cut: bool,
    pub(crate) prev_token_end: u32,
    pub(crate) ctx: Context,
    pub(crate) depth: u32,
    pub(crate) lexer: LexerCheckpoint,
    pub(crate) errors: usize,
    pub(crate) visits: usize,
    pub(crate) covers: usize,
    pub(crate) commas: usize,
}

impl<'a, C: ParserConfig> ParserImpl<'a, C> {
    /// Where the parser is, and how much it has kept; all stays. It copies no list, and takes no memory.
    pub fn checkpoint(&mut self) -> Result<ParserCheckpoint, NoMemory>
        ensures ok { IsOk result }
        ensures remembers { IfOk result (λ c. Remembers self.old c) }
        ensures same { self.new ≡ self.old }
    {
        Ok(ParserCheckpoint {
            token: self.token,
            cut: self.cut,
            prev_token_end: self.prev_token_end,
            ctx: self.ctx,
            depth: self.depth,
            lexer: self.lexer.checkpoint(),
            errors: self.errors.len(),
            visits: self.module_record_builder.mark(),
            covers: self.state.covers_len(),
            commas: self.state.commas_len(),
        })
    }

    /// Goes back to a checkpoint of this text: puts back the current lexeme, the place, the parameters and the depth, and
    /// cuts diagnostics, visits and the lexer's lists to the lengths that they had there. The shorthands and commas that
    /// were kept there are kept again, and no others. The nodes stay, and what is known of heads of arrow functions.
    pub fn rewind(&mut self, c: ParserCheckpoint)
        requires at { IsAt self.old }
        requires may { MayGoBack c self.old }
        ensures { GoesBack c self.old self.new }
    {
        self.lexer.rewind(c.lexer);
        self.errors.truncate(c.errors);
        self.module_record_builder.cut(c.visits);
        self.state.truncate(c.covers, c.commas);
        self.ctx = c.ctx;
        self.token = c.token;
        self.cut = c.cut;
        self.prev_token_end = c.prev_token_end;
        self.depth = c.depth;
    }
}
