//! The place of a parser in its text, and the moves over lexemes.
#![tactic(auto)]

mod checkpoint;
mod history;
mod kinds;
mod marker;
mod moves;
mod parser;
mod state;
mod stop;

pub use checkpoint::ParserCheckpoint;
pub use js_lex::{
    Comment, CommentKind, Comments, Lexer, LexerCheckpoint, LexerConfig, LexerOutput,
    NoTokensLexerConfig, NoTokensParserConfig, ParserConfig, RuntimeLexerConfig,
    RuntimeParserConfig, TokensLexerConfig, TokensParserConfig,
};
pub use js_tree::{
    BigintBase, ClauseWord, DeclarationKind, MethodKind, NodeFlags, NodeId, NodeKind, NumberBase,
    Op, ParserAstBuilder, PropertyKind,
};
pub use parser::{MAX_DEPTH, ParserImpl, ParserParts};
pub use state::{CoverInitializer, ParserState};
pub use stop::{ListStep, Stop};
