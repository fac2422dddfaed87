//! The lexer (ECMA-262, chapter 12): one token at a time, by the lexical goal that the parser asks for.
#![tactic(auto)]

mod checkpoint;
mod comment;
mod config;
mod hashbang;
mod lexer;
mod mark;
mod output;
mod plain_goal;
mod reading;
mod relexing;
mod trivia;

pub use checkpoint::LexerCheckpoint;
pub use comment::{Comment, CommentKind, Comments};
pub use config::{
    LexerConfig, NoTokensLexerConfig, NoTokensParserConfig, ParserConfig, RuntimeLexerConfig,
    RuntimeParserConfig, TokensLexerConfig, TokensParserConfig,
};
pub use lexer::Lexer;
pub use output::LexerOutput;
