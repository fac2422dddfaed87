//! What the parse functions of all productions share: moves over lexemes, parameters, nodes that are made there, what is told, and
//! the semicolon behind a statement.
#![tactic(auto)]

pub mod context;
pub mod diagnostics;
pub mod lexemes;
pub mod nodes;
pub mod refusals;
pub mod semicolon;

pub use laws_shared::{
    BigintBase, ClauseWord, DeclarationKind, ListStep, MethodKind, NodeFlags, NodeId, NodeKind,
    NumberBase, Op, ParserAstBuilder, ParserConfig, ParserImpl, PropertyKind, RuntimeParserConfig,
    Stop, nested,
};
