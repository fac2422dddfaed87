//! What parse functions answer, what may nest in them, and the laws of both, over which the functions of all productions are
//! proved.
#![tactic(auto)]

pub mod nested;

pub use js_cursor::{
    BigintBase, ClauseWord, DeclarationKind, ListStep, MethodKind, NodeFlags, NodeId, NodeKind,
    NumberBase, Op, ParserAstBuilder, ParserConfig, ParserImpl, PropertyKind, RuntimeParserConfig,
    Stop,
};
