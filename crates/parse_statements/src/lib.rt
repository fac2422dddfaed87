//! Statements and lists of them (ECMA-262, chapter 14 and section 11.2.1).
#![tactic(auto)]

pub mod block;
pub mod class_statement;
pub mod function_statement;
pub mod statement;
pub mod statement_list;
pub mod switch_statement;
pub mod try_statement;
pub mod word_statement;

pub use parse_control::{forms, patterns, sequences};
