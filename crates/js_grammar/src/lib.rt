//! Definitions and laws: lexemes, trees, the grammar of JavaScript and what its texts mean (ECMA-262, 16th edition).
//!
//! The definitions stand in `specs/`. No call of this crate runs in the program.
#![tactic(auto)]

pub mod grammar_laws;
pub mod lexical_laws;
pub mod table_laws;
