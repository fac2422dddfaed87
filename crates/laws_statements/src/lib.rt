//! Definitions and laws of statements, over which the parse functions of `parse_control` and `parse_statements` are proved.
#![tactic(auto)]

pub mod forms;
pub mod sequences;

pub use laws_operators::patterns;
