//! Expressions: operators, assignments, sequences (ECMA-262, sections 13.4 to 13.16 and 15.5).
#![tactic(auto)]

pub mod assignment;
pub mod closed_operand;
pub mod operators;
mod private_in;
pub mod sequence;
pub mod unary;
pub mod update;
pub mod yield_expression;

pub use parse_arrows::arrow;
