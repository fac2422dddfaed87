//! Definitions and laws of expressions, over which the parse functions of `parse_arrows` and `parse_operators` are proved.
#![tactic(auto)]

pub mod forms;

pub use laws_patterns::patterns;
