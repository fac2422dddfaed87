//! Definitions and laws of what is bound, over which the parse functions of `parse_patterns` are proved.
#![tactic(auto)]

pub mod forms;
pub mod patterns;
