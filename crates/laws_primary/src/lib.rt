//! Definitions and laws of operands, over which the parse functions of `parse_primary` and `parse_members` are proved.
#![tactic(auto)]

pub mod forms;
