//! Declarations of variables (ECMA-262, section 14.3).
#![tactic(auto)]

pub mod declaration;
pub mod head;
