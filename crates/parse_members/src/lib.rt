//! Left-hand sides and what they begin with: members, calls, `new`, `super`, parentheses (ECMA-262, sections 13.2 and 13.3).
#![tactic(auto)]

pub mod decorated;
pub mod decorator;
mod import_call;
mod import_meta;
mod import_word;
pub mod left_hand_side;
pub mod new_target;
pub mod primary;
pub mod super_word;
