//! Arrow functions, and where their heads stand (ECMA-262, sections 15.3 and 15.9).
#![tactic(auto)]

pub mod arrow;
pub mod closing;
pub mod lookahead;
pub mod notes;
