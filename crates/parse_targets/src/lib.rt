//! Expressions that are read as targets of assignments (ECMA-262, sections 8.6.4 and 13.15.5).
#![tactic(auto)]

pub mod array_target;
pub mod convert;
pub mod cover;
pub mod grammar;
pub mod ids;
pub mod widening;
