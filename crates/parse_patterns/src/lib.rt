//! Binding patterns and formal parameters (ECMA-262, sections 14.3.3 and 15.1).
#![tactic(auto)]

pub mod binding;
pub mod method_parameters;
mod object_pattern;
pub mod parameters;
