//! The other lexemes that are scanned at a place: punctuators, numbers, strings, regular expressions and templates
//! (ECMA-262, sections 12.8 and 12.9).
#![tactic(auto)]

pub mod number;
pub mod punctuator;
pub mod regular_expression;
pub mod string;
pub mod template;
