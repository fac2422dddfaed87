//! Operands that stand for themselves: names, literals, functions, classes, arrays, objects, arguments and templates (ECMA-262,
//! sections 13.2, 15.2, 15.4, 15.5 and 15.7).
#![tactic(auto)]

pub mod arguments;
pub mod array;
pub mod class;
pub mod function;
pub mod leaf;
pub mod object;
pub mod property_name;
pub mod template;

pub use laws_primary::forms;
