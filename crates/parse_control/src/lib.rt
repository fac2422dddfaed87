//! Statements with a head and a body, and declarations of variables and constants as statements (ECMA-262, sections 14.3, 14.6,
//! 14.7 and 14.11).
#![tactic(auto)]

pub mod compound_statement;
pub mod declaration_statement;
pub mod for_parts;
pub mod for_statement;

pub use laws_statements::{forms, patterns, sequences};
