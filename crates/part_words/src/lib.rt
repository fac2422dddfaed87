//! Names and words, and what the scans of all lexemes stand on: characters, their classes and places
//! (ECMA-262, sections 11.1, 12.6 and 12.7).
#![tactic(auto)]

pub mod byte_class;
pub mod character;
pub mod class;
pub mod name;
pub mod part;
pub mod place;
pub mod scan;
mod word;
