//! The parser of a whole text: its tree, or what is wrong with it.
#![tactic(auto)]

mod answer;
mod attribute_keys;
mod early;
mod flags;
mod key_value;
pub mod laws;
mod member_names;
mod parser;

pub use answer::{ParserReturn, Program};
pub use js_core;
pub use parser::Parser;
