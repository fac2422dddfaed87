//! A JSON form of trees, for tools that are written in other languages.
#![tactic(auto)]

mod export;
pub mod laws;
mod node;

pub use export::{MAX_LEVELS, tree_json};
