//! The nodes of a tree, in columns, and what is read from them.
#![tactic(auto)]

mod bits;
mod bound;
mod builder;
mod columns;
mod count;
mod cover;
mod flags;
mod id;
mod kind;
mod lines;
mod op;
mod reading;
mod tree;

pub use builder::ParserAstBuilder;
pub use flags::NodeFlags;
pub use id::NodeId;
pub use kind::NodeKind;
pub use op::{BigintBase, ClauseWord, DeclarationKind, MethodKind, NumberBase, Op, PropertyKind};
pub use reading::without_sign;
pub use tree::Tree;
