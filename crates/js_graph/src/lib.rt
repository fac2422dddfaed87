//! Exports between modules (ECMA-262, 16.2.1.7.2): which binding a name that a module exports stands for, and which names
//! it exports, where each module specifier means a module of a graph.
#![tactic(auto)]

mod graph;
mod laws;
mod module;
mod name;
mod names;
mod places;
mod resolution;
mod walk;

pub use graph::Graph;
pub use laws::law_of_unreached_modules;
pub use names::Texts;
pub use resolution::{Binding, BindingName, Resolution};
