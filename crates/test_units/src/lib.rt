//! Tests of the libraries by their public calls, and these calls under their clauses alone.
#![tactic(auto)]

#[cfg(test)]
mod base;
pub mod clauses;
#[cfg(test)]
mod cursor;
#[cfg(test)]
mod decoding;
#[cfg(test)]
mod example;
#[cfg(test)]
mod graph;
#[cfg(test)]
mod json;
#[cfg(test)]
mod record;
#[cfg(test)]
mod rows;
#[cfg(test)]
mod runs;
#[cfg(test)]
mod texts;
#[cfg(test)]
mod tree;
