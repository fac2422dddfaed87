//! Public calls once more, each under its own clauses and by nothing but these. A must-fail edit is a wrong body of one of
//! them, which the clauses alone have to refuse.

pub mod cursor;
pub mod exporting;
pub mod graphs;
pub mod lexing;
pub mod nodes;
pub mod parsing;
pub mod productions;
pub mod records;
pub mod running;
