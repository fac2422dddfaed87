//! Where parts of patterns stand (ECMA-262, sections 14.3.3 and 15.1).

/// Where a rest stands.
#[derive(Clone, Copy)]
pub enum RestPlace {
    /// In an array or object pattern.
    Pattern,
    /// Among formal parameters.
    Parameters,
}
