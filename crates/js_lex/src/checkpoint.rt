//! Where a lexer was, to go back there.

/// A place of a lexer, in bytes from the start of its text, and the lengths of the lists that it had kept there.
#[derive(Debug, Drop)]
pub struct LexerCheckpoint {
    pub(crate) place: usize,
    pub(crate) lengths: Lengths,
}

/// The lengths of what a lexer keeps.
#[derive(Debug, Clone, Copy)]
pub(crate) struct Lengths {
    pub comments: usize,
    pub irregular_whitespaces: usize,
    pub tokens: usize,
    pub errors: usize,
}
