//! Where a construct stands, and how much is known of it.

ghost use Rattle.std.specs.Prelude.{◌≡◌};
ghost use Rattle.js_base.specs.Places.{is_single};

/// Where a statement stands (ECMA-262, chapter 14).
#[derive(Debug, Clone, Copy, PartialEq, Eq)]
pub enum StatementContext {
    /// At the top level of the text (chapter 16).
    Program,
    /// In a list of statements, as that of a block (14.2).
    StatementList,
    /// After the head of an `if`, or after `else` (14.6).
    If,
    /// After a label (14.13).
    Label,
    /// After `do` (14.7.2).
    Do,
    /// After the head of a `while` (14.7.3).
    While,
    /// After the head of a `with` (14.11).
    With,
    /// After the head of a `for` (14.7.4, 14.7.5).
    For,
}

impl StatementContext {
    /// Whether one statement alone may stand there, and no declaration of a list.
    pub fn is_single_statement(self) -> bool
        ensures { result ≡ is_single self }
    {
        !matches!(
            self,
            StatementContext::Program | StatementContext::StatementList
        )
    }
}

/// An answer that may not be known yet.
#[derive(Debug, Clone, Copy, PartialEq, Eq)]
pub enum Tristate {
    /// Yes.
    True,
    /// No.
    False,
    /// Not known.
    Maybe,
}
