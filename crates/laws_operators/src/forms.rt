//! What the heads of arrow functions are told by (ECMA-262, sections 15.3 and 15.9).

use laws_shared::NodeId;

/// What stands before the `=>` of an arrow function.
#[derive(Clone, Copy)]
pub struct ArrowHead {
    /// Whether `async` stands before its parameters.
    pub is_async: bool,
    /// Its FormalParameters.
    pub parameters: NodeId,
}

/// What may begin with an opening parenthesis.
#[derive(Clone, Copy)]
pub enum HeadLookahead {
    /// A head and nothing else: `...` stands behind it, with which no expression begins, or `=>` behind the parenthesis that
    /// closes.
    Head,
    /// A head, or an expression.
    Maybe,
    /// No head: no parameter begins with what stands behind it, and it isn't `)`; or no `=>` stands behind the parenthesis
    /// that closes.
    NoHead,
}

/// A bracket that is open.
#[derive(Clone, Copy, PartialEq, Eq)]
pub enum OpenBracket {
    /// A parenthesis.
    Round,
    /// A square bracket.
    Square,
    /// A brace.
    Curly,
}

/// A bracket that is open, and the place behind which it stands, in bytes.
#[derive(Clone, Copy)]
pub struct OpenedBracket {
    /// Which one it is.
    pub bracket: OpenBracket,
    /// The end of the lexeme before it.
    pub behind: u32,
}
