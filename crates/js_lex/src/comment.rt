//! Comments (ECMA-262, section 12.4) and lists of them.

ghost use Rattle.std.specs.Prelude.{◌≡◌, ◌++◌, take, drop, map, IsTrue};
ghost use Rattle.js_lex.specs.Comments.{attached, Follow};

use js_base::{List, Span};

/// The kinds of comments.
#[derive(Debug, Clone, Copy, PartialEq, Eq)]
pub enum CommentKind {
    /// A comment to the end of its line: `//`, or the HTML-like `<!--` and `-->` (section B.1.1).
    Line,
    /// `/*` to `*/`, without a line terminator inside.
    SingleLineBlock,
    /// `/*` to `*/`, with a line terminator inside; it counts as one.
    MultiLineBlock,
}

/// A comment: where it stands, and before which lexeme.
#[derive(Debug, Clone, Copy, PartialEq, Eq)]
pub struct Comment {
    /// From its opening to behind its end, in bytes from the start of the text; the line terminator that ends a line
    /// comment isn't part of it.
    pub span: Span,
    /// Its kind.
    pub kind: CommentKind,
    /// The start of the next lexeme, or the length of the text.
    pub attached_to: u32,
}

/// A list of comments.
pub type Comments = List<Comment>;

/// Whether the comments from a number on are attached to no place before the one to which the comment before them is.
pub(crate) fn follow(comments: &Comments, from: usize) -> bool
    ensures { IsTrue result → Follow comments.now from }
{
    if from == 0 || from >= comments.len() {
        return true;
    }
    comments[from - 1].attached_to <= comments[from].attached_to
}

/// Attaches the comments from a number on to the lexeme that begins at a place.
pub(crate) fn attach(comments: &mut Comments, from: usize, place: u32)
    ensures { comments.new ≡ take from comments.old ++ map (attached place) (drop from comments.old) }
{
    let mut next = from;
    'comments: while next < comments.len() {
        comments[next].attached_to = place;
        next += 1;
    }
}
