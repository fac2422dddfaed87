//! Where lists of statements stand, and what parts of statements were read (ECMA-262, chapter 14).

ghost use Rattle.std.specs.Prelude.{◌≡◌, true, false};
ghost use Rattle.laws_shared.specs.NodeTexts.{is_textual};
ghost use Rattle.laws_statements.specs.ForHeads.{node_of};
ghost use Rattle.laws_statements.specs.ForWords.{is_of};
ghost use Rattle.laws_statements.specs.StatementLists.{ends_at, has_directives};

use js_base::{Kind, Span};
use laws_shared::NodeKind;

/// How the first part of the head of a `for` ends, which decides what the statement is.
#[derive(Clone, Copy)]
pub enum Ending {
    /// By a semicolon, in a ForStatement (ECMA-262, section 14.7.4).
    Semicolon,
    /// By `in`, in a ForInOfStatement (14.7.5).
    In,
    /// By `of`, in a ForInOfStatement (14.7.5).
    Of,
}

impl Ending {
    /// The kind of the statement's node.
    pub fn node_kind(self) -> NodeKind
        ensures kind { result ≡ node_of self }
        ensures plain { is_textual result ≡ false }
    {
        match self {
            Ending::Semicolon => NodeKind::ForStatement,
            Ending::In => NodeKind::ForInStatement,
            Ending::Of => NodeKind::ForOfStatement,
        }
    }

    /// Whether it is `of`.
    pub fn is_of(self) -> bool
        ensures { result ≡ is_of self }
    {
        matches!(self, Ending::Of)
    }
}

/// A list of statements: where it stands.
#[derive(Clone, Copy)]
pub enum StatementList {
    /// In a text, up to its end (ECMA-262, section 16.1).
    Text,
    /// In a Block, up to its closing brace (ECMA-262, section 14.2).
    Block,
    /// In a FunctionBody, up to its closing brace (ECMA-262, section 15.2).
    Body,
    /// In a CaseClause or a DefaultClause, up to the next one or the closing brace (ECMA-262, section 14.12).
    Clause,
}

impl StatementList {
    /// Whether it begins with directives.
    pub fn has_directives(self) -> bool
        ensures { result ≡ has_directives self }
    {
        match self {
            StatementList::Text | StatementList::Body => true,
            StatementList::Block | StatementList::Clause => false,
        }
    }

    /// Whether a lexeme of this kind ends it.
    pub fn ends_at(self, kind: Kind) -> bool
        ensures { result ≡ ends_at self kind }
    {
        match self {
            StatementList::Text => matches!(kind, Kind::Eof),
            StatementList::Block | StatementList::Body => matches!(kind, Kind::RCurly),
            StatementList::Clause => matches!(kind, Kind::Case | Kind::Default | Kind::RCurly),
        }
    }
}

/// The DefaultClauses among the clauses of a CaseBlock that were read, of which one may stand (ECMA-262, section 14.12).
#[derive(Clone, Copy)]
pub enum Defaults {
    /// None.
    Missing,
    /// One, which stands there.
    One(Span),
    /// Several, which was told.
    Several,
}
