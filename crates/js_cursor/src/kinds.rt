//! Tests of kinds.

ghost use Rattle.std.specs.Prelude.{◌≡◌, ◌↔◌, IsTrue};
ghost use Rattle.js_cursor.specs.Moves.{is_last, ends_statement};

use js_base::Kind;

/// Whether two kinds are the same.
pub(crate) fn is_kind(kind: Kind, other: Kind) -> bool
    ensures { IsTrue result ↔ (kind ≡ other) }
{
    kind == other
}

/// Whether no lexeme can be passed: at the end of the text, and where none stands.
pub(crate) fn is_last(kind: Kind) -> bool
    ensures { result ≡ is_last kind }
{
    match kind {
        Kind::Eof | Kind::Undetermined => true,
        _ => false,
    }
}

/// Whether a semicolon stands here, or may be left out without a new line.
pub(crate) fn ends_statement(kind: Kind) -> bool
    ensures { result ≡ ends_statement kind }
{
    match kind {
        Kind::Semicolon | Kind::RCurly | Kind::Eof => true,
        _ => false,
    }
}
