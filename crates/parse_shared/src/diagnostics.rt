//! Diagnostics as parse functions tell them.

ghost use Rattle.std.specs.Prelude.{◌≡◌, length};
ghost use Rattle.parse_shared.specs.Prelude.{unrelated_at};

use js_base::{Diagnostic, DiagnosticKind, Span};
use laws_shared::{ParserConfig, ParserImpl};

/// How many diagnostics were kept.
pub fn kept_so_far<C: ParserConfig>(p: &ParserImpl<'_, C>) -> usize
    ensures { result ≡ length p.now.errors }
{
    p.errors.len()
}

/// A diagnostic without related places.
pub fn diagnostic_at(kind: DiagnosticKind, span: Span) -> Diagnostic
    ensures { result ≡ unrelated_at kind span }
{
    Diagnostic {
        kind,
        span,
        first: None,
        second: None,
    }
}
