//! Where a parse function gives up: what is told then is kept last, and is of a class that ends a parse.

ghost use Rattle.std.specs.Prelude.{◌≡◌, None};
ghost use Rattle.parse_shared.specs.Prelude.{Colon, EndsParse, GivesUp, goal, IsAt, Mark, MayTell, Standing, unrelated_at};

use crate::diagnostics::diagnostic_at;
use js_base::{DiagnosticKind, Kind, Span};
use laws_shared::{ParserConfig, ParserImpl, Stop};

/// Gives up with a diagnostic of a place.
pub fn refuse_at<C: ParserConfig>(
    p: &mut ParserImpl<'_, C>,
    kind: DiagnosticKind,
    span: Span,
) -> Stop
    requires at { IsAt p.old }
    requires mark { Mark (goal p.old) p.old.text (unrelated_at kind span) }
    requires ends { EndsParse (unrelated_at kind span) }
    ensures { GivesUp EndsParse p.old p.new result }
{
    p.set_fatal_error(diagnostic_at(kind, span))
}

/// Gives up with a diagnostic of the lexeme that stands here.
pub fn refuse_here<C: ParserConfig>(p: &mut ParserImpl<'_, C>, kind: DiagnosticKind) -> Stop
    requires at { IsAt p.old }
    requires mark { Mark (goal p.old) p.old.text (unrelated_at kind p.old.token.span) }
    requires ends { EndsParse (unrelated_at kind p.old.token.span) }
    ensures { GivesUp EndsParse p.old p.new result }
{
    let span = p.cur_token().span();
    refuse_at(p, kind, span)
}

/// Gives up with what is told of what can't stand here.
pub fn refuse_any<C: ParserConfig>(p: &mut ParserImpl<'_, C>) -> Stop
    requires { IsAt p.old }
    ensures { GivesUp EndsParse p.old p.new result }
{
    p.set_unexpected()
}

/// Gives up where something is due, with a diagnostic of this kind of whichever lexeme stands here; where none does, with
/// the fault.
#[inline(never)]
pub fn refuse_due<C: ParserConfig>(p: &mut ParserImpl<'_, C>, kind: DiagnosticKind) -> Stop
    requires at { IsAt p.old }
    requires may { MayTell kind p.old None }
    requires ends { EndsParse (unrelated_at kind p.old.token.span) }
    ensures { GivesUp EndsParse p.old p.new result }
{
    if p.at(Kind::Undetermined) {
        return refuse_any(p);
    }
    refuse_here(p, kind)
}

/// Gives up at a colon, which begins a type annotation of TypeScript.
#[inline(never)]
pub fn refuse_annotation<C: ParserConfig>(p: &mut ParserImpl<'_, C>) -> Stop
    requires at { Standing p.old }
    requires colon { p.old.token.kind ≡ Colon }
    ensures { GivesUp EndsParse p.old p.new result }
{
    refuse_here(p, DiagnosticKind::TypeAnnotationInTs)
}
