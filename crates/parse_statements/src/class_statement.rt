//! Declarations of classes as statements (ECMA-262, section 15.7).

ghost use Rattle.std.specs.Prelude.{true};
ghost use Rattle.parse_statements.specs.Prelude.{at, CanNest, ClassHere, ListItem, room, Standing, Sub, TakesStatement};

use js_base::DiagnosticKind;
use parse_members::decorated::parse_class;
use parse_primary::forms::ClassForm;
use parse_shared::diagnostics::diagnostic_at;
use parse_shared::nested::Nested;
use parse_shared::{NodeId, ParserConfig, ParserImpl, Stop};

/// A ClassDeclaration in a list of statements (ECMA-262, section 15.7).
#[inline(never)]
pub fn parse_class_declaration<C: ParserConfig, N: Nested<C>>(
    p: &mut ParserImpl<'_, C>,
    nested: &N,
) -> Result<NodeId, Stop>
    requires at { Standing p.old }
    requires nests { CanNest (N.can nested.now) (room p.old) }
    requires class { ClassHere p.old true }
    ensures { TakesStatement (at ListItem) p.old p.new result }
{
    parse_class(p, nested, ClassForm::Declaration)
}

/// A ClassDeclaration as the body of another statement, where none may stand (ECMA-262, chapter 14): that is told, and
/// reading goes on.
#[inline(never)]
pub fn parse_class_as_body<C: ParserConfig, N: Nested<C>>(
    p: &mut ParserImpl<'_, C>,
    nested: &N,
) -> Result<NodeId, Stop>
    requires at { Standing p.old }
    requires nests { CanNest (N.can nested.now) (room p.old) }
    requires class { ClassHere p.old true }
    ensures { TakesStatement (at Sub) p.old p.new result }
{
    let start = p.cur_start();
    let class = parse_class(p, nested, ClassForm::Declaration)?;
    let span = p.end_span(start);
    p.error(diagnostic_at(DiagnosticKind::ClassDeclaration, span))?;
    Ok(class)
}
