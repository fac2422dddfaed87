//! `import.meta` (ECMA-262, section 13.3.12).

ghost use Rattle.std.specs.Prelude.{IfOk};
ghost use Rattle.parse_members.specs.Prelude.{BehindWord, ChecksMeta, EndsParse, GivesUp, goal, IsAt, Mark, outside_module_at, Standing, TakesMeta};

use js_base::{DiagnosticKind, Kind, NoMemory, Span};
use parse_shared::diagnostics::diagnostic_at;
use parse_shared::lexemes::{advance, stands};
use parse_shared::nodes::make_leaf;
use parse_shared::{NodeId, NodeKind, Op, ParserConfig, ParserImpl, Stop};

/// ImportMeta, behind an `import` that began at a place (ECMA-262, section 13.3.12). Where it may not stand, that is told,
/// and reading goes on.
#[inline(never)]
pub(crate) fn parse_import_meta<C: ParserConfig>(
    p: &mut ParserImpl<'_, C>,
    start: u32,
) -> Result<NodeId, Stop>
    requires at { Standing p.old }
    requires behind { BehindWord start p.old }
    ensures { TakesMeta start p.old p.new result }
{
    if !stands(p, Kind::Dot) {
        return Err(p.set_unexpected());
    }
    advance(p)?;
    if !stands(p, Kind::Meta) {
        return Err(refuse_property(p, start));
    }
    advance(p)?;
    let span = p.end_span(start);
    check_import_meta(p, span)?;
    let node = make_leaf(p, NodeKind::ImportMeta, Op::None, span)?;
    Ok(node)
}

/// Gives up behind `import` and a dot, where something else than `meta` stands.
fn refuse_property<C: ParserConfig>(p: &mut ParserImpl<'_, C>, start: u32) -> Stop
    requires at { Standing p.old }
    requires behind { BehindWord start p.old }
    ensures { GivesUp EndsParse p.old p.new result }
{
    if !p.cur_kind().is_identifier_name() {
        return p.set_unexpected();
    }
    let span = Span::new(start, p.cur_token().span().end);
    p.set_fatal_error(diagnostic_at(DiagnosticKind::InvalidImportProperty, span))
}

/// Tells of an `import.meta` in no module, which stands at a span.
fn check_import_meta<C: ParserConfig>(p: &mut ParserImpl<'_, C>, span: Span) -> Result<(), NoMemory>
    requires at { IsAt p.old }
    requires mark { Mark (goal p.old) p.old.text (outside_module_at span) }
    ensures { IfOk result (λ _. ChecksMeta span p.old p.new) }
{
    if !p.source_type.is_module() {
        p.error(diagnostic_at(DiagnosticKind::ImportMeta, span))?;
    }
    Ok(())
}
