//! `new.target` (ECMA-262, section 13.3.12).

ghost use Rattle.std.specs.Prelude.{IfOk, false, true};
ghost use Rattle.parse_members.specs.Prelude.{BehindDot, BehindNew, ChecksTarget, Dot, EndsParse, GivesUp, goal, IsAt, Mark, outside_at, Standing, StandsHere, TakesTarget, Target};

use js_base::{DiagnosticKind, Kind, NoMemory, Span};
use parse_shared::diagnostics::diagnostic_at;
use parse_shared::lexemes::{advance, stands};
use parse_shared::nodes::make_leaf;
use parse_shared::refusals::{refuse_any, refuse_at};
use parse_shared::{NodeId, NodeKind, Op, ParserConfig, ParserImpl, Stop};

/// `new.target` from its dot on, behind a `new` that began at a place (ECMA-262, section 13.3.12). Where it may not stand,
/// that is told, and reading goes on.
#[inline(never)]
pub(crate) fn parse_new_target<C: ParserConfig>(
    p: &mut ParserImpl<'_, C>,
    start: u32,
) -> Result<NodeId, Stop>
    requires at { Standing p.old }
    requires behind { BehindNew start p.old }
    requires dot { StandsHere p.old Dot true }
    ensures { TakesTarget start p.old p.new result }
{
    advance(p)?;
    if !stands(p, Kind::Target) {
        return Err(refuse_target(p, start));
    }
    advance(p)?;
    let span = p.end_span(start);
    check_new_target(p, span)?;
    let node = make_leaf(p, NodeKind::NewTarget, Op::None, span)?;
    Ok(node)
}

/// Gives up behind `new` and a dot, where something else than `target` stands.
fn refuse_target<C: ParserConfig>(p: &mut ParserImpl<'_, C>, start: u32) -> Stop
    requires at { Standing p.old }
    requires behind { BehindDot start p.old }
    requires other { StandsHere p.old Target false }
    ensures { GivesUp EndsParse p.old p.new result }
{
    if !p.cur_kind().is_identifier_name() {
        return refuse_any(p);
    }
    let span = Span::new(start, p.cur_token().span().end);
    refuse_at(p, DiagnosticKind::NewTarget, span)
}

/// Tells of a `new.target` in no function, which stands at a span.
fn check_new_target<C: ParserConfig>(p: &mut ParserImpl<'_, C>, span: Span) -> Result<(), NoMemory>
    requires at { IsAt p.old }
    requires mark { Mark (goal p.old) p.old.text (outside_at span) }
    ensures { IfOk result (λ _. ChecksTarget span p.old p.new) }
{
    if !p.ctx.has_new_target() {
        p.error(diagnostic_at(DiagnosticKind::NewTargetOutsideFunction, span))?;
    }
    Ok(())
}
