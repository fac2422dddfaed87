//! Arguments (ECMA-262, section 13.3.8).

ghost use Rattle.std.specs.Prelude.{◌≡◌, ◌+◌, true, false, MatchResult, IfOk};
ghost use Rattle.parse_primary.specs.Prelude.{Arguments, CanNest, Dot3, FindsDue, KeepsDiagnostic, LParen, NoArguments, Opened, ReadsSpread, room, spread_at, Standing, StandsHere, TakesItem};

use js_base::{Diagnostic, DiagnosticKind, Kind, NoMemory, Span};
use parse_shared::context::assignment_with_in;
use parse_shared::lexemes::{advance, stands};
use parse_shared::nested::Nested;
use parse_shared::nodes::make_one;
use parse_shared::{ListStep, NodeId, NodeKind, Op, ParserConfig, ParserImpl, Stop};

/// Arguments in their parentheses, behind the children that the node has already. `spreads`: one may be spread.
pub fn parse_call_arguments<C: ParserConfig, N: Nested<C>>(
    p: &mut ParserImpl<'_, C>,
    nested: &N,
    spreads: bool,
    children: Vec<Option<NodeId>>,
) -> Result<Vec<Option<NodeId>>, Stop>
    requires at { Standing p.old }
    requires nests { CanNest (N.can nested.now) (room p.old) }
    requires open { p.old.token.kind ≡ LParen }
    ensures { MatchResult result (λ v. Arguments spreads children.items v.items p.old p.new) (λ e. NoArguments spreads p.old p.new e) }
{
    let opening = p.cur_token().span();
    advance(p)?;
    let mut arguments = children;
    let mut first = true;
    'arguments: loop {
        let due = argument_due(p, opening, first)?;
        if !due {
            break;
        }
        let argument = parse_argument(p, nested, spreads)?;
        arguments.push(Some(argument))?;
        first = false;
    }
    p.expect_closing(Kind::RParen, opening)?;
    Ok(arguments)
}

/// Whether an argument is due: the first one, or another behind a comma. Else the closing parenthesis stands here.
fn argument_due<C: ParserConfig>(
    p: &mut ParserImpl<'_, C>,
    opening: Span,
    first: bool,
) -> Result<bool, Stop>
    requires at { Standing p.old }
    requires opened { Opened p.old opening }
    ensures { FindsDue first p.old p.new result }
{
    match p.delimited_step(Kind::RParen, opening, first)? {
        ListStep::Element => Ok(true),
        ListStep::End | ListStep::EndAfterComma(_) => Ok(false),
    }
}

/// An argument, or an element of an array literal: an AssignmentExpression under In, spread or not.
/// Reads: Argument.
pub fn parse_argument<C: ParserConfig, N: Nested<C>>(
    p: &mut ParserImpl<'_, C>,
    nested: &N,
    spreads: bool,
) -> Result<NodeId, Stop>
    requires at { Standing p.old }
    requires nests { CanNest (N.can nested.now) (room p.old + 1) }
    ensures { TakesItem spreads p.old p.new result }
{
    if !stands(p, Kind::Dot3) {
        return assignment_with_in(p, nested);
    }
    if spreads {
        return parse_spread_element(p, nested);
    }
    parse_refused_spread(p, nested)
}

/// A SpreadElement (ECMA-262, section 13.2.4).
pub(crate) fn parse_spread_element<C: ParserConfig, N: Nested<C>>(
    p: &mut ParserImpl<'_, C>,
    nested: &N,
) -> Result<NodeId, Stop>
    requires at { Standing p.old }
    requires nests { CanNest (N.can nested.now) (room p.old + 1) }
    requires sign { StandsHere p.old Dot3 true }
    ensures { ReadsSpread p.old p.new result }
{
    let start = p.cur_start();
    advance(p)?;
    let argument = assignment_with_in(p, nested)?;
    let span = p.end_span(start);
    let node = make_one(p, NodeKind::SpreadElement, Op::None, span, argument)?;
    Ok(node)
}

/// A SpreadElement where none may stand: that is told, and it is read.
fn parse_refused_spread<C: ParserConfig, N: Nested<C>>(
    p: &mut ParserImpl<'_, C>,
    nested: &N,
) -> Result<NodeId, Stop>
    requires at { Standing p.old }
    requires nests { CanNest (N.can nested.now) (room p.old + 1) }
    requires sign { StandsHere p.old Dot3 true }
    ensures { TakesItem false p.old p.new result }
{
    tell_spread(p)?;
    parse_spread_element(p, nested)
}

/// Tells of the `...` before an argument of a call of V8.
fn tell_spread<C: ParserConfig>(p: &mut ParserImpl<'_, C>) -> Result<(), NoMemory>
    requires at { Standing p.old }
    requires sign { StandsHere p.old Dot3 true }
    ensures { IfOk result (λ _. KeepsDiagnostic (spread_at p.old.token.span) p.old p.new) }
{
    p.error(Diagnostic {
        kind: DiagnosticKind::V8IntrinsicSpreadElem,
        span: p.cur_token().span(),
        first: None,
        second: None,
    })
}
