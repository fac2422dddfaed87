//! The `try` statement (ECMA-262, section 14.15).

ghost use Rattle.std.specs.Prelude.{◌≡◌, ◌∷◌, [], Some, true, IfOk, MatchResult};
ghost use Rattle.parse_statements.specs.Prelude.{ACatch, CanNest, Catch, EdgeOf, Finally, finally_of, goal, has_flag, in_flag, LParen, MadeHere, neither, NoClauses, parameter_of, plain_label, room, Standing, StandsHere, sym, TakesAnywhere, TakesClauses, TakesPart, Try};
ghost use Rattle.parse_shared.specs.js_tree.declared.kind.NodeKind.TheVariants as node;
ghost use Rattle.parse_shared.specs.js_tree.declared.op.Op.TheVariants as op;

use crate::block::parse_block;
use js_base::{DiagnosticKind, Kind, NoMemory, Span};
use parse_control::sequences::Sequences;
use parse_shared::diagnostics::diagnostic_at;
use parse_shared::lexemes::{advance, stands};
use parse_shared::nested::Nested;
use parse_shared::nodes::{make_one, no_flags};
use parse_shared::refusals::refuse_annotation;
use parse_shared::{NodeId, NodeKind, Op, ParserConfig, ParserImpl, Stop};

/// A TryStatement (ECMA-262, section 14.15).
/// Reads: Try.
#[inline(never)]
pub fn parse_try_statement<C: ParserConfig, N: Sequences<C>>(
    p: &mut ParserImpl<'_, C>,
    nested: &N,
) -> Result<NodeId, Stop>
    requires at { Standing p.old }
    requires nests { CanNest (N.can nested.now) (room p.old) }
    requires allows_in { has_flag in_flag p.old.ctx ≡ true }
    requires word { StandsHere p.old Try true }
    ensures { TakesAnywhere p.old p.new result }
{
    let start = p.cur_start();
    advance(p)?;
    let block = parse_block(p, nested)?;
    let (handler, finalizer) = parse_clauses(p, nested)?;
    let span = p.end_span(start);
    let node = make_try(p, span, block, handler, finalizer)?;
    Ok(node)
}

/// The Catch and the Finally behind the Block of a `try`, as far as they stand here. That neither does is told, and reading
/// goes on.
fn parse_clauses<C: ParserConfig, N: Sequences<C>>(
    p: &mut ParserImpl<'_, C>,
    nested: &N,
) -> Result<(Option<NodeId>, Option<NodeId>), Stop>
    requires at { Standing p.old }
    requires nests { CanNest (N.can nested.now) (room p.old) }
    requires allows_in { has_flag in_flag p.old.ctx ≡ true }
    requires edge { EdgeOf (goal p.old) p.old.text p.old.prev_token_end }
    ensures { MatchResult result (λ r. TakesClauses p.old p.new r.0 r.1) (λ e. NoClauses p.old p.new e) }
{
    let handler = parse_catch(p, nested)?;
    let finalizer = parse_finally(p, nested)?;
    if !is_missing(handler, finalizer) {
        return Ok((handler, finalizer));
    }
    let end = p.prev_token_end();
    let span = Span::empty(end);
    let missing = diagnostic_at(DiagnosticKind::ExpectCatchFinally, span);
    p.error(missing)?;
    Ok((handler, finalizer))
}

/// Whether neither clause stands there.
fn is_missing(handler: Option<NodeId>, finalizer: Option<NodeId>) -> bool
    ensures { result ≡ neither handler finalizer }
{
    handler.is_none() && finalizer.is_none()
}

/// The node of a TryStatement.
fn make_try<C: ParserConfig>(
    p: &mut ParserImpl<'_, C>,
    span: Span,
    block: NodeId,
    handler: Option<NodeId>,
    finalizer: Option<NodeId>,
) -> Result<NodeId, NoMemory>
    ensures { IfOk result (λ id. MadeHere (plain_label node.TryStatement op.None span) (Some block ∷ handler ∷ finalizer ∷ []) p.old p.new id) }
{
    let children = [Some(block), handler, finalizer];
    p.ast.node_of_three(NodeKind::TryStatement, span, Op::None, no_flags(), children)
}

/// A Catch (ECMA-262, section 14.15), where one stands here.
/// Reads: Catch.
fn parse_catch<C: ParserConfig, N: Sequences<C>>(
    p: &mut ParserImpl<'_, C>,
    nested: &N,
) -> Result<Option<NodeId>, Stop>
    requires at { Standing p.old }
    requires nests { CanNest (N.can nested.now) (room p.old) }
    requires allows_in { has_flag in_flag p.old.ctx ≡ true }
    ensures { TakesPart Catch (sym ACatch) p.old p.new result }
{
    if !stands(p, Kind::Catch) {
        return Ok(None);
    }
    let start = p.cur_start();
    advance(p)?;
    let parameter = parse_catch_parameter(p, nested)?;
    let block = parse_block(p, nested)?;
    let span = p.end_span(start);
    let node = make_catch(p, span, parameter, block)?;
    Ok(Some(node))
}

/// The node of a Catch.
fn make_catch<C: ParserConfig>(
    p: &mut ParserImpl<'_, C>,
    span: Span,
    parameter: Option<NodeId>,
    block: NodeId,
) -> Result<NodeId, NoMemory>
    ensures { IfOk result (λ id. MadeHere (plain_label node.CatchClause op.None span) (parameter ∷ Some block ∷ []) p.old p.new id) }
{
    let kind = NodeKind::CatchClause;
    p.ast
        .node_of_two(kind, span, Op::None, no_flags(), parameter, Some(block))
}

/// A CatchParameter in its parentheses (ECMA-262, section 14.15), where they stand here. A colon begins a type annotation of
/// TypeScript.
fn parse_catch_parameter<C: ParserConfig, N: Nested<C>>(
    p: &mut ParserImpl<'_, C>,
    nested: &N,
) -> Result<Option<NodeId>, Stop>
    requires at { Standing p.old }
    requires nests { CanNest (N.can nested.now) (room p.old) }
    ensures { TakesPart LParen parameter_of p.old p.new result }
{
    if !stands(p, Kind::LParen) {
        return Ok(None);
    }
    advance(p)?;
    let start = p.cur_start();
    let binding = nested.binding(p)?;
    let span = p.end_span(start);
    let node = make_one(p, NodeKind::CatchParameter, Op::None, span, binding)?;
    if p.at(Kind::Colon) {
        return Err(refuse_annotation(p));
    }
    p.expect(Kind::RParen)?;
    Ok(Some(node))
}

/// The Block of a Finally (ECMA-262, section 14.15), where one stands here.
fn parse_finally<C: ParserConfig, N: Sequences<C>>(
    p: &mut ParserImpl<'_, C>,
    nested: &N,
) -> Result<Option<NodeId>, Stop>
    requires at { Standing p.old }
    requires nests { CanNest (N.can nested.now) (room p.old) }
    requires allows_in { has_flag in_flag p.old.ctx ≡ true }
    ensures { TakesPart Finally finally_of p.old p.new result }
{
    if !stands(p, Kind::Finally) {
        return Ok(None);
    }
    advance(p)?;
    let block = parse_block(p, nested)?;
    Ok(Some(block))
}
