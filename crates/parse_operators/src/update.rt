//! Updates (ECMA-262, section 13.4).

ghost use Rattle.std.specs.Prelude.{◌≡◌, ◌∷◌, [], Some, IfOk, true, not, ◌&&◌};
ghost use Rattle.parse_operators.specs.Prelude.{Answers, at, CanNest, MadeHere, one_of_kinds, plain_label, prefix_flag, room, Standing, Update, update_kinds};
ghost use Rattle.parse_shared.specs.js_tree.declared.kind.NodeKind.TheVariants as node;
ghost use Rattle.parse_shared.specs.js_tree.declared.op.Op.TheVariants as op;

use js_base::{NoMemory, Span, UpdateOperator, map_update_operator};
use parse_members::left_hand_side::parse_lhs_expression_or_higher;
use parse_shared::diagnostics::kept_so_far;
use parse_shared::lexemes::{advance, ends_operand};
use parse_shared::nested::Nested;
use parse_shared::nodes::make_one;
use parse_shared::{NodeFlags, NodeId, NodeKind, Op, ParserConfig, ParserImpl, Stop};
use parse_targets::cover::{cover, refuse_target};

/// An UpdateExpression (ECMA-262, section 13.4).
/// Reads: Update.
pub fn parse_update_expression<C: ParserConfig, N: Nested<C>>(
    p: &mut ParserImpl<'_, C>,
    nested: &N,
) -> Result<NodeId, Stop>
    requires at { Standing p.old }
    requires nests { CanNest (N.can nested.now) (room p.old) }
    ensures { Answers (at Update) p.old p.new result }
{
    if p.cur_kind().is_update_operator() {
        return parse_prefix_update(p, nested);
    }
    let start = p.cur_start();
    let kept = kept_so_far(p);
    let operand = parse_lhs_expression_or_higher(p, nested)?;
    if !stands_behind(p) {
        return Ok(operand);
    }
    let operator = map_update_operator(p.cur_kind());
    let Some(target) = cover(p, operand) else {
        return Err(refuse_target(p, start, kept));
    };
    advance(p)?;
    let span = p.end_span(start);
    let node = make_one(
        p,
        NodeKind::UpdateExpression,
        Op::Update(operator),
        span,
        target,
    )?;
    Ok(node)
}

/// Whether an operator stands here on the line of its operand.
fn stands_behind<C: ParserConfig>(p: &ParserImpl<'_, C>) -> bool
    ensures { result ≡ (not p.now.token.is_on_new_line && one_of_kinds update_kinds p.now.token.kind) }
{
    let token = p.cur_token();
    !token.is_on_new_line() && token.kind().is_update_operator()
}

/// An operator that stands before its operand.
#[inline(never)]
fn parse_prefix_update<C: ParserConfig, N: Nested<C>>(
    p: &mut ParserImpl<'_, C>,
    nested: &N,
) -> Result<NodeId, Stop>
    requires at { Standing p.old }
    requires nests { CanNest (N.can nested.now) (room p.old) }
    requires operator { one_of_kinds update_kinds p.old.token.kind ≡ true }
    ensures { Answers (at Update) p.old p.new result }
{
    let start = p.cur_start();
    let operator = map_update_operator(p.cur_kind());
    advance(p)?;
    let operand_start = p.cur_start();
    let kept = kept_so_far(p);
    let operand = nested.unary(p)?;
    let Some(target) = cover(p, operand) else {
        if !ends_operand(p)? {
            return Err(p.set_unexpected());
        }
        return Err(refuse_target(p, operand_start, kept));
    };
    let span = p.end_span(start);
    let node = make_prefix(p, operator, span, target)?;
    Ok(node)
}

/// The node of an operator before its operand.
#[inline(never)]
fn make_prefix<C: ParserConfig>(
    p: &mut ParserImpl<'_, C>,
    operator: UpdateOperator,
    span: Span,
    target: NodeId,
) -> Result<NodeId, NoMemory>
    ensures { IfOk result (λ id. MadeHere (record (plain_label node.UpdateExpression (op.Update operator) span) { flags = prefix_flag }) (Some target ∷ []) p.old p.new id) }
{
    let flags = NodeFlags {
        prefix: true,
        ..NodeFlags::default()
    };
    p.ast.node_of_one(
        NodeKind::UpdateExpression,
        span,
        Op::Update(operator),
        flags,
        Some(target),
    )
}
