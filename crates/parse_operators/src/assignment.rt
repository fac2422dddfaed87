//! Assignments and conditional expressions (ECMA-262, sections 13.14 and 13.15).

ghost use Rattle.std.specs.Prelude.{◌≡◌, ◌≤◌, ◌<◌, true, false, length, IfOk};
ghost use Rattle.parse_operators.specs.Prelude.{Answers, Asked, assign_operators, Assignment, AssignsLiteral, at, CanNest, Colon, Eq, goal, IsNoTarget, IsRefusedHead, LiteralRead, Mark, not_simple_at, one_of_kinds, OnlyOperandHere, Passes, ReadsConditional, room, same_kind, Standing, StaysOperand, TellsOperand};

use crate::closed_operand::parse_closed_operand;
use crate::operators::parse_binary_expression_or_higher;
use crate::yield_expression::{begins_yield, parse_yield_expression};
use js_base::{
    AssignmentOperator, Diagnostic, DiagnosticKind, Kind, Span, map_assignment_operator,
};
use laws_operators::forms::ArrowHead;
use laws_operators::patterns::Patterns;
use parse_arrows::arrow::{parse_arrow_function_expression, parse_arrow_head};
use parse_shared::context::assignment_with_in;
use parse_shared::diagnostics::kept_so_far;
use parse_shared::lexemes::{advance, operator_here};
use parse_shared::nested::Nested;
use parse_shared::nodes::{make_three, make_two};
use parse_shared::{NodeId, NodeKind, Op, ParserConfig, ParserImpl, Stop};
use parse_targets::array_target::literal_target;
use parse_targets::cover::{cover, is_array_or_object, refuse_target, tell_not_simple};

/// An AssignmentExpression (ECMA-262, section 13.15).
/// Reads: Assignment.
pub fn parse_assignment_expression<C: ParserConfig, N: Patterns<C>>(
    p: &mut ParserImpl<'_, C>,
    nested: &N,
) -> Result<NodeId, Stop>
    requires at { Standing p.old }
    requires nests { CanNest (N.can nested.now) (room p.old) }
    ensures answers { Answers (at Assignment) p.old p.new result }
    ensures operand { TellsOperand p.old p.new result }
{
    if let Some(operand) = parse_closed_operand(p)? {
        return Ok(operand);
    }
    parse_any_assignment(p, nested)
}

/// An AssignmentExpression, whatever stands here.
#[inline(always)]
fn parse_any_assignment<C: ParserConfig, N: Patterns<C>>(
    p: &mut ParserImpl<'_, C>,
    nested: &N,
) -> Result<NodeId, Stop>
    requires at { Standing p.old }
    requires nests { CanNest (N.can nested.now) (room p.old) }
    ensures answers { Answers (at Assignment) p.old p.new result }
    ensures operand { TellsOperand p.old p.new result }
{
    if begins_yield(p) {
        return parse_yield_expression(p, nested);
    }
    let start = p.cur_start();
    if let Some(head) = parse_arrow_head(p, nested)? {
        return parse_arrow_function_expression(p, nested, start, head);
    }
    let kept = kept_so_far(p);
    let operand = parse_assignment_without_arrow(p, nested)?;
    if !is_refused_head(p, operand, kept) {
        return Ok(operand);
    }
    let head = ArrowHead {
        is_async: false,
        parameters: operand,
    };
    parse_arrow_function_expression(p, nested, start, head)
}

/// Whether `=>` stands behind parentheses in which something was told, since there were so many diagnostics.
fn is_refused_head<C: ParserConfig>(p: &ParserImpl<'_, C>, operand: NodeId, kept: usize) -> bool
    requires { operand.0 < length p.now.nodes }
    ensures { IsRefusedHead operand kept p.now result }
{
    if !p.at(Kind::Arrow) || kept_so_far(p) == kept {
        return false;
    }
    matches!(p.ast.kind(operand), NodeKind::ParenthesizedExpression)
}

/// An assignment or a conditional expression, where no arrow function stands (ECMA-262, sections 13.14 and 13.15).
fn parse_assignment_without_arrow<C: ParserConfig, N: Nested<C>>(
    p: &mut ParserImpl<'_, C>,
    nested: &N,
) -> Result<NodeId, Stop>
    requires at { Standing p.old }
    requires nests { CanNest (N.can nested.now) (room p.old) }
    requires operand { OnlyOperandHere p.old }
    ensures answers { Answers (at Assignment) p.old p.new result }
    ensures operand { TellsOperand p.old p.new result }
{
    let start = p.cur_start();
    let kept = kept_so_far(p);
    let left = parse_binary_expression_or_higher(p, nested)?;
    operator_here(p)?;
    if !p.cur_kind().is_assignment_operator() {
        return parse_conditional_expression_rest(p, nested, start, left);
    }
    if is_array_or_object(p, left) {
        return parse_literal_assignment(p, nested, start, left, kept);
    }
    let operator = map_assignment_operator(p.cur_kind());
    let Some(target) = cover(p, left) else {
        return Err(refuse_target(p, start, kept));
    };
    advance(p)?;
    let right = nested.assignment(p)?;
    let span = p.end_span(start);
    let op = Op::Assignment(operator);
    let node = make_two(p, NodeKind::AssignmentExpression, op, span, target, right)?;
    Ok(node)
}

/// The operator and the right side of an assignment behind an array or object literal, which begins at a place, when so
/// many diagnostics were kept. Before another operator than `=` it is no target (ECMA-262, section 13.15.1).
#[inline(never)]
fn parse_literal_assignment<C: ParserConfig, N: Nested<C>>(
    p: &mut ParserImpl<'_, C>,
    nested: &N,
    start: u32,
    left: NodeId,
    kept: usize,
) -> Result<NodeId, Stop>
    requires at { Standing p.old }
    requires nests { CanNest (N.can nested.now) (room p.old) }
    requires start { start ≤ p.old.prev_token_end }
    requires whole { p.old.cut ≡ false }
    requires operator { one_of_kinds assign_operators p.old.token.kind ≡ true }
    requires read { LiteralRead start left kept p.old }
    requires marked { same_kind Eq p.old.token.kind ≡ false → length p.old.errors ≡ kept → Mark (goal p.old) p.old.text (not_simple_at start p.old.prev_token_end) }
    ensures answers { AssignsLiteral start left kept p.old p.new result }
    ensures node { IfOk result (λ id. IsNoTarget p.new id) }
{
    if p.at(Kind::Eq) {
        return parse_destructuring_assignment(p, nested, start, left, kept);
    }
    let operator = map_assignment_operator(p.cur_kind());
    tell_not_simple(p, start, kept)?;
    advance(p)?;
    let right = nested.assignment(p)?;
    let span = p.end_span(start);
    let op = Op::Assignment(operator);
    let node = make_two(p, NodeKind::AssignmentExpression, op, span, left, right)?;
    Ok(node)
}

/// The `=` and the right side of an assignment behind a literal, which begins at a place and is its target
/// (ECMA-262, section 13.15.5), when so many diagnostics were kept.
fn parse_destructuring_assignment<C: ParserConfig, N: Nested<C>>(
    p: &mut ParserImpl<'_, C>,
    nested: &N,
    start: u32,
    left: NodeId,
    kept: usize,
) -> Result<NodeId, Stop>
    requires at { Standing p.old }
    requires nests { CanNest (N.can nested.now) (room p.old) }
    requires start { start ≤ p.old.prev_token_end }
    requires whole { p.old.cut ≡ false }
    requires equals { p.old.token.kind ≡ Eq }
    requires read { LiteralRead start left kept p.old }
    ensures answers { AssignsLiteral start left kept p.old p.new result }
    ensures node { IfOk result (λ id. IsNoTarget p.new id) }
{
    let target = literal_target(p, start, left, kept)?;
    advance(p)?;
    let right = nested.assignment(p)?;
    let span = p.end_span(start);
    let op = Op::Assignment(AssignmentOperator::Assign);
    let node = make_two(p, NodeKind::AssignmentExpression, op, span, target, right)?;
    Ok(node)
}

/// The branches of a conditional expression behind its test, which begins at a place, or the test alone (ECMA-262,
/// section 13.14).
/// Reads: Conditional.
#[inline(never)]
fn parse_conditional_expression_rest<C: ParserConfig, N: Nested<C>>(
    p: &mut ParserImpl<'_, C>,
    nested: &N,
    start: u32,
    test: NodeId,
) -> Result<NodeId, Stop>
    requires at { Standing p.old }
    requires nests { CanNest (N.can nested.now) (room p.old) }
    requires start { start ≤ p.old.prev_token_end }
    requires whole { p.old.cut ≡ false }
    requires unassigned { one_of_kinds assign_operators p.old.token.kind ≡ false }
    ensures answers { ReadsConditional start test p.old p.new result }
    ensures operand { StaysOperand test p.old p.new result }
{
    if !p.at(Kind::Question) {
        return Ok(test);
    }
    let question = p.cur_token().span();
    advance(p)?;
    let consequent = assignment_with_in(p, nested)?;
    expect_conditional_alternative(p, question)?;
    let alternate = nested.assignment(p)?;
    let span = p.end_span(start);
    let kind = NodeKind::ConditionalExpression;
    let node = make_three(p, kind, Op::None, span, test, consequent, alternate)?;
    Ok(node)
}

/// Moves on over the colon of a conditional expression, whose `?` stood at a span.
#[inline(never)]
fn expect_conditional_alternative<C: ParserConfig>(
    p: &mut ParserImpl<'_, C>,
    question: Span,
) -> Result<(), Stop>
    requires at { Standing p.old }
    requires asked { Asked p.old question }
    ensures { Passes Colon p.old p.new result }
{
    if p.at(Kind::Colon) {
        return advance(p);
    }
    if p.at(Kind::Undetermined) {
        return Err(p.set_unexpected());
    }
    Err(p.set_fatal_error(Diagnostic {
        kind: DiagnosticKind::ExpectConditionalAlternative,
        span: p.cur_token().span(),
        first: Some(question),
        second: None,
    }))
}
