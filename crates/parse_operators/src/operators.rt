//! Operators between two operands (ECMA-262, sections 13.6 to 13.13).

ghost use Rattle.std.specs.Prelude.{ℕ, ◌≡◌, ◌≤◌, ◌-◌, ◌||◌, ◌∷◌, [], length, true, Some, IfOk};
ghost use Rattle.parse_operators.specs.Prelude.{Answers, at, begins_by_unary, CanNest, ChecksBase, ChecksMixed, Exponent, goal, Holds, IsAt, Label, level_at, Lex, Lexeme, logical_expression, logical_kind, MadeHere, Mark, mixed_at, of, operation_label, power_of, Question2, reads_await, room, Short, Slots, Standing, Stood, unary_base};
ghost use Rattle.laws_operators.specs.Coalescing as coalescing;

use crate::private_in::{make_private_in, parse_private_operand};
use crate::unary::{begins_await, parse_unary_expression_or_higher};
use js_base::{
    BinaryOperator, Diagnostic, DiagnosticKind, Kind, LogicalOperator, NoMemory,
    map_binary_operator, map_logical_operator,
};
use parse_shared::diagnostics::kept_so_far;
use parse_shared::lexemes::{OR, SHIFT, advance, operator_here, reads_here};
use parse_shared::nested::Nested;
use parse_shared::nodes::make_two;
use parse_shared::{NodeId, NodeKind, Op, ParserAstBuilder, ParserConfig, ParserImpl, Stop};

/// A ShortCircuitExpression (ECMA-262, section 13.13): operands, and `??` between them, grouped to the left. An operand
/// beside `??` that is an `||` or `&&` expression without parentheses is told, and reading goes on.
/// Reads: Short, Coalesce.
pub fn parse_binary_expression_or_higher<C: ParserConfig, N: Nested<C>>(
    p: &mut ParserImpl<'_, C>,
    nested: &N,
) -> Result<NodeId, Stop>
    requires at { Standing p.old }
    requires nests { CanNest (N.can nested.now) (room p.old) }
    ensures { Answers (at Short) p.old p.new result }
{
    let start = p.cur_start();
    let found = kept_so_far(p);
    let mut left = parse_operators(p, nested, OR)?;
    'operands: while p.at(Kind::Question2) {
        advance(p)?;
        let right = parse_operators(p, nested, OR)?;
        let mixed = has_or_and(p, left, right);
        check_mixed(p, start, mixed, found)?;
        left = make_coalesce(p, start, left, right)?;
    }
    Ok(left)
}

/// Whether one of two nodes is an `||` or `&&` expression without parentheses.
fn has_or_and<C: ParserConfig>(p: &ParserImpl<'_, C>, left: NodeId, right: NodeId) -> bool
    requires left { Stood p.now.nodes left }
    requires right { Stood p.now.nodes right }
    ensures { (a b c d : ℕ) (l m : Label) (cs ds : Slots) → Holds p.now.nodes a b left.0 l cs → Holds p.now.nodes c d right.0 m ds → result ≡ (coalescing.is_or_and l.op || coalescing.is_or_and m.op) }
{
    is_or_and(p, left) || is_or_and(p, right)
}

/// Whether the node is an `||` or `&&` expression without parentheses.
fn is_or_and<C: ParserConfig>(p: &ParserImpl<'_, C>, id: NodeId) -> bool
    requires { Stood p.now.nodes id }
    ensures { (lo hi : ℕ) (l : Label) (cs : Slots) → Holds p.now.nodes lo hi id.0 l cs → result ≡ coalescing.is_or_and l.op }
{
    node_is_or_and(&p.ast, id)
}

/// Whether a node of these is one.
fn node_is_or_and(ast: &ParserAstBuilder, id: NodeId) -> bool
    requires { Stood ast.now id }
    ensures { (lo hi : ℕ) (l : Label) (cs : Slots) → Holds ast.now lo hi id.0 l cs → result ≡ coalescing.is_or_and l.op }
{
    match ast.op(id) {
        Op::Logical(operator) => is_or_and_operator(operator),
        _ => false,
    }
}

/// Whether the operator is `||` or `&&`.
fn is_or_and_operator(operator: LogicalOperator) -> bool
    ensures { result ≡ coalescing.is_or_and (of (logical_kind operator)) }
{
    match operator {
        LogicalOperator::Or | LogicalOperator::And => true,
        LogicalOperator::Coalesce => false,
    }
}

/// Tells of an operand beside `??` that may not stand there without parentheses, unless something was found since the
/// first operand: then it is no expression.
#[inline(never)]
fn check_mixed<C: ParserConfig>(
    p: &mut ParserImpl<'_, C>,
    start: u32,
    mixed: bool,
    found: usize,
) -> Result<(), Stop>
    requires at { Standing p.old }
    requires start { start ≤ p.old.prev_token_end }
    requires mark { mixed ≡ true → found ≡ length p.old.errors → (y : Lexeme) → Lex p.old.text p.old.prev_token_end y → Mark (goal p.old) p.old.text (mixed_at start p.old.prev_token_end) }
    ensures { ChecksMixed start mixed found p.old p.new result }
{
    if !mixed || kept_so_far(p) != found {
        return Ok(());
    }
    if !reads_here(p) {
        return Err(p.set_unexpected());
    }
    p.error(Diagnostic {
        kind: DiagnosticKind::MixedCoalesce,
        span: p.end_span(start),
        first: None,
        second: None,
    })?;
    Ok(())
}

/// The node of two operands with `??` between them.
#[inline(never)]
fn make_coalesce<C: ParserConfig>(
    p: &mut ParserImpl<'_, C>,
    start: u32,
    left: NodeId,
    right: NodeId,
) -> Result<NodeId, NoMemory>
    requires { start ≤ p.old.prev_token_end }
    ensures { IfOk result (λ id. MadeHere (record { kind = logical_expression; op = of Question2; flags = 0; span = record { from = start; to = p.old.prev_token_end } }) (Some left ∷ Some right ∷ []) p.old p.new id) }
{
    let span = p.end_span(start);
    let op = Op::Logical(LogicalOperator::Coalesce);
    make_two(p, NodeKind::LogicalExpression, op, span, left, right)
}

/// Operands, and operators between them that bind at least as tight as `least`, grouped to the left (ECMA-262, sections
/// 13.6 to 13.13). A private name before `in` is an operand where `least` lets a comparison stand.
/// Reads: Or, And, BitOr, BitXor, BitAnd, Equality, Relational, Shift, Additive, Multiply.
pub fn parse_operators<C: ParserConfig, N: Nested<C>>(
    p: &mut ParserImpl<'_, C>,
    nested: &N,
    least: u8,
) -> Result<NodeId, Stop>
    requires at { Standing p.old }
    requires nests { CanNest (N.can nested.now) (room p.old) }
    requires low { 5 ≤ least }
    requires high { least ≤ 15 }
    ensures { Answers (λ f. level_at f (least - 5)) p.old p.new result }
{
    let start = p.cur_start();
    let mut left = if p.at(Kind::PrivateIdentifier) {
        let name = parse_private_operand(p, least)?;
        let right = parse_operators(p, nested, SHIFT)?;
        make_private_in(p, start, name, right)?
    } else {
        parse_exponentiation_expression(p, nested)?
    };
    'operators: loop {
        let power = operator_here(p)?;
        if power < least {
            break;
        }
        let operator = p.cur_kind();
        advance(p)?;
        let right = parse_operators(p, nested, power + 1)?;
        left = make_operation(p, start, operator, left, right)?;
    }
    Ok(left)
}

/// An ExponentiationExpression (ECMA-262, section 13.6), which groups to the right. Its left operand is an
/// UpdateExpression: an operator before it is told, and reading goes on.
/// Reads: Exponent.
#[inline(always)]
pub fn parse_exponentiation_expression<C: ParserConfig, N: Nested<C>>(
    p: &mut ParserImpl<'_, C>,
    nested: &N,
) -> Result<NodeId, Stop>
    requires at { Standing p.old }
    requires nests { CanNest (N.can nested.now) (room p.old) }
    ensures { Answers (at Exponent) p.old p.new result }
{
    let start = p.cur_start();
    let is_unary = begins_unary(p);
    let found = kept_so_far(p);
    let base = parse_unary_expression_or_higher(p, nested)?;
    if !p.at(Kind::Star2) {
        return Ok(base);
    }
    check_base(p, start, is_unary, found)?;
    advance(p)?;
    let exponent = nested.exponentiation(p)?;
    let span = p.end_span(start);
    let op = Op::Binary(BinaryOperator::Exponential);
    let node = make_two(p, NodeKind::BinaryExpression, op, span, base, exponent)?;
    Ok(node)
}

/// Whether a unary operator or `await` stands here, before which no UpdateExpression begins.
#[inline(always)]
fn begins_unary<C: ParserConfig>(p: &ParserImpl<'_, C>) -> bool
    ensures { result ≡ begins_by_unary (reads_await p.now.ctx) p.now.token.kind }
{
    p.cur_kind().is_unary_operator() || begins_await(p)
}

/// Tells of a base before `**` that begins with a unary operator, unless something was found in it: then it is no
/// expression.
#[inline(never)]
fn check_base<C: ParserConfig>(
    p: &mut ParserImpl<'_, C>,
    start: u32,
    is_unary: bool,
    found: usize,
) -> Result<(), NoMemory>
    requires at { IsAt p.old }
    requires start { start ≤ p.old.prev_token_end }
    requires mark { is_unary ≡ true → found ≡ length p.old.errors → Mark (goal p.old) p.old.text (unary_base start p.old.prev_token_end) }
    ensures { IfOk result (λ _. ChecksBase start is_unary found p.old p.new) }
{
    if is_unary && kept_so_far(p) == found {
        p.error(Diagnostic {
            kind: DiagnosticKind::UnaryExponentiationLeftOperand,
            span: p.end_span(start),
            first: None,
            second: None,
        })?;
    }
    Ok(())
}

/// The node of two operands and the operator between them.
#[inline(never)]
fn make_operation<C: ParserConfig>(
    p: &mut ParserImpl<'_, C>,
    start: u32,
    operator: Kind,
    left: NodeId,
    right: NodeId,
) -> Result<NodeId, NoMemory>
    requires start { start ≤ p.old.prev_token_end }
    requires operator { 1 ≤ power_of true operator }
    ensures { IfOk result (λ id. MadeHere (operation_label operator start p.old.prev_token_end) (Some left ∷ Some right ∷ []) p.old p.new id) }
{
    let span = p.end_span(start);
    match operator {
        Kind::Pipe2 | Kind::Amp2 => {
            let op = Op::Logical(map_logical_operator(operator));
            make_two(p, NodeKind::LogicalExpression, op, span, left, right)
        }
        _ => {
            let op = Op::Binary(map_binary_operator(operator));
            make_two(p, NodeKind::BinaryExpression, op, span, left, right)
        }
    }
}
