//! Unary operators and `await` (ECMA-262, sections 13.5 and 15.8).

ghost use Rattle.std.specs.Prelude.{◌≡◌, ◌↔◌, IsTrue, true, false};
ghost use Rattle.parse_operators.specs.Prelude.{Answers, at, AwaitsHere, CanNest, one_of_kinds, room, Standing, Unary, unary_kinds};

use crate::update::parse_update_expression;
use js_base::{Kind, map_unary_operator};
use parse_shared::lexemes::{advance, escaped_word_stands};
use parse_shared::nested::Nested;
use parse_shared::nodes::make_one;
use parse_shared::{NodeId, NodeKind, Op, ParserConfig, ParserImpl, Stop};

/// A UnaryExpression (ECMA-262, section 13.5): an operator or `await` and what it stands before, or an UpdateExpression.
/// Reads: Unary.
#[inline(always)]
pub fn parse_unary_expression_or_higher<C: ParserConfig, N: Nested<C>>(
    p: &mut ParserImpl<'_, C>,
    nested: &N,
) -> Result<NodeId, Stop>
    requires at { Standing p.old }
    requires nests { CanNest (N.can nested.now) (room p.old) }
    ensures { Answers (at Unary) p.old p.new result }
{
    if escaped_word_stands(p) {
        return parse_update_expression(p, nested);
    }
    if p.cur_kind().is_unary_operator() {
        return parse_unary_expression(p, nested);
    }
    if begins_await(p) {
        return parse_await_expression(p, nested);
    }
    parse_update_expression(p, nested)
}

/// Whether an AwaitExpression begins here: `await` is an operator where the parameter Await is on, but for the parameters of
/// an asynchronous arrow function (ECMA-262, sections 15.8 and 15.9).
#[inline(always)]
pub(crate) fn begins_await<C: ParserConfig>(p: &ParserImpl<'_, C>) -> bool
    ensures { IsTrue result ↔ AwaitsHere p.now }
{
    p.at(Kind::Await) && p.ctx.reads_await()
}

/// An AwaitExpression (ECMA-262, section 15.8): `await`, and what it stands before.
#[inline(never)]
fn parse_await_expression<C: ParserConfig, N: Nested<C>>(
    p: &mut ParserImpl<'_, C>,
    nested: &N,
) -> Result<NodeId, Stop>
    requires at { Standing p.old }
    requires nests { CanNest (N.can nested.now) (room p.old) }
    requires word { AwaitsHere p.old }
    requires plain { p.old.token.escaped ≡ false }
    ensures { Answers (at Unary) p.old p.new result }
{
    let start = p.cur_start();
    advance(p)?;
    let argument = nested.unary(p)?;
    let span = p.end_span(start);
    let node = make_one(p, NodeKind::AwaitExpression, Op::None, span, argument)?;
    Ok(node)
}

/// A unary operator, and what it stands before.
#[inline(never)]
fn parse_unary_expression<C: ParserConfig, N: Nested<C>>(
    p: &mut ParserImpl<'_, C>,
    nested: &N,
) -> Result<NodeId, Stop>
    requires at { Standing p.old }
    requires nests { CanNest (N.can nested.now) (room p.old) }
    requires operator { one_of_kinds unary_kinds p.old.token.kind ≡ true }
    requires plain { p.old.token.escaped ≡ false }
    ensures { Answers (at Unary) p.old p.new result }
{
    let start = p.cur_start();
    let operator = map_unary_operator(p.cur_kind());
    advance(p)?;
    let argument = nested.unary(p)?;
    let span = p.end_span(start);
    let op = Op::Unary(operator);
    let node = make_one(p, NodeKind::UnaryExpression, op, span, argument)?;
    Ok(node)
}
