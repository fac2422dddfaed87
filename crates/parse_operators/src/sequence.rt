//! The comma operator (ECMA-262, section 13.16).

ghost use Rattle.std.specs.Prelude.{Some};
ghost use Rattle.parse_operators.specs.Prelude.{Answers, at, CanNest, Comma, Expression, room, Standing, TellsOperand};

use crate::assignment::parse_assignment_expression;
use js_base::Kind;
use laws_operators::patterns::Patterns;
use parse_shared::lexemes::advance;
use parse_shared::nodes::make_list;
use parse_shared::{NodeId, NodeKind, Op, ParserConfig, ParserImpl, Stop};

/// An Expression (ECMA-262, section 13.16).
/// Reads: Expression.
pub fn parse_sequence_expression<C: ParserConfig, N: Patterns<C>>(
    p: &mut ParserImpl<'_, C>,
    nested: &N,
) -> Result<NodeId, Stop>
    requires at { Standing p.old }
    requires nests { CanNest (N.can nested.now) (room p.old) }
    ensures answers { Answers (at Expression) p.old p.new result }
    ensures operand { TellsOperand p.old p.new result }
{
    let start = p.cur_start();
    let first = parse_assignment_expression(p, nested)?;
    if !p.at(Kind::Comma) {
        return Ok(first);
    }
    let mut items = Vec::new(p.alloc);
    items.push(Some(first))?;
    'items: loop {
        advance(p)?;
        let item = nested.assignment(p)?;
        items.push(Some(item))?;
        if !p.at(Kind::Comma) {
            break;
        }
    }
    let span = p.end_span(start);
    let node = make_list(p, NodeKind::SequenceExpression, Op::None, span, items)?;
    Ok(node)
}
