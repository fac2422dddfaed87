//! Array literals (ECMA-262, section 13.2.4).

ghost use Rattle.std.specs.Prelude.{◌≡◌, ◌+◌, false, MatchResult};
ghost use Rattle.parse_primary.specs.Prelude.{Answers, at, CanNest, Elements, LBrack, NoElements, Opened, Primary, RBrack, room, Standing, StandsHere, TakesElement};

use crate::arguments::parse_argument;
use crate::leaf::parse_leaf;
use js_base::{Kind, Span};
use parse_shared::lexemes::{advance, stands};
use parse_shared::nested::Nested;
use parse_shared::nodes::make_list;
use parse_shared::{NodeId, NodeKind, Op, ParserConfig, ParserImpl, Stop};

/// An ArrayLiteral (ECMA-262, section 13.2.4).
#[inline(never)]
pub fn parse_array_expression<C: ParserConfig, N: Nested<C>>(
    p: &mut ParserImpl<'_, C>,
    nested: &N,
) -> Result<NodeId, Stop>
    requires at { Standing p.old }
    requires nests { CanNest (N.can nested.now) (room p.old) }
    requires open { p.old.token.kind ≡ LBrack }
    ensures { Answers (at Primary) p.old p.new result }
{
    let start = p.cur_start();
    let elements = parse_array_elements(p, nested)?;
    let span = p.end_span(start);
    let node = make_list(p, NodeKind::ArrayExpression, Op::None, span, elements)?;
    Ok(node)
}

/// The elements of an array literal with its brackets, and its gaps.
fn parse_array_elements<C: ParserConfig, N: Nested<C>>(
    p: &mut ParserImpl<'_, C>,
    nested: &N,
) -> Result<Vec<Option<NodeId>>, Stop>
    requires at { Standing p.old }
    requires nests { CanNest (N.can nested.now) (room p.old) }
    requires open { p.old.token.kind ≡ LBrack }
    ensures { MatchResult result (λ v. Elements v.items p.old p.new) (λ e. NoElements p.old p.new e) }
{
    let opening = p.cur_token().span();
    advance(p)?;
    let mut elements = Vec::new(p.alloc);
    'elements: while !stands(p, Kind::RBrack) {
        let element = parse_array_element(p, nested, opening)?;
        elements.push(Some(element))?;
    }
    p.expect_closing(Kind::RBrack, opening)?;
    Ok(elements)
}

/// A comma that no element stands before, or an element, with its comma unless the closing bracket stands behind it.
fn parse_array_element<C: ParserConfig, N: Nested<C>>(
    p: &mut ParserImpl<'_, C>,
    nested: &N,
    opening: Span,
) -> Result<NodeId, Stop>
    requires at { Standing p.old }
    requires nests { CanNest (N.can nested.now) (room p.old + 1) }
    requires opened { Opened p.old opening }
    requires more { StandsHere p.old RBrack false }
    ensures { TakesElement p.old p.new result }
{
    if stands(p, Kind::Comma) {
        return parse_leaf(p, NodeKind::Elision, Op::None);
    }
    let element = parse_argument(p, nested, true)?;
    p.delimited_step(Kind::RBrack, opening, false)?;
    Ok(element)
}
