//! Statements that hold other ones: `if`, `do`, `while` and `with` (ECMA-262, sections 14.6, 14.7.2, 14.7.3 and 14.11).

ghost use Rattle.std.specs.Prelude.{◌≡◌, true, false};
ghost use Rattle.parse_control.specs.Prelude.{CanNest, Do, has_flag, HeadsHere, If, in_flag, is_textual, room, Standing, StandsHere, TakesAlternate, TakesAnywhere, TakesParens, While, With};

use js_base::Kind;
use parse_primary::leaf::close_parentheses;
use parse_shared::lexemes::{advance, stands};
use parse_shared::nested::Nested;
use parse_shared::nodes::{make_two, make_two_and_optional};
use parse_shared::{NodeId, NodeKind, Op, ParserConfig, ParserImpl, Stop};

/// An Expression in parentheses at the head of a statement (ECMA-262, chapter 14): the parentheses make no node.
#[inline(never)]
pub fn parse_paren_expression<C: ParserConfig, N: Nested<C>>(
    p: &mut ParserImpl<'_, C>,
    nested: &N,
) -> Result<NodeId, Stop>
    requires at { Standing p.old }
    requires nests { CanNest (N.can nested.now) (room p.old) }
    ensures { TakesParens p.old p.new result }
{
    let opening = p.cur_token().span();
    p.expect(Kind::LParen)?;
    let expression = nested.expression(p)?;
    close_parentheses(p, opening)?;
    Ok(expression)
}

/// An IfStatement (ECMA-262, section 14.6). An `else` belongs to the nearest `if` that may have one.
/// Reads: If.
#[inline(never)]
pub fn parse_if_statement<C: ParserConfig, N: Nested<C>>(
    p: &mut ParserImpl<'_, C>,
    nested: &N,
) -> Result<NodeId, Stop>
    requires at { Standing p.old }
    requires nests { CanNest (N.can nested.now) (room p.old) }
    requires allows_in { has_flag in_flag p.old.ctx ≡ true }
    requires word { StandsHere p.old If true }
    ensures { TakesAnywhere p.old p.new result }
{
    let start = p.cur_start();
    advance(p)?;
    let test = parse_paren_expression(p, nested)?;
    let consequent = nested.statement(p)?;
    let alternate = parse_alternate(p, nested)?;
    let span = p.end_span(start);
    let kind = NodeKind::IfStatement;
    let node = make_two_and_optional(p, kind, span, test, consequent, alternate)?;
    Ok(node)
}

/// The Statement behind `else`, or none where that doesn't stand here (ECMA-262, section 14.6).
#[inline(always)]
fn parse_alternate<C: ParserConfig, N: Nested<C>>(
    p: &mut ParserImpl<'_, C>,
    nested: &N,
) -> Result<Option<NodeId>, Stop>
    requires at { Standing p.old }
    requires nests { CanNest (N.can nested.now) (room p.old) }
    requires allows_in { has_flag in_flag p.old.ctx ≡ true }
    ensures { TakesAlternate p.old p.new result }
{
    if !stands(p, Kind::Else) {
        return Ok(None);
    }
    advance(p)?;
    let alternate = nested.statement(p)?;
    Ok(Some(alternate))
}

/// A WhileStatement (ECMA-262, section 14.7.3).
/// Reads: While.
pub fn parse_while_statement<C: ParserConfig, N: Nested<C>>(
    p: &mut ParserImpl<'_, C>,
    nested: &N,
) -> Result<NodeId, Stop>
    requires at { Standing p.old }
    requires nests { CanNest (N.can nested.now) (room p.old) }
    requires allows_in { has_flag in_flag p.old.ctx ≡ true }
    requires word { StandsHere p.old While true }
    ensures { TakesAnywhere p.old p.new result }
{
    parse_headed_statement(p, nested, NodeKind::WhileStatement)
}

/// A WithStatement (ECMA-262, section 14.11).
/// Reads: With.
pub fn parse_with_statement<C: ParserConfig, N: Nested<C>>(
    p: &mut ParserImpl<'_, C>,
    nested: &N,
) -> Result<NodeId, Stop>
    requires at { Standing p.old }
    requires nests { CanNest (N.can nested.now) (room p.old) }
    requires allows_in { has_flag in_flag p.old.ctx ≡ true }
    requires word { StandsHere p.old With true }
    ensures { TakesAnywhere p.old p.new result }
{
    parse_headed_statement(p, nested, NodeKind::WithStatement)
}

/// A word, an Expression in parentheses and a Statement.
#[inline(never)]
fn parse_headed_statement<C: ParserConfig, N: Nested<C>>(
    p: &mut ParserImpl<'_, C>,
    nested: &N,
    kind: NodeKind,
) -> Result<NodeId, Stop>
    requires at { Standing p.old }
    requires nests { CanNest (N.can nested.now) (room p.old) }
    requires allows_in { has_flag in_flag p.old.ctx ≡ true }
    requires word { HeadsHere kind p.old }
    requires kind { is_textual kind ≡ false }
    ensures { TakesAnywhere p.old p.new result }
{
    let start = p.cur_start();
    advance(p)?;
    let head = parse_paren_expression(p, nested)?;
    let body = nested.statement(p)?;
    let span = p.end_span(start);
    let node = make_two(p, kind, Op::None, span, head, body)?;
    Ok(node)
}

/// A DoWhileStatement (ECMA-262, section 14.7.2). Its semicolon may be left out before any lexeme (12.10).
/// Reads: Do.
#[inline(never)]
pub fn parse_do_while_statement<C: ParserConfig, N: Nested<C>>(
    p: &mut ParserImpl<'_, C>,
    nested: &N,
) -> Result<NodeId, Stop>
    requires at { Standing p.old }
    requires nests { CanNest (N.can nested.now) (room p.old) }
    requires allows_in { has_flag in_flag p.old.ctx ≡ true }
    requires word { StandsHere p.old Do true }
    ensures { TakesAnywhere p.old p.new result }
{
    let start = p.cur_start();
    advance(p)?;
    let body = nested.statement(p)?;
    p.expect(Kind::While)?;
    let test = parse_paren_expression(p, nested)?;
    p.bump(Kind::Semicolon)?;
    let span = p.end_span(start);
    let node = make_two(p, NodeKind::DoWhileStatement, Op::None, span, body, test)?;
    Ok(node)
}
