//! `for` statements (ECMA-262, sections 14.7.4 and 14.7.5).

ghost use Rattle.std.specs.Prelude.{◌≡◌, ◌+◌, ◌≤◌, true, false, [], IfOk, MatchResult};
ghost use Rattle.parse_control.specs.Prelude.{AtEnd, await_at, await_flag, CanNest, ChecksAwait, ChecksEnding, EndsPart, flag, For, for_label, goal, has_flag, in_flag, is_of, is_textual, IsAt, MadeHere, Mark, may_end_by, no_of_from, number_of, OnlyMemory, PassesAwait, room, Standing, StandsHere, TakesAnywhere, TakesFirst, TakesHead, TakesParensHead, TakesPart, TakesRest};

use crate::for_parts::parse_part_without_in;
use js_base::{DiagnosticKind, Kind, NoMemory, Span};
use laws_statements::forms::Ending;
use laws_statements::sequences::Sequences;
use parse_primary::leaf::close_parentheses;
use parse_shared::context::{context, set_context};
use parse_shared::diagnostics::diagnostic_at;
use parse_shared::lexemes::{advance, stands};
use parse_shared::nested::Nested;
use parse_shared::{NodeFlags, NodeId, NodeKind, Op, ParserConfig, ParserImpl, Stop};

/// A ForStatement, or a ForInOfStatement with `in` or `of` (ECMA-262, sections 14.7.4 and 14.7.5). Which of them it is, is known
/// behind the first part of its head. `await` behind the word stands in one with `of` alone: another head is told, and
/// reading goes on.
/// Reads: For, ForIn, ForOf.
#[inline(never)]
pub fn parse_for_statement<C: ParserConfig, N: Sequences<C>>(
    p: &mut ParserImpl<'_, C>,
    nested: &N,
) -> Result<NodeId, Stop>
    requires at { Standing p.old }
    requires nests { CanNest (N.can nested.now) (room p.old) }
    requires allows_in { has_flag in_flag p.old.ctx ≡ true }
    requires word { StandsHere p.old For true }
    ensures { TakesAnywhere p.old p.new result }
{
    let start = p.cur_start();
    advance(p)?;
    let is_await = pass_await(p)?;
    let mut children = Vec::new(p.alloc);
    let ending = parse_paren_for_head(p, nested, is_await, &mut children)?;
    check_ending(p, start, is_await, ending)?;
    let body = nested.statement(p)?;
    children.push(Some(body))?;
    let span = p.end_span(start);
    let node = make_for(p, ending.node_kind(), span, is_await, children)?;
    Ok(node)
}

/// Passes `await` behind `for`, if it stands here (ECMA-262, section 14.7.5). Where it is no operator by the parameters that
/// is told, and reading goes on.
fn pass_await<C: ParserConfig>(p: &mut ParserImpl<'_, C>) -> Result<bool, Stop>
    requires { Standing p.old }
    ensures { MatchResult result (λ found. PassesAwait p.old p.new found) OnlyMemory }
{
    if !stands(p, Kind::Await) {
        return Ok(false);
    }
    let word = p.cur_token().span();
    check_await(p, word)?;
    advance(p)?;
    Ok(true)
}

/// Tells of the word `await` at a span, where it is no operator by the parameters.
fn check_await<C: ParserConfig>(p: &mut ParserImpl<'_, C>, word: Span) -> Result<(), NoMemory>
    requires at { IsAt p.old }
    requires mark { Mark (goal p.old) p.old.text (await_at word) }
    ensures { IfOk result (λ _. ChecksAwait word p.old p.new) }
{
    if !context(p).reads_await() {
        p.error(diagnostic_at(DiagnosticKind::ForAwaitStatement, word))?;
    }
    Ok(())
}

/// Tells of the head of a `for` that began at a place: behind `await` its first part ends otherwise than by `of`.
fn check_ending<C: ParserConfig>(
    p: &mut ParserImpl<'_, C>,
    start: u32,
    is_await: bool,
    ending: Ending,
) -> Result<(), NoMemory>
    requires at { IsAt p.old }
    requires start { start ≤ p.old.prev_token_end }
    requires mark { Mark (goal p.old) p.old.text (no_of_from start p.old.prev_token_end) }
    ensures { IfOk result (λ _. ChecksEnding is_await ending start p.old p.new) }
{
    if !may_end_by(is_await, ending) {
        let span = p.end_span(start);
        p.error(diagnostic_at(DiagnosticKind::ForAwait, span))?;
    }
    Ok(())
}

/// Whether the first part of a head may end so, with `await` before it or without.
fn may_end_by(is_await: bool, ending: Ending) -> bool
    ensures { result ≡ may_end_by is_await ending }
{
    !is_await || ending.is_of()
}

/// A node of a `for` statement.
fn make_for<C: ParserConfig>(
    p: &mut ParserImpl<'_, C>,
    kind: NodeKind,
    span: Span,
    is_await: bool,
    children: Vec<Option<NodeId>>,
) -> Result<NodeId, NoMemory>
    requires { is_textual kind ≡ false }
    ensures { IfOk result (λ id. MadeHere (for_label kind is_await span) children.items p.old p.new id) }
{
    let flags = await_flags(is_await);
    p.ast.node(kind, span, Op::None, flags, None, children)
}

/// The flags of a `for` statement, with `await` or without.
fn await_flags(is_await: bool) -> NodeFlags
    ensures { number_of result ≡ flag is_await await_flag }
{
    let mut flags = NodeFlags::default();
    flags.is_await = is_await;
    flags
}

/// The head of a `for` in its parentheses, with `await` before it or without: its parts are put behind the children. It has a
/// frame of its own, so that statements that nest have small ones.
#[inline(never)]
fn parse_paren_for_head<C: ParserConfig, N: Sequences<C>>(
    p: &mut ParserImpl<'_, C>,
    nested: &N,
    is_await: bool,
    children: &mut Vec<Option<NodeId>>,
) -> Result<Ending, Stop>
    requires at { Standing p.old }
    requires nests { CanNest (N.can nested.now) (room p.old) }
    requires none { children.old.items ≡ [] }
    ensures { TakesParensHead is_await p.old p.new children.new.items result }
{
    let opening = p.cur_token().span();
    p.expect(Kind::LParen)?;
    let ending = parse_for_head(p, nested, is_await, children)?;
    close_parentheses(p, opening)?;
    Ok(ending)
}

/// What stands between the parentheses of a `for`: its parts are put behind the children.
fn parse_for_head<C: ParserConfig, N: Sequences<C>>(
    p: &mut ParserImpl<'_, C>,
    nested: &N,
    is_await: bool,
    children: &mut Vec<Option<NodeId>>,
) -> Result<Ending, Stop>
    requires at { Standing p.old }
    requires nests { CanNest (N.can nested.now) (room p.old) }
    requires none { children.old.items ≡ [] }
    ensures { TakesHead is_await p.old p.new children.new.items result }
{
    let first = parse_first_part(p, nested, is_await)?;
    children.push(first)?;
    parse_head_rest(p, nested, children)
}

/// The first part of the head: a declaration or an expression, where `in` is no operator, or nothing.
fn parse_first_part<C: ParserConfig, N: Sequences<C>>(
    p: &mut ParserImpl<'_, C>,
    nested: &N,
    is_await: bool,
) -> Result<Option<NodeId>, Stop>
    requires at { Standing p.old }
    requires nests { CanNest (N.can nested.now) (room p.old) }
    ensures { TakesFirst is_await p.old p.new result }
{
    if at_end(p, Kind::Semicolon) {
        return Ok(None);
    }
    let outer = context(p);
    set_context(p, outer.and_in(false));
    let first = parse_part_without_in(p, nested, is_await)?;
    set_context(p, outer);
    Ok(Some(first))
}

/// The rest of the head from what ends its first part on.
fn parse_head_rest<C: ParserConfig, N: Nested<C>>(
    p: &mut ParserImpl<'_, C>,
    nested: &N,
    children: &mut Vec<Option<NodeId>>,
) -> Result<Ending, Stop>
    requires at { Standing p.old }
    requires nests { CanNest (N.can nested.now) (room p.old) }
    ensures { TakesRest p.old p.new children.old.items children.new.items result }
{
    if stands(p, Kind::In) {
        advance(p)?;
        let right = nested.expression(p)?;
        children.push(Some(right))?;
        return Ok(Ending::In);
    }
    if stands(p, Kind::Of) {
        advance(p)?;
        let right = nested.assignment(p)?;
        children.push(Some(right))?;
        return Ok(Ending::Of);
    }
    p.expect(Kind::Semicolon)?;
    let test = parse_part_before(p, nested, Kind::Semicolon)?;
    children.push(test)?;
    p.expect(Kind::Semicolon)?;
    let update = parse_part_before(p, nested, Kind::RParen)?;
    children.push(update)?;
    Ok(Ending::Semicolon)
}

/// A later part of the head of a ForStatement: an Expression, or none before what ends it (ECMA-262, section 14.7.4).
fn parse_part_before<C: ParserConfig, N: Nested<C>>(
    p: &mut ParserImpl<'_, C>,
    nested: &N,
    end: Kind,
) -> Result<Option<NodeId>, Stop>
    requires at { Standing p.old }
    requires nests { CanNest (N.can nested.now) (room p.old + 1) }
    requires ends { EndsPart end }
    ensures { TakesPart end p.old p.new result }
{
    if at_end(p, end) {
        return Ok(None);
    }
    let part = nested.expression(p)?;
    Ok(Some(part))
}

/// Whether what ends a part of the head stands here, or the parenthesis that closes.
fn at_end<C: ParserConfig>(p: &ParserImpl<'_, C>, end: Kind) -> bool
    ensures { AtEnd end p.now result }
{
    if p.at(end) {
        return true;
    }
    p.at(Kind::RParen)
}
