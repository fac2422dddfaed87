//! What begins with `super` (ECMA-262, section 13.3).

ghost use Rattle.std.specs.Prelude.{◌≡◌, ◌<◌, ◌≤◌, ◌&&◌, IfOk, false, length, true};
ghost use Rattle.parse_members.specs.Prelude.{alone_at, callee_from, CanNest, ChecksCallee, ChecksMember, ChecksSuper, goal, GoesOnSuper, Heads, is_private_node, is_super_word, IsAt, kind_of, LParen, Mark, node_at, private_from, room, Standing, StandsHere, Super, TakesSuper};

use crate::left_hand_side::{link_here, parse_link, parse_member_expression_rest};
use js_base::{DiagnosticKind, Kind, NoMemory, Span};
use parse_primary::forms::LinkBase;
use parse_shared::diagnostics::diagnostic_at;
use parse_shared::lexemes::{advance, stands};
use parse_shared::nested::Nested;
use parse_shared::nodes::make_leaf;
use parse_shared::{NodeId, NodeKind, Op, ParserConfig, ParserImpl, Stop};

/// What begins with `super`: a MemberExpression, or this word alone before arguments.
#[inline(never)]
pub(crate) fn parse_super_member<C: ParserConfig, N: Nested<C>>(
    p: &mut ParserImpl<'_, C>,
    nested: &N,
) -> Result<NodeId, Stop>
    requires at { Standing p.old }
    requires nests { CanNest (N.can nested.now) (room p.old) }
    requires word { StandsHere p.old Super true }
    ensures { Heads p.old p.new result }
{
    let start = p.cur_start();
    let word = parse_super(p)?;
    if stands(p, Kind::LParen) {
        return Ok(word);
    }
    let member = parse_super_property(p, nested, start, word)?;
    check_super_member(p, start, member)?;
    parse_member_expression_rest(p, nested, start, member)
}

/// The word `super`. Where neither `.`, `[` nor `(` stands behind it, that is told, and reading goes on.
/// Reads: Super.
fn parse_super<C: ParserConfig>(p: &mut ParserImpl<'_, C>) -> Result<NodeId, Stop>
    requires at { Standing p.old }
    requires word { StandsHere p.old Super true }
    ensures { TakesSuper p.old p.new result }
{
    let span = p.cur_token().span();
    advance(p)?;
    check_super(p, span)?;
    let node = make_leaf(p, NodeKind::Super, Op::None, span)?;
    Ok(node)
}

/// Tells of a `super`, which stood at a span, that it is neither called nor has a member taken.
fn check_super<C: ParserConfig>(p: &mut ParserImpl<'_, C>, span: Span) -> Result<(), NoMemory>
    requires at { IsAt p.old }
    requires mark { Mark (goal p.old) p.old.text (alone_at span) }
    ensures { IfOk result (λ _. ChecksSuper span p.old p.new) }
{
    if !link_here(p, LinkBase::Call) {
        p.error(diagnostic_at(DiagnosticKind::UnexpectedSuper, span))?;
    }
    Ok(())
}

/// A SuperProperty, whose `super` was read; or this word alone, of which something was told.
fn parse_super_property<C: ParserConfig, N: Nested<C>>(
    p: &mut ParserImpl<'_, C>,
    nested: &N,
    start: u32,
    word: NodeId,
) -> Result<NodeId, Stop>
    requires at { Standing p.old }
    requires nests { CanNest (N.can nested.now) (room p.old) }
    requires start { start ≤ p.old.prev_token_end }
    requires uncalled { StandsHere p.old LParen false }
    ensures { GoesOnSuper start word p.old p.new result }
{
    if !link_here(p, LinkBase::Member) {
        return Ok(word);
    }
    parse_link(p, nested, start, word)
}

/// Whether a node is a member with a private name.
fn is_private_member<C: ParserConfig>(p: &ParserImpl<'_, C>, node: NodeId) -> bool
    requires { node.0 < length p.now.nodes }
    ensures { result ≡ is_private_node p.now node }
{
    matches!(p.ast.kind(node), NodeKind::PrivateFieldExpression)
}

/// Tells of a private name as a member of `super`, which began at a place. Reading goes on.
fn check_super_member<C: ParserConfig>(
    p: &mut ParserImpl<'_, C>,
    start: u32,
    node: NodeId,
) -> Result<(), NoMemory>
    requires at { IsAt p.old }
    requires start { start ≤ p.old.prev_token_end }
    requires made { node.0 < length p.old.nodes }
    requires mark { is_private_node p.old node ≡ true → Mark (goal p.old) p.old.text (private_from start p.old.prev_token_end) }
    ensures { IfOk result (λ _. ChecksMember (is_private_node p.old node) start p.old p.new) }
{
    if is_private_member(p, node) {
        let span = p.end_span(start);
        p.error(diagnostic_at(DiagnosticKind::SuperPrivate, span))?;
    }
    Ok(())
}

/// Whether what was read is the word `super` alone, by whether this word began it.
pub(crate) fn is_super_alone<C: ParserConfig>(
    p: &ParserImpl<'_, C>,
    begins: bool,
    callee: NodeId,
) -> bool
    requires { callee.0 < length p.now.nodes }
    ensures { result ≡ (begins && is_super_word (kind_of (node_at p.now.nodes callee).kind)) }
{
    begins && matches!(p.ast.kind(callee), NodeKind::Super)
}

/// Tells of a `super` that `new` stands before, which began at a place, and of its arguments.
pub(crate) fn check_new_callee<C: ParserConfig>(
    p: &mut ParserImpl<'_, C>,
    super_alone: bool,
    start: u32,
) -> Result<(), NoMemory>
    requires at { IsAt p.old }
    requires start { start ≤ p.old.prev_token_end }
    requires mark { super_alone ≡ true → Mark (goal p.old) p.old.text (callee_from start p.old.prev_token_end) }
    ensures { IfOk result (λ _. ChecksCallee super_alone start p.old p.new) }
{
    if super_alone {
        let span = p.end_span(start);
        p.error(diagnostic_at(DiagnosticKind::NewSuper, span))?;
    }
    Ok(())
}
