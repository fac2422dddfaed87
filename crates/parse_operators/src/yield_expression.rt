//! YieldExpressions (ECMA-262, section 15.5).

ghost use Rattle.std.specs.Prelude.{◌≡◌, ◌≤◌, ◌∷◌, ◌||◌, ◌↔◌, [], Some, IfOk, IsTrue, not, true};
ghost use Rattle.parse_operators.specs.Prelude.{Answers, Assignment, at, BeginsYield, CanNest, delegate_flag, IsNoTarget, MadeHere, one_of_kinds, other_arguments, plain_label, ReadsYield, room, Standing, Star, yields_argument};
ghost use Rattle.parse_shared.specs.js_tree.declared.kind.NodeKind.TheVariants as node;
ghost use Rattle.parse_shared.specs.js_tree.declared.op.Op.TheVariants as op;

use js_base::{Kind, NoMemory, Span};
use parse_shared::lexemes::advance;
use parse_shared::nested::Nested;
use parse_shared::nodes::make_optional;
use parse_shared::{NodeFlags, NodeId, NodeKind, Op, ParserConfig, ParserImpl, Stop};

/// Whether a YieldExpression begins here: `yield` is no name where the parameter Yield is on.
#[inline(always)]
pub(crate) fn begins_yield<C: ParserConfig>(p: &ParserImpl<'_, C>) -> bool
    ensures { IsTrue result ↔ BeginsYield p.now }
{
    p.at(Kind::Yield) && !p.cur_token().escaped() && p.ctx.has_yield()
}

/// A YieldExpression: `yield` alone, or with an AssignmentExpression on its line, before which a `*` may stand.
/// Reads: Yield.
#[inline(never)]
pub(crate) fn parse_yield_expression<C: ParserConfig, N: Nested<C>>(
    p: &mut ParserImpl<'_, C>,
    nested: &N,
) -> Result<NodeId, Stop>
    requires at { Standing p.old }
    requires nests { CanNest (N.can nested.now) (room p.old) }
    requires word { BeginsYield p.old }
    ensures answers { Answers (at Assignment) p.old p.new result }
    ensures node { IfOk result (λ id. IsNoTarget p.new id) }
{
    let start = p.cur_start();
    advance(p)?;
    if is_bare(p) {
        let span = p.end_span(start);
        let node = make_optional(p, NodeKind::YieldExpression, span, None)?;
        return Ok(node);
    }
    if p.at(Kind::Star) {
        return parse_delegate(p, nested, start);
    }
    let argument = nested.assignment(p)?;
    let span = p.end_span(start);
    let node = make_optional(p, NodeKind::YieldExpression, span, Some(argument))?;
    Ok(node)
}

/// Whether a `yield` that was passed stands alone: nothing that begins its argument stands on its line.
fn is_bare<C: ParserConfig>(p: &ParserImpl<'_, C>) -> bool
    ensures { result ≡ (p.now.token.is_on_new_line || not (yields_argument p.now.token.kind)) }
{
    p.cur_token().is_on_new_line() || !begins_argument(p.cur_kind())
}

/// The `*` of a `yield` that began at a place, and what it stands before.
fn parse_delegate<C: ParserConfig, N: Nested<C>>(
    p: &mut ParserImpl<'_, C>,
    nested: &N,
    start: u32,
) -> Result<NodeId, Stop>
    requires at { Standing p.old }
    requires nests { CanNest (N.can nested.now) (room p.old) }
    requires start { start ≤ p.old.prev_token_end }
    requires star { p.old.token.kind ≡ Star }
    ensures answers { ReadsYield start p.old p.new result }
    ensures node { IfOk result (λ id. IsNoTarget p.new id) }
{
    advance(p)?;
    let argument = nested.assignment(p)?;
    let span = p.end_span(start);
    let node = make_delegate(p, span, argument)?;
    Ok(node)
}

/// The node of a `yield` with a `*`.
fn make_delegate<C: ParserConfig>(
    p: &mut ParserImpl<'_, C>,
    span: Span,
    argument: NodeId,
) -> Result<NodeId, NoMemory>
    ensures { IfOk result (λ id. MadeHere (record (plain_label node.YieldExpression op.None span) { flags = delegate_flag }) (Some argument ∷ []) p.old p.new id) }
{
    let flags = NodeFlags {
        delegate: true,
        ..NodeFlags::default()
    };
    p.ast.node_of_one(
        NodeKind::YieldExpression,
        span,
        Op::None,
        flags,
        Some(argument),
    )
}

/// Whether the argument of a `yield` begins with this lexeme on its line, or its `*` does. A slash begins a regular
/// expression there.
fn begins_argument(kind: Kind) -> bool
    ensures { result ≡ yields_argument kind }
{
    kind.is_binding_identifier()
        || kind.is_literal()
        || kind.is_unary_operator()
        || kind.is_update_operator()
        || begins_other_argument(kind)
}

/// Whether it is one of those that are no names, literals or operators before an operand.
fn begins_other_argument(kind: Kind) -> bool
    ensures { result ≡ one_of_kinds other_arguments kind }
{
    matches!(
        kind,
        Kind::Star
            | Kind::Slash
            | Kind::SlashEq
            | Kind::This
            | Kind::LParen
            | Kind::LBrack
            | Kind::LCurly
            | Kind::Function
            | Kind::Class
            | Kind::At
            | Kind::NoSubstitutionTemplate
            | Kind::TemplateHead
            | Kind::Percent
            | Kind::New
            | Kind::Super
            | Kind::Import
            | Kind::PrivateIdentifier
    )
}
