//! Decorators (of the proposal Decorators; no section of ECMA-262).

ghost use Rattle.std.specs.Prelude.{◌≡◌, ◌∷◌, []};
ghost use Rattle.parse_members.specs.Prelude.{Answers, at, At, CanNest, Decorator, Dot, EndsParse, GivesUp, LParen, one_of_kinds, ReadsDecorated, ReadsNames, room, Standing};

use crate::left_hand_side::{parse_named_link, parse_with_arguments};
use crate::primary::parse_parenthesized_expression;
use js_base::{DiagnosticKind, Kind};
use parse_primary::leaf::parse_name;
use parse_shared::lexemes::{advance, name_stands, stands};
use parse_shared::nested::Nested;
use parse_shared::nodes::make_one;
use parse_shared::refusals::refuse_due;
use parse_shared::{NodeId, NodeKind, Op, ParserConfig, ParserImpl, Stop};

/// A Decorator, from its `@` on (of the proposal Decorators; no section of ECMA-262).
/// Reads: Decorator.
pub fn parse_decorator<C: ParserConfig, N: Nested<C>>(
    p: &mut ParserImpl<'_, C>,
    nested: &N,
) -> Result<NodeId, Stop>
    requires at { Standing p.old }
    requires nests { CanNest (N.can nested.now) (room p.old) }
    requires sign { p.old.token.kind ≡ At }
    ensures { Answers (at Decorator) p.old p.new result }
{
    let start = p.cur_start();
    advance(p)?;
    let expression = parse_decorator_expression(p, nested)?;
    if goes_on(p.cur_kind()) {
        return Err(refuse_form(p));
    }
    let span = p.end_span(start);
    let node = make_one(p, NodeKind::Decorator, Op::None, span, expression)?;
    Ok(node)
}

/// What stands behind `@`.
fn parse_decorator_expression<C: ParserConfig, N: Nested<C>>(
    p: &mut ParserImpl<'_, C>,
    nested: &N,
) -> Result<NodeId, Stop>
    requires at { Standing p.old }
    requires nests { CanNest (N.can nested.now) (room p.old) }
    ensures { ReadsDecorated p.old p.new result }
{
    if stands(p, Kind::LParen) {
        return parse_parenthesized_expression(p, nested);
    }
    let start = p.cur_start();
    let member = parse_decorator_member(p)?;
    if !stands(p, Kind::LParen) {
        return Ok(member);
    }
    parse_with_arguments(p, nested, start, NodeKind::CallExpression, false, member)
}

/// A name, and names behind dots.
/// Reads: DecoratorMember.
fn parse_decorator_member<C: ParserConfig>(p: &mut ParserImpl<'_, C>) -> Result<NodeId, Stop>
    requires at { Standing p.old }
    ensures { ReadsNames p.old p.new result }
{
    let start = p.cur_start();
    if !name_stands(p) {
        return Err(refuse_form(p));
    }
    let mut left = parse_name(p, NodeKind::IdentifierReference)?;
    'names: while stands(p, Kind::Dot) {
        left = parse_named_link(p, start, left)?;
    }
    Ok(left)
}

/// Whether a decorator that was read would go on with such a lexeme, if more of an expression could stand there.
fn goes_on(kind: Kind) -> bool
    ensures { result ≡ one_of_kinds (LParen ∷ Dot ∷ []) kind }
{
    matches!(kind, Kind::LParen | Kind::Dot)
}

/// Gives up where a decorator has another form.
#[inline(never)]
pub(crate) fn refuse_form<C: ParserConfig>(p: &mut ParserImpl<'_, C>) -> Stop
    requires { Standing p.old }
    ensures { GivesUp EndsParse p.old p.new result }
{
    refuse_due(p, DiagnosticKind::DecoratorForm)
}
