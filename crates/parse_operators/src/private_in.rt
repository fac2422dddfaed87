//! A private name before `in` (ECMA-262, section 13.10).

ghost use Rattle.std.specs.Prelude.{◌≡◌, ◌≤◌, ◌-◌, ◌↔◌, ◌∷◌, [], Some, IfOk, IsTrue, true};
ghost use Rattle.parse_operators.specs.Prelude.{GivesUp, has_flag, in_flag, MadeHere, PrivateIdentifier, private_in_label, Standing, TakesPrivate, tells_private, unrelated_at};

use js_base::{BinaryOperator, DiagnosticKind, Kind, NoMemory};
use parse_primary::leaf::parse_private_name;
use parse_shared::diagnostics::diagnostic_at;
use parse_shared::lexemes::RELATIONAL;
use parse_shared::nodes::make_two;
use parse_shared::{NodeId, NodeKind, Op, ParserConfig, ParserImpl, Stop};

/// The private name that stands here, and the `in` behind it, where these may stand: where `in` is an operator, and one of
/// its tightness may. Else that is told, and so is a private name behind the `in`.
/// Reads: Relational.
#[inline(never)]
pub(crate) fn parse_private_operand<C: ParserConfig>(
    p: &mut ParserImpl<'_, C>,
    least: u8,
) -> Result<NodeId, Stop>
    requires at { Standing p.old }
    requires private { p.old.token.kind ≡ PrivateIdentifier }
    requires low { 5 ≤ least }
    requires high { least ≤ 15 }
    ensures { TakesPrivate (least - 5) p.old p.new result }
{
    if !takes_comparison(p, least) {
        return Err(refuse_private_name(p, DiagnosticKind::UnexpectedPrivateIdentifier));
    }
    let name = parse_private_name(p)?;
    p.expect(Kind::In)?;
    if p.at(Kind::PrivateIdentifier) {
        return Err(refuse_private_name(p, DiagnosticKind::PrivateInPrivate));
    }
    Ok(name)
}

/// Whether `in` is an operator here that binds at least as tight as `least`.
fn takes_comparison<C: ParserConfig>(p: &ParserImpl<'_, C>, least: u8) -> bool
    ensures { IsTrue result ↔ (least ≤ 11) × (has_flag in_flag p.now.ctx ≡ true) }
{
    least <= RELATIONAL && p.ctx.has_in()
}

/// Gives up at a private name.
fn refuse_private_name<C: ParserConfig>(p: &mut ParserImpl<'_, C>, kind: DiagnosticKind) -> Stop
    requires at { Standing p.old }
    requires private { p.old.token.kind ≡ PrivateIdentifier }
    requires kind { tells_private kind ≡ true }
    ensures { GivesUp (λ d. d ≡ unrelated_at kind p.old.token.span) p.old p.new result }
{
    let span = p.cur_token().span();
    p.set_fatal_error(diagnostic_at(kind, span))
}

/// The node of a private name and what it is looked for in.
#[inline(never)]
pub(crate) fn make_private_in<C: ParserConfig>(
    p: &mut ParserImpl<'_, C>,
    start: u32,
    name: NodeId,
    right: NodeId,
) -> Result<NodeId, NoMemory>
    requires { start ≤ p.old.prev_token_end }
    ensures { IfOk result (λ id. MadeHere (private_in_label start p.old.prev_token_end) (Some name ∷ Some right ∷ []) p.old p.new id) }
{
    let span = p.end_span(start);
    let op = Op::Binary(BinaryOperator::In);
    make_two(p, NodeKind::PrivateInExpression, op, span, name, right)
}
