//! Parameters of methods (ECMA-262, section 15.4).

ghost use Rattle.std.specs.Prelude.{◌≡◌, ◌+◌, MatchResult};
ghost use Rattle.parse_patterns.specs.Prelude.{CanNest, Comma, Getter, IsTold, KindBehind, LParen, OnlyMemory, Opened, parameters_of, ReadsFurther, ReadsWhole, RestBegins, room, Setter, Standing, TellsParameters};

use crate::parameters::{parse_formal_parameter, parse_formal_parameters, parse_parameter_list};
use js_base::{DiagnosticKind, Kind, Span};
use parse_primary::leaf::close_parentheses;
use parse_shared::diagnostics::diagnostic_at;
use parse_shared::lexemes::{advance, stands};
use parse_shared::nested::{MethodForm, Nested};
use parse_shared::nodes::{make_leaf, make_list, make_one};
use parse_shared::{NodeId, NodeKind, Op, ParserConfig, ParserImpl, Stop};

/// The parameters of a method in their parentheses (ECMA-262, section 15.4).
pub fn parse_method_parameters<C: ParserConfig, N: Nested<C>>(
    p: &mut ParserImpl<'_, C>,
    nested: &N,
    form: MethodForm,
) -> Result<NodeId, Stop>
    requires at { Standing p.old }
    requires nests { CanNest (N.can nested.now) (room p.old) }
    ensures { ReadsWhole (parameters_of form) p.old p.new result }
{
    if !stands(p, Kind::LParen) {
        return Err(p.set_unexpected());
    }
    match form {
        MethodForm::Method => parse_formal_parameters(p, nested),
        MethodForm::Getter => parse_getter_parameters(p, nested),
        MethodForm::Setter => parse_setter_parameters(p, nested),
    }
}

/// The parentheses of a getter, which has no parameters: those that stand there are told, and reading goes on.
fn parse_getter_parameters<C: ParserConfig, N: Nested<C>>(
    p: &mut ParserImpl<'_, C>,
    nested: &N,
) -> Result<NodeId, Stop>
    requires at { Standing p.old }
    requires nests { CanNest (N.can nested.now) (room p.old) }
    requires open { p.old.token.kind ≡ LParen }
    ensures { ReadsWhole (parameters_of Getter) p.old p.new result }
{
    match kind_behind(p)? {
        Kind::RParen => parse_no_parameters(p),
        _ => parse_told_parameters(p, nested, DiagnosticKind::GetterParameters),
    }
}

/// The parameter of a setter in its parentheses. That none stands there, or a rest, or more of them, is told, and reading
/// goes on.
fn parse_setter_parameters<C: ParserConfig, N: Nested<C>>(
    p: &mut ParserImpl<'_, C>,
    nested: &N,
) -> Result<NodeId, Stop>
    requires at { Standing p.old }
    requires nests { CanNest (N.can nested.now) (room p.old) }
    requires open { p.old.token.kind ≡ LParen }
    ensures { ReadsWhole (parameters_of Setter) p.old p.new result }
{
    match kind_behind(p)? {
        Kind::RParen => parse_told_parameters(p, nested, DiagnosticKind::SetterWithParameters),
        Kind::Dot3 => parse_told_parameters(p, nested, DiagnosticKind::SetterWithRestParameter),
        _ => parse_one_parameter(p, nested),
    }
}

/// The kind of the lexeme behind the current one.
fn kind_behind<C: ParserConfig>(p: &mut ParserImpl<'_, C>) -> Result<Kind, Stop>
    requires { Standing p.old }
    ensures { MatchResult result (λ k. KindBehind p.old p.new k) OnlyMemory }
{
    let next = p.peek_token()?;
    Ok(next.kind())
}

/// FormalParameters in parentheses, where an accessor may not have them: this is told of them.
#[inline(never)]
fn parse_told_parameters<C: ParserConfig, N: Nested<C>>(
    p: &mut ParserImpl<'_, C>,
    nested: &N,
    kind: DiagnosticKind,
) -> Result<NodeId, Stop>
    requires at { Standing p.old }
    requires nests { CanNest (N.can nested.now) (room p.old) }
    requires open { p.old.token.kind ≡ LParen }
    requires kind { IsTold kind }
    ensures { TellsParameters kind p.old p.new result }
{
    let start = p.cur_start();
    let parameters = parse_formal_parameters(p, nested)?;
    let span = p.end_span(start);
    p.error(diagnostic_at(kind, span))?;
    Ok(parameters)
}

/// Parentheses with no parameters.
fn parse_no_parameters<C: ParserConfig>(p: &mut ParserImpl<'_, C>) -> Result<NodeId, Stop>
    requires at { Standing p.old }
    requires open { p.old.token.kind ≡ LParen }
    ensures { ReadsWhole (parameters_of Getter) p.old p.new result }
{
    let opening = p.cur_token().span();
    advance(p)?;
    close_parentheses(p, opening)?;
    let span = p.end_span(opening.start);
    let node = make_leaf(p, NodeKind::FormalParameters, Op::None, span)?;
    Ok(node)
}

/// One parameter in its parentheses. More of them are told, and reading goes on.
fn parse_one_parameter<C: ParserConfig, N: Nested<C>>(
    p: &mut ParserImpl<'_, C>,
    nested: &N,
) -> Result<NodeId, Stop>
    requires at { Standing p.old }
    requires nests { CanNest (N.can nested.now) (room p.old) }
    requires open { p.old.token.kind ≡ LParen }
    ensures { ReadsWhole (parameters_of Setter) p.old p.new result }
{
    let opening = p.cur_token().span();
    advance(p)?;
    let parameter = parse_formal_parameter(p, nested)?;
    if p.at(Kind::Comma) {
        return parse_further_parameters(p, nested, opening, parameter);
    }
    close_parentheses(p, opening)?;
    let span = p.end_span(opening.start);
    let kind = NodeKind::FormalParameters;
    let node = make_one(p, kind, Op::None, span, parameter)?;
    Ok(node)
}

/// What stands behind the one parameter of a setter, where a comma does, up to the closing parenthesis: it is told of all
/// the parameters, and reading goes on.
#[inline(never)]
fn parse_further_parameters<C: ParserConfig, N: Nested<C>>(
    p: &mut ParserImpl<'_, C>,
    nested: &N,
    opening: Span,
    parameter: NodeId,
) -> Result<NodeId, Stop>
    requires at { Standing p.old }
    requires nests { CanNest (N.can nested.now) (room p.old + 1) }
    requires opened { Opened p.old opening }
    requires begins { RestBegins opening.start p.old }
    requires comma { p.old.token.kind ≡ Comma }
    ensures { ReadsFurther opening parameter p.old p.new result }
{
    let mut parameters = Vec::new(p.alloc);
    parameters.push(Some(parameter))?;
    advance(p)?;
    parse_parameter_list(p, nested, &mut parameters)?;
    close_parentheses(p, opening)?;
    let span = p.end_span(opening.start);
    p.error(diagnostic_at(DiagnosticKind::SetterWithParameters, span))?;
    let kind = NodeKind::FormalParameters;
    let node = make_list(p, kind, Op::None, span, parameters)?;
    Ok(node)
}
