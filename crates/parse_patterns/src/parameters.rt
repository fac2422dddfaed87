//! Formal parameters (ECMA-262, section 15.1).

ghost use Rattle.std.specs.Prelude.{false, ◌≡◌, ◌+◌, ◌∷◌, [], MatchResult};
ghost use Rattle.parse_patterns.specs.Prelude.{Answers, at, CanNest, Dot3, ListReadOn, ListStops, LParen, one_of_kinds, Param, parameters_left, Params, ReadsItem, ReadsOneMore, Rest, room, RParen, Standing};

use crate::binding::{check_behind_rest, parse_binding_pattern, parse_binding_rest};
use js_base::{DiagnosticKind, Kind};
use laws_patterns::forms::RestPlace;
use parse_primary::leaf::close_parentheses;
use parse_shared::context::assignment_with_in;
use parse_shared::diagnostics::diagnostic_at;
use parse_shared::lexemes::advance;
use parse_shared::nested::Nested;
use parse_shared::nodes::{make_list, make_one, make_with_optional};
use parse_shared::refusals::refuse_annotation;
use parse_shared::{NodeId, NodeKind, Op, ParserConfig, ParserImpl, Stop};

/// FormalParameters in their parentheses (ECMA-262, section 15.1).
/// Reads: Params.
pub fn parse_formal_parameters<C: ParserConfig, N: Nested<C>>(
    p: &mut ParserImpl<'_, C>,
    nested: &N,
) -> Result<NodeId, Stop>
    requires at { Standing p.old }
    requires nests { CanNest (N.can nested.now) (room p.old) }
    requires open { p.old.token.kind ≡ LParen }
    ensures { Answers (at Params) p.old p.new result }
{
    let opening = p.cur_token().span();
    advance(p)?;
    let mut parameters = Vec::new(p.alloc);
    parse_parameter_list(p, nested, &mut parameters)?;
    close_parentheses(p, opening)?;
    let span = p.end_span(opening.start);
    let kind = NodeKind::FormalParameters;
    let node = make_list(p, kind, Op::None, span, parameters)?;
    Ok(node)
}

/// The parameters up to the closing parenthesis, as many as stand there, behind those that were read.
pub fn parse_parameter_list<C: ParserConfig, N: Nested<C>>(
    p: &mut ParserImpl<'_, C>,
    nested: &N,
    parameters: &mut Vec<Option<NodeId>>,
) -> Result<(), Stop>
    requires at { Standing p.old }
    requires nests { CanNest (N.can nested.now) (room p.old + 1) }
    ensures { MatchResult result (λ _. ListReadOn parameters_left RParen parameters.old.items parameters.new.items p.old p.new) (λ e. ListStops parameters_left p.old p.new e) }
{
    'parameters: loop {
        let more = parse_next_parameter(p, nested, parameters)?;
        if !more {
            break;
        }
    }
    Ok(())
}

/// A parameter or a rest, if one stands here, and the comma behind it: whether another may stand behind that.
fn parse_next_parameter<C: ParserConfig, N: Nested<C>>(
    p: &mut ParserImpl<'_, C>,
    nested: &N,
    parameters: &mut Vec<Option<NodeId>>,
) -> Result<bool, Stop>
    requires at { Standing p.old }
    requires nests { CanNest (N.can nested.now) (room p.old + 1) }
    ensures { ReadsOneMore parameters_left RParen parameters.old.items parameters.new.items p.old p.new result }
{
    match p.cur_kind() {
        Kind::RParen => Ok(false),
        Kind::Dot3 => parse_last_parameter(p, nested, parameters),
        _ => parse_parameter_and_comma(p, nested, parameters),
    }
}

/// A FormalParameter, and the comma behind it, where one stands there.
fn parse_parameter_and_comma<C: ParserConfig, N: Nested<C>>(
    p: &mut ParserImpl<'_, C>,
    nested: &N,
    parameters: &mut Vec<Option<NodeId>>,
) -> Result<bool, Stop>
    requires at { Standing p.old }
    requires nests { CanNest (N.can nested.now) (room p.old + 1) }
    requires parameter { one_of_kinds (RParen ∷ Dot3 ∷ []) p.old.token.kind ≡ false }
    ensures { ReadsOneMore parameters_left RParen parameters.old.items parameters.new.items p.old p.new result }
{
    let parameter = parse_formal_parameter(p, nested)?;
    parameters.push(Some(parameter))?;
    if !p.at(Kind::Comma) {
        return Ok(false);
    }
    advance(p)?;
    Ok(true)
}

/// A FormalParameter: what it binds, and an initialiser or none. A colon begins a type annotation of TypeScript.
/// Reads: Param.
pub fn parse_formal_parameter<C: ParserConfig, N: Nested<C>>(
    p: &mut ParserImpl<'_, C>,
    nested: &N,
) -> Result<NodeId, Stop>
    requires at { Standing p.old }
    requires nests { CanNest (N.can nested.now) (room p.old + 1) }
    ensures { ReadsItem (at Param) p.old p.new result }
{
    let start = p.cur_start();
    let binding = parse_binding_pattern(p, nested)?;
    if p.at(Kind::Colon) {
        return Err(refuse_annotation(p));
    }
    if !p.at(Kind::Eq) {
        let span = p.end_span(start);
        let node = make_with_optional(p, NodeKind::FormalParameter, span, binding, None)?;
        return Ok(node);
    }
    advance(p)?;
    let initialiser = assignment_with_in(p, nested)?;
    let span = p.end_span(start);
    let kind = NodeKind::FormalParameter;
    let node = make_with_optional(p, kind, span, binding, Some(initialiser))?;
    Ok(node)
}

/// A rest as the last parameter.
fn parse_last_parameter<C: ParserConfig, N: Nested<C>>(
    p: &mut ParserImpl<'_, C>,
    nested: &N,
    parameters: &mut Vec<Option<NodeId>>,
) -> Result<bool, Stop>
    requires at { Standing p.old }
    requires nests { CanNest (N.can nested.now) (room p.old + 1) }
    requires sign { p.old.token.kind ≡ Dot3 }
    ensures { ReadsOneMore parameters_left RParen parameters.old.items parameters.new.items p.old p.new result }
{
    let start = p.cur_start();
    let rest = parse_rest_parameter(p, nested)?;
    parameters.push(Some(rest))?;
    let span = p.end_span(start);
    let misplaced = diagnostic_at(DiagnosticKind::RestParameterLast, span);
    check_behind_rest(p, Kind::RParen, misplaced)?;
    Ok(false)
}

/// A FunctionRestParameter (ECMA-262, section 15.1).
/// Reads: Rest.
fn parse_rest_parameter<C: ParserConfig, N: Nested<C>>(
    p: &mut ParserImpl<'_, C>,
    nested: &N,
) -> Result<NodeId, Stop>
    requires at { Standing p.old }
    requires nests { CanNest (N.can nested.now) (room p.old + 1) }
    requires sign { p.old.token.kind ≡ Dot3 }
    ensures { ReadsItem (at Rest) p.old p.new result }
{
    let start = p.cur_start();
    let rest = parse_binding_rest(p, nested, RestPlace::Parameters)?;
    let span = p.end_span(start);
    let node = make_one(p, NodeKind::FormalParameterRest, Op::None, span, rest)?;
    Ok(node)
}
