//! Functions and generators, asynchronous or not (ECMA-262, sections 15.2, 15.5, 15.6 and 15.8).

ghost use Rattle.std.specs.Prelude.{◌≡◌, ◌+◌, ◌∷◌, [], IfOk, MatchResult, Some, true, false};
ghost use Rattle.parse_primary.specs.Prelude.{Answers, async_flag, at, BeginsFunction, CanNest, flag, FunctionBehind, FunctionHere, generator_flag, is_textual, MadeHere, NamesFunction, number_of, OnlyMemory, plain_label, Primary, room, Standing, TakesName, TakesParts};
ghost use Rattle.laws_primary.specs.js_tree.declared.op.Op.TheVariants as op;

use crate::leaf::parse_name;
use js_base::{DiagnosticKind, Kind, NoMemory, Span};
use laws_primary::forms::{FunctionForm, FunctionParts};
use parse_shared::context::{body_of_function, parameters_of_function};
use parse_shared::diagnostics::diagnostic_at;
use parse_shared::lexemes::{advance, name_stands, name_stands_under, stands};
use parse_shared::nested::Nested;
use parse_shared::{NodeFlags, NodeId, NodeKind, Op, ParserConfig, ParserImpl, Stop};

/// Whether a function begins here: `function`, or `async` with `function` behind it on its line.
pub fn function_stands<C: ParserConfig>(p: &mut ParserImpl<'_, C>) -> Result<bool, Stop>
    requires { Standing p.old }
    ensures { MatchResult result (λ found. FunctionHere p.old p.new found) OnlyMemory }
{
    if stands(p, Kind::Function) {
        return Ok(true);
    }
    if !stands(p, Kind::Async) {
        return Ok(false);
    }
    is_function_behind(p)
}

/// Whether `function` stands behind the current lexeme, on its line.
fn is_function_behind<C: ParserConfig>(p: &mut ParserImpl<'_, C>) -> Result<bool, Stop>
    requires { Standing p.old }
    ensures { MatchResult result (λ found. FunctionBehind p.old p.new found) OnlyMemory }
{
    let next = p.peek_token()?;
    if next.is_on_new_line() {
        return Ok(false);
    }
    if next.escaped() {
        return Ok(false);
    }
    Ok(matches!(next.kind(), Kind::Function))
}

/// A FunctionExpression or its kin (ECMA-262, sections 15.2, 15.5, 15.6 and 15.8).
/// Reads: FuncExpr.
#[inline(never)]
pub fn parse_function_expression<C: ParserConfig, N: Nested<C>>(
    p: &mut ParserImpl<'_, C>,
    nested: &N,
) -> Result<NodeId, Stop>
    requires at { Standing p.old }
    requires nests { CanNest (N.can nested.now) (room p.old) }
    requires word { BeginsFunction p.old }
    ensures { Answers (at Primary) p.old p.new result }
{
    let start = p.cur_start();
    let parts = parse_function_parts(p, nested, FunctionForm::Expression)?;
    let span = p.end_span(start);
    let node = make_function(p, NodeKind::FunctionExpression, span, parts)?;
    Ok(node)
}

/// The parts of a function from its first word on (ECMA-262, sections 15.2, 15.5, 15.6 and 15.8).
#[inline(never)]
pub fn parse_function_parts<C: ParserConfig, N: Nested<C>>(
    p: &mut ParserImpl<'_, C>,
    nested: &N,
    form: FunctionForm,
) -> Result<FunctionParts, Stop>
    requires at { Standing p.old }
    requires nests { CanNest (N.can nested.now) (room p.old) }
    requires word { BeginsFunction p.old }
    ensures { TakesParts form p.old p.new result }
{
    let is_async = p.eat(Kind::Async)?;
    advance(p)?;
    let is_generator = p.eat(Kind::Star)?;
    let name = parse_function_name(p, form, is_async, is_generator)?;
    let parameters = parameters_of_function(p, nested, is_async, is_generator)?;
    let head_end = p.prev_token_end();
    let body = body_of_function(p, nested, is_async, is_generator)?;
    Ok(FunctionParts {
        is_async,
        is_generator,
        name,
        parameters,
        body,
        head_end,
    })
}

/// Whether the name of a function stands here: that of an expression is a name by the parameters of the function itself
/// (ECMA-262, sections 15.2, 15.5, 15.6 and 15.8).
fn function_name_stands<C: ParserConfig>(
    p: &ParserImpl<'_, C>,
    form: FunctionForm,
    is_async: bool,
    is_generator: bool,
) -> bool
    ensures { NamesFunction form is_async is_generator p.now result }
{
    match form {
        FunctionForm::Declaration => name_stands(p),
        FunctionForm::Expression => name_stands_under(p, is_generator, is_async),
    }
}

/// The name of a function, or none. A declaration without one is told before its parameters, and reading goes on.
fn parse_function_name<C: ParserConfig>(
    p: &mut ParserImpl<'_, C>,
    form: FunctionForm,
    is_async: bool,
    is_generator: bool,
) -> Result<Option<NodeId>, Stop>
    requires { Standing p.old }
    ensures { TakesName form is_async is_generator p.old p.new result }
{
    if function_name_stands(p, form, is_async, is_generator) {
        let name = parse_name(p, NodeKind::BindingIdentifier)?;
        return Ok(Some(name));
    }
    if let FunctionForm::Expression = form {
        return Ok(None);
    }
    if !p.at(Kind::LParen) {
        return Err(p.set_unexpected());
    }
    let span = p.cur_token().span();
    p.error(diagnostic_at(DiagnosticKind::ExpectFunctionName, span))?;
    Ok(None)
}

/// The node of a function of these parts.
pub fn make_function<C: ParserConfig>(
    p: &mut ParserImpl<'_, C>,
    kind: NodeKind,
    span: Span,
    parts: FunctionParts,
) -> Result<NodeId, NoMemory>
    requires { is_textual kind ≡ false }
    ensures { IfOk result (λ id. MadeHere (record (plain_label kind op.None span) { flags = flag parts.is_async async_flag + flag parts.is_generator generator_flag }) (parts.name ∷ Some parts.parameters ∷ Some parts.body ∷ []) p.old p.new id) }
{
    let flags = function_flags(parts.is_async, parts.is_generator);
    let children = [parts.name, Some(parts.parameters), Some(parts.body)];
    p.ast.node_of_three(kind, span, Op::None, flags, children)
}

/// The flags of a function, which is asynchronous or not, and a generator or not.
pub fn function_flags(is_async: bool, is_generator: bool) -> NodeFlags
    ensures { number_of result ≡ flag is_async async_flag + flag is_generator generator_flag }
{
    NodeFlags {
        is_async,
        generator: is_generator,
        ..NodeFlags::default()
    }
}
