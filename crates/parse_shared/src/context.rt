//! What is read under other parameters than those around it (ECMA-262, section 5.1.5).

ghost use Rattle.std.specs.Prelude.{◌≡◌, ◌+◌};
ghost use Rattle.parse_shared.specs.Prelude.{Answers, arrow_body, Assignment, at, Body, body_of, braced_body, CanNest, EntersAsyncHead, EntersMethod, Expression, parameters_of, Params, params_of, plus_in, ReadsWhole, room, SetsAwait, Standing};

use js_base::Context;
use laws_shared::nested::{MethodForm, Nested};
use laws_shared::{NodeId, ParserConfig, ParserImpl, Stop};

/// The parameters that are in force.
pub fn context<C: ParserConfig>(p: &ParserImpl<'_, C>) -> Context
    ensures { result ≡ p.now.ctx }
{
    p.ctx
}

/// Puts others in force.
pub fn set_context<C: ParserConfig>(p: &mut ParserImpl<'_, C>, ctx: Context)
    ensures { p.new ≡ record p.old { ctx = ctx } }
{
    p.ctx = ctx;
}

/// With `await` as an operator and no name, or as a name and no operator.
fn with_await(ctx: Context, is_operator: bool) -> Context
    ensures { SetsAwait is_operator ctx result }
{
    ctx.and_await(is_operator).and_await_expression(is_operator)
}

/// What is in force in the parameters of an asynchronous arrow function: `await` is no name there, and an operator where it
/// is one around them (ECMA-262, section 15.9).
pub fn in_async_head(outer: Context) -> Context
    ensures { EntersAsyncHead outer result }
{
    outer
        .and_await(true)
        .and_await_expression(outer.reads_await())
}

/// An AssignmentExpression between brackets, under In.
pub fn assignment_with_in<C: ParserConfig, N: Nested<C>>(
    p: &mut ParserImpl<'_, C>,
    nested: &N,
) -> Result<NodeId, Stop>
    requires at { Standing p.old }
    requires nests { CanNest (N.can nested.now) (room p.old + 1) }
    ensures { Answers (λ f. at Assignment (plus_in f)) p.old p.new result }
{
    let outer = context(p);
    set_context(p, outer.and_in(true));
    let assignment = nested.element(p)?;
    set_context(p, outer);
    Ok(assignment)
}

/// The expression that is an arrow function's body: an AssignmentExpression without Yield, under Await in an asynchronous
/// one, one level deeper (ECMA-262, sections 15.3 and 15.9).
pub fn assignment_in_arrow<C: ParserConfig, N: Nested<C>>(
    p: &mut ParserImpl<'_, C>,
    nested: &N,
    is_async: bool,
) -> Result<NodeId, Stop>
    requires at { Standing p.old }
    requires nests { CanNest (N.can nested.now) (room p.old + 1) }
    ensures { Answers (λ f. at Assignment (arrow_body is_async f)) p.old p.new result }
{
    let outer = context(p);
    set_context(p, with_await(outer.and_yield(false), is_async));
    let assignment = nested.assignment(p)?;
    set_context(p, outer);
    Ok(assignment)
}

/// The FunctionBody that is an arrow function's body: under In and Return, without Yield, under Await in an asynchronous
/// one, one level deeper (ECMA-262, sections 15.3 and 15.9).
pub fn body_in_arrow<C: ParserConfig, N: Nested<C>>(
    p: &mut ParserImpl<'_, C>,
    nested: &N,
    is_async: bool,
) -> Result<NodeId, Stop>
    requires at { Standing p.old }
    requires nests { CanNest (N.can nested.now) (room p.old + 1) }
    ensures { Answers (λ f. at Body (braced_body is_async f)) p.old p.new result }
{
    let outer = context(p);
    let without = with_await(outer.and_yield(false), is_async);
    set_context(p, without.and_in(true).and_return(true));
    let body = nested.body(p)?;
    set_context(p, outer);
    Ok(body)
}

/// An Expression under In, one level deeper.
pub fn expression_with_in<C: ParserConfig, N: Nested<C>>(
    p: &mut ParserImpl<'_, C>,
    nested: &N,
) -> Result<NodeId, Stop>
    requires at { Standing p.old }
    requires nests { CanNest (N.can nested.now) (room p.old + 1) }
    ensures { Answers (λ f. at Expression (plus_in f)) p.old p.new result }
{
    let outer = context(p);
    set_context(p, outer.and_in(true));
    let expression = nested.expression(p)?;
    set_context(p, outer);
    Ok(expression)
}

/// The FormalParameters of a function, one level deeper: under In and NewTarget, under Await in an asynchronous one, under
/// Yield in a generator (ECMA-262, sections 15.2, 15.5, 15.6 and 15.8).
pub fn parameters_of_function<C: ParserConfig, N: Nested<C>>(
    p: &mut ParserImpl<'_, C>,
    nested: &N,
    is_async: bool,
    is_generator: bool,
) -> Result<NodeId, Stop>
    requires at { Standing p.old }
    requires nests { CanNest (N.can nested.now) (room p.old + 1) }
    ensures { Answers (λ f. at Params (params_of is_async is_generator f)) p.old p.new result }
{
    let outer = context(p);
    let inner = with_await(outer.and_in(true).and_yield(is_generator), is_async);
    set_context(p, inner.and_new_target(true));
    let parameters = nested.parameters(p)?;
    set_context(p, outer);
    Ok(parameters)
}

/// The FunctionBody of a function, one level deeper: as its parameters, and under Return (ECMA-262, sections 15.2, 15.5, 15.6
/// and 15.8).
pub fn body_of_function<C: ParserConfig, N: Nested<C>>(
    p: &mut ParserImpl<'_, C>,
    nested: &N,
    is_async: bool,
    is_generator: bool,
) -> Result<NodeId, Stop>
    requires at { Standing p.old }
    requires nests { CanNest (N.can nested.now) (room p.old + 1) }
    ensures { Answers (λ f. at Body (body_of is_async is_generator f)) p.old p.new result }
{
    let outer = context(p);
    let inner = with_await(outer.and_in(true).and_yield(is_generator), is_async);
    set_context(p, inner.and_new_target(true).and_return(true));
    let body = nested.body(p)?;
    set_context(p, outer);
    Ok(body)
}

/// What is in force while the parameters of a method are read, which is asynchronous or not, and a generator or not.
fn in_method(outer: Context, is_async: bool, generator: bool) -> Context
    ensures { EntersMethod is_async generator outer result }
{
    with_await(outer.and_in(true).and_yield(generator), is_async).and_new_target(true)
}

/// The parameters of a method, which is asynchronous or not, and a generator or not, in their parentheses, one level deeper
/// (ECMA-262, sections 15.4, 15.5, 15.6 and 15.8).
pub fn parameters_in_method<C: ParserConfig, N: Nested<C>>(
    p: &mut ParserImpl<'_, C>,
    nested: &N,
    form: MethodForm,
    is_async: bool,
    generator: bool,
) -> Result<NodeId, Stop>
    requires at { Standing p.old }
    requires nests { CanNest (N.can nested.now) (room p.old + 1) }
    ensures { ReadsWhole (λ f. parameters_of form (params_of is_async generator f)) p.old p.new result }
{
    let outer = context(p);
    set_context(p, in_method(outer, is_async, generator));
    let parameters = nested.method_parameters(p, form)?;
    set_context(p, outer);
    Ok(parameters)
}
