//! Declarations of functions (ECMA-262, sections 15.2, 15.5, 15.6 and 15.8): items of lists; those of functions that are neither
//! asynchronous nor generators as the bodies of other statements too (B.3.1 and B.3.3).

ghost use Rattle.std.specs.Prelude.{◌≡◌, IfOk};
ghost use Rattle.parse_statements.specs.Prelude.{at, BeginsFunction, CanNest, ChecksPlain, fault_of_body, goal, IsAt, ListItem, Mark, room, Standing, Sub, TakesStatement, told_of_body};

use js_base::{DiagnosticKind, NoMemory, Span};
use parse_primary::forms::FunctionForm;
use parse_primary::function::{make_function, parse_function_parts};
use parse_shared::diagnostics::diagnostic_at;
use parse_shared::nested::Nested;
use parse_shared::{NodeId, NodeKind, ParserConfig, ParserImpl, Stop};

/// A FunctionDeclaration or its kin in a list of statements (ECMA-262, sections 15.2, 15.5, 15.6 and 15.8).
/// Reads: Function.
#[inline(never)]
pub fn parse_function_declaration<C: ParserConfig, N: Nested<C>>(
    p: &mut ParserImpl<'_, C>,
    nested: &N,
) -> Result<NodeId, Stop>
    requires at { Standing p.old }
    requires nests { CanNest (N.can nested.now) (room p.old) }
    requires word { BeginsFunction p.old }
    ensures { TakesStatement (at ListItem) p.old p.new result }
{
    let start = p.cur_start();
    let parts = parse_function_parts(p, nested, FunctionForm::Declaration)?;
    let span = p.end_span(start);
    let node = make_function(p, NodeKind::FunctionDeclaration, span, parts)?;
    Ok(node)
}

/// A FunctionDeclaration as the body of another statement (ECMA-262, sections B.3.1 and B.3.3). An asynchronous function or
/// a generator may not stand there: that is told, and reading goes on.
#[inline(never)]
pub fn parse_function_as_body<C: ParserConfig, N: Nested<C>>(
    p: &mut ParserImpl<'_, C>,
    nested: &N,
) -> Result<NodeId, Stop>
    requires at { Standing p.old }
    requires nests { CanNest (N.can nested.now) (room p.old) }
    requires word { BeginsFunction p.old }
    ensures { TakesStatement (at Sub) p.old p.new result }
{
    let start = p.cur_start();
    let parts = parse_function_parts(p, nested, FunctionForm::Declaration)?;
    let head = Span::new(start, parts.head_end);
    check_plain_function(p, parts.is_async, parts.is_generator, head)?;
    let span = p.end_span(start);
    let node = make_function(p, NodeKind::FunctionDeclaration, span, parts)?;
    Ok(node)
}

/// Tells of an asynchronous function or a generator that stands as the body of another statement, up to the end of its
/// parameters.
fn check_plain_function<C: ParserConfig>(
    p: &mut ParserImpl<'_, C>,
    is_async: bool,
    is_generator: bool,
    head: Span,
) -> Result<(), NoMemory>
    requires at { IsAt p.old }
    requires mark { Mark (goal p.old) p.old.text (told_of_body is_async head) }
    ensures { IfOk result (λ _. ChecksPlain is_async is_generator head p.old p.new) }
{
    if is_async || is_generator {
        p.error(diagnostic_at(body_fault(is_async), head))?;
    }
    Ok(())
}

/// What is told of an asynchronous function, or else of a generator.
fn body_fault(is_async: bool) -> DiagnosticKind
    ensures { result ≡ fault_of_body is_async }
{
    if is_async {
        DiagnosticKind::AsyncFunctionDeclaration
    } else {
        DiagnosticKind::GeneratorFunctionDeclaration
    }
}
