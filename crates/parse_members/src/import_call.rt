//! Calls of `import` (ECMA-262, section 13.3.10).

ghost use Rattle.std.specs.Prelude.{◌+◌, IfOk, true};
ghost use Rattle.parse_members.specs.Prelude.{Answers, Assignment, at, BehindWord, behind_new_at, CanNest, ClosesImport, Dot3, EndsImport, EndsParse, GivesUp, IsAt, KeepsDiagnostic, LParen, MakesImport, plus_in, ReadsOptions, room, RParen, Standing, StandsHere};

use js_base::{DiagnosticKind, Kind, NoMemory, Span};
use parse_shared::context::assignment_with_in;
use parse_shared::diagnostics::diagnostic_at;
use parse_shared::lexemes::{advance, stands};
use parse_shared::nested::Nested;
use parse_shared::nodes::make_with_optional;
use parse_shared::{NodeId, NodeKind, ParserConfig, ParserImpl, Stop};

/// The arguments of an ImportCall in their parentheses, behind an `import` that began at a place, and its node
/// (ECMA-262, section 13.3.10).
#[inline(never)]
pub(crate) fn parse_import_call<C: ParserConfig, N: Nested<C>>(
    p: &mut ParserImpl<'_, C>,
    nested: &N,
    start: u32,
) -> Result<NodeId, Stop>
    requires at { Standing p.old }
    requires nests { CanNest (N.can nested.now) (room p.old) }
    requires behind { BehindWord start p.old }
    requires open { StandsHere p.old LParen true }
    ensures { MakesImport start p.old p.new result }
{
    advance(p)?;
    if stands(p, Kind::RParen) {
        return Err(refuse_empty(p, start));
    }
    let specifier = parse_import_argument(p, nested)?;
    let options = parse_import_options(p, nested, start)?;
    let span = p.end_span(start);
    let kind = NodeKind::ImportExpression;
    let node = make_with_optional(p, kind, span, specifier, options)?;
    Ok(node)
}

/// Gives up at the `)` of an ImportCall without arguments.
#[inline(never)]
fn refuse_empty<C: ParserConfig>(p: &mut ParserImpl<'_, C>, start: u32) -> Stop
    requires at { Standing p.old }
    requires behind { BehindWord start p.old }
    requires sign { StandsHere p.old RParen true }
    ensures { GivesUp EndsParse p.old p.new result }
{
    let span = Span::new(start, p.cur_token().span().end);
    p.set_fatal_error(diagnostic_at(DiagnosticKind::ImportRequiresASpecifier, span))
}

/// Gives up where `)` is due behind the arguments of an ImportCall.
#[inline(never)]
fn refuse_arguments<C: ParserConfig>(p: &mut ParserImpl<'_, C>, start: u32) -> Stop
    requires at { Standing p.old }
    requires behind { BehindWord start p.old }
    ensures { GivesUp EndsParse p.old p.new result }
{
    if p.at(Kind::Undetermined) {
        return p.set_unexpected();
    }
    let span = p.end_span(start);
    p.set_fatal_error(diagnostic_at(DiagnosticKind::ImportArguments, span))
}

/// An argument of an ImportCall: an AssignmentExpression under In, which may not be spread.
fn parse_import_argument<C: ParserConfig, N: Nested<C>>(
    p: &mut ParserImpl<'_, C>,
    nested: &N,
) -> Result<NodeId, Stop>
    requires at { Standing p.old }
    requires nests { CanNest (N.can nested.now) (room p.old + 1) }
    ensures { Answers (λ f. at Assignment (plus_in f)) p.old p.new result }
{
    if !stands(p, Kind::Dot3) {
        return assignment_with_in(p, nested);
    }
    Err(refuse_spread(p))
}

/// Gives up at the `...` before an argument of an ImportCall.
#[inline(never)]
fn refuse_spread<C: ParserConfig>(p: &mut ParserImpl<'_, C>) -> Stop
    requires at { Standing p.old }
    requires sign { StandsHere p.old Dot3 true }
    ensures { GivesUp EndsParse p.old p.new result }
{
    let span = p.cur_token().span();
    p.set_fatal_error(diagnostic_at(DiagnosticKind::DynamicImportArgumentSpread, span))
}

/// What stands behind the first argument of an ImportCall, with its closing parenthesis: a comma and a second argument, or
/// none, and a comma behind either.
fn parse_import_options<C: ParserConfig, N: Nested<C>>(
    p: &mut ParserImpl<'_, C>,
    nested: &N,
    start: u32,
) -> Result<Option<NodeId>, Stop>
    requires at { Standing p.old }
    requires nests { CanNest (N.can nested.now) (room p.old + 1) }
    requires behind { BehindWord start p.old }
    ensures { ReadsOptions p.old p.new result }
{
    if !stands(p, Kind::Comma) {
        close_import(p, start)?;
        return Ok(None);
    }
    advance(p)?;
    if stands(p, Kind::RParen) {
        advance(p)?;
        return Ok(None);
    }
    let options = parse_import_argument(p, nested)?;
    end_import(p, start)?;
    Ok(Some(options))
}

/// The closing parenthesis of an ImportCall behind its second argument, and a comma before it or none.
fn end_import<C: ParserConfig>(p: &mut ParserImpl<'_, C>, start: u32) -> Result<(), Stop>
    requires at { Standing p.old }
    requires behind { BehindWord start p.old }
    ensures { EndsImport p.old p.new result }
{
    if !stands(p, Kind::Comma) {
        return close_import(p, start);
    }
    advance(p)?;
    close_import(p, start)
}

/// The closing parenthesis of an ImportCall.
fn close_import<C: ParserConfig>(p: &mut ParserImpl<'_, C>, start: u32) -> Result<(), Stop>
    requires at { Standing p.old }
    requires behind { BehindWord start p.old }
    ensures { ClosesImport p.old p.new result }
{
    if !stands(p, Kind::RParen) {
        return Err(refuse_arguments(p, start));
    }
    advance(p)
}

/// Tells of an ImportCall behind `new`, which began at a place. Reading goes on.
#[inline(never)]
pub(crate) fn refuse_behind_new<C: ParserConfig>(
    p: &mut ParserImpl<'_, C>,
    start: u32,
) -> Result<(), NoMemory>
    requires at { IsAt p.old }
    requires behind { BehindWord start p.old }
    ensures { IfOk result (λ _. KeepsDiagnostic (behind_new_at start p.old.prev_token_end) p.old p.new) }
{
    let span = p.end_span(start);
    p.error(diagnostic_at(DiagnosticKind::NewDynamicImport, span))?;
    Ok(())
}
