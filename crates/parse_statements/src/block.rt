//! Lists of statements in braces (ECMA-262, sections 14.2 and 15.2).

ghost use Rattle.std.specs.Prelude.{◌≡◌, true, MatchResult};
ghost use Rattle.parse_statements.specs.Prelude.{Answers, at, Block, Body, CanNest, ends_in_brace, EndsParse, GivesUp, has_flag, in_flag, LCurly, NoBracesHere, room, Standing, TakesAnywhere, TakesBraces};

use crate::statement_list::parse_directives_and_statements;
use js_base::{DiagnosticKind, Kind};
use parse_control::forms::StatementList;
use parse_control::sequences::Sequences;
use parse_shared::nodes::make_list;
use parse_shared::refusals::{refuse_annotation, refuse_due};
use parse_shared::{NodeId, NodeKind, Op, ParserConfig, ParserImpl, Stop};

/// A Block as a statement (ECMA-262, section 14.2).
#[inline(never)]
pub fn parse_block_statement<C: ParserConfig, N: Sequences<C>>(
    p: &mut ParserImpl<'_, C>,
    nested: &N,
) -> Result<NodeId, Stop>
    requires at { Standing p.old }
    requires nests { CanNest (N.can nested.now) (room p.old) }
    requires allows_in { has_flag in_flag p.old.ctx ≡ true }
    requires brace { p.old.token.kind ≡ LCurly }
    ensures { TakesAnywhere p.old p.new result }
{
    let start = p.cur_start();
    let items = parse_statements_in_braces(p, nested, StatementList::Block)?;
    let span = p.end_span(start);
    let node = make_list(p, NodeKind::BlockStatement, Op::None, span, items)?;
    Ok(node)
}

/// A Block (ECMA-262, section 14.2). It takes no frame of its own, since statements nest in it.
/// Reads: Block.
#[inline(always)]
pub fn parse_block<C: ParserConfig, N: Sequences<C>>(
    p: &mut ParserImpl<'_, C>,
    nested: &N,
) -> Result<NodeId, Stop>
    requires at { Standing p.old }
    requires nests { CanNest (N.can nested.now) (room p.old) }
    requires allows_in { has_flag in_flag p.old.ctx ≡ true }
    ensures { Answers (at Block) p.old p.new result }
{
    let start = p.cur_start();
    let statements = parse_statements_in_braces(p, nested, StatementList::Block)?;
    let span = p.end_span(start);
    let node = make_list(p, NodeKind::BlockStatement, Op::None, span, statements)?;
    Ok(node)
}

/// A FunctionBody in its braces (ECMA-262, section 15.2).
/// Reads: Body.
pub fn parse_function_body<C: ParserConfig, N: Sequences<C>>(
    p: &mut ParserImpl<'_, C>,
    nested: &N,
) -> Result<NodeId, Stop>
    requires at { Standing p.old }
    requires nests { CanNest (N.can nested.now) (room p.old) }
    requires allows_in { has_flag in_flag p.old.ctx ≡ true }
    ensures { Answers (at Body) p.old p.new result }
{
    if !p.at(Kind::LCurly) {
        return Err(refuse_bodiless(p));
    }
    let start = p.cur_start();
    let items = parse_statements_in_braces(p, nested, StatementList::Body)?;
    let span = p.end_span(start);
    let node = make_list(p, NodeKind::FunctionBody, Op::None, span, items)?;
    Ok(node)
}

/// Gives up where the body of a function is due and none stands. A colon begins a type annotation of TypeScript.
#[inline(never)]
fn refuse_bodiless<C: ParserConfig>(p: &mut ParserImpl<'_, C>) -> Stop
    requires { Standing p.old }
    ensures { GivesUp EndsParse p.old p.new result }
{
    if p.at(Kind::Colon) {
        return refuse_annotation(p);
    }
    refuse_due(p, DiagnosticKind::ExpectFunctionBody)
}

/// A list of statements in braces (ECMA-262, sections 14.2 and 15.2).
pub fn parse_statements_in_braces<C: ParserConfig, N: Sequences<C>>(
    p: &mut ParserImpl<'_, C>,
    nested: &N,
    list: StatementList,
) -> Result<Vec<Option<NodeId>>, Stop>
    requires at { Standing p.old }
    requires nests { CanNest (N.can nested.now) (room p.old) }
    requires allows_in { has_flag in_flag p.old.ctx ≡ true }
    requires braces { ends_in_brace list ≡ true }
    ensures { MatchResult result (λ v. TakesBraces list p.old p.new v.items) (λ e. NoBracesHere list p.old p.new e) }
{
    let opening = p.cur_token().span();
    p.expect(Kind::LCurly)?;
    let items = parse_directives_and_statements(p, nested, list)?;
    p.expect_closing(Kind::RCurly, opening)?;
    Ok(items)
}
