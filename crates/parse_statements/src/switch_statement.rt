//! The `switch` statement (ECMA-262, section 14.12).

ghost use Rattle.std.specs.Prelude.{◌≡◌, ◌&&◌, not, true, IfOk, MatchResult};
ghost use Rattle.parse_statements.specs.Prelude.{AllClauses, CanNest, Clause, ClauseBegins, ClausesRefused, DueOr, ends_at, ends_list, has_flag, in_flag, IsAt, MayNote, NextRefused, NextTaken, NoCaseBlockHere, Notes, ReadsClause, room, second_default, Standing, StandsHere, Stood, Switch, TakesAnywhere, TakesCaseBlock, TakesTest};

use crate::statement_list::parse_directives_and_statements;
use js_base::{Diagnostic, DiagnosticKind, Kind, NoMemory, Span};
use parse_control::compound_statement::parse_paren_expression;
use parse_control::forms::{Defaults, StatementList};
use parse_control::sequences::Sequences;
use parse_shared::lexemes::advance;
use parse_shared::nested::Nested;
use parse_shared::nodes::make_list;
use parse_shared::refusals::refuse_due;
use parse_shared::{NodeId, NodeKind, Op, ParserConfig, ParserImpl, Stop};

/// A SwitchStatement (ECMA-262, section 14.12).
/// Reads: Switch.
#[inline(never)]
pub fn parse_switch_statement<C: ParserConfig, N: Sequences<C>>(
    p: &mut ParserImpl<'_, C>,
    nested: &N,
) -> Result<NodeId, Stop>
    requires at { Standing p.old }
    requires nests { CanNest (N.can nested.now) (room p.old) }
    requires allows_in { has_flag in_flag p.old.ctx ≡ true }
    requires word { StandsHere p.old Switch true }
    ensures { TakesAnywhere p.old p.new result }
{
    let start = p.cur_start();
    advance(p)?;
    let discriminant = parse_paren_expression(p, nested)?;
    let mut children = parse_case_block(p, nested)?;
    children.insert(0, Some(discriminant))?;
    let span = p.end_span(start);
    let node = make_list(p, NodeKind::SwitchStatement, Op::None, span, children)?;
    Ok(node)
}

/// A CaseBlock (ECMA-262, section 14.12): clauses in braces. It takes no frame of its own, since statements nest in it.
#[inline(always)]
fn parse_case_block<C: ParserConfig, N: Sequences<C>>(
    p: &mut ParserImpl<'_, C>,
    nested: &N,
) -> Result<Vec<Option<NodeId>>, Stop>
    requires at { Standing p.old }
    requires nests { CanNest (N.can nested.now) (room p.old) }
    requires allows_in { has_flag in_flag p.old.ctx ≡ true }
    ensures { MatchResult result (λ v. TakesCaseBlock p.old p.new v.items) (λ e. NoCaseBlockHere p.old p.new e) }
{
    p.expect(Kind::LCurly)?;
    let clauses = parse_clauses(p, nested)?;
    advance(p)?;
    Ok(clauses)
}

/// The clauses of a CaseBlock, up to its closing brace.
#[inline(always)]
fn parse_clauses<C: ParserConfig, N: Sequences<C>>(
    p: &mut ParserImpl<'_, C>,
    nested: &N,
) -> Result<Vec<Option<NodeId>>, Stop>
    requires at { Standing p.old }
    requires nests { CanNest (N.can nested.now) (room p.old) }
    requires allows_in { has_flag in_flag p.old.ctx ≡ true }
    ensures { MatchResult result (λ v. AllClauses p.old p.new v.items) (λ e. ClausesRefused p.old p.new e) }
{
    expect_clause(p)?;
    let mut children = Vec::new(p.alloc);
    let mut defaults = Defaults::Missing;
    'clauses: while !p.at(Kind::RCurly) {
        let (clause, so_far) = parse_next_clause(p, nested, defaults)?;
        children.push(Some(clause))?;
        defaults = so_far;
    }
    Ok(children)
}

/// A clause behind those that were read, and the DefaultClauses among all of them. The second one is told, and reading goes on.
#[inline(always)]
fn parse_next_clause<C: ParserConfig, N: Sequences<C>>(
    p: &mut ParserImpl<'_, C>,
    nested: &N,
    defaults: Defaults,
) -> Result<(NodeId, Defaults), Stop>
    requires at { Standing p.old }
    requires nests { CanNest (N.can nested.now) (room p.old) }
    requires allows_in { has_flag in_flag p.old.ctx ≡ true }
    requires begins { ClauseBegins p.old }
    requires stood { Stood defaults p.old }
    ensures { MatchResult result (λ r. NextTaken defaults p.old p.new r.0 r.1) (λ e. NextRefused defaults p.old p.new e) }
{
    let start = p.cur_start();
    let is_default = p.at(Kind::Default);
    let clause = parse_clause(p, nested)?;
    let span = p.end_span(start);
    let so_far = note_default(p, defaults, is_default, span)?;
    expect_clause(p)?;
    Ok((clause, so_far))
}

/// Notes where a DefaultClause stands; the second one is told.
fn note_default<C: ParserConfig>(
    p: &mut ParserImpl<'_, C>,
    defaults: Defaults,
    is_default: bool,
    span: Span,
) -> Result<Defaults, NoMemory>
    requires at { IsAt p.old }
    requires mark { MayNote defaults is_default span p.old }
    ensures { IfOk result (λ d. Notes defaults is_default span p.old p.new d) }
{
    if !is_default {
        return Ok(defaults);
    }
    match defaults {
        Defaults::Missing => Ok(Defaults::One(span)),
        Defaults::One(earlier) => {
            p.error(repeated_default(earlier, span))?;
            Ok(Defaults::Several)
        }
        Defaults::Several => Ok(Defaults::Several),
    }
}

/// A DefaultClause behind another one.
fn repeated_default(earlier: Span, span: Span) -> Diagnostic
    ensures { result ≡ second_default earlier span }
{
    Diagnostic {
        kind: DiagnosticKind::SwitchMultipleDefaultClause,
        span,
        first: Some(earlier),
        second: None,
    }
}

/// Gives up where neither a clause begins nor the CaseBlock ends.
fn expect_clause<C: ParserConfig>(p: &mut ParserImpl<'_, C>) -> Result<(), Stop>
    requires { Standing p.old }
    ensures { DueOr p.old p.new result }
{
    if is_clause_due(p) {
        return Ok(());
    }
    Err(refuse_due(p, DiagnosticKind::ExpectSwitchClause))
}

/// Whether a clause begins here, or the CaseBlock ends.
fn is_clause_due<C: ParserConfig>(p: &ParserImpl<'_, C>) -> bool
    ensures { result ≡ (ends_at Clause p.now.token.kind && not p.now.token.escaped) }
{
    StatementList::Clause.ends_at(p.cur_kind()) && !p.cur_token().escaped()
}

/// A CaseClause or a DefaultClause (ECMA-262, section 14.12).
/// Reads: Case.
#[inline(always)]
fn parse_clause<C: ParserConfig, N: Sequences<C>>(
    p: &mut ParserImpl<'_, C>,
    nested: &N,
) -> Result<NodeId, Stop>
    requires at { Standing p.old }
    requires nests { CanNest (N.can nested.now) (room p.old) }
    requires allows_in { has_flag in_flag p.old.ctx ≡ true }
    requires begins { ClauseBegins p.old }
    ensures read { ReadsClause p.old p.new result }
    ensures ended { IfOk result (λ _. ends_list Clause p.new.token.kind ≡ true) }
{
    let start = p.cur_start();
    let test = parse_test(p, nested)?;
    p.expect(Kind::Colon)?;
    let mut children = parse_directives_and_statements(p, nested, StatementList::Clause)?;
    children.insert(0, test)?;
    let span = p.end_span(start);
    let node = make_list(p, NodeKind::SwitchCase, Op::None, span, children)?;
    Ok(node)
}

/// What a clause begins with: `default`, or `case` and an Expression.
fn parse_test<C: ParserConfig, N: Nested<C>>(
    p: &mut ParserImpl<'_, C>,
    nested: &N,
) -> Result<Option<NodeId>, Stop>
    requires at { Standing p.old }
    requires nests { CanNest (N.can nested.now) (room p.old) }
    requires begins { ClauseBegins p.old }
    ensures { TakesTest p.old p.new result }
{
    let is_default = p.at(Kind::Default);
    advance(p)?;
    if is_default {
        return Ok(None);
    }
    let test = nested.expression(p)?;
    Ok(Some(test))
}
