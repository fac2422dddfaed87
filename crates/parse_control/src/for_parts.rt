//! The first part of the head of a `for` (ECMA-262, sections 14.7.4, 14.7.5 and B.3.5), where `in` is no operator.

ghost use Rattle.std.specs.Prelude.{Bool, ◌≡◌, ◌≤◌, ◌↔◌, true, false, IfOk, IsTrue, MatchResult};
ghost use Rattle.parse_control.specs.Prelude.{BeginsHead, CanNest, ChecksAsync, ChecksLet, DiagnosticKind, EndsTarget, FaultOf, FindsHead, ForLoopAsyncOf, ForLoopLetReservedWord, goal, has_flag, HeadExpressionRead, HeadFault, in_flag, is_var, IsAsyncAlone, IsAt, Mark, may_stand, NoneBegins, OnlyMemory, room, Semicolon, Standing, TakesHeadTarget, TakesPartWithoutIn, TellsHead, ThroughHere, unrelated_at};

use crate::declaration_statement::begins_let_declaration;
use js_base::{DiagnosticKind, Kind, NoMemory, Span, Token};
use laws_statements::patterns::Patterns;
use laws_statements::sequences::Sequences;
use parse_declarations::head::{
    HeadForm, goes_through, parse_declarators_behind, parse_head_declarator,
};
use parse_shared::diagnostics::{diagnostic_at, kept_so_far};
use parse_shared::lexemes::{advance, stands};
use parse_shared::nodes::{make_list, make_one};
use parse_shared::{DeclarationKind, NodeId, NodeKind, Op, ParserConfig, ParserImpl, Stop};
use parse_targets::array_target::literal_target;
use parse_targets::cover::{cover, is_array_or_object, refuse_target};

/// The first part of the head of a `for`, with `await` before it or without: a declaration or an expression.
/// Reads: ForInit.
pub fn parse_part_without_in<C: ParserConfig, N: Sequences<C>>(
    p: &mut ParserImpl<'_, C>,
    nested: &N,
    is_await: bool,
) -> Result<NodeId, Stop>
    requires at { Standing p.old }
    requires nests { CanNest (N.can nested.now) (room p.old) }
    requires no_in { has_flag in_flag p.old.ctx ≡ false }
    requires other { p.old.token.kind ≡ Semicolon → ⊥ }
    ensures { TakesPartWithoutIn is_await p.old p.new result }
{
    match head_kind(p)? {
        Some(kind) => parse_head_declaration(p, nested, kind),
        None => parse_head_expression(p, nested, is_await),
    }
}

/// The kind of the declaration that begins in the head of a `for`; none where no declaration does.
fn head_kind<C: ParserConfig>(p: &mut ParserImpl<'_, C>) -> Result<Option<DeclarationKind>, Stop>
    requires { Standing p.old }
    ensures { MatchResult result (λ found. FindsHead p.old p.new found) OnlyMemory }
{
    if stands(p, Kind::Var) {
        return Ok(Some(DeclarationKind::Var));
    }
    if stands(p, Kind::Const) {
        return Ok(Some(DeclarationKind::Const));
    }
    if begins_let_declaration(p, true)? {
        return Ok(Some(DeclarationKind::Let));
    }
    Ok(None)
}

/// An expression as the first part of a head. Before `in` and `of` it is a target; before `of` it doesn't begin with `let`, nor is
/// it `async` alone, unless `await` stands before the head (ECMA-262, section 14.7.5).
fn parse_head_expression<C: ParserConfig, N: Sequences<C>>(
    p: &mut ParserImpl<'_, C>,
    nested: &N,
    is_await: bool,
) -> Result<NodeId, Stop>
    requires at { Standing p.old }
    requires nests { CanNest (N.can nested.now) (room p.old) }
    requires no_in { has_flag in_flag p.old.ctx ≡ false }
    requires other { p.old.token.kind ≡ Semicolon → ⊥ }
    requires none { NoneBegins p.old }
    ensures { TakesPartWithoutIn is_await p.old p.new result }
{
    let start = p.cur_start();
    let kept = kept_so_far(p);
    let first = p.cur_token();
    let begins_async = p.at(Kind::Async);
    let is_let = stands(p, Kind::Let);
    let expression = nested.sequence(p)?;
    if !goes_through(p) {
        return Ok(expression);
    }
    let target = head_target(p, start, expression, kept, begins_async)?;
    let span = p.end_span(start);
    check_let(p, is_let, span)?;
    check_async(p, first, is_await)?;
    Ok(target)
}

/// Tells of `async` alone as the target before `of`, where no `await` stands before the head (ECMA-262, section 14.7.5); the
/// target began with this token.
fn check_async<C: ParserConfig>(
    p: &mut ParserImpl<'_, C>,
    first: Token,
    is_await: bool,
) -> Result<(), NoMemory>
    requires at { IsAt p.old }
    requires mark { IsAsyncAlone first p.old → Mark (goal p.old) p.old.text (unrelated_at ForLoopAsyncOf first.span) }
    ensures { IfOk result (λ _. ChecksAsync is_await first p.old p.new) }
{
    if is_await {
        return Ok(());
    }
    if !is_async_alone(p, first) {
        return Ok(());
    }
    if stands(p, Kind::Of) {
        p.error(diagnostic_at(DiagnosticKind::ForLoopAsyncOf, first.span()))?;
    }
    Ok(())
}

/// Whether this token is `async`, without an escape, and was passed last.
fn is_async_alone<C: ParserConfig>(p: &ParserImpl<'_, C>, first: Token) -> bool
    ensures { IsTrue result ↔ IsAsyncAlone first p.now }
{
    matches!(first.kind(), Kind::Async) && !first.escaped() && first.end() == p.prev_token_end()
}

/// Tells of a target before `of` that begins with `let` (ECMA-262, section 14.7.5).
fn check_let<C: ParserConfig>(
    p: &mut ParserImpl<'_, C>,
    is_let: bool,
    span: Span,
) -> Result<(), NoMemory>
    requires at { IsAt p.old }
    requires mark { is_let ≡ true → Mark (goal p.old) p.old.text (unrelated_at ForLoopLetReservedWord span) }
    ensures { IfOk result (λ _. ChecksLet is_let span p.old p.new) }
{
    if !is_let {
        return Ok(());
    }
    if !stands(p, Kind::Of) {
        return Ok(());
    }
    p.error(diagnostic_at(DiagnosticKind::ForLoopLetReservedWord, span))?;
    Ok(())
}

/// The target that an expression before `in` or `of` stands for, which begins at a place, when so many diagnostics were kept;
/// with `async` or not. Where it is none, and begins with `async`, what stands behind it is told.
fn head_target<C: ParserConfig>(
    p: &mut ParserImpl<'_, C>,
    start: u32,
    expression: NodeId,
    kept: usize,
    begins_async: bool,
) -> Result<NodeId, Stop>
    requires at { Standing p.old }
    requires start { start ≤ p.old.prev_token_end }
    requires whole { p.old.cut ≡ false }
    requires sign { EndsTarget p.old }
    requires through { ThroughHere p.old true }
    requires read { HeadExpressionRead begins_async start expression kept p.old }
    ensures { TakesHeadTarget start expression kept p.old p.new result }
{
    if is_array_or_object(p, expression) {
        return literal_target(p, start, expression, kept);
    }
    match cover(p, expression) {
        Some(target) => Ok(target),
        None => {
            if begins_async {
                return Err(p.set_unexpected());
            }
            Err(refuse_target(p, start, kept))
        }
    }
}

/// A declaration as the first part of a head: a ForDeclaration before `in` or `of`, else a list of declarators.
fn parse_head_declaration<C: ParserConfig, N: Patterns<C>>(
    p: &mut ParserImpl<'_, C>,
    nested: &N,
    kind: DeclarationKind,
) -> Result<NodeId, Stop>
    requires at { Standing p.old }
    requires nests { CanNest (N.can nested.now) (room p.old) }
    requires no_in { has_flag in_flag p.old.ctx ≡ false }
    requires begins { BeginsHead kind p.old }
    ensures { (is_await : Bool) → TakesPartWithoutIn is_await p.old p.new result }
{
    let start = p.cur_start();
    advance(p)?;
    let first = parse_head_declarator(p, nested, kind)?;
    let op = Op::Declaration(kind);
    if !p.at(Kind::Comma) {
        let span = p.end_span(start);
        tell_head_fault(p, kind, first.form, true, span)?;
        let node = make_one(p, NodeKind::VariableDeclaration, op, span, first.node)?;
        return Ok(node);
    }
    let declarators = parse_declarators_behind(p, nested, kind, first.node)?;
    let span = p.end_span(start);
    tell_head_fault(p, kind, first.form, false, span)?;
    let node = make_list(p, NodeKind::VariableDeclaration, op, span, declarators)?;
    Ok(node)
}

/// Tells what is wrong with the declarators before `in` or `of`, which stand at this span.
fn tell_head_fault<C: ParserConfig>(
    p: &mut ParserImpl<'_, C>,
    kind: DeclarationKind,
    form: HeadForm,
    alone: bool,
    span: Span,
) -> Result<(), NoMemory>
    requires at { IsAt p.old }
    requires mark { (d : DiagnosticKind) → HeadFault d → Mark (goal p.old) p.old.text (unrelated_at d span) }
    ensures { IfOk result (λ _. TellsHead kind form alone p.old p.new) }
{
    if !goes_through(p) {
        return Ok(());
    }
    match head_fault(kind, form, alone, p.at(Kind::In)) {
        Some(fault) => {
            p.error(diagnostic_at(fault, span))?;
            Ok(())
        }
        None => Ok(()),
    }
}

/// The fault of declarators before `in` or, else, `of`, the first of which has this form and stands alone or before others; none
/// where they may stand there.
fn head_fault(
    kind: DeclarationKind,
    form: HeadForm,
    alone: bool,
    before_in: bool,
) -> Option<DiagnosticKind>
    ensures { FaultOf (may_stand kind form alone before_in) result }
{
    if !alone {
        return Some(DiagnosticKind::MultipleDeclarationsInForLoopHead);
    }
    match form {
        HeadForm::Through => None,
        HeadForm::InitialisedName if is_var(kind) && before_in => None,
        _ => Some(initialiser_fault(kind, before_in)),
    }
}

/// What is told of an initialiser before `in` or, else, `of`.
fn initialiser_fault(kind: DeclarationKind, before_in: bool) -> DiagnosticKind
    ensures { HeadFault result }
{
    if before_in && !is_var(kind) {
        DiagnosticKind::InitializerInForInLexicalDeclaration
    } else {
        DiagnosticKind::InitializerInForHead
    }
}

/// Whether the declaration begins with `var`.
fn is_var(kind: DeclarationKind) -> bool
    ensures { result ≡ is_var kind }
{
    matches!(kind, DeclarationKind::Var)
}
