//! Statements that begin with a word and end with a semicolon: `break`, `continue`, `return`, `throw` and `debugger` (ECMA-262,
//! sections 14.8, 14.9, 14.10, 14.14 and 14.16).

ghost use Rattle.std.specs.Prelude.{◌≡◌, Bool, true, false, IfOk};
ghost use Rattle.parse_statements.specs.Prelude.{Break, CanNest, ChecksOperand, ChecksReturn, Continue, Debugger, fault_of_return, goal, has_flag, in_flag, is_textual, IsAt, JumpsHere, late_operand, Mark, Return, room, Standing, StandsHere, stray_return, TakesAnywhere, TakesArgument, TakesLabel, Throw};

use js_base::{DiagnosticKind, NoMemory, Span};
use parse_control::sequences::Sequences;
use parse_primary::leaf::parse_name;
use parse_shared::diagnostics::diagnostic_at;
use parse_shared::lexemes::{advance, name_stands};
use parse_shared::nodes::{make_leaf, make_one, make_optional};
use parse_shared::semicolon::end_statement;
use parse_shared::{NodeId, NodeKind, Op, ParserConfig, ParserImpl, Stop};

/// A DebuggerStatement (ECMA-262, section 14.16).
/// Reads: Debugger.
#[inline(never)]
pub fn parse_debugger_statement<C: ParserConfig>(p: &mut ParserImpl<'_, C>) -> Result<NodeId, Stop>
    requires at { Standing p.old }
    requires word { StandsHere p.old Debugger true }
    ensures { TakesAnywhere p.old p.new result }
{
    let start = p.cur_start();
    advance(p)?;
    end_statement(p)?;
    let span = p.end_span(start);
    let node = make_leaf(p, NodeKind::DebuggerStatement, Op::None, span)?;
    Ok(node)
}

/// A BreakStatement (ECMA-262, section 14.9).
/// Reads: Break.
pub fn parse_break_statement<C: ParserConfig>(p: &mut ParserImpl<'_, C>) -> Result<NodeId, Stop>
    requires at { Standing p.old }
    requires word { StandsHere p.old Break true }
    ensures { TakesAnywhere p.old p.new result }
{
    parse_jump(p, NodeKind::BreakStatement)
}

/// A ContinueStatement (ECMA-262, section 14.8).
/// Reads: Continue.
pub fn parse_continue_statement<C: ParserConfig>(p: &mut ParserImpl<'_, C>) -> Result<NodeId, Stop>
    requires at { Standing p.old }
    requires word { StandsHere p.old Continue true }
    ensures { TakesAnywhere p.old p.new result }
{
    parse_jump(p, NodeKind::ContinueStatement)
}

/// A word, the label that it leads to, or none, and a semicolon.
#[inline(never)]
fn parse_jump<C: ParserConfig>(p: &mut ParserImpl<'_, C>, kind: NodeKind) -> Result<NodeId, Stop>
    requires at { Standing p.old }
    requires word { JumpsHere kind p.old }
    requires kind { is_textual kind ≡ false }
    ensures { TakesAnywhere p.old p.new result }
{
    let start = p.cur_start();
    advance(p)?;
    let label = parse_optional_label(p)?;
    end_statement(p)?;
    let span = p.end_span(start);
    let node = make_optional(p, kind, span, label)?;
    Ok(node)
}

/// A LabelIdentifier (ECMA-262, section 13.1), or none where the statement may end.
/// Reads: LabelIdentifier.
fn parse_optional_label<C: ParserConfig>(p: &mut ParserImpl<'_, C>) -> Result<Option<NodeId>, Stop>
    requires { Standing p.old }
    ensures { TakesLabel p.old p.new result }
{
    if p.can_insert_semicolon() {
        return Ok(None);
    }
    if !name_stands(p) {
        return Err(p.set_unexpected());
    }
    let label = parse_name(p, NodeKind::LabelIdentifier)?;
    Ok(Some(label))
}

/// A ThrowStatement (ECMA-262, section 14.14). A new line behind `throw` is told, and reading goes on.
/// Reads: Throw.
#[inline(never)]
pub fn parse_throw_statement<C: ParserConfig, N: Sequences<C>>(
    p: &mut ParserImpl<'_, C>,
    nested: &N,
) -> Result<NodeId, Stop>
    requires at { Standing p.old }
    requires nests { CanNest (N.can nested.now) (room p.old) }
    requires allows_in { has_flag in_flag p.old.ctx ≡ true }
    requires word { StandsHere p.old Throw true }
    ensures { TakesAnywhere p.old p.new result }
{
    let word = p.cur_token().span();
    advance(p)?;
    check_operand(p, word)?;
    let operand = nested.sequence(p)?;
    end_statement(p)?;
    let span = p.end_span(word.start);
    let node = make_one(p, NodeKind::ThrowStatement, Op::None, span, operand)?;
    Ok(node)
}

/// Tells of a new line behind a word, whose operand is due on the same line.
fn check_operand<C: ParserConfig>(p: &mut ParserImpl<'_, C>, word: Span) -> Result<(), NoMemory>
    requires at { IsAt p.old }
    requires mark { Mark (goal p.old) p.old.text (late_operand word) }
    ensures { IfOk result (λ _. ChecksOperand word p.old p.new) }
{
    if p.cur_token().is_on_new_line() {
        p.error(diagnostic_at(DiagnosticKind::IllegalNewline, word))?;
    }
    Ok(())
}

/// A ReturnStatement (ECMA-262, section 14.10). One that stands in no function's body is told, and reading goes on.
/// Reads: Return.
#[inline(never)]
pub fn parse_return_statement<C: ParserConfig, N: Sequences<C>>(
    p: &mut ParserImpl<'_, C>,
    nested: &N,
) -> Result<NodeId, Stop>
    requires at { Standing p.old }
    requires nests { CanNest (N.can nested.now) (room p.old) }
    requires allows_in { has_flag in_flag p.old.ctx ≡ true }
    requires word { StandsHere p.old Return true }
    ensures { TakesAnywhere p.old p.new result }
{
    let word = p.cur_token().span();
    advance(p)?;
    let argument = parse_optional_argument(p, nested)?;
    end_statement(p)?;
    check_return(p, word)?;
    let span = p.end_span(word.start);
    let node = make_optional(p, NodeKind::ReturnStatement, span, argument)?;
    Ok(node)
}

/// An Expression, or none where the statement may end.
fn parse_optional_argument<C: ParserConfig, N: Sequences<C>>(
    p: &mut ParserImpl<'_, C>,
    nested: &N,
) -> Result<Option<NodeId>, Stop>
    requires at { Standing p.old }
    requires nests { CanNest (N.can nested.now) (room p.old) }
    ensures { TakesArgument p.old p.new result }
{
    if p.can_insert_semicolon() {
        return Ok(None);
    }
    let argument = nested.sequence(p)?;
    Ok(Some(argument))
}

/// Tells of a `return` in no function's body, which stood at a span.
fn check_return<C: ParserConfig>(p: &mut ParserImpl<'_, C>, word: Span) -> Result<(), NoMemory>
    requires at { IsAt p.old }
    requires mark { (b : Bool) → Mark (goal p.old) p.old.text (stray_return b word) }
    ensures { IfOk result (λ _. ChecksReturn word p.old p.new) }
{
    if !p.ctx.has_return() {
        let kind = return_fault(p.ctx.has_new_target());
        p.error(diagnostic_at(kind, word))?;
    }
    Ok(())
}

/// What is told of a `return` in no function's body: where `new.target` may stand, it is in a static block of a class
/// (ECMA-262, section 15.7).
fn return_fault(in_block: bool) -> DiagnosticKind
    ensures { result ≡ fault_of_return in_block }
{
    if in_block {
        DiagnosticKind::ReturnStatementInClassStaticBlock
    } else {
        DiagnosticKind::ReturnStatementOnlyInFunctionBody
    }
}
