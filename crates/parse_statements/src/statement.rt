//! Statements (ECMA-262, chapter 14).

ghost use Rattle.std.specs.Prelude.{◌≡◌, ◌≤◌, ◌&&◌, ◌↔◌, IsTrue, true, false};
ghost use Rattle.parse_statements.specs.Prelude.{at, CanNest, ClassHere, Colon, Const, FindsForeign, has_flag, in_flag, IsLabel, keyword_kind, LabelsStatement, ListItem, NoFunctionHere, one_of_kinds, room, Semicolon, SpellsName, Standing, StandsHere, statement_kinds, Sub, TakesAnywhere, TakesStatement, TakesUndeclared};

use crate::block::parse_block_statement;
use crate::class_statement::{parse_class_as_body, parse_class_declaration};
use crate::function_statement::{parse_function_as_body, parse_function_declaration};
use crate::switch_statement::parse_switch_statement;
use crate::try_statement::parse_try_statement;
use crate::word_statement::{
    parse_break_statement, parse_continue_statement, parse_debugger_statement,
    parse_return_statement, parse_throw_statement,
};
use js_base::{DiagnosticKind, Kind, Token};
use parse_control::compound_statement::{
    parse_do_while_statement, parse_if_statement, parse_while_statement, parse_with_statement,
};
use parse_control::declaration_statement::{
    lexical_kind, parse_lexical_body, parse_lexical_declaration, parse_variable_statement,
};
use parse_control::for_statement::parse_for_statement;
use parse_control::sequences::Sequences;
use parse_members::decorated::class_stands;
use parse_primary::function::function_stands;
use parse_primary::leaf::parse_leaf;
use parse_shared::diagnostics::kept_so_far;
use parse_shared::lexemes::{advance, escaped_word_stands, is_name_here, keyword_of, stands};
use parse_shared::nested::Nested;
use parse_shared::nodes::{make_name, make_one, make_two};
use parse_shared::refusals::refuse_here;
use parse_shared::semicolon::end_statement;
use parse_shared::{NodeId, NodeKind, Op, ParserConfig, ParserImpl, Stop};

/// A StatementListItem (ECMA-262, section 14.2): a Statement, a declaration of a function or of a class, or a
/// LexicalDeclaration.
/// Reads: ListItem.
pub fn parse_statement_list_item<C: ParserConfig, N: Sequences<C>>(
    p: &mut ParserImpl<'_, C>,
    nested: &N,
) -> Result<NodeId, Stop>
    requires at { Standing p.old }
    requires nests { CanNest (N.can nested.now) (room p.old) }
    requires allows_in { has_flag in_flag p.old.ctx ≡ true }
    ensures { TakesStatement (at ListItem) p.old p.new result }
{
    if let Some(kind) = lexical_kind(p, true)? {
        return parse_lexical_declaration(p, nested, kind);
    }
    if function_stands(p)? {
        return parse_function_declaration(p, nested);
    }
    if class_stands(p) {
        return parse_class_declaration(p, nested);
    }
    parse_any_statement(p, nested)
}

/// A Statement that is the body of another one (ECMA-262, chapter 14).
/// Reads: Sub.
pub fn parse_statement<C: ParserConfig, N: Sequences<C>>(
    p: &mut ParserImpl<'_, C>,
    nested: &N,
) -> Result<NodeId, Stop>
    requires at { Standing p.old }
    requires nests { CanNest (N.can nested.now) (room p.old) }
    requires allows_in { has_flag in_flag p.old.ctx ≡ true }
    ensures { TakesStatement (at Sub) p.old p.new result }
{
    if let Some(kind) = lexical_kind(p, false)? {
        return parse_lexical_body(p, nested, kind);
    }
    if function_stands(p)? {
        return parse_function_as_body(p, nested);
    }
    if class_stands(p) {
        return parse_class_as_body(p, nested);
    }
    parse_any_statement(p, nested)
}

/// A Statement, wherever it stands, where no LexicalDeclaration, no function and no class does: by the lexeme that it begins with; a
/// LabelledStatement or an ExpressionStatement where that is none of a statement's own.
/// Reads: Statement.
fn parse_any_statement<C: ParserConfig, N: Sequences<C>>(
    p: &mut ParserImpl<'_, C>,
    nested: &N,
) -> Result<NodeId, Stop>
    requires at { Standing p.old }
    requires nests { CanNest (N.can nested.now) (room p.old) }
    requires allows_in { has_flag in_flag p.old.ctx ≡ true }
    requires other { StandsHere p.old Const false }
    requires no_function { NoFunctionHere p.old }
    requires no_class { ClassHere p.old false }
    ensures { TakesUndeclared p.old p.new result }
{
    if escaped_word_stands(p) {
        return parse_expression_or_labeled_statement(p, nested);
    }
    match p.cur_kind() {
        Kind::Semicolon => parse_empty_statement(p),
        Kind::LCurly => parse_block_statement(p, nested),
        Kind::If => parse_if_statement(p, nested),
        Kind::Do => parse_do_while_statement(p, nested),
        Kind::While => parse_while_statement(p, nested),
        Kind::With => parse_with_statement(p, nested),
        Kind::For => parse_for_statement(p, nested),
        Kind::Break => parse_break_statement(p),
        Kind::Continue => parse_continue_statement(p),
        Kind::Return => parse_return_statement(p, nested),
        Kind::Throw => parse_throw_statement(p, nested),
        Kind::Switch => parse_switch_statement(p, nested),
        Kind::Try => parse_try_statement(p, nested),
        Kind::Debugger => parse_debugger_statement(p),
        Kind::Var => parse_variable_statement(p, nested),
        _ => parse_expression_or_labeled_statement(p, nested),
    }
}

/// An EmptyStatement (ECMA-262, section 14.4).
/// Reads: Empty.
fn parse_empty_statement<C: ParserConfig>(p: &mut ParserImpl<'_, C>) -> Result<NodeId, Stop>
    requires at { Standing p.old }
    requires here { p.old.token.kind ≡ Semicolon }
    ensures { TakesAnywhere p.old p.new result }
{
    parse_leaf(p, NodeKind::EmptyStatement, Op::None)
}

/// An ExpressionStatement (ECMA-262, section 14.5): an expression and its semicolon, which may be left out where the
/// grammar permits that (12.10). Where the expression is a name and a colon stands behind it, it is a label (14.13).
/// An operator of TypeScript behind it is told.
/// Reads: ExprStmt.
fn parse_expression_or_labeled_statement<C: ParserConfig, N: Sequences<C>>(
    p: &mut ParserImpl<'_, C>,
    nested: &N,
) -> Result<NodeId, Stop>
    requires at { Standing p.old }
    requires nests { CanNest (N.can nested.now) (room p.old) }
    requires allows_in { has_flag in_flag p.old.ctx ≡ true }
    requires other { one_of_kinds statement_kinds (keyword_kind p.old.token) ≡ false }
    requires no_function { NoFunctionHere p.old }
    ensures { TakesUndeclared p.old p.new result }
{
    let kept = kept_so_far(p);
    let start = p.cur_start();
    let first = p.cur_token();
    let expression = nested.sequence(p)?;
    if is_label(p, first) {
        return parse_labeled_statement_rest(p, nested, first);
    }
    if let Some(kind) = foreign_operator(p, kept) {
        return Err(refuse_here(p, kind));
    }
    end_statement(p)?;
    let span = p.end_span(start);
    let node = make_one(p, NodeKind::ExpressionStatement, Op::None, span, expression)?;
    Ok(node)
}

/// The rest of a LabelledStatement (ECMA-262, section 14.13), behind the name that is its label.
/// Reads: Labeled.
fn parse_labeled_statement_rest<C: ParserConfig, N: Nested<C>>(
    p: &mut ParserImpl<'_, C>,
    nested: &N,
    name: Token,
) -> Result<NodeId, Stop>
    requires at { Standing p.old }
    requires nests { CanNest (N.can nested.now) (room p.old) }
    requires allows_in { has_flag in_flag p.old.ctx ≡ true }
    requires colon { p.old.token.kind ≡ Colon }
    requires start { name.span.start ≤ p.old.prev_token_end }
    requires spells { SpellsName p.old.text name }
    ensures { LabelsStatement name.span p.old p.new result }
{
    let start = name.start();
    let label = make_name(p, NodeKind::LabelIdentifier, name)?;
    advance(p)?;
    let body = nested.statement(p)?;
    let span = p.end_span(start);
    let node = make_two(p, NodeKind::LabeledStatement, Op::None, span, label, body)?;
    Ok(node)
}

/// What is told of an operator of TypeScript that stands here, on the line of an expression in which nothing was found since
/// so many diagnostics were kept.
fn foreign_operator<C: ParserConfig>(p: &ParserImpl<'_, C>, kept: usize) -> Option<DiagnosticKind>
    ensures { FindsForeign kept p.now result }
{
    let token = p.cur_token();
    if token.is_on_new_line() || kept_so_far(p) != kept {
        return None;
    }
    match keyword_of(token) {
        Kind::As => Some(DiagnosticKind::AsInTs),
        Kind::Satisfies => Some(DiagnosticKind::SatisfiesInTs),
        _ => None,
    }
}

/// Whether the token that was passed last is this one, a name, and a colon stands behind it.
fn is_label<C: ParserConfig>(p: &ParserImpl<'_, C>, first: Token) -> bool
    ensures { IsTrue result ↔ IsLabel first p.now }
{
    p.at(Kind::Colon) && is_name_here(p, first.kind()) && first.end() == p.prev_token_end()
}
