//! The calls of `js_core`, by their names.

ghost use Rattle.std.specs.Prelude.{◌≡◌, ◌≤◌, Bool, true, length};
ghost use Rattle.js_base.specs.Contexts.{has_flag, in_flag};
ghost use Rattle.js_cursor.specs.Starts.{Starts};
ghost use Rattle.parse_shared.specs.laws_shared.States.{Standing};

use crate::answer::Answer;
use crate::covered::cover_text;
use js_base::{Kind, MAX_LEN, ParseOptions, Precedence, SourceType, StatementContext};
use js_cursor::{ParserImpl, Stop};
use js_lex::RuntimeParserConfig;
use js_parser::js_core::{
    RuntimeParser, parse_assignment_expression_or_higher, parse_binary_expression_or_higher,
    parse_binding_pattern, parse_expr, parse_formal_parameters, parse_function_body,
    parse_import_declaration, parse_lhs_expression_or_higher, parse_property_name,
    parse_statement_list_item, try_parse_parenthesized_arrow_function_expression,
};
use js_tree::{NodeId, ParserAstBuilder};
use std::alloc::Global;

/// Puts what a call answers at the beginning of a text, which is read as a script.
pub(crate) fn put_called(alloc: Global, out: &mut Answer, asked: &str, text: &str)
    requires { length text.now ≤ MAX_LEN }
{
    let options = ParseOptions::default();
    let config = RuntimeParserConfig::new(false);
    match ParserImpl::new(alloc, text, SourceType::script(), options, config) {
        Ok(mut p) => put_call(&mut p, out, asked),
        Err(_) => out.fail(),
    }
}

/// Puts what a call answers at the beginning of a text, and the name of the diagnostic that was kept last, if one was.
fn put_call(p: &mut RuntimeParser<'_>, out: &mut Answer, asked: &str)
    requires { (b : Bool) × Starts p.old.text p.old.source_type p.old.options b p.old }
{
    let (name, word) = match asked.split_once(' ') {
        Some(both) => both,
        None => (asked, ""),
    };
    if p.at(Kind::HashbangComment) {
        return out.put("hashbang");
    }
    let found = call(p, out, name, word);
    put_found(out, p, found);
}

/// The node that the call of a name answers, with the word that it takes; none where the call answers none, or can't be made.
fn call(
    p: &mut RuntimeParser<'_>,
    out: &mut Answer,
    name: &str,
    word: &str,
) -> Result<Option<NodeId>, Stop>
    requires at { Standing p.old }
    requires allows_in { has_flag in_flag p.old.ctx ≡ true }
{
    match name {
        "cover" => cover_text(p, word),
        "try_parse_parenthesized_arrow_function_expression" => {
            try_parse_parenthesized_arrow_function_expression(p)
        }
        "parse_property_name" => {
            let name = parse_property_name(p)?;
            if name.computed {
                out.put("computed ");
            }
            Ok(Some(name.key))
        }
        _ => call_for_a_node(p, name, word).transpose(),
    }
}

/// What the call of a name answers, if it is one that always answers a node.
fn call_for_a_node(
    p: &mut RuntimeParser<'_>,
    name: &str,
    word: &str,
) -> Option<Result<NodeId, Stop>>
    requires at { Standing p.old }
    requires allows_in { has_flag in_flag p.old.ctx ≡ true }
{
    match name {
        "parse_expr" => Some(parse_expr(p)),
        "parse_assignment_expression_or_higher" => Some(parse_assignment_expression_or_higher(p)),
        "parse_lhs_expression_or_higher" => Some(parse_lhs_expression_or_higher(p)),
        "parse_binding_pattern" => Some(parse_binding_pattern(p)),
        "parse_formal_parameters" => Some(parse_formal_parameters(p)),
        "parse_function_body" => Some(parse_function_body(p)),
        "parse_import_declaration" => Some(parse_import_declaration(p)),
        "parse_statement_list_item" => Some(parse_statement_list_item(p, context_of(word))),
        "parse_binary_expression_or_higher" => match precedence_of(word) {
            Some(least) => Some(parse_binary_expression_or_higher(p, least)),
            None => None,
        },
        _ => None,
    }
}

/// The precedence of a name, if there is one.
fn precedence_of(word: &str) -> Option<Precedence> {
    match word {
        "Comma" => Some(Precedence::Comma),
        "NullishCoalescing" => Some(Precedence::NullishCoalescing),
        "LogicalOr" => Some(Precedence::LogicalOr),
        "LogicalAnd" => Some(Precedence::LogicalAnd),
        "BitwiseOr" => Some(Precedence::BitwiseOr),
        "BitwiseXor" => Some(Precedence::BitwiseXor),
        "BitwiseAnd" => Some(Precedence::BitwiseAnd),
        "Equals" => Some(Precedence::Equals),
        "Compare" => Some(Precedence::Compare),
        "Shift" => Some(Precedence::Shift),
        "Add" => Some(Precedence::Add),
        "Multiply" => Some(Precedence::Multiply),
        "Exponentiation" => Some(Precedence::Exponentiation),
        _ => None,
    }
}

/// Where a statement stands: behind the head of an `if`, or in a list.
fn context_of(word: &str) -> StatementContext {
    match word {
        "If" => StatementContext::If,
        _ => StatementContext::StatementList,
    }
}

/// Puts what a call answered, and the name of the diagnostic that was kept last, if one was.
fn put_found(out: &mut Answer, p: &RuntimeParser<'_>, found: Result<Option<NodeId>, Stop>) {
    match found {
        Ok(Some(id)) => put_tree(out, &p.ast, id),
        Ok(None) => out.put("none"),
        Err(Stop::Fatal) => out.put("fatal"),
        Err(Stop::NoMemory) => out.fail(),
    }
    let count = p.errors.len();
    if count != 0 {
        out.put(" ");
        out.put(p.errors[count - 1].kind.name());
    }
}

/// Puts a node, and its children in parentheses, if it has any.
fn put_tree(out: &mut Answer, ast: &ParserAstBuilder, id: NodeId) {
    put_node(out, ast, Some(id));
    if !ast.contains(id) || ast.children(id).is_empty() {
        return;
    }
    let mut before = " (";
    for child in ast.children(id) {
        out.put(before);
        put_node(out, ast, *child);
        before = ", ";
    }
    out.put(")");
}

/// Puts the kind and the span of a node, if there is one.
fn put_node(out: &mut Answer, ast: &ParserAstBuilder, node: Option<NodeId>) {
    match node {
        Some(id) if ast.contains(id) => {
            out.put(ast.kind(id).name());
            out.put(" ");
            out.put_span(ast.span(id));
        }
        _ => out.put("-"),
    }
}
