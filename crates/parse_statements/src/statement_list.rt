//! Directives and statements, one behind the other, and what stands in braces (ECMA-262, sections 11.2.1, 14.2, 14.12, 15.2
//! and 16.1).

ghost use Rattle.std.specs.Prelude.{◌≡◌, ◌<◌, ◌+◌, ◌↔◌, IsTrue, true, false, cond, length, MatchResult};
ghost use Rattle.parse_statements.specs.Prelude.{AllRefused, AllTaken, at, CanNest, Directive, DirectivesTaken, ends_at, ends_list, ExpressionStatement, has_directives, has_flag, in_flag, is_textual, item_of, node_at, OpeningRefused, OpeningTaken, room, Standing, Str, StringLiteral, TakesStatement};

use js_base::Kind;
use parse_control::forms::StatementList;
use parse_control::sequences::Sequences;
use parse_shared::nodes::make_one;
use parse_shared::semicolon::end_statement;
use parse_shared::{NodeId, NodeKind, Op, ParserConfig, ParserImpl, Stop};

/// The directives and the statements of a list, up to what ends it; or as far as the text's end, or to where a statement may
/// begin and no lexeme stands.
pub fn parse_directives_and_statements<C: ParserConfig, N: Sequences<C>>(
    p: &mut ParserImpl<'_, C>,
    nested: &N,
    list: StatementList,
) -> Result<Vec<Option<NodeId>>, Stop>
    requires at { Standing p.old }
    requires nests { CanNest (N.can nested.now) (room p.old + 1) }
    requires allows_in { has_flag in_flag p.old.ctx ≡ true }
    ensures { MatchResult result (λ v. AllTaken list p.old p.new v.items) (λ e. AllRefused list p.old p.new e) }
{
    let mut items = parse_directives(p, nested, list)?;
    'statements: while !at_last(p, list) {
        let item = parse_item(p, nested, list)?;
        items.push(Some(item))?;
    }
    Ok(items)
}

/// An item of the list.
fn parse_item<C: ParserConfig, N: Sequences<C>>(
    p: &mut ParserImpl<'_, C>,
    nested: &N,
    list: StatementList,
) -> Result<NodeId, Stop>
    requires at { Standing p.old }
    requires nests { CanNest (N.can nested.now) (room p.old + 1) }
    requires allows_in { has_flag in_flag p.old.ctx ≡ true }
    ensures { TakesStatement (at (item_of list)) p.old p.new result }
{
    match list {
        StatementList::Text => nested.item(p),
        _ => nested.list_item(p),
    }
}

/// Whether what ends the list stands here, or the text's end, or no lexeme.
fn at_last<C: ParserConfig>(p: &ParserImpl<'_, C>, list: StatementList) -> bool
    ensures { result ≡ ends_list list p.now.token.kind }
{
    let kind = p.cur_kind();
    list.ends_at(kind) || matches!(kind, Kind::Eof | Kind::Undetermined)
}

/// Directives, as long as a string alone is a statement; and a statement that begins with a string and is none. A Block has no
/// directives, nor has a clause.
fn parse_directives<C: ParserConfig, N: Sequences<C>>(
    p: &mut ParserImpl<'_, C>,
    nested: &N,
    list: StatementList,
) -> Result<Vec<Option<NodeId>>, Stop>
    requires at { Standing p.old }
    requires nests { CanNest (N.can nested.now) (room p.old + 1) }
    requires allows_in { has_flag in_flag p.old.ctx ≡ true }
    ensures { MatchResult result (λ v. DirectivesTaken list p.old p.new v.items) (λ e. AllRefused list p.old p.new e) }
{
    let mut items = Vec::new(p.alloc);
    if !list.has_directives() {
        return Ok(items);
    }
    'directives: while p.at(Kind::Str) {
        let (item, is_directive) = parse_opening(p, nested)?;
        items.push(Some(item))?;
        if !is_directive {
            return Ok(items);
        }
    }
    Ok(items)
}

/// A statement that begins with a string: a Directive if that is all of it, and whether it is one.
/// Reads: Directive.
fn parse_opening<C: ParserConfig, N: Sequences<C>>(
    p: &mut ParserImpl<'_, C>,
    nested: &N,
) -> Result<(NodeId, bool), Stop>
    requires at { Standing p.old }
    requires nests { CanNest (N.can nested.now) (room p.old) }
    requires allows_in { has_flag in_flag p.old.ctx ≡ true }
    requires string { p.old.token.kind ≡ Str }
    ensures { MatchResult result (λ r. OpeningTaken p.old p.new r.0 r.1) (λ e. OpeningRefused p.old p.new e) }
{
    let start = p.cur_start();
    let expression = nested.sequence(p)?;
    end_statement(p)?;
    let span = p.end_span(start);
    let is_directive = is_string(p, expression);
    let kind = opening_kind(is_directive);
    let node = make_one(p, kind, Op::None, span, expression)?;
    Ok((node, is_directive))
}

/// The node of a statement that begins with a string.
fn opening_kind(is_directive: bool) -> NodeKind
    ensures kind { result ≡ cond is_directive Directive ExpressionStatement }
    ensures plain { is_textual result ≡ false }
{
    if is_directive {
        NodeKind::Directive
    } else {
        NodeKind::ExpressionStatement
    }
}

/// Whether the node is a string.
fn is_string<C: ParserConfig>(p: &ParserImpl<'_, C>, id: NodeId) -> bool
    requires { id.0 < length p.now.nodes }
    ensures { IsTrue result ↔ ((node_at p.now.nodes id).kind ≡ StringLiteral) }
{
    matches!(p.ast.kind(id), NodeKind::StringLiteral)
}
