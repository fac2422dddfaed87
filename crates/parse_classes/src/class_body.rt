//! Class bodies (ECMA-262, section 15.7).

ghost use Rattle.std.specs.Prelude.{◌≡◌, ◌+◌, ◌<◌, ◌↔◌, IsTrue, length, MatchResult};
ghost use Rattle.parse_classes.specs.Prelude.{AllElements, Answers, at, Block, CanNest, ClassBody, ends_list, node_at, NoElements, ReadsElement, room, Standing, StaticBlock};

use crate::element::parse_class_element;
use js_base::{DiagnosticKind, Kind};
use parse_members::decorated::{decorate, parse_decorators};
use parse_shared::diagnostics::diagnostic_at;
use parse_shared::lexemes::advance;
use parse_shared::nodes::make_list;
use parse_shared::{NodeId, NodeKind, Op, ParserConfig, ParserImpl, Stop};
use parse_statements::sequences::Sequences;

/// A ClassBody in its braces (ECMA-262, section 15.7).
/// Reads: ClassBody.
pub fn parse_class_body<C: ParserConfig, N: Sequences<C>>(
    p: &mut ParserImpl<'_, C>,
    nested: &N,
) -> Result<NodeId, Stop>
    requires at { Standing p.old }
    requires nests { CanNest (N.can nested.now) (room p.old) }
    ensures { Answers (at ClassBody) p.old p.new result }
{
    let start = p.cur_start();
    let opening = p.cur_token().span();
    p.expect(Kind::LCurly)?;
    let elements = parse_elements(p, nested)?;
    p.expect_closing(Kind::RCurly, opening)?;
    let span = p.end_span(start);
    let node = make_list(p, NodeKind::ClassBody, Op::None, span, elements)?;
    Ok(node)
}

/// The elements of a class up to its closing brace, or as far as the text's end, or to where no lexeme stands. Semicolons
/// alone are passed.
fn parse_elements<C: ParserConfig, N: Sequences<C>>(
    p: &mut ParserImpl<'_, C>,
    nested: &N,
) -> Result<Vec<Option<NodeId>>, Stop>
    requires at { Standing p.old }
    requires nests { CanNest (N.can nested.now) (room p.old + 1) }
    ensures { MatchResult result (λ v. AllElements p.old p.new v.items) (λ e. NoElements p.old p.new e) }
{
    let mut elements = Vec::new(p.alloc);
    'elements: while !ends_class(p.cur_kind()) {
        if p.at(Kind::Semicolon) {
            advance(p)?;
        } else {
            let element = parse_element(p, nested)?;
            elements.push(Some(element))?;
        }
    }
    Ok(elements)
}

/// Whether such a lexeme closes a class, or none is left.
fn ends_class(kind: Kind) -> bool
    ensures { result ≡ ends_list Block kind }
{
    matches!(kind, Kind::RCurly | Kind::Eof | Kind::Undetermined)
}

/// A ClassElement, with decorators before it or none (ECMA-262, section 15.7, and the proposal Decorators). None may stand
/// before a static block: that is told, and reading goes on.
fn parse_element<C: ParserConfig, N: Sequences<C>>(
    p: &mut ParserImpl<'_, C>,
    nested: &N,
) -> Result<NodeId, Stop>
    requires at { Standing p.old }
    requires nests { CanNest (N.can nested.now) (room p.old + 1) }
    ensures { ReadsElement p.old p.new result }
{
    if !p.at(Kind::At) {
        return parse_class_element(p, nested);
    }
    let start = p.cur_start();
    let decorators = parse_decorators(p, nested)?;
    let span = p.end_span(start);
    let element = parse_class_element(p, nested)?;
    if is_static_block(p, element) {
        p.error(diagnostic_at(DiagnosticKind::DecoratorsAreNotValidHere, span))?;
        return Ok(element);
    }
    let node = decorate(p, start, element, decorators)?;
    Ok(node)
}

/// Whether the node is that of a static block.
fn is_static_block<C: ParserConfig>(p: &ParserImpl<'_, C>, id: NodeId) -> bool
    requires { id.0 < length p.now.nodes }
    ensures { IsTrue result ↔ ((node_at p.now.nodes id).kind ≡ StaticBlock) }
{
    matches!(p.ast.kind(id), NodeKind::StaticBlock)
}
