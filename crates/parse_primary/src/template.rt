//! Templates, and tagged ones (ECMA-262, sections 13.2.8, 13.3.11); behind an optional chain none may stand (13.3.1.1).

ghost use Rattle.std.specs.Prelude.{◌≡◌, ◌≤◌, [], true, IfOk, MatchResult};
ghost use Rattle.parse_primary.specs.Prelude.{Answers, at, BeginsPart, CanNest, element_label, heads, inside_end, inside_fits, last_parts, MadeHere, one_of_kinds, OnlyMemory, Primary, ReadsTagged, room, Standing, StandingPart, TagsTemplate, TakesPart, TakesTemplate, TellsTemplate};
ghost use Rattle.std.specs.Prelude.{◌+◌};

use js_base::{DiagnosticKind, Kind, NoMemory, Span, Token};
use laws_primary::forms::PassedPart;
use parse_shared::context::expression_with_in;
use parse_shared::diagnostics::diagnostic_at;
use parse_shared::nested::Nested;
use parse_shared::nodes::{make_list, make_two};
use parse_shared::{NodeFlags, NodeId, NodeKind, Op, ParserConfig, ParserImpl, Stop};

/// Whether a template begins with this.
pub fn begins_template(kind: Kind) -> bool
    ensures { result ≡ one_of_kinds heads kind }
{
    matches!(kind, Kind::NoSubstitutionTemplate | Kind::TemplateHead)
}

/// A TemplateLiteral as a PrimaryExpression.
#[inline(never)]
pub fn parse_template<C: ParserConfig, N: Nested<C>>(
    p: &mut ParserImpl<'_, C>,
    nested: &N,
) -> Result<NodeId, Stop>
    requires at { Standing p.old }
    requires nests { CanNest (N.can nested.now) (room p.old) }
    requires template { one_of_kinds heads p.old.token.kind ≡ true }
    ensures { Answers (at Primary) p.old p.new result }
{
    parse_template_literal(p, nested)
}

/// The template behind a member or a call, and the node of both.
#[inline(never)]
pub fn parse_tagged_template<C: ParserConfig, N: Nested<C>>(
    p: &mut ParserImpl<'_, C>,
    nested: &N,
    start: u32,
    tag: NodeId,
) -> Result<NodeId, Stop>
    requires at { Standing p.old }
    requires nests { CanNest (N.can nested.now) (room p.old) }
    requires start { start ≤ p.old.prev_token_end }
    requires template { one_of_kinds heads p.old.token.kind ≡ true }
    ensures { ReadsTagged start tag p.old p.new result }
{
    let template = parse_template_literal(p, nested)?;
    let span = p.end_span(start);
    let kind = NodeKind::TaggedTemplateExpression;
    let node = make_two(p, kind, Op::None, span, tag, template)?;
    Ok(node)
}

/// The template behind what was read of an optional chain: it is told of, from its first to its last backquote, and
/// reading goes on behind it.
#[inline(never)]
pub fn parse_chained_template<C: ParserConfig, N: Nested<C>>(
    p: &mut ParserImpl<'_, C>,
    nested: &N,
    start: u32,
    tag: NodeId,
) -> Result<NodeId, Stop>
    requires at { Standing p.old }
    requires nests { CanNest (N.can nested.now) (room p.old) }
    requires start { start ≤ p.old.prev_token_end }
    requires template { one_of_kinds heads p.old.token.kind ≡ true }
    ensures read { TagsTemplate start tag p.old p.new result }
    ensures told { IfOk result (λ _. TellsTemplate p.old p.new) }
{
    let opening = p.cur_start();
    let template = parse_template_literal(p, nested)?;
    let quoted = p.end_span(opening);
    p.error(diagnostic_at(DiagnosticKind::OptionalChainTaggedTemplate, quoted))?;
    let span = p.end_span(start);
    let kind = NodeKind::TaggedTemplateExpression;
    let node = make_two(p, kind, Op::None, span, tag, template)?;
    Ok(node)
}

/// A TemplateLiteral (ECMA-262, section 13.2.8): its parts, and an Expression behind each but the last.
/// Reads: Template.
fn parse_template_literal<C: ParserConfig, N: Nested<C>>(
    p: &mut ParserImpl<'_, C>,
    nested: &N,
) -> Result<NodeId, Stop>
    requires at { Standing p.old }
    requires nests { CanNest (N.can nested.now) (room p.old) }
    requires template { one_of_kinds heads p.old.token.kind ≡ true }
    ensures { TakesTemplate p.old p.new result }
{
    let start = p.cur_start();
    let mut children = Vec::new(p.alloc);
    let mut part = pass_part(p)?;
    children.push(Some(part.element))?;
    'parts: while !part.is_last {
        let expression = expression_with_in(p, nested)?;
        children.push(Some(expression))?;
        re_lex_part(p)?;
        part = pass_part(p)?;
        children.push(Some(part.element))?;
    }
    let span = p.end_span(start);
    let node = make_list(p, NodeKind::TemplateLiteral, Op::None, span, children)?;
    Ok(node)
}

/// Reads the `}` that stands here again, as the beginning of a template part. Gives up where none stands, or nothing
/// ends the part.
fn re_lex_part<C: ParserConfig>(p: &mut ParserImpl<'_, C>) -> Result<(), Stop>
    requires at { Standing p.old }
    ensures { BeginsPart p.old p.new result }
{
    if !p.at(Kind::RCurly) {
        return Err(p.set_unexpected());
    }
    p.re_lex_template_tail()?;
    if p.at(Kind::Undetermined) {
        return Err(p.set_unexpected());
    }
    Ok(())
}

/// Moves on over the template part that stands here, and makes its TemplateElement.
fn pass_part<C: ParserConfig>(p: &mut ParserImpl<'_, C>) -> Result<PassedPart, Stop>
    requires at { StandingPart p.old }
    ensures { MatchResult result (λ part. TakesPart part p.old p.new) OnlyMemory }
{
    let token = p.cur_token();
    let is_last = is_last_part(token.kind());
    let span = inside(token);
    p.bump_any()?;
    let element = make_element(p, span, is_last)?;
    Ok(PassedPart { element, is_last })
}

/// Whether no other part stands behind it.
fn is_last_part(kind: Kind) -> bool
    ensures { result ≡ one_of_kinds last_parts kind }
{
    matches!(kind, Kind::NoSubstitutionTemplate | Kind::TemplateTail)
}

/// What stands between the delimiters of a part: behind the backquote or `}`, before `${` or the backquote.
fn inside(part: Token) -> Span
    requires { inside_fits part }
    ensures start { result.start ≡ part.span.start + 1 }
    ensures end { result.end ≡ inside_end part }
{
    let closing = if is_last_part(part.kind()) { 1 } else { 2 };
    Span::new(part.start() + 1, part.end() - closing)
}

/// The node of a part.
fn make_element<C: ParserConfig>(
    p: &mut ParserImpl<'_, C>,
    span: Span,
    is_last: bool,
) -> Result<NodeId, NoMemory>
    ensures { IfOk result (λ id. MadeHere (element_label is_last span) [] p.old p.new id) }
{
    let mut flags = NodeFlags::default();
    flags.tail = is_last;
    p.ast
        .leaf(NodeKind::TemplateElement, span, Op::None, flags, None)
}
