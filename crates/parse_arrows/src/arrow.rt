//! Arrow functions (ECMA-262, sections 15.3 and 15.9).

ghost use Rattle.std.specs.Prelude.{true, false, ◌≡◌, ◌≤◌, ◌+◌, [], ◌∷◌, Some, length, MatchResult, IfOk, IsCharBoundary};
ghost use Rattle.parse_arrows.specs.Prelude.{ArgumentsTold, Arrow, arrow_function_expression, arrow_label, ArrowBehind, AsyncHeadBegins, AsyncListBegins, at, AttemptsHead, binding_identifier_kinds, CanNest, ChecksLine, EntersHead, FindsAsyncHead, HeadBehindAsync, HeadStands, IsHeadOf, IsNoTarget, kind_of, LooksForHead, LParen, MadeHere, NameHere, NamesHead, node_at, NoHeadHere, NoOperandHere, one_of_kinds, OnlyMemory, OperandExcluded, ReadsArrowBody, ReadsBody, ReadsHead, room, SearchesHead, SearchesList, SearchesPlainHead, Single, SlashFound, Standing, StandsHere, TriesArrow, TriesHead, TriesParameters, Unmoved};

use crate::closing::is_arrow_behind_one;
use crate::lookahead::is_parenthesized_head;
use crate::notes::{drop_nodes, is_arrow_noted, node_count, set_attempting};
use js_base::{Context, DiagnosticKind, Kind, NoMemory, Span};
use laws_operators::forms::{ArrowHead, HeadLookahead};
use laws_operators::patterns::Patterns;
use parse_primary::arguments::parse_call_arguments;
use parse_primary::function::function_flags;
use parse_primary::leaf::parse_name;
use parse_shared::context::{
    assignment_in_arrow, body_in_arrow, context, in_async_head, set_context,
};
use parse_shared::diagnostics::{diagnostic_at, kept_so_far};
use parse_shared::lexemes::{advance, name_stands, stands};
use parse_shared::nested::Nested;
use parse_shared::nodes::{make_one, make_with_optional};
use parse_shared::{NodeId, NodeKind, Op, ParserConfig, ParserImpl, Stop};

/// The head of an arrow function, where it stands here with `=>` behind it: a name, or a list in parentheses, and `async`
/// before either. None where no arrow function stands, and the parser is then where it was. `Fatal` where nothing but one
/// can stand.
pub fn parse_arrow_head<C: ParserConfig, N: Patterns<C>>(
    p: &mut ParserImpl<'_, C>,
    nested: &N,
) -> Result<Option<ArrowHead>, Stop>
    requires at { Standing p.old }
    requires nests { CanNest (N.can nested.now) (room p.old) }
    ensures { SearchesHead p.old p.new result }
{
    if let Some(parameters) = parse_async_head(p, nested)? {
        return Ok(Some(ArrowHead {
            is_async: true,
            parameters,
        }));
    }
    let found = parse_plain_head(p, nested)?;
    Ok(head_of(found, false))
}

/// These parameters as a head, behind `async` or not.
fn head_of(found: Option<NodeId>, is_async: bool) -> Option<ArrowHead>
    ensures { IsHeadOf is_async found result }
{
    match found {
        Some(parameters) => {
            Some(ArrowHead {
                is_async,
                parameters,
            })
        }
        None => None,
    }
}

/// An arrow function whose parameters stand in parentheses, behind `async` on their line or not (ECMA-262, sections 15.3
/// and 15.9). None where no such parameters stand here with `=>` behind them, on their line or on another; the parser is
/// then where it was. `Fatal` where none stands here and nothing else can.
pub fn try_parse_parenthesized_arrow_function_expression<C: ParserConfig, N: Patterns<C>>(
    p: &mut ParserImpl<'_, C>,
    nested: &N,
) -> Result<Option<NodeId>, Stop>
    requires at { Standing p.old }
    requires nests { CanNest (N.can nested.now) (room p.old) }
    ensures { TriesArrow p.old p.new result }
{
    let start = p.cur_start();
    let Some(head) = parse_list_head(p, nested)? else {
        return Ok(None);
    };
    let node = parse_arrow_function_expression(p, nested, start, head)?;
    Ok(Some(node))
}

/// The head of an arrow function whose parameters stand in parentheses.
fn parse_list_head<C: ParserConfig, N: Patterns<C>>(
    p: &mut ParserImpl<'_, C>,
    nested: &N,
) -> Result<Option<ArrowHead>, Stop>
    requires at { Standing p.old }
    requires nests { CanNest (N.can nested.now) (room p.old) }
    ensures { SearchesList p.old p.new result }
{
    if stands(p, Kind::LParen) {
        let found = parse_head_at_parenthesis(p, nested)?;
        return Ok(head_of(found, false));
    }
    if !begins_async_list(p)? {
        return Ok(None);
    }
    let found = parse_async_head(p, nested)?;
    Ok(head_of(found, true))
}

/// Whether `async` stands here, and `(` behind it.
fn begins_async_list<C: ParserConfig>(p: &mut ParserImpl<'_, C>) -> Result<bool, Stop>
    requires { Standing p.old }
    ensures { MatchResult result (λ found. AsyncListBegins p.old p.new found) OnlyMemory }
{
    if !stands(p, Kind::Async) {
        return Ok(false);
    }
    let next = p.peek_token()?;
    Ok(matches!(next.kind(), Kind::LParen))
}

/// The parameters of an arrow function without `async`, where they stand here with `=>` behind them.
fn parse_plain_head<C: ParserConfig, N: Patterns<C>>(
    p: &mut ParserImpl<'_, C>,
    nested: &N,
) -> Result<Option<NodeId>, Stop>
    requires at { Standing p.old }
    requires nests { CanNest (N.can nested.now) (room p.old) }
    ensures { SearchesPlainHead p.old p.new result }
{
    if name_stands(p) {
        let found = parse_name_head(p)?;
        return Ok(found);
    }
    if stands(p, Kind::LParen) {
        return parse_head_at_parenthesis(p, nested);
    }
    Ok(None)
}

/// The parameters of an asynchronous arrow function, where `async` stands here, they on its line, and `=>` behind them
/// (ECMA-262, section 15.9): an attempt, which is taken back where it fails.
fn parse_async_head<C: ParserConfig, N: Patterns<C>>(
    p: &mut ParserImpl<'_, C>,
    nested: &N,
) -> Result<Option<NodeId>, Stop>
    requires at { Standing p.old }
    requires nests { CanNest (N.can nested.now) (room p.old) }
    ensures { MatchResult result (λ found. FindsAsyncHead p.old p.new found) OnlyMemory }
{
    if !begins_async_head(p)? {
        return Ok(None);
    }
    let nodes = node_count(p);
    let here = p.checkpoint()?;
    advance(p)?;
    if let Some(parameters) = parse_head_behind_async(p, nested)? {
        return Ok(Some(parameters));
    }
    p.rewind(here);
    drop_nodes(p, nodes);
    Ok(None)
}

/// Whether `async` stands here, and a name or `(` behind it on its line.
fn begins_async_head<C: ParserConfig>(p: &mut ParserImpl<'_, C>) -> Result<bool, Stop>
    requires { Standing p.old }
    ensures { MatchResult result (λ found. AsyncHeadBegins p.old p.new found) OnlyMemory }
{
    if !stands(p, Kind::Async) {
        return Ok(false);
    }
    let next = p.peek_token()?;
    if next.is_on_new_line() {
        return Ok(false);
    }
    Ok(begins_parameters(next.kind()))
}

/// Whether it is a name or `(`.
fn begins_parameters(kind: Kind) -> bool
    ensures { result ≡ one_of_kinds (LParen ∷ binding_identifier_kinds) kind }
{
    match kind {
        Kind::LParen => true,
        _ => kind.is_binding_identifier(),
    }
}

/// The parameters of an asynchronous arrow function, behind its `async`. None: no asynchronous arrow function begins with
/// the word, and the parser is somewhere behind. What begins with a parenthesis may be the arguments of a call too, also
/// where `...` stands behind it.
fn parse_head_behind_async<C: ParserConfig, N: Patterns<C>>(
    p: &mut ParserImpl<'_, C>,
    nested: &N,
) -> Result<Option<NodeId>, Stop>
    requires at { Standing p.old }
    requires nests { CanNest (N.can nested.now) (room p.old) }
    ensures { MatchResult result (λ found. HeadBehindAsync p.old p.new found) OnlyMemory }
{
    if !stands(p, Kind::LParen) {
        return parse_name_behind_async(p);
    }
    match is_parenthesized_head(p)? {
        HeadLookahead::NoHead => Ok(None),
        _ => attempt_head(p, nested, true),
    }
}

/// A name as the only parameter of an asynchronous arrow function, where it stands here and `=>` behind it.
fn parse_name_behind_async<C: ParserConfig>(
    p: &mut ParserImpl<'_, C>,
) -> Result<Option<NodeId>, Stop>
    requires at { Standing p.old }
    requires no_list { StandsHere p.old LParen false }
    ensures { MatchResult result (λ found. HeadBehindAsync p.old p.new found) OnlyMemory }
{
    let outer = context(p);
    set_context(p, in_async_head(outer));
    if !name_stands(p) {
        set_context(p, outer);
        return Ok(None);
    }
    let found = parse_name_head(p)?;
    set_context(p, outer);
    Ok(found)
}

/// A name as the only parameter of an arrow function, where `=>` stands behind it.
fn parse_name_head<C: ParserConfig>(p: &mut ParserImpl<'_, C>) -> Result<Option<NodeId>, Stop>
    requires at { Standing p.old }
    requires name { NameHere p.old true }
    ensures { MatchResult result (λ found. NamesHead p.old p.new found) OnlyMemory }
{
    if !is_arrow_behind(p)? {
        return Ok(None);
    }
    let parameters = parse_single_parameter(p)?;
    Ok(Some(parameters))
}

/// Whether `=>` stands behind the current lexeme.
fn is_arrow_behind<C: ParserConfig>(p: &mut ParserImpl<'_, C>) -> Result<bool, Stop>
    requires { Standing p.old }
    ensures { MatchResult result (λ found. ArrowBehind p.old p.new found) OnlyMemory }
{
    let next = p.peek_token()?;
    Ok(matches!(next.kind(), Kind::Arrow))
}

/// A name as FormalParameters.
#[inline(never)]
fn parse_single_parameter<C: ParserConfig>(p: &mut ParserImpl<'_, C>) -> Result<NodeId, Stop>
    requires at { Standing p.old }
    requires name { NameHere p.old true }
    ensures { MatchResult result (λ id. Single p.old p.new id) OnlyMemory }
{
    let span = p.cur_token().span();
    let name = parse_name(p, NodeKind::BindingIdentifier)?;
    let parameter = make_with_optional(p, NodeKind::FormalParameter, span, name, None)?;
    let parameters = make_one(p, NodeKind::FormalParameters, Op::None, span, parameter)?;
    Ok(parameters)
}

/// FormalParameters in parentheses, where `=>` stands behind them.
fn parse_head_at_parenthesis<C: ParserConfig, N: Patterns<C>>(
    p: &mut ParserImpl<'_, C>,
    nested: &N,
) -> Result<Option<NodeId>, Stop>
    requires at { Standing p.old }
    requires nests { CanNest (N.can nested.now) (room p.old) }
    requires open { p.old.token.kind ≡ LParen }
    ensures { SearchesPlainHead p.old p.new result }
{
    match is_parenthesized_head(p)? {
        HeadLookahead::Head => find_certain_head(p, nested),
        HeadLookahead::Maybe => {
            let found = attempt_head(p, nested, false)?;
            Ok(found)
        }
        HeadLookahead::NoHead => Ok(None),
    }
}

/// FormalParameters in parentheses and `=>` behind them, where nothing else can stand. Never None.
fn find_certain_head<C: ParserConfig, N: Patterns<C>>(
    p: &mut ParserImpl<'_, C>,
    nested: &N,
) -> Result<Option<NodeId>, Stop>
    requires at { Standing p.old }
    requires nests { CanNest (N.can nested.now) (room p.old) }
    requires open { p.old.token.kind ≡ LParen }
    requires certain { NoOperandHere p.old }
    ensures { SearchesPlainHead p.old p.new result }
{
    let parameters = parse_certain_head(p, nested)?;
    Ok(Some(parameters))
}

/// FormalParameters in parentheses and `=>` behind them, where nothing else can stand: what stops them is final.
/// Reads: LooseHead.
#[inline(never)]
fn parse_certain_head<C: ParserConfig, N: Patterns<C>>(
    p: &mut ParserImpl<'_, C>,
    nested: &N,
) -> Result<NodeId, Stop>
    requires at { Standing p.old }
    requires nests { CanNest (N.can nested.now) (room p.old) }
    requires open { p.old.token.kind ≡ LParen }
    requires certain { NoOperandHere p.old }
    ensures { ReadsHead p.old p.new result }
{
    let parameters = nested.formal_parameters(p)?;
    if p.at(Kind::Arrow) {
        return Ok(parameters);
    }
    p.expect(Kind::Arrow)?;
    Ok(parameters)
}

/// FormalParameters in parentheses, behind `async` or not, where `=>` stands behind them and no operand stands: an attempt.
/// Where something was told of them that no operand stands is noted, so that it isn't looked up again when they are.
/// Reads: LooseHead.
#[inline(never)]
fn attempt_head<C: ParserConfig, N: Patterns<C>>(
    p: &mut ParserImpl<'_, C>,
    nested: &N,
    is_async: bool,
) -> Result<Option<NodeId>, Stop>
    requires at { Standing p.old }
    requires nests { CanNest (N.can nested.now) (room p.old) }
    requires open { p.old.token.kind ≡ LParen }
    ensures { MatchResult result (λ found. AttemptsHead is_async p.old p.new found) OnlyMemory }
{
    let place = p.prev_token_end();
    let kept = kept_so_far(p);
    let nodes = node_count(p);
    let here = p.checkpoint()?;
    if let Some(parameters) = attempt_parameters(p, nested, is_async)? {
        if excludes_operand(p, place, kept)? {
            if kept_so_far(p) != kept {
                p.note_operand_failed(place)?;
            }
            return Ok(Some(parameters));
        }
        let is_told = kept_so_far(p) != kept;
        p.rewind(here);
        drop_nodes(p, nodes);
        return attempt_head_again(p, nested, is_async, is_told);
    }
    Ok(None)
}

/// FormalParameters in parentheses, behind `async` or not, where `=>` stands behind them, whatever else may stand there. While
/// they are read a head is being attempted.
fn attempt_parameters<C: ParserConfig, N: Patterns<C>>(
    p: &mut ParserImpl<'_, C>,
    nested: &N,
    is_async: bool,
) -> Result<Option<NodeId>, Stop>
    requires at { Standing p.old }
    requires nests { CanNest (N.can nested.now) (room p.old) }
    requires open { p.old.token.kind ≡ LParen }
    ensures { MatchResult result (λ found. TriesHead is_async p.old p.new found) OnlyMemory }
{
    let outer = p.state.is_attempting();
    set_attempting(p, true);
    let found = try_parse_head(p, nested, is_async)?;
    set_attempting(p, outer);
    Ok(found)
}

/// The same, whether it is noted that a head is being attempted or not.
#[inline(always)]
fn try_parse_head<C: ParserConfig, N: Patterns<C>>(
    p: &mut ParserImpl<'_, C>,
    nested: &N,
    is_async: bool,
) -> Result<Option<NodeId>, Stop>
    requires at { Standing p.old }
    requires nests { CanNest (N.can nested.now) (room p.old) }
    requires open { p.old.token.kind ≡ LParen }
    ensures { MatchResult result (λ found. TriesHead is_async p.old p.new found) OnlyMemory }
{
    let outer = context(p);
    set_context(p, in_head(outer, is_async));
    let found = try_parse_parameters(p, nested)?;
    set_context(p, outer);
    Ok(found)
}

/// What is in force in the parameters of an arrow function, behind `async` or not.
fn in_head(outer: Context, is_async: bool) -> Context
    ensures { EntersHead is_async outer result }
{
    if is_async {
        return in_async_head(outer);
    }
    outer
}

/// FormalParameters in parentheses, where `=>` stands behind them. Where they don't, that is noted, and not tried again.
#[inline(always)]
fn try_parse_parameters<C: ParserConfig, N: Patterns<C>>(
    p: &mut ParserImpl<'_, C>,
    nested: &N,
) -> Result<Option<NodeId>, Stop>
    requires at { Standing p.old }
    requires nests { CanNest (N.can nested.now) (room p.old) }
    requires open { p.old.token.kind ≡ LParen }
    ensures { MatchResult result (λ found. TriesParameters p.old p.new found) OnlyMemory }
{
    let place = p.prev_token_end();
    if p.arrow_failed(place) {
        return Ok(None);
    }
    let nodes = node_count(p);
    let here = p.checkpoint()?;
    if let Some(parameters) = parse_parenthesized_head(p, nested)? {
        return Ok(Some(parameters));
    }
    p.rewind(here);
    drop_nodes(p, nodes);
    p.note_arrow_failed(place)?;
    Ok(None)
}

/// Whether no operand stands where a head was read from a place on, when so many diagnostics were kept. That is known where
/// it was looked for before, which is asked before the text is looked through, and where the parentheses that begin there
/// close before `=>`, which is looked up where something was told of the head. Else lexemes might be read otherwise from
/// that place, if a slash stands between, with which a regular expression may begin.
fn excludes_operand<C: ParserConfig>(
    p: &mut ParserImpl<'_, C>,
    place: u32,
    kept: usize,
) -> Result<bool, NoMemory>
    requires at { Standing p.old }
    requires between { IsCharBoundary p.old.text place }
    ensures { IfOk result (λ b. OperandExcluded place kept p.old p.new b) }
{
    if p.operand_failed(place) {
        return Ok(true);
    }
    if is_arrow_noted(p, place) {
        return Ok(true);
    }
    if kept_so_far(p) != kept {
        return is_arrow_behind_one(p, place);
    }
    Ok(!has_slash(p.source_text, place, p.cur_start()))
}

/// Whether a slash stands between two places.
fn has_slash(text: &str, start: u32, end: u32) -> bool
    requires { end ≤ length text.now }
    ensures { SlashFound text.now start end result }
{
    let bytes = text.as_bytes();
    'places: for place in start..end {
        if bytes[place as usize] == b'/' {
            return true;
        }
    }
    false
}

/// FormalParameters in parentheses, which were read with `=>` behind them, and of which something was told or not; where a
/// slash stands in them, or something was told and their parentheses aren't seen to close before `=>`. What stands here is
/// read as arguments first. Those are read over one list of lexemes alone, and an operand here begins with such; so if none
/// can be read, or `=>` stands behind them, no operand stands here, which is noted. Else no head does, for parameters of
/// which nothing is told are arguments over the same lexemes. Where something was told of them, no text is known that comes
/// here, nor is it proved that there is none; the answer then is want of memory.
#[inline(never)]
fn attempt_head_again<C: ParserConfig, N: Patterns<C>>(
    p: &mut ParserImpl<'_, C>,
    nested: &N,
    is_async: bool,
    is_told: bool,
) -> Result<Option<NodeId>, Stop>
    requires at { Standing p.old }
    requires nests { CanNest (N.can nested.now) (room p.old) }
    requires open { p.old.token.kind ≡ LParen }
    requires stood { is_told ≡ false → HeadStands is_async p.old }
    ensures { MatchResult result (λ found. AttemptsHead is_async p.old p.new found) OnlyMemory }
{
    let place = p.prev_token_end();
    let nodes = node_count(p);
    let here = p.checkpoint()?;
    let excluded = is_arrow_due(p, nested)?;
    p.rewind(here);
    drop_nodes(p, nodes);
    if !excluded {
        if is_told {
            return Err(Stop::NoMemory);
        }
        note_no_head(p, place, is_async)?;
        return Ok(None);
    }
    p.note_operand_failed(place)?;
    attempt_parameters(p, nested, is_async)
}

/// Notes that no parameters stand here with `=>` behind them, behind `async` or not.
fn note_no_head<C: ParserConfig>(
    p: &mut ParserImpl<'_, C>,
    place: u32,
    is_async: bool,
) -> Result<(), NoMemory>
    requires at { Standing p.old }
    requires place { place ≡ p.old.prev_token_end }
    requires none { NoHeadHere is_async p.old }
    ensures { IfOk result (λ _. Unmoved p.old p.new) }
{
    let outer = context(p);
    set_context(p, in_head(outer, is_async));
    p.note_arrow_failed(place)?;
    set_context(p, outer);
    Ok(())
}

/// Whether `=>` stands behind whatever can be read here as arguments, or nothing can. If not, they can be read, and `=>`
/// doesn't stand behind them.
fn is_arrow_due<C: ParserConfig, N: Nested<C>>(
    p: &mut ParserImpl<'_, C>,
    nested: &N,
) -> Result<bool, Stop>
    requires at { Standing p.old }
    requires nests { CanNest (N.can nested.now) (room p.old) }
    requires open { p.old.token.kind ≡ LParen }
    ensures { MatchResult result (λ due. ArgumentsTold p.old p.new due) OnlyMemory }
{
    let none = Vec::new(p.alloc);
    match parse_call_arguments(p, nested, true, none) {
        Ok(_arguments) => Ok(p.at(Kind::Arrow)),
        Err(Stop::Fatal) => Ok(true),
        Err(Stop::NoMemory) => Err(Stop::NoMemory),
    }
}

/// FormalParameters in parentheses, where they can be read and `=>` stands behind them, also where something is told of
/// them. None: no arrow function stands here, and the parser is somewhere behind.
#[inline(always)]
fn parse_parenthesized_head<C: ParserConfig, N: Patterns<C>>(
    p: &mut ParserImpl<'_, C>,
    nested: &N,
) -> Result<Option<NodeId>, Stop>
    requires at { Standing p.old }
    requires nests { CanNest (N.can nested.now) (room p.old) }
    requires open { p.old.token.kind ≡ LParen }
    ensures { MatchResult result (λ found. LooksForHead p.old p.new found) OnlyMemory }
{
    match nested.formal_parameters(p) {
        Ok(parameters) => {
            if p.at(Kind::Arrow) {
                Ok(Some(parameters))
            } else {
                Ok(None)
            }
        }
        Err(Stop::Fatal) => Ok(None),
        Err(Stop::NoMemory) => Err(Stop::NoMemory),
    }
}

/// An arrow function, whose head was read from a place on (ECMA-262, sections 15.3 and 15.9), or parentheses in its place,
/// of which something was told.
/// Reads: Arrow'.
#[inline(never)]
pub fn parse_arrow_function_expression<C: ParserConfig, N: Nested<C>>(
    p: &mut ParserImpl<'_, C>,
    nested: &N,
    start: u32,
    head: ArrowHead,
) -> Result<NodeId, Stop>
    requires at { Standing p.old }
    requires nests { CanNest (N.can nested.now) (room p.old) }
    requires start { start ≤ p.old.prev_token_end }
    requires arrow { p.old.token.kind ≡ Arrow }
    ensures answers { ReadsBody start head p.old p.new result }
    ensures node { IfOk result (λ id. IsNoTarget p.new id) }
    ensures kind { IfOk result (λ id. kind_of (node_at p.new.nodes id).kind ≡ arrow_function_expression) }
{
    check_line(p)?;
    advance(p)?;
    let body = parse_arrow_body(p, nested, head.is_async)?;
    let span = p.end_span(start);
    let node = make_arrow_function(p, span, head, body)?;
    Ok(node)
}

/// The node of an arrow function.
fn make_arrow_function<C: ParserConfig>(
    p: &mut ParserImpl<'_, C>,
    span: Span,
    head: ArrowHead,
    body: NodeId,
) -> Result<NodeId, NoMemory>
    ensures { IfOk result (λ id. MadeHere (arrow_label head.is_async span) (Some head.parameters ∷ Some body ∷ []) p.old p.new id) }
{
    let kind = NodeKind::ArrowFunctionExpression;
    let flags = function_flags(head.is_async, false);
    let parameters = Some(head.parameters);
    p.ast
        .node_of_two(kind, span, Op::None, flags, parameters, Some(body))
}

/// The body of an arrow function (ECMA-262, sections 15.3 and 15.9): in braces, or an expression.
fn parse_arrow_body<C: ParserConfig, N: Nested<C>>(
    p: &mut ParserImpl<'_, C>,
    nested: &N,
    is_async: bool,
) -> Result<NodeId, Stop>
    requires at { Standing p.old }
    requires nests { CanNest (N.can nested.now) (room p.old + 1) }
    ensures { ReadsArrowBody is_async p.old p.new result }
{
    if p.at(Kind::LCurly) {
        return body_in_arrow(p, nested, is_async);
    }
    assignment_in_arrow(p, nested, is_async)
}

/// Tells of `=>` on a new line.
#[inline(never)]
fn check_line<C: ParserConfig>(p: &mut ParserImpl<'_, C>) -> Result<(), NoMemory>
    requires at { Standing p.old }
    requires arrow { p.old.token.kind ≡ Arrow }
    ensures { IfOk result (λ _. ChecksLine p.old p.new) }
{
    if p.cur_token().is_on_new_line() {
        let arrow = p.cur_token().span();
        p.error(diagnostic_at(DiagnosticKind::LineterminatorBeforeArrow, arrow))?;
    }
    Ok(())
}
