//! Members, `new`, calls and optional chains (ECMA-262, section 13.3).

ghost use Rattle.std.specs.Prelude.{◌≡◌, ◌≤◌, ◌∷◌, [], Some, IfOk, cond, true, false};
ghost use Rattle.parse_members.specs.Prelude.{Answers, at, CallsMember, CanNest, ChainsCallee, Dot, flagged_label, GivesUp, goal, GoesOn, GoesOnCall, GoesOnMember, Heads, is_textual, LBrack, LeftHandSide, LinkHere, LParen, MadeHere, MakesWithArguments, MakesWithIndex, MakesWithName, Mark, member_name_kinds, no_link_behind, number_of, one_of_kinds, optional_flag, QuestionDot, ReadsCallee, ReadsChainLink, ReadsLink, room, Standing, StandsHere, TellsChain};
ghost use Rattle.parse_primary.specs.laws_primary.Members as members;
ghost use Rattle.parse_primary.specs.laws_primary.declared.forms.LinkBase.TheVariants as base;

use crate::import_word::{parse_import_callee, parse_import_member};
use crate::new_target::parse_new_target;
use crate::primary::parse_primary_expression;
use crate::super_word::{check_new_callee, is_super_alone, parse_super_member};
use js_base::{DiagnosticKind, Kind, NoMemory, Span};
use parse_primary::arguments::parse_call_arguments;
use parse_primary::forms::LinkBase;
use parse_primary::leaf::{parse_identifier_name, parse_private_name};
use parse_primary::template::{begins_template, parse_chained_template, parse_tagged_template};
use parse_shared::context::expression_with_in;
use parse_shared::diagnostics::diagnostic_at;
use parse_shared::lexemes::{advance, stands};
use parse_shared::nested::Nested;
use parse_shared::nodes::make_one;
use parse_shared::{NodeFlags, NodeId, NodeKind, Op, ParserConfig, ParserImpl, Stop};

/// A LeftHandSideExpression (ECMA-262, section 13.3).
/// Reads: LeftHandSide.
pub fn parse_lhs_expression_or_higher<C: ParserConfig, N: Nested<C>>(
    p: &mut ParserImpl<'_, C>,
    nested: &N,
) -> Result<NodeId, Stop>
    requires at { Standing p.old }
    requires nests { CanNest (N.can nested.now) (room p.old) }
    ensures { Answers (at LeftHandSide) p.old p.new result }
{
    let start = p.cur_start();
    let callee = parse_callee(p, nested)?;
    parse_optional_chain(p, nested, start, callee)
}

/// What an optional chain may stand behind: a MemberExpression, a NewExpression or a CallExpression.
fn parse_callee<C: ParserConfig, N: Nested<C>>(
    p: &mut ParserImpl<'_, C>,
    nested: &N,
) -> Result<NodeId, Stop>
    requires at { Standing p.old }
    requires nests { CanNest (N.can nested.now) (room p.old) }
    ensures { ReadsCallee p.old p.new result }
{
    if stands(p, Kind::Import) {
        return parse_import_callee(p, nested);
    }
    let start = p.cur_start();
    let member = parse_member_expression_or_higher(p, nested)?;
    parse_call_expression_rest(p, nested, start, member)
}

/// A MemberExpression, or a NewExpression that is none.
/// Reads: Member, New.
fn parse_member_expression_or_higher<C: ParserConfig, N: Nested<C>>(
    p: &mut ParserImpl<'_, C>,
    nested: &N,
) -> Result<NodeId, Stop>
    requires at { Standing p.old }
    requires nests { CanNest (N.can nested.now) (room p.old) }
    ensures { Heads p.old p.new result }
{
    let start = p.cur_start();
    if stands(p, Kind::New) {
        advance(p)?;
        if stands(p, Kind::Dot) {
            let target = parse_new_target(p, start)?;
            return parse_member_expression_rest(p, nested, start, target);
        }
        let callee_start = p.cur_start();
        let begins_super = stands(p, Kind::Super);
        p.enter(1)?;
        let callee = parse_member_expression_or_higher(p, nested)?;
        p.leave(1);
        if stands(p, Kind::QuestionDot) {
            return Err(refuse_chain(p));
        }
        let super_alone = is_super_alone(p, begins_super, callee);
        if stands(p, Kind::LParen) {
            let kind = NodeKind::NewExpression;
            let node = parse_with_arguments(p, nested, start, kind, false, callee)?;
            check_new_callee(p, super_alone, callee_start)?;
            return parse_member_expression_rest(p, nested, start, node);
        }
        let span = p.end_span(start);
        let node = make_one(p, NodeKind::NewExpression, Op::None, span, callee)?;
        check_new_callee(p, super_alone, callee_start)?;
        return Ok(node);
    }
    if stands(p, Kind::Super) {
        return parse_super_member(p, nested);
    }
    if stands(p, Kind::Import) {
        return parse_import_member(p, nested);
    }
    let primary = parse_primary_expression(p, nested)?;
    parse_member_expression_rest(p, nested, start, primary)
}

/// Gives up at a `?.` behind what `new` stands before.
#[inline(never)]
fn refuse_chain<C: ParserConfig>(p: &mut ParserImpl<'_, C>) -> Stop
    requires at { Standing p.old }
    requires sign { StandsHere p.old QuestionDot true }
    ensures { GivesUp (TellsChain p.old.token.span) p.old p.new result }
{
    let sign = p.cur_token().span();
    p.set_fatal_error(diagnostic_at(DiagnosticKind::InvalidNewOptionalChain, sign))
}

/// The names, the expressions in brackets and the templates behind a member.
pub(crate) fn parse_member_expression_rest<C: ParserConfig, N: Nested<C>>(
    p: &mut ParserImpl<'_, C>,
    nested: &N,
    start: u32,
    member: NodeId,
) -> Result<NodeId, Stop>
    requires at { Standing p.old }
    requires nests { CanNest (N.can nested.now) (room p.old) }
    requires start { start ≤ p.old.prev_token_end }
    ensures { GoesOnMember start member p.old p.new result }
{
    let mut left = member;
    'links: while goes_on(p, LinkBase::Member) {
        if begins_template(p.cur_kind()) {
            left = parse_tagged_template(p, nested, start, left)?;
        } else {
            left = parse_link(p, nested, start, left)?;
        }
    }
    Ok(left)
}

/// The calls behind a member, where one stands, and the names, expressions in brackets and templates behind them.
/// Reads: Call.
pub(crate) fn parse_call_expression_rest<C: ParserConfig, N: Nested<C>>(
    p: &mut ParserImpl<'_, C>,
    nested: &N,
    start: u32,
    member: NodeId,
) -> Result<NodeId, Stop>
    requires at { Standing p.old }
    requires nests { CanNest (N.can nested.now) (room p.old) }
    requires start { start ≤ p.old.prev_token_end }
    ensures { CallsMember start member p.old p.new result }
{
    if !stands(p, Kind::LParen) {
        return Ok(member);
    }
    let call = parse_link(p, nested, start, member)?;
    parse_call_links(p, nested, start, call)
}

/// The arguments, names, expressions in brackets and templates behind a call.
pub(crate) fn parse_call_links<C: ParserConfig, N: Nested<C>>(
    p: &mut ParserImpl<'_, C>,
    nested: &N,
    start: u32,
    call: NodeId,
) -> Result<NodeId, Stop>
    requires at { Standing p.old }
    requires nests { CanNest (N.can nested.now) (room p.old) }
    requires start { start ≤ p.old.prev_token_end }
    ensures { GoesOnCall start call p.old p.new result }
{
    let mut left = call;
    'links: while goes_on(p, LinkBase::Call) {
        if begins_template(p.cur_kind()) {
            left = parse_tagged_template(p, nested, start, left)?;
        } else {
            left = parse_link(p, nested, start, left)?;
        }
    }
    Ok(left)
}

/// The optional chain behind a callee, where one stands.
/// Reads: Chain.
fn parse_optional_chain<C: ParserConfig, N: Nested<C>>(
    p: &mut ParserImpl<'_, C>,
    nested: &N,
    start: u32,
    callee: NodeId,
) -> Result<NodeId, Stop>
    requires at { Standing p.old }
    requires nests { CanNest (N.can nested.now) (room p.old) }
    requires start { start ≤ p.old.prev_token_end }
    ensures { ChainsCallee start callee p.old p.new result }
{
    if !stands(p, Kind::QuestionDot) {
        return Ok(callee);
    }
    let mut left = parse_optional_link(p, nested, start, callee)?;
    'links: while goes_on(p, LinkBase::Chain) {
        left = parse_chain_link(p, nested, start, left)?;
    }
    let span = p.end_span(start);
    let chain = make_one(p, NodeKind::ChainExpression, Op::None, span, left)?;
    Ok(chain)
}

/// Whether a link stands here that goes on with such a base.
pub(crate) fn link_here<C: ParserConfig>(p: &ParserImpl<'_, C>, base: LinkBase) -> bool
    ensures { LinkHere p.now base result }
{
    if stands(p, Kind::Dot) {
        return true;
    }
    if stands(p, Kind::LBrack) {
        return true;
    }
    match base {
        LinkBase::Member => false,
        LinkBase::Call => stands(p, Kind::LParen),
        LinkBase::Chain => {
            if stands(p, Kind::LParen) {
                return true;
            }
            stands(p, Kind::QuestionDot)
        }
    }
}

/// Whether such a base goes on here: with a link, or with a template, which may not stand behind an optional chain.
fn goes_on<C: ParserConfig>(p: &ParserImpl<'_, C>, base: LinkBase) -> bool
    ensures { GoesOn base p.now result }
{
    if begins_template(p.cur_kind()) {
        return true;
    }
    link_here(p, base)
}

/// The link of an optional chain that stands here, behind what was read; or a template, of which is told that it stands
/// there (ECMA-262, section 13.3.1.1).
/// Reads: Links.
#[inline(never)]
fn parse_chain_link<C: ParserConfig, N: Nested<C>>(
    p: &mut ParserImpl<'_, C>,
    nested: &N,
    start: u32,
    left: NodeId,
) -> Result<NodeId, Stop>
    requires at { Standing p.old }
    requires nests { CanNest (N.can nested.now) (room p.old) }
    requires start { start ≤ p.old.prev_token_end }
    requires link { GoesOn base.Chain p.old true }
    ensures { ReadsChainLink start left p.old p.new result }
{
    if begins_template(p.cur_kind()) {
        return parse_chained_template(p, nested, start, left);
    }
    if stands(p, Kind::QuestionDot) {
        return parse_optional_link(p, nested, start, left);
    }
    parse_link(p, nested, start, left)
}

/// The link without `?.` that stands here, behind what was read.
#[inline(never)]
pub(crate) fn parse_link<C: ParserConfig, N: Nested<C>>(
    p: &mut ParserImpl<'_, C>,
    nested: &N,
    start: u32,
    left: NodeId,
) -> Result<NodeId, Stop>
    requires at { Standing p.old }
    requires nests { CanNest (N.can nested.now) (room p.old) }
    requires start { start ≤ p.old.prev_token_end }
    requires link { LinkHere p.old base.Call true }
    ensures { ReadsLink start left p.old p.new result }
{
    if stands(p, Kind::LParen) {
        return parse_with_arguments(p, nested, start, NodeKind::CallExpression, false, left);
    }
    if stands(p, Kind::LBrack) {
        return parse_with_index(p, nested, start, false, left);
    }
    parse_named_link(p, start, left)
}

/// `?.` and arguments, an expression in brackets or a name, behind what was read; or a template, of which is told that it
/// stands there (ECMA-262, section 13.3.1.1).
#[inline(never)]
fn parse_optional_link<C: ParserConfig, N: Nested<C>>(
    p: &mut ParserImpl<'_, C>,
    nested: &N,
    start: u32,
    left: NodeId,
) -> Result<NodeId, Stop>
    requires at { Standing p.old }
    requires nests { CanNest (N.can nested.now) (room p.old) }
    requires start { start ≤ p.old.prev_token_end }
    requires sign { StandsHere p.old QuestionDot true }
    ensures { ReadsChainLink start left p.old p.new result }
{
    let sign = p.cur_token().span();
    advance(p)?;
    if stands(p, Kind::LParen) {
        return parse_with_arguments(p, nested, start, NodeKind::CallExpression, true, left);
    }
    if stands(p, Kind::LBrack) {
        return parse_with_index(p, nested, start, true, left);
    }
    if begins_template(p.cur_kind()) {
        return parse_chained_template(p, nested, start, left);
    }
    if lacks_link(p.cur_kind()) {
        return Err(refuse_optional_link(p, sign));
    }
    parse_member_name(p, start, true, left)
}

/// Whether no optional link goes on with this behind its `?.`: it is no word and no private name, begins no arguments, no
/// brackets and no template, and is a lexeme.
fn lacks_link(kind: Kind) -> bool
    ensures { result ≡ true → one_of_kinds member_name_kinds kind ≡ false }
{
    !kind.is_identifier_name()
        && !matches!(
            kind,
            Kind::PrivateIdentifier
                | Kind::LParen
                | Kind::LBrack
                | Kind::NoSubstitutionTemplate
                | Kind::TemplateHead
                | Kind::Undetermined
        )
}

/// Gives up behind a `?.` that stood at a span, where no link goes on with what stands here.
#[inline(never)]
fn refuse_optional_link<C: ParserConfig>(p: &mut ParserImpl<'_, C>, sign: Span) -> Stop
    requires at { Standing p.old }
    requires mark { Mark (goal p.old) p.old.text (no_link_behind sign) }
    ensures { GivesUp (λ d. d ≡ no_link_behind sign) p.old p.new result }
{
    let kind = DiagnosticKind::IdentifierExpectedAfterQuestionDot;
    p.set_fatal_error(diagnostic_at(kind, sign))
}

/// `.` and a name or a private name, behind what was read.
pub(crate) fn parse_named_link<C: ParserConfig>(
    p: &mut ParserImpl<'_, C>,
    start: u32,
    left: NodeId,
) -> Result<NodeId, Stop>
    requires at { Standing p.old }
    requires start { start ≤ p.old.prev_token_end }
    requires sign { StandsHere p.old Dot true }
    ensures { ReadsLink start left p.old p.new result }
{
    advance(p)?;
    parse_member_name(p, start, false, left)
}

/// A name or a private name, and the node of what stands before and this.
#[inline(never)]
fn parse_member_name<C: ParserConfig>(
    p: &mut ParserImpl<'_, C>,
    start: u32,
    optional: bool,
    left: NodeId,
) -> Result<NodeId, Stop>
    requires at { Standing p.old }
    requires start { start ≤ p.old.prev_token_end }
    ensures { MakesWithName optional start left p.old p.new result }
{
    if p.at(Kind::PrivateIdentifier) {
        let kind = NodeKind::PrivateFieldExpression;
        let name = parse_private_name(p)?;
        let node = make_member(p, start, kind, optional, left, name)?;
        return Ok(node);
    }
    let kind = NodeKind::StaticMemberExpression;
    let name = parse_identifier_name(p)?;
    let node = make_member(p, start, kind, optional, left, name)?;
    Ok(node)
}

/// An Expression in brackets, and the node of what stands before and this.
#[inline(never)]
fn parse_with_index<C: ParserConfig, N: Nested<C>>(
    p: &mut ParserImpl<'_, C>,
    nested: &N,
    start: u32,
    optional: bool,
    left: NodeId,
) -> Result<NodeId, Stop>
    requires at { Standing p.old }
    requires nests { CanNest (N.can nested.now) (room p.old) }
    requires start { start ≤ p.old.prev_token_end }
    requires open { p.old.token.kind ≡ LBrack }
    ensures { MakesWithIndex optional start left p.old p.new result }
{
    let opening = p.cur_token().span();
    advance(p)?;
    let index = expression_with_in(p, nested)?;
    p.expect_closing(Kind::RBrack, opening)?;
    let node = make_member(
        p,
        start,
        NodeKind::ComputedMemberExpression,
        optional,
        left,
        index,
    )?;
    Ok(node)
}

/// Arguments, and the node of these and the callee before them.
#[inline(never)]
pub fn parse_with_arguments<C: ParserConfig, N: Nested<C>>(
    p: &mut ParserImpl<'_, C>,
    nested: &N,
    start: u32,
    kind: NodeKind,
    optional: bool,
    callee: NodeId,
) -> Result<NodeId, Stop>
    requires at { Standing p.old }
    requires nests { CanNest (N.can nested.now) (room p.old) }
    requires start { start ≤ p.old.prev_token_end }
    requires open { p.old.token.kind ≡ LParen }
    requires kind { is_textual kind ≡ false }
    ensures { MakesWithArguments kind optional start callee p.old p.new result }
{
    let mut children = Vec::new(p.alloc);
    children.push(Some(callee))?;
    let arguments = parse_call_arguments(p, nested, takes_spreads(kind), children)?;
    let node = make_with_arguments(p, start, kind, optional, arguments)?;
    Ok(node)
}

/// Whether an argument may be spread: not of a call of V8.
fn takes_spreads(kind: NodeKind) -> bool
    ensures { result ≡ members.takes_spreads kind }
{
    match kind {
        NodeKind::V8IntrinsicExpression => false,
        _ => true,
    }
}

/// The flags of a link.
fn link_flags(optional: bool) -> NodeFlags
    ensures { number_of result ≡ cond optional optional_flag 0 }
{
    let mut flags = NodeFlags::default();
    flags.optional = optional;
    flags
}

/// The node of a member and what stands behind it.
fn make_member<C: ParserConfig>(
    p: &mut ParserImpl<'_, C>,
    start: u32,
    kind: NodeKind,
    optional: bool,
    left: NodeId,
    right: NodeId,
) -> Result<NodeId, NoMemory>
    requires start { start ≤ p.old.prev_token_end }
    requires kind { is_textual kind ≡ false }
    ensures { IfOk result (λ id. MadeHere (flagged_label kind optional start p.old.prev_token_end) (Some left ∷ Some right ∷ []) p.old p.new id) }
{
    let span = p.end_span(start);
    let flags = link_flags(optional);
    p.ast
        .node_of_two(kind, span, Op::None, flags, Some(left), Some(right))
}

/// The node of a callee and its arguments.
fn make_with_arguments<C: ParserConfig>(
    p: &mut ParserImpl<'_, C>,
    start: u32,
    kind: NodeKind,
    optional: bool,
    children: Vec<Option<NodeId>>,
) -> Result<NodeId, NoMemory>
    requires start { start ≤ p.old.prev_token_end }
    requires kind { is_textual kind ≡ false }
    ensures { IfOk result (λ id. MadeHere (flagged_label kind optional start p.old.prev_token_end) children.items p.old p.new id) }
{
    let span = p.end_span(start);
    let flags = link_flags(optional);
    p.ast.node(kind, span, Op::None, flags, None, children)
}
