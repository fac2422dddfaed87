//! What is bound: names and patterns (ECMA-262, section 14.3.3).

ghost use Rattle.std.specs.Prelude.{◌≡◌, ◌≤◌, ◌+◌, ◌∷◌, [], true, false, IfOk, MatchResult};
ghost use Rattle.parse_patterns.specs.Prelude.{Answers, at, BElement, Binding, BindingRest, CanNest, closers, Comma, Dot3, elements_left, EndsParse, EndsRest, Eq, FinishesRest, goal, initialiser_kind, InitialisesRest, LBrack, LCurly, ListRead, ListStops, Mark, one_of_kinds, RBrack, ReadsItem, ReadsOneMore, RestBegins, room, Standing, StandsHere, Undetermined};

use crate::object_pattern::parse_object_pattern;
use js_base::{Diagnostic, DiagnosticKind, Kind};
use laws_patterns::forms::RestPlace;
use parse_primary::leaf::parse_name;
use parse_shared::context::assignment_with_in;
use parse_shared::diagnostics::diagnostic_at;
use parse_shared::lexemes::{advance, name_stands, stands};
use parse_shared::nested::Nested;
use parse_shared::nodes::{make_list, make_one, make_two};
use parse_shared::{NodeId, NodeKind, Op, ParserConfig, ParserImpl, Stop};

/// What is told of the initialiser of a rest.
fn rest_initialiser_kind(place: RestPlace) -> DiagnosticKind
    ensures { result ≡ initialiser_kind place }
{
    match place {
        RestPlace::Pattern => DiagnosticKind::ARestElementCannotHaveAnInitializer,
        RestPlace::Parameters => DiagnosticKind::ARestParameterCannotHaveAnInitializer,
    }
}

/// A BindingIdentifier or a BindingPattern (ECMA-262, section 14.3.3).
/// Reads: Binding.
pub fn parse_binding_pattern<C: ParserConfig, N: Nested<C>>(
    p: &mut ParserImpl<'_, C>,
    nested: &N,
) -> Result<NodeId, Stop>
    requires at { Standing p.old }
    requires nests { CanNest (N.can nested.now) (room p.old) }
    ensures { Answers (at Binding) p.old p.new result }
{
    if stands(p, Kind::LBrack) {
        return parse_array_pattern(p, nested);
    }
    if stands(p, Kind::LCurly) {
        return parse_object_pattern(p, nested);
    }
    parse_binding_identifier(p)
}

/// What is bound within a pattern or by a rest: a pattern is read one level deeper.
pub fn parse_nested_binding<C: ParserConfig, N: Nested<C>>(
    p: &mut ParserImpl<'_, C>,
    nested: &N,
) -> Result<NodeId, Stop>
    requires at { Standing p.old }
    requires nests { CanNest (N.can nested.now) (room p.old + 1) }
    ensures answers { Answers (at Binding) p.old p.new result }
    ensures lexeme { IfOk result (λ _. p.old.token.kind ≡ Undetermined → ⊥) }
{
    if stands(p, Kind::LBrack) {
        return nested.binding(p);
    }
    if stands(p, Kind::LCurly) {
        return nested.binding(p);
    }
    parse_binding_identifier(p)
}

/// A BindingIdentifier (ECMA-262, section 13.1), where no pattern begins.
/// Reads: BindingIdentifier.
fn parse_binding_identifier<C: ParserConfig>(p: &mut ParserImpl<'_, C>) -> Result<NodeId, Stop>
    requires at { Standing p.old }
    requires no_array { StandsHere p.old LBrack false }
    requires no_object { StandsHere p.old LCurly false }
    ensures answers { Answers (at Binding) p.old p.new result }
    ensures lexeme { IfOk result (λ _. p.old.token.kind ≡ Undetermined → ⊥) }
{
    if !name_stands(p) {
        return Err(p.set_unexpected());
    }
    parse_name(p, NodeKind::BindingIdentifier)
}

/// An ArrayBindingPattern (ECMA-262, section 14.3.3).
/// Reads: Pattern.
fn parse_array_pattern<C: ParserConfig, N: Nested<C>>(
    p: &mut ParserImpl<'_, C>,
    nested: &N,
) -> Result<NodeId, Stop>
    requires at { Standing p.old }
    requires nests { CanNest (N.can nested.now) (room p.old) }
    requires open { StandsHere p.old LBrack true }
    ensures { Answers (at Binding) p.old p.new result }
{
    let opening = p.cur_token().span();
    advance(p)?;
    let elements = parse_pattern_elements(p, nested)?;
    p.expect_closing(Kind::RBrack, opening)?;
    let span = p.end_span(opening.start);
    let node = make_list(p, NodeKind::ArrayPattern, Op::None, span, elements)?;
    Ok(node)
}

/// The elements behind an opening bracket, as many as stand there. A hole has an empty slot.
fn parse_pattern_elements<C: ParserConfig, N: Nested<C>>(
    p: &mut ParserImpl<'_, C>,
    nested: &N,
) -> Result<Vec<Option<NodeId>>, Stop>
    requires at { Standing p.old }
    requires nests { CanNest (N.can nested.now) (room p.old + 1) }
    ensures { MatchResult result (λ v. ListRead elements_left RBrack v.items p.old p.new) (λ e. ListStops elements_left p.old p.new e) }
{
    let mut elements = Vec::new(p.alloc);
    'elements: loop {
        let more = parse_next_element(p, nested, &mut elements)?;
        if !more {
            break;
        }
    }
    Ok(elements)
}

/// An element, a hole or a rest, if one stands here, and the comma behind it: whether another may stand behind that.
fn parse_next_element<C: ParserConfig, N: Nested<C>>(
    p: &mut ParserImpl<'_, C>,
    nested: &N,
    elements: &mut Vec<Option<NodeId>>,
) -> Result<bool, Stop>
    requires at { Standing p.old }
    requires nests { CanNest (N.can nested.now) (room p.old + 1) }
    ensures { ReadsOneMore elements_left RBrack elements.old.items elements.new.items p.old p.new result }
{
    match p.cur_kind() {
        Kind::RBrack => Ok(false),
        Kind::Comma => pass_hole(p, elements),
        Kind::Dot3 => parse_last_element(p, nested, elements),
        _ => parse_element_and_comma(p, nested, elements),
    }
}

/// A hole: a comma that no element stands before.
fn pass_hole<C: ParserConfig>(
    p: &mut ParserImpl<'_, C>,
    elements: &mut Vec<Option<NodeId>>,
) -> Result<bool, Stop>
    requires at { Standing p.old }
    requires comma { p.old.token.kind ≡ Comma }
    ensures { ReadsOneMore elements_left RBrack elements.old.items elements.new.items p.old p.new result }
{
    advance(p)?;
    elements.push(None)?;
    Ok(true)
}

/// A BindingElement, and the comma behind it, where one stands there.
fn parse_element_and_comma<C: ParserConfig, N: Nested<C>>(
    p: &mut ParserImpl<'_, C>,
    nested: &N,
    elements: &mut Vec<Option<NodeId>>,
) -> Result<bool, Stop>
    requires at { Standing p.old }
    requires nests { CanNest (N.can nested.now) (room p.old + 1) }
    requires element { one_of_kinds (RBrack ∷ Comma ∷ Dot3 ∷ []) p.old.token.kind ≡ false }
    ensures { ReadsOneMore elements_left RBrack elements.old.items elements.new.items p.old p.new result }
{
    let element = parse_binding_element(p, nested)?;
    elements.push(Some(element))?;
    if !p.at(Kind::Comma) {
        return Ok(false);
    }
    advance(p)?;
    Ok(true)
}

/// A BindingElement (ECMA-262, section 14.3.3): what is bound, and an initialiser or none.
/// Reads: BElement.
pub fn parse_binding_element<C: ParserConfig, N: Nested<C>>(
    p: &mut ParserImpl<'_, C>,
    nested: &N,
) -> Result<NodeId, Stop>
    requires at { Standing p.old }
    requires nests { CanNest (N.can nested.now) (room p.old + 1) }
    ensures { ReadsItem (at BElement) p.old p.new result }
{
    let start = p.cur_start();
    let binding = parse_nested_binding(p, nested)?;
    if !p.at(Kind::Eq) {
        return Ok(binding);
    }
    advance(p)?;
    let initialiser = assignment_with_in(p, nested)?;
    let span = p.end_span(start);
    let kind = NodeKind::AssignmentPattern;
    let node = make_two(p, kind, Op::None, span, binding, initialiser)?;
    Ok(node)
}

/// A rest as the last element.
fn parse_last_element<C: ParserConfig, N: Nested<C>>(
    p: &mut ParserImpl<'_, C>,
    nested: &N,
    elements: &mut Vec<Option<NodeId>>,
) -> Result<bool, Stop>
    requires at { Standing p.old }
    requires nests { CanNest (N.can nested.now) (room p.old + 1) }
    requires sign { p.old.token.kind ≡ Dot3 }
    ensures { ReadsOneMore elements_left RBrack elements.old.items elements.new.items p.old p.new result }
{
    let start = p.cur_start();
    let rest = parse_binding_rest(p, nested, RestPlace::Pattern)?;
    elements.push(Some(rest))?;
    let span = p.end_span(start);
    let misplaced = diagnostic_at(DiagnosticKind::BindingRestElementLast, span);
    check_behind_rest(p, Kind::RBrack, misplaced)?;
    Ok(false)
}

/// A BindingRestElement (ECMA-262, section 14.3.3).
/// Reads: BindingRest.
pub fn parse_binding_rest<C: ParserConfig, N: Nested<C>>(
    p: &mut ParserImpl<'_, C>,
    nested: &N,
    place: RestPlace,
) -> Result<NodeId, Stop>
    requires at { Standing p.old }
    requires nests { CanNest (N.can nested.now) (room p.old + 1) }
    requires sign { p.old.token.kind ≡ Dot3 }
    ensures { ReadsItem (at BindingRest) p.old p.new result }
{
    let start = p.cur_start();
    advance(p)?;
    let bound = p.cur_start();
    let binding = parse_nested_binding(p, nested)?;
    finish_rest(p, nested, start, bound, binding, place)
}

/// The node of a rest that began at a place, and what it binds at another. A rest has no initialiser (ECMA-262, sections
/// 14.3.3 and 15.1): one that stands here is told, and reading goes on.
pub fn finish_rest<C: ParserConfig, N: Nested<C>>(
    p: &mut ParserImpl<'_, C>,
    nested: &N,
    start: u32,
    bound: u32,
    binding: NodeId,
    place: RestPlace,
) -> Result<NodeId, Stop>
    requires at { Standing p.old }
    requires nests { CanNest (N.can nested.now) (room p.old + 1) }
    requires begins { RestBegins bound p.old }
    requires before { start ≤ bound }
    ensures { FinishesRest start binding p.old p.new result }
{
    let kind = NodeKind::BindingRestElement;
    if !p.at(Kind::Eq) {
        let span = p.end_span(start);
        let node = make_one(p, kind, Op::None, span, binding)?;
        return Ok(node);
    }
    let initialiser = parse_rest_initialiser(p, nested, bound, place)?;
    let span = p.end_span(start);
    let node = make_two(p, kind, Op::None, span, binding, initialiser)?;
    Ok(node)
}

/// The initialiser of a rest, which binds what began at a place: it is told.
#[inline(never)]
fn parse_rest_initialiser<C: ParserConfig, N: Nested<C>>(
    p: &mut ParserImpl<'_, C>,
    nested: &N,
    bound: u32,
    place: RestPlace,
) -> Result<NodeId, Stop>
    requires at { Standing p.old }
    requires nests { CanNest (N.can nested.now) (room p.old + 1) }
    requires begins { RestBegins bound p.old }
    requires equals { p.old.token.kind ≡ Eq }
    ensures { InitialisesRest p.old p.new result }
{
    advance(p)?;
    let initialiser = assignment_with_in(p, nested)?;
    let span = p.end_span(bound);
    p.error(diagnostic_at(rest_initialiser_kind(place), span))?;
    Ok(initialiser)
}

/// What stands behind a rest: the closing bracket of this kind is due. A comma right before it is told, and reading goes
/// on; behind another comma the rest isn't the last, which `misplaced` tells.
pub fn check_behind_rest<C: ParserConfig>(
    p: &mut ParserImpl<'_, C>,
    close: Kind,
    misplaced: Diagnostic,
) -> Result<(), Stop>
    requires at { Standing p.old }
    requires closes { one_of_kinds closers close ≡ true }
    requires mark { Mark (goal p.old) p.old.text misplaced }
    requires ends { EndsParse misplaced }
    ensures { EndsRest close p.old p.new result }
{
    if !p.at(Kind::Comma) {
        return Ok(());
    }
    let comma = p.cur_token().span();
    advance(p)?;
    if !p.at(close) {
        return Err(p.set_fatal_error(misplaced));
    }
    p.error(diagnostic_at(DiagnosticKind::RestElementTrailingComma, comma))?;
    Ok(())
}
