//! Object patterns (ECMA-262, section 14.3.3).

ghost use Rattle.std.specs.Prelude.{◌≡◌, ◌≤◌, ◌<◌, ◌+◌, ◌∷◌, [], Some, true, false, length, MatchResult, IfOk};
ghost use Rattle.parse_patterns.specs.Prelude.{AddsInitialiser, Answers, at, Binding, BindsName, CanNest, Colon, computed_flag, Dot3, EndsParse, flag, GivesUpThere, goal, kind_of, LCurly, ListRead, ListStops, MadeHere, Mark, NameHere, node_at, number_of, one_of_kinds, PatternProperty, properties_left, property_label, RCurly, ReadsItem, ReadsNamedRest, ReadsOneMore, ReadsShorthand, ReadsValue, room, shorthand_flag, SpellsName, Standing, StandsHere};

use crate::binding::{check_behind_rest, finish_rest, parse_binding_element, parse_nested_binding};
use js_base::{Diagnostic, DiagnosticKind, Kind, NoMemory, Span, Token};
use laws_patterns::forms::RestPlace;
use parse_primary::forms::PropertyName;
use parse_primary::leaf::parse_name;
use parse_primary::property_name::parse_property_name;
use parse_shared::context::assignment_with_in;
use parse_shared::diagnostics::diagnostic_at;
use parse_shared::lexemes::{advance, name_stands};
use parse_shared::nested::Nested;
use parse_shared::nodes::{make_list, make_name, make_two};
use parse_shared::{NodeFlags, NodeId, NodeKind, Op, ParserConfig, ParserImpl, Stop};

/// An ObjectBindingPattern (ECMA-262, section 14.3.3).
/// Reads: Pattern.
pub fn parse_object_pattern<C: ParserConfig, N: Nested<C>>(
    p: &mut ParserImpl<'_, C>,
    nested: &N,
) -> Result<NodeId, Stop>
    requires at { Standing p.old }
    requires nests { CanNest (N.can nested.now) (room p.old) }
    requires open { StandsHere p.old LCurly true }
    ensures { Answers (at Binding) p.old p.new result }
{
    let opening = p.cur_token().span();
    advance(p)?;
    let properties = parse_binding_properties(p, nested)?;
    p.expect_closing(Kind::RCurly, opening)?;
    let span = p.end_span(opening.start);
    let node = make_list(p, NodeKind::ObjectPattern, Op::None, span, properties)?;
    Ok(node)
}

/// The properties behind an opening brace, as many as stand there.
fn parse_binding_properties<C: ParserConfig, N: Nested<C>>(
    p: &mut ParserImpl<'_, C>,
    nested: &N,
) -> Result<Vec<Option<NodeId>>, Stop>
    requires at { Standing p.old }
    requires nests { CanNest (N.can nested.now) (room p.old + 1) }
    ensures { MatchResult result (λ v. ListRead properties_left RCurly v.items p.old p.new) (λ e. ListStops properties_left p.old p.new e) }
{
    let mut properties = Vec::new(p.alloc);
    'properties: loop {
        let more = parse_next_property(p, nested, &mut properties)?;
        if !more {
            break;
        }
    }
    Ok(properties)
}

/// A property or a rest, if one stands here, and the comma behind it: whether another may stand behind that.
fn parse_next_property<C: ParserConfig, N: Nested<C>>(
    p: &mut ParserImpl<'_, C>,
    nested: &N,
    properties: &mut Vec<Option<NodeId>>,
) -> Result<bool, Stop>
    requires at { Standing p.old }
    requires nests { CanNest (N.can nested.now) (room p.old + 1) }
    ensures { ReadsOneMore properties_left RCurly properties.old.items properties.new.items p.old p.new result }
{
    match p.cur_kind() {
        Kind::RCurly => Ok(false),
        Kind::Dot3 => parse_rest_property(p, nested, properties),
        _ => parse_property_and_comma(p, nested, properties),
    }
}

/// A BindingProperty, and the comma behind it, where one stands there.
fn parse_property_and_comma<C: ParserConfig, N: Nested<C>>(
    p: &mut ParserImpl<'_, C>,
    nested: &N,
    properties: &mut Vec<Option<NodeId>>,
) -> Result<bool, Stop>
    requires at { Standing p.old }
    requires nests { CanNest (N.can nested.now) (room p.old + 1) }
    requires property { one_of_kinds (RCurly ∷ Dot3 ∷ []) p.old.token.kind ≡ false }
    ensures { ReadsOneMore properties_left RCurly properties.old.items properties.new.items p.old p.new result }
{
    let property = parse_binding_property(p, nested)?;
    properties.push(Some(property))?;
    if !p.at(Kind::Comma) {
        return Ok(false);
    }
    advance(p)?;
    Ok(true)
}

/// A BindingProperty (ECMA-262, section 14.3.3): a name that is bound, or a name and what is bound by it.
/// Reads: PatternProperty.
fn parse_binding_property<C: ParserConfig, N: Nested<C>>(
    p: &mut ParserImpl<'_, C>,
    nested: &N,
) -> Result<NodeId, Stop>
    requires at { Standing p.old }
    requires nests { CanNest (N.can nested.now) (room p.old + 1) }
    ensures { ReadsItem (at PatternProperty) p.old p.new result }
{
    let start = p.cur_start();
    if name_stands(p) {
        return parse_named_property(p, nested);
    }
    let name = parse_property_name(p, nested)?;
    parse_property_value(p, nested, start, name)
}

/// A BindingProperty that begins with a name that may be bound.
fn parse_named_property<C: ParserConfig, N: Nested<C>>(
    p: &mut ParserImpl<'_, C>,
    nested: &N,
) -> Result<NodeId, Stop>
    requires at { Standing p.old }
    requires nests { CanNest (N.can nested.now) (room p.old + 1) }
    requires name { NameHere p.old true }
    ensures { ReadsItem (at PatternProperty) p.old p.new result }
{
    let name = p.cur_token();
    let key = parse_name(p, NodeKind::IdentifierName)?;
    if !p.at(Kind::Colon) {
        return parse_shorthand(p, nested, name, key);
    }
    let name_read = PropertyName {
        key,
        computed: false,
    };
    parse_property_value(p, nested, name.start(), name_read)
}

/// What a shorthand binds, behind its name: the name itself, and an initialiser or none (ECMA-262, section 14.3.3).
fn parse_shorthand<C: ParserConfig, N: Nested<C>>(
    p: &mut ParserImpl<'_, C>,
    nested: &N,
    name: Token,
    key: NodeId,
) -> Result<NodeId, Stop>
    requires at { Standing p.old }
    requires nests { CanNest (N.can nested.now) (room p.old + 1) }
    requires no_colon { p.old.token.kind ≡ Colon → ⊥ }
    requires ends { name.span.end ≡ p.old.prev_token_end }
    requires ordered { name.span.start ≤ name.span.end }
    requires spells { SpellsName p.old.text name }
    ensures { ReadsShorthand name.span key p.old p.new result }
{
    let start = name.start();
    let binding = make_name(p, NodeKind::BindingIdentifier, name)?;
    let value = parse_name_initialiser(p, nested, start, binding)?;
    let span = p.end_span(start);
    let node = make_property(p, span, shorthand_flags(), key, value)?;
    Ok(node)
}

/// The name that is bound, or it and the initialiser behind it.
fn parse_name_initialiser<C: ParserConfig, N: Nested<C>>(
    p: &mut ParserImpl<'_, C>,
    nested: &N,
    start: u32,
    binding: NodeId,
) -> Result<NodeId, Stop>
    requires at { Standing p.old }
    requires nests { CanNest (N.can nested.now) (room p.old + 1) }
    requires before { start ≤ p.old.prev_token_end }
    ensures answers { AddsInitialiser start binding p.old p.new result }
    ensures behind { IfOk result (λ _. start ≤ p.new.prev_token_end) }
{
    if !p.at(Kind::Eq) {
        return Ok(binding);
    }
    advance(p)?;
    let initialiser = assignment_with_in(p, nested)?;
    let span = p.end_span(start);
    let kind = NodeKind::AssignmentPattern;
    let node = make_two(p, kind, Op::None, span, binding, initialiser)?;
    Ok(node)
}

/// A colon and a BindingElement, behind the name of a property (ECMA-262, section 14.3.3).
fn parse_property_value<C: ParserConfig, N: Nested<C>>(
    p: &mut ParserImpl<'_, C>,
    nested: &N,
    start: u32,
    name: PropertyName,
) -> Result<NodeId, Stop>
    requires at { Standing p.old }
    requires nests { CanNest (N.can nested.now) (room p.old + 1) }
    requires before { start ≤ p.old.prev_token_end }
    ensures { ReadsValue start name p.old p.new result }
{
    p.expect(Kind::Colon)?;
    let value = parse_binding_element(p, nested)?;
    let span = p.end_span(start);
    let node = make_property(p, span, name_flags(name.computed), name.key, value)?;
    Ok(node)
}

/// The flags of a property whose name stands in brackets, or doesn't.
fn name_flags(computed: bool) -> NodeFlags
    ensures { number_of result ≡ flag computed computed_flag }
{
    let mut flags = NodeFlags::default();
    flags.computed = computed;
    flags
}

/// The flags of a shorthand.
fn shorthand_flags() -> NodeFlags
    ensures { number_of result ≡ shorthand_flag }
{
    let mut flags = NodeFlags::default();
    flags.shorthand = true;
    flags
}

/// The node of a property.
fn make_property<C: ParserConfig>(
    p: &mut ParserImpl<'_, C>,
    span: Span,
    flags: NodeFlags,
    key: NodeId,
    value: NodeId,
) -> Result<NodeId, NoMemory>
    ensures { IfOk result (λ id. MadeHere (property_label (number_of flags) span) (Some key ∷ Some value ∷ []) p.old p.new id) }
{
    let kind = NodeKind::BindingProperty;
    p.ast
        .node_of_two(kind, span, Op::None, flags, Some(key), Some(value))
}

/// A BindingRestProperty (ECMA-262, section 14.3.3), as the last property.
fn parse_rest_property<C: ParserConfig, N: Nested<C>>(
    p: &mut ParserImpl<'_, C>,
    nested: &N,
    properties: &mut Vec<Option<NodeId>>,
) -> Result<bool, Stop>
    requires at { Standing p.old }
    requires nests { CanNest (N.can nested.now) (room p.old + 1) }
    requires sign { p.old.token.kind ≡ Dot3 }
    ensures { ReadsOneMore properties_left RCurly properties.old.items properties.new.items p.old p.new result }
{
    let start = p.cur_start();
    let rest = parse_named_rest(p, nested)?;
    properties.push(Some(rest))?;
    let span = p.end_span(start);
    let misplaced = diagnostic_at(DiagnosticKind::BindingRestElementLast, span);
    check_behind_rest(p, Kind::RCurly, misplaced)?;
    Ok(false)
}

/// A rest that binds a name.
fn parse_named_rest<C: ParserConfig, N: Nested<C>>(
    p: &mut ParserImpl<'_, C>,
    nested: &N,
) -> Result<NodeId, Stop>
    requires at { Standing p.old }
    requires nests { CanNest (N.can nested.now) (room p.old + 1) }
    requires sign { p.old.token.kind ≡ Dot3 }
    ensures { ReadsNamedRest p.old p.new result }
{
    let start = p.cur_start();
    advance(p)?;
    let bound = p.cur_start();
    let argument = parse_nested_binding(p, nested)?;
    if !binds_name(p, argument) {
        let span = p.end_span(start);
        let misplaced = diagnostic_at(DiagnosticKind::BindingRestElementLast, span);
        let binding = p.end_span(bound);
        let unnamed = diagnostic_at(DiagnosticKind::InvalidBindingRestElement, binding);
        return Err(refuse_rest(p, misplaced, unnamed));
    }
    finish_rest(p, nested, start, bound, argument, RestPlace::Pattern)
}

/// Gives up behind a rest that binds no name: it isn't the last property, which `misplaced` tells, or it is one, and
/// `unnamed` tells what it binds.
fn refuse_rest<C: ParserConfig>(
    p: &mut ParserImpl<'_, C>,
    misplaced: Diagnostic,
    unnamed: Diagnostic,
) -> Stop
    requires at { Standing p.old }
    requires mark { Mark (goal p.old) p.old.text misplaced }
    requires ends { EndsParse misplaced }
    requires mark_unnamed { Mark (goal p.old) p.old.text unnamed }
    requires ends_unnamed { EndsParse unnamed }
    ensures { GivesUpThere p.old p.new result }
{
    match check_behind_rest(p, Kind::RCurly, misplaced) {
        Ok(_) => p.set_fatal_error(unnamed),
        Err(stop) => stop,
    }
}

/// Whether what was read is a BindingIdentifier.
fn binds_name<C: ParserConfig>(p: &ParserImpl<'_, C>, binding: NodeId) -> bool
    requires { binding.0 < length p.now.nodes }
    ensures { BindsName (kind_of (node_at p.now.nodes binding).kind) result }
{
    matches!(p.ast.kind(binding), NodeKind::BindingIdentifier)
}
