//! Object literals (ECMA-262, section 13.2.5).

ghost use Rattle.std.specs.Prelude.{not, ◌&&◌, ◌≡◌, ◌+◌, ◌≤◌, ◌∷◌, [], true, false, MatchResult, IfOk, None, Some};
ghost use Rattle.parse_primary.specs.Prelude.{Answers, at, await_flag, begins_async, CanNest, Colon, Comma, computed_flag, Dot3, ends_name_kinds, Eq, flag, flags_of_form, form_of, function_label, has_flag, identifier_name_kinds, Init, kind_of_form, LCurly, LParen, MadeHere, may_name, method_flag, method_left, NoProperties, number_of, one_of_kinds, Opened, Primary, Properties, Property, property_label, RBrack, RCurly, ReadsAccessor, ReadsAsyncMethod, ReadsBehindName, ReadsItem, ReadsMethod, ReadsShorthand, ReadsValue, ReadsWhole, room, RParen, shorthand_flag, SpellsName, Standing, StandsHere, Star, TakesProperty, yield_flag};

use crate::arguments::parse_spread_element;
use crate::function::function_flags;
use crate::property_name::parse_property_name;
use js_base::{Kind, NoMemory, Span, Token};
use laws_primary::forms::PropertyName;
use parse_shared::context::{assignment_with_in, body_of_function, parameters_in_method};
use parse_shared::lexemes::{advance, is_name_here, keyword_of, stands};
use parse_shared::nested::{MethodForm, Nested};
use parse_shared::nodes::{make_list, make_name};
use parse_shared::{NodeFlags, NodeId, NodeKind, Op, ParserConfig, ParserImpl, PropertyKind, Stop};

/// An ObjectLiteral (ECMA-262, section 13.2.5).
/// Reads: Object.
#[inline(never)]
pub fn parse_object_expression<C: ParserConfig, N: Nested<C>>(
    p: &mut ParserImpl<'_, C>,
    nested: &N,
) -> Result<NodeId, Stop>
    requires at { Standing p.old }
    requires nests { CanNest (N.can nested.now) (room p.old) }
    requires open { p.old.token.kind ≡ LCurly }
    ensures { Answers (at Primary) p.old p.new result }
{
    let start = p.cur_start();
    let properties = parse_properties(p, nested)?;
    let span = p.end_span(start);
    let node = make_list(p, NodeKind::ObjectExpression, Op::None, span, properties)?;
    Ok(node)
}

/// The properties of an object literal with its braces.
fn parse_properties<C: ParserConfig, N: Nested<C>>(
    p: &mut ParserImpl<'_, C>,
    nested: &N,
) -> Result<Vec<Option<NodeId>>, Stop>
    requires at { Standing p.old }
    requires nests { CanNest (N.can nested.now) (room p.old) }
    requires open { p.old.token.kind ≡ LCurly }
    ensures { MatchResult result (λ v. Properties v.items p.old p.new) (λ e. NoProperties p.old p.new e) }
{
    let opening = p.cur_token().span();
    advance(p)?;
    let mut properties = Vec::new(p.alloc);
    'properties: while !stands(p, Kind::RCurly) {
        let property = parse_listed_property(p, nested, opening)?;
        properties.push(Some(property))?;
    }
    p.expect_closing(Kind::RCurly, opening)?;
    Ok(properties)
}

/// A property, with its comma unless the closing brace stands behind it.
fn parse_listed_property<C: ParserConfig, N: Nested<C>>(
    p: &mut ParserImpl<'_, C>,
    nested: &N,
    opening: Span,
) -> Result<NodeId, Stop>
    requires at { Standing p.old }
    requires nests { CanNest (N.can nested.now) (room p.old + 1) }
    requires opened { Opened p.old opening }
    requires more { StandsHere p.old RCurly false }
    ensures { TakesProperty p.old p.new result }
{
    let property = parse_property(p, nested)?;
    p.delimited_step(Kind::RCurly, opening, false)?;
    Ok(property)
}

/// A PropertyDefinition (ECMA-262, section 13.2.5).
/// Reads: Property.
fn parse_property<C: ParserConfig, N: Nested<C>>(
    p: &mut ParserImpl<'_, C>,
    nested: &N,
) -> Result<NodeId, Stop>
    requires at { Standing p.old }
    requires nests { CanNest (N.can nested.now) (room p.old + 1) }
    ensures { ReadsItem (at Property) p.old p.new result }
{
    if p.cur_kind().is_identifier_name() {
        return parse_word_property(p, nested);
    }
    match p.cur_kind() {
        Kind::Dot3 => parse_spread_element(p, nested),
        Kind::Star => parse_generator_method(p, nested),
        _ => parse_other_property(p, nested),
    }
}

/// A property that begins with no word: its name is a string, a number, or an expression in brackets.
fn parse_other_property<C: ParserConfig, N: Nested<C>>(
    p: &mut ParserImpl<'_, C>,
    nested: &N,
) -> Result<NodeId, Stop>
    requires at { Standing p.old }
    requires nests { CanNest (N.can nested.now) (room p.old + 1) }
    requires no_word { one_of_kinds identifier_name_kinds p.old.token.kind ≡ false }
    requires no_sign { one_of_kinds (Dot3 ∷ Star ∷ []) p.old.token.kind ≡ false }
    ensures { ReadsItem (at Property) p.old p.new result }
{
    let start = p.cur_start();
    let name = parse_property_name(p, nested)?;
    parse_behind_name(p, nested, start, name)
}

/// A generator method, from its `*` on (ECMA-262, section 15.5).
fn parse_generator_method<C: ParserConfig, N: Nested<C>>(
    p: &mut ParserImpl<'_, C>,
    nested: &N,
) -> Result<NodeId, Stop>
    requires at { Standing p.old }
    requires nests { CanNest (N.can nested.now) (room p.old + 1) }
    requires sign { StandsHere p.old Star true }
    ensures { ReadsItem (at Property) p.old p.new result }
{
    let start = p.cur_start();
    advance(p)?;
    let name = parse_property_name(p, nested)?;
    parse_method(p, nested, start, name, MethodForm::Method, false, true)
}

/// An asynchronous method, from what stands behind its `async` on (ECMA-262, sections 15.6 and 15.8); the word began at a
/// place.
fn parse_async_method<C: ParserConfig, N: Nested<C>>(
    p: &mut ParserImpl<'_, C>,
    nested: &N,
    start: u32,
) -> Result<NodeId, Stop>
    requires at { Standing p.old }
    requires nests { CanNest (N.can nested.now) (room p.old + 1) }
    requires before { start ≤ p.old.prev_token_end }
    requires line { p.old.token.is_on_new_line ≡ false }
    ensures { ReadsAsyncMethod start p.old p.new result }
{
    let generator = p.eat(Kind::Star)?;
    let name = parse_property_name(p, nested)?;
    parse_method(p, nested, start, name, MethodForm::Method, true, generator)
}

/// A property that begins with a word: which is its name, the `get` or `set` before the name of an accessor, or the
/// `async` of a method.
fn parse_word_property<C: ParserConfig, N: Nested<C>>(
    p: &mut ParserImpl<'_, C>,
    nested: &N,
) -> Result<NodeId, Stop>
    requires at { Standing p.old }
    requires nests { CanNest (N.can nested.now) (room p.old + 1) }
    requires word { one_of_kinds identifier_name_kinds p.old.token.kind ≡ true }
    ensures { ReadsItem (at Property) p.old p.new result }
{
    let word = p.cur_token();
    let span = word.span();
    advance(p)?;
    let keyword = keyword_of(word);
    if let Some(form) = accessor_form(keyword, p.cur_kind()) {
        return parse_accessor(p, nested, span.start, form);
    }
    if begins_async_method(keyword, p.cur_token()) {
        return parse_async_method(p, nested, span.start);
    }
    if is_shorthand(p, word.kind(), p.cur_kind()) {
        return parse_shorthand(p, nested, word);
    }
    let key = make_name(p, NodeKind::IdentifierName, word)?;
    let name = PropertyName {
        key,
        computed: false,
    };
    parse_behind_name(p, nested, span.start, name)
}

/// Whether `get`, `set` or `async` before such a lexeme is the name of a property, and not the beginning of a method.
fn ends_name(kind: Kind) -> bool
    ensures { result ≡ one_of_kinds ends_name_kinds kind }
{
    matches!(
        kind,
        Kind::Colon
            | Kind::LParen
            | Kind::Eq
            | Kind::Comma
            | Kind::RParen
            | Kind::RBrack
            | Kind::RCurly
    )
}

/// Which accessor a word begins before such a lexeme, if one.
fn accessor_form(word: Kind, behind: Kind) -> Option<MethodForm>
    ensures { result ≡ form_of word behind }
{
    if ends_name(behind) {
        return None;
    }
    match word {
        Kind::Get => Some(MethodForm::Getter),
        Kind::Set => Some(MethodForm::Setter),
        _ => None,
    }
}

/// Whether a word is the `async` of a method before such a lexeme (ECMA-262, sections 15.6 and 15.8).
fn begins_async_method(word: Kind, behind: Token) -> bool
    ensures { result ≡ begins_async word behind.kind behind.is_on_new_line }
{
    if ends_name(behind.kind()) || behind.is_on_new_line() {
        return false;
    }
    matches!(word, Kind::Async)
}

/// Whether a word before such a lexeme is a name alone: neither a value nor a method stands behind it.
fn is_shorthand<C: ParserConfig>(p: &ParserImpl<'_, C>, word: Kind, behind: Kind) -> bool
    ensures { result ≡ (may_name (has_flag yield_flag p.now.ctx) (has_flag await_flag p.now.ctx) word && not (one_of_kinds (Colon ∷ LParen ∷ []) behind)) }
{
    is_name_here(p, word) && !matches!(behind, Kind::Colon | Kind::LParen)
}

/// A getter or a setter, from its name on; its `get` or `set` began at a place (ECMA-262, section 15.4).
fn parse_accessor<C: ParserConfig, N: Nested<C>>(
    p: &mut ParserImpl<'_, C>,
    nested: &N,
    start: u32,
    form: MethodForm,
) -> Result<NodeId, Stop>
    requires at { Standing p.old }
    requires nests { CanNest (N.can nested.now) (room p.old + 1) }
    requires before { start ≤ p.old.prev_token_end }
    ensures { ReadsAccessor start form p.old p.new result }
{
    let name = parse_property_name(p, nested)?;
    parse_method(p, nested, start, name, form, false, false)
}

/// A name alone, which was passed, or with its initialiser: a CoverInitializedName (ECMA-262, section 13.2.5).
fn parse_shorthand<C: ParserConfig, N: Nested<C>>(
    p: &mut ParserImpl<'_, C>,
    nested: &N,
    name: Token,
) -> Result<NodeId, Stop>
    requires at { Standing p.old }
    requires nests { CanNest (N.can nested.now) (room p.old + 1) }
    requires before { name.span.start ≤ p.old.prev_token_end }
    requires spells { SpellsName p.old.text name }
    ensures { ReadsShorthand name.span p.old p.new result }
{
    let start = name.start();
    let key = make_name(p, NodeKind::IdentifierName, name)?;
    let value = make_name(p, NodeKind::IdentifierReference, name)?;
    if !p.at(Kind::Eq) {
        let flags = shorthand_flags();
        let node = make_property(p, start, PropertyKind::Init, flags, key, value)?;
        return Ok(node);
    }
    advance(p)?;
    let initialiser = assignment_with_in(p, nested)?;
    let node = make_initialised(p, start, key, value, initialiser)?;
    Ok(node)
}

/// The node of a shorthand with an initialiser, which began at a place.
fn make_initialised<C: ParserConfig>(
    p: &mut ParserImpl<'_, C>,
    start: u32,
    key: NodeId,
    value: NodeId,
    initialiser: NodeId,
) -> Result<NodeId, NoMemory>
    requires before { start ≤ p.old.prev_token_end }
    ensures { IfOk result (λ id. MadeHere (property_label Init shorthand_flag start p.old.prev_token_end) (Some key ∷ Some value ∷ Some initialiser ∷ []) p.old p.new id) }
{
    let span = p.end_span(start);
    let flags = shorthand_flags();
    let op = Op::Property(PropertyKind::Init);
    let children = [Some(key), Some(value), Some(initialiser)];
    p.ast
        .node_of_three(NodeKind::ObjectProperty, span, op, flags, children)
}

/// The flags of a shorthand.
fn shorthand_flags() -> NodeFlags
    ensures { number_of result ≡ shorthand_flag }
{
    NodeFlags {
        shorthand: true,
        ..NodeFlags::default()
    }
}

/// What stands behind the name of a property that began at a place: a value, or a method's parameters and its body.
fn parse_behind_name<C: ParserConfig, N: Nested<C>>(
    p: &mut ParserImpl<'_, C>,
    nested: &N,
    start: u32,
    name: PropertyName,
) -> Result<NodeId, Stop>
    requires at { Standing p.old }
    requires nests { CanNest (N.can nested.now) (room p.old + 1) }
    requires before { start ≤ p.old.prev_token_end }
    ensures { ReadsBehindName start name p.old p.new result }
{
    match p.cur_kind() {
        Kind::Colon => parse_value(p, nested, start, name),
        Kind::LParen => { parse_method(p, nested, start, name, MethodForm::Method, false, false) }
        _ => Err(p.set_unexpected()),
    }
}

/// The colon and the value behind the name of a property that began at a place.
fn parse_value<C: ParserConfig, N: Nested<C>>(
    p: &mut ParserImpl<'_, C>,
    nested: &N,
    start: u32,
    name: PropertyName,
) -> Result<NodeId, Stop>
    requires at { Standing p.old }
    requires nests { CanNest (N.can nested.now) (room p.old + 1) }
    requires before { start ≤ p.old.prev_token_end }
    requires colon { p.old.token.kind ≡ Colon }
    ensures { ReadsValue start name p.old p.new result }
{
    advance(p)?;
    let value = assignment_with_in(p, nested)?;
    let flags = property_flags(name.computed, false);
    let node = make_property(p, start, PropertyKind::Init, flags, name.key, value)?;
    Ok(node)
}

/// The parameters and the body of a method, which is asynchronous or not, and a generator or not, behind its name; the
/// property began at a place (ECMA-262, sections 15.4, 15.5, 15.6 and 15.8).
fn parse_method<C: ParserConfig, N: Nested<C>>(
    p: &mut ParserImpl<'_, C>,
    nested: &N,
    start: u32,
    name: PropertyName,
    form: MethodForm,
    is_async: bool,
    generator: bool,
) -> Result<NodeId, Stop>
    requires at { Standing p.old }
    requires nests { CanNest (N.can nested.now) (room p.old + 1) }
    requires before { start ≤ p.old.prev_token_end }
    ensures { ReadsMethod start name form is_async generator p.old p.new result }
{
    let function = parse_method_function(p, nested, form, is_async, generator)?;
    let flags = method_flags(form, name.computed);
    let node = make_property(p, start, property_kind(form), flags, name.key, function)?;
    Ok(node)
}

/// What a property is whose value is a method of this form.
fn property_kind(form: MethodForm) -> PropertyKind
    ensures { result ≡ kind_of_form form }
{
    match form {
        MethodForm::Method => PropertyKind::Init,
        MethodForm::Getter => PropertyKind::Get,
        MethodForm::Setter => PropertyKind::Set,
    }
}

/// The flags of a property whose value is a method of this form.
fn method_flags(form: MethodForm, computed: bool) -> NodeFlags
    ensures { number_of result ≡ flags_of_form form computed }
{
    match form {
        MethodForm::Method => property_flags(computed, true),
        MethodForm::Getter | MethodForm::Setter => property_flags(computed, false),
    }
}

/// The flags of a property with a value, or with a method.
fn property_flags(computed: bool, method: bool) -> NodeFlags
    ensures { number_of result ≡ flag computed computed_flag + flag method method_flag }
{
    NodeFlags {
        computed,
        method,
        ..NodeFlags::default()
    }
}

/// The node of a property that began at a place: its name and its value.
fn make_property<C: ParserConfig>(
    p: &mut ParserImpl<'_, C>,
    start: u32,
    kind: PropertyKind,
    flags: NodeFlags,
    key: NodeId,
    value: NodeId,
) -> Result<NodeId, NoMemory>
    requires before { start ≤ p.old.prev_token_end }
    ensures { IfOk result (λ id. MadeHere (property_label kind (number_of flags) start p.old.prev_token_end) (Some key ∷ Some value ∷ []) p.old p.new id) }
{
    let span = p.end_span(start);
    let op = Op::Property(kind);
    p.ast.node_of_two(
        NodeKind::ObjectProperty,
        span,
        op,
        flags,
        Some(key),
        Some(value),
    )
}

/// The function of a method: its parameters in their parentheses, and its body in its braces (ECMA-262, sections 15.4,
/// 15.5, 15.6 and 15.8).
pub fn parse_method_function<C: ParserConfig, N: Nested<C>>(
    p: &mut ParserImpl<'_, C>,
    nested: &N,
    form: MethodForm,
    is_async: bool,
    generator: bool,
) -> Result<NodeId, Stop>
    requires at { Standing p.old }
    requires nests { CanNest (N.can nested.now) (room p.old + 1) }
    ensures { ReadsWhole (λ f. method_left form is_async generator f) p.old p.new result }
{
    let start = p.cur_start();
    let parameters = parameters_in_method(p, nested, form, is_async, generator)?;
    let body = body_of_function(p, nested, is_async, generator)?;
    let node = make_function(p, start, is_async, generator, parameters, body)?;
    Ok(node)
}

/// The node of a function without a name that began at a place.
fn make_function<C: ParserConfig>(
    p: &mut ParserImpl<'_, C>,
    start: u32,
    is_async: bool,
    generator: bool,
    parameters: NodeId,
    body: NodeId,
) -> Result<NodeId, NoMemory>
    requires before { start ≤ p.old.prev_token_end }
    ensures { IfOk result (λ id. MadeHere (function_label is_async generator start p.old.prev_token_end) (None ∷ Some parameters ∷ Some body ∷ []) p.old p.new id) }
{
    let span = p.end_span(start);
    let flags = function_flags(is_async, generator);
    let kind = NodeKind::FunctionExpression;
    let children = [None, Some(parameters), Some(body)];
    p.ast.node_of_three(kind, span, Op::None, flags, children)
}
