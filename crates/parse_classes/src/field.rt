//! Fields of classes (ECMA-262, section 15.7).

ghost use Rattle.std.specs.Prelude.{◌≡◌, ◌+◌, ◌≤◌, ◌∷◌, [], IfOk, Some, true, false};
ghost use Rattle.parse_classes.specs.Prelude.{Answers, Assignment, at, behind_kinds, CanNest, EndsFieldOr, EntersMethod, Eq, field_label, field_of, is_textual, kind_of, MadeHere, node_of_field, number_of, one_of_kinds, ReadsField, room, Standing};

use crate::member::begins_name;
use crate::method::element_flags;
use js_base::{Context, Kind, NoMemory};
use laws_classes::forms::{ElementHead, FieldKind};
use parse_primary::forms::PropertyName;
use parse_shared::context::{context, set_context};
use parse_shared::lexemes::advance;
use parse_shared::nested::Nested;
use parse_shared::refusals::refuse_annotation;
use parse_shared::{NodeFlags, NodeId, NodeKind, Op, ParserConfig, ParserImpl, Stop};

/// A field behind its name: an initialiser or none, and a semicolon, which may be left out where the grammar permits that
/// (ECMA-262, sections 15.7 and 12.10).
pub fn parse_field<C: ParserConfig, N: Nested<C>>(
    p: &mut ParserImpl<'_, C>,
    nested: &N,
    head: ElementHead,
    kind: FieldKind,
    name: PropertyName,
) -> Result<NodeId, Stop>
    requires at { Standing p.old }
    requires nests { CanNest (N.can nested.now) (room p.old + 1) }
    requires before { head.start ≤ p.old.prev_token_end }
    ensures { ReadsField head kind name p.old p.new result }
{
    if p.at(Kind::Eq) {
        return parse_initialised_field(p, nested, head, kind, name);
    }
    end_field(p)?;
    let flags = element_flags(head.is_static, name.computed);
    let node = make_field(p, head.start, kind, flags, name.key, None)?;
    Ok(node)
}

/// A field with an initialiser, from its `=` on.
fn parse_initialised_field<C: ParserConfig, N: Nested<C>>(
    p: &mut ParserImpl<'_, C>,
    nested: &N,
    head: ElementHead,
    kind: FieldKind,
    name: PropertyName,
) -> Result<NodeId, Stop>
    requires at { Standing p.old }
    requires nests { CanNest (N.can nested.now) (room p.old + 1) }
    requires before { head.start ≤ p.old.prev_token_end }
    requires sign { p.old.token.kind ≡ Eq }
    ensures { ReadsField head kind name p.old p.new result }
{
    advance(p)?;
    let value = assignment_in_field(p, nested)?;
    end_field(p)?;
    let flags = element_flags(head.is_static, name.computed);
    let node = make_field(p, head.start, kind, flags, name.key, Some(value))?;
    Ok(node)
}

/// The initialiser of a field, one level deeper: under In and NewTarget, without Yield and Await (ECMA-262, section 15.7).
fn assignment_in_field<C: ParserConfig, N: Nested<C>>(
    p: &mut ParserImpl<'_, C>,
    nested: &N,
) -> Result<NodeId, Stop>
    requires at { Standing p.old }
    requires nests { CanNest (N.can nested.now) (room p.old + 1) }
    ensures { Answers (λ f. at Assignment (field_of f)) p.old p.new result }
{
    let outer = context(p);
    set_context(p, in_field(outer));
    let value = nested.element(p)?;
    set_context(p, outer);
    Ok(value)
}

/// What is in force in the initialiser of a field: the same as in the parameters of a method that is neither asynchronous
/// nor a generator.
fn in_field(outer: Context) -> Context
    ensures { EntersMethod false false outer result }
{
    let inner = outer.and_in(true).and_yield(false).and_await(false);
    inner.and_await_expression(false).and_new_target(true)
}

/// The semicolon of a field, or none where the grammar permits that (ECMA-262, section 12.10). A colon begins a type
/// annotation of TypeScript.
fn end_field<C: ParserConfig>(p: &mut ParserImpl<'_, C>) -> Result<(), Stop>
    requires { Standing p.old }
    ensures { EndsFieldOr p.old p.new result }
{
    if p.at(Kind::Colon) {
        return Err(refuse_annotation(p));
    }
    if !follows_element(p.cur_kind()) {
        return Err(p.set_unexpected());
    }
    p.asi()
}

/// Whether such a lexeme may stand behind an element of a class.
fn follows_element(kind: Kind) -> bool
    ensures { result ≡ one_of_kinds behind_kinds kind }
{
    match kind {
        Kind::Star | Kind::At | Kind::Semicolon | Kind::RCurly => true,
        _ => begins_name(kind),
    }
}

/// The node of a field that began at a place: its name, and its initialiser or none.
fn make_field<C: ParserConfig>(
    p: &mut ParserImpl<'_, C>,
    start: u32,
    kind: FieldKind,
    flags: NodeFlags,
    key: NodeId,
    value: Option<NodeId>,
) -> Result<NodeId, NoMemory>
    requires before { start ≤ p.old.prev_token_end }
    ensures { IfOk result (λ id. MadeHere (field_label kind (number_of flags) start p.old.prev_token_end) (Some key ∷ value ∷ []) p.old p.new id) }
{
    let span = p.end_span(start);
    p.ast
        .node_of_two(field_node(kind), span, Op::None, flags, Some(key), value)
}

/// The kind of the node of a field.
fn field_node(kind: FieldKind) -> NodeKind
    ensures kind { kind_of result ≡ node_of_field kind }
    ensures plain { is_textual result ≡ false }
{
    match kind {
        FieldKind::Property => NodeKind::PropertyDefinition,
        FieldKind::Accessor => NodeKind::AccessorProperty,
    }
}
