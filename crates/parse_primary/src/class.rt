//! Classes (ECMA-262, section 15.7).

ghost use Rattle.std.specs.Prelude.{◌≡◌, ◌≤◌, ◌∷◌, [], IfOk, Some, true, false};
ghost use Rattle.parse_primary.specs.Prelude.{Answers, at, CanNest, Class, class_label, class_name, is_textual, kind_of, MadeHere, NamesClass, node_at, node_of_class, room, Standing, StandsHere, TakesHeritage};

use crate::leaf::parse_name;
use js_base::{DiagnosticKind, Kind, NoMemory};
use laws_primary::forms::ClassForm;
use parse_shared::lexemes::{advance, name_stands, stands};
use parse_shared::nested::Nested;
use parse_shared::nodes::no_flags;
use parse_shared::refusals::{refuse_due, refuse_here};
use parse_shared::{NodeId, NodeKind, Op, ParserConfig, ParserImpl, Stop};

/// A ClassDeclaration or a ClassExpression, before which no decorator stands (ECMA-262, section 15.7).
#[inline(never)]
pub fn parse_undecorated_class<C: ParserConfig, N: Nested<C>>(
    p: &mut ParserImpl<'_, C>,
    nested: &N,
    form: ClassForm,
) -> Result<NodeId, Stop>
    requires at { Standing p.old }
    requires nests { CanNest (N.can nested.now) (room p.old) }
    requires word { StandsHere p.old Class true }
    ensures taken { Answers (at (class_name form)) p.old p.new result }
    ensures kind { IfOk result (λ id. kind_of (node_at p.new.nodes id).kind ≡ node_of_class form) }
{
    let start = p.cur_start();
    advance(p)?;
    let name = parse_class_name(p, form)?;
    let heritage = parse_heritage(p, nested)?;
    if p.at(Kind::Implements) {
        return Err(refuse_here(p, DiagnosticKind::ImplementsClauseInTs));
    }
    let body = nested.class_body(p)?;
    let node = make_class(p, form, start, name, heritage, body)?;
    Ok(node)
}

/// The name of a class, or none. A declaration has one: where it is missing, that is told, and reading stops.
fn parse_class_name<C: ParserConfig>(
    p: &mut ParserImpl<'_, C>,
    form: ClassForm,
) -> Result<Option<NodeId>, Stop>
    requires { Standing p.old }
    ensures { NamesClass form p.old p.new result }
{
    if name_stands(p) {
        let name = parse_name(p, NodeKind::BindingIdentifier)?;
        return Ok(Some(name));
    }
    if let ClassForm::Expression = form {
        return Ok(None);
    }
    Err(refuse_due(p, DiagnosticKind::ExpectClassName))
}

/// A ClassHeritage (ECMA-262, section 15.7), or none.
fn parse_heritage<C: ParserConfig, N: Nested<C>>(
    p: &mut ParserImpl<'_, C>,
    nested: &N,
) -> Result<Option<NodeId>, Stop>
    requires at { Standing p.old }
    requires nests { CanNest (N.can nested.now) (room p.old) }
    ensures { TakesHeritage p.old p.new result }
{
    if !stands(p, Kind::Extends) {
        return Ok(None);
    }
    advance(p)?;
    let heritage = nested.left_hand_side(p)?;
    Ok(Some(heritage))
}

/// The node of a class that began at a place: its name and its heritage, or none, and its body.
fn make_class<C: ParserConfig>(
    p: &mut ParserImpl<'_, C>,
    form: ClassForm,
    start: u32,
    name: Option<NodeId>,
    heritage: Option<NodeId>,
    body: NodeId,
) -> Result<NodeId, NoMemory>
    requires before { start ≤ p.old.prev_token_end }
    ensures { IfOk result (λ id. MadeHere (class_label form start p.old.prev_token_end) (name ∷ heritage ∷ Some body ∷ []) p.old p.new id) }
{
    let span = p.end_span(start);
    let children = [name, heritage, Some(body)];
    p.ast
        .node_of_three(class_node(form), span, Op::None, no_flags(), children)
}

/// The kind of the node of a class.
fn class_node(form: ClassForm) -> NodeKind
    ensures kind { kind_of result ≡ node_of_class form }
    ensures plain { is_textual result ≡ false }
{
    match form {
        ClassForm::Declaration => NodeKind::ClassDeclaration,
        ClassForm::Expression => NodeKind::ClassExpression,
    }
}
