//! The targets that expressions cover, over their nodes (ECMA-262, section 13.15.5).

ghost use Rattle.std.specs.Prelude.{◌≡◌, IfOk, Some, false, true};
ghost use Rattle.parse_targets.specs.Prelude.{ArrayTarget, at, kind_of, ObjectTarget, Primary, Property, SimpleTarget, Standing, Target, TargetElement, TargetProperty};
ghost use Rattle.parse_targets.specs.Targets.{Each, Fits, OfNode, Spotted, Stood, noted_in, unnoted};
ghost use Rattle.parse_targets.specs.Targets as target;
ghost use Rattle.parse_targets.specs.Covered.{AnyLabel, Answered, CoversAs, Finishes, IsAssignment, IsLiteral, IsProperty, KeepsInitialiser, ReadBefore, an_expression, element_answer, in_a_literal, in_a_property, in_a_target, in_an_element, literal_answer, no_places, property_answer, simple_answer, target_answer};

use crate::array_target::{convert_assignment, convert_literal, convert_property, convert_target};
use crate::cover::simple_target;
use crate::widening::{Notes, Widening, tell_places};
use js_base::NoMemory;
use parse_shared::{NodeId, NodeKind, ParserAstBuilder, ParserConfig, ParserImpl, Stop};
use std::alloc::Global;

/// The target that was found, once its places were told. Where there is none, gives up with what is told of the current
/// lexeme.
fn finish<C: ParserConfig>(
    p: &mut ParserImpl<'_, C>,
    found: Option<NodeId>,
    places: &Vec<Widening>,
) -> Result<NodeId, Stop>
    requires at { Standing p.old }
    requires spotted { (id : NodeId) → found ≡ Some id → Each (Spotted p.old.text) places.now.items }
    requires fits { (id : NodeId) → found ≡ Some id → Each (Fits p.old.text) places.now.items }
    ensures { Finishes found places.now.items p.old p.new result }
{
    let Some(target) = found else {
        return Err(p.set_unexpected());
    };
    tell_places(p, places)?;
    Ok(target)
}

/// Notes in which nothing stands.
fn no_notes(alloc: Global) -> Notes
    ensures { noted_in result ≡ unnoted }
{
    Notes {
        places: Vec::new(alloc),
        misplaced: None,
    }
}

/// The node of the target that a literal of a parser's nodes stands for; none where it stands for none.
fn literal_node<C: ParserConfig>(
    p: &mut ParserImpl<'_, C>,
    id: NodeId,
    notes: &mut Notes,
) -> Result<Option<NodeId>, NoMemory>
    requires { Stood p.old.nodes id }
    ensures stays { IfOk result (λ _. p.new ≡ record p.old { nodes = p.new.nodes }) }
    ensures found { IfOk result (λ found. Answered in_a_literal literal_answer p.old.nodes p.new.nodes id (noted_in notes.old) (noted_in notes.new) found) }
{
    convert_literal(p.alloc, &mut p.ast, id, notes)
}

/// The node of the target that an expression of a parser's nodes stands for; none where it stands for none.
fn target_node<C: ParserConfig>(
    p: &mut ParserImpl<'_, C>,
    id: NodeId,
    notes: &mut Notes,
) -> Result<Option<NodeId>, NoMemory>
    requires { Stood p.old.nodes id }
    ensures stays { IfOk result (λ _. p.new ≡ record p.old { nodes = p.new.nodes }) }
    ensures found { IfOk result (λ found. Answered in_a_target target_answer p.old.nodes p.new.nodes id (noted_in notes.old) (noted_in notes.new) found) }
{
    convert_target(p.alloc, &mut p.ast, id, notes)
}

/// The node of the simple target that an expression of a parser's nodes stands for; none where it stands for none.
fn simple_node<C: ParserConfig>(p: &ParserImpl<'_, C>, id: NodeId) -> Option<NodeId>
    requires { Stood p.now.nodes id }
    ensures { Answered no_places simple_answer p.now.nodes p.now.nodes id unnoted unnoted result }
{
    simple_target(&p.ast, id)
}

/// Whether it is an assignment.
fn is_assignment(kind: NodeKind) -> bool
    ensures { result ≡ target.is_assignment (kind_of kind) }
{
    match kind {
        NodeKind::AssignmentExpression => true,
        _ => false,
    }
}

/// Whether an expression is an assignment.
fn is_assignment_node(ast: &ParserAstBuilder, id: NodeId) -> bool
    requires { Stood ast.now id }
    ensures { OfNode ast.now id (λ l cs rs. result ≡ target.is_assignment l.kind) }
{
    is_assignment(ast.kind(id))
}

/// Whether an expression of a parser's nodes is an assignment.
fn is_assigned<C: ParserConfig>(p: &ParserImpl<'_, C>, id: NodeId) -> bool
    requires { Stood p.now.nodes id }
    ensures { OfNode p.now.nodes id (λ l cs rs. result ≡ target.is_assignment l.kind) }
{
    is_assignment_node(&p.ast, id)
}

/// The node of the target with an initialiser that an assignment of a parser's nodes stands for.
fn assignment_node<C: ParserConfig>(
    p: &mut ParserImpl<'_, C>,
    id: NodeId,
    notes: &mut Notes,
) -> Result<Option<NodeId>, NoMemory>
    requires stood { Stood p.old.nodes id }
    requires assignment { OfNode p.old.nodes id (λ l cs rs. IsAssignment l) }
    ensures stays { IfOk result (λ _. p.new ≡ record p.old { nodes = p.new.nodes }) }
    ensures found { IfOk result (λ found. Answered in_an_element element_answer p.old.nodes p.new.nodes id (noted_in notes.old) (noted_in notes.new) found) }
{
    convert_assignment(p.alloc, &mut p.ast, id, notes)
}

/// The node of the element of a target that an expression of a parser's nodes stands for; none where it stands for none.
fn element_node<C: ParserConfig>(
    p: &mut ParserImpl<'_, C>,
    id: NodeId,
    notes: &mut Notes,
) -> Result<Option<NodeId>, NoMemory>
    requires { Stood p.old.nodes id }
    ensures stays { IfOk result (λ _. p.new ≡ record p.old { nodes = p.new.nodes }) }
    ensures found { IfOk result (λ found. Answered in_an_element element_answer p.old.nodes p.new.nodes id (noted_in notes.old) (noted_in notes.new) found) }
{
    if is_assigned(p, id) {
        return assignment_node(p, id, notes);
    }
    target_node(p, id, notes)
}

/// The node of the property of a target that one of a parser's nodes stands for; none where it stands for none.
fn property_node<C: ParserConfig>(
    p: &mut ParserImpl<'_, C>,
    id: NodeId,
    notes: &mut Notes,
) -> Result<Option<NodeId>, NoMemory>
    requires { Stood p.old.nodes id }
    ensures stays { IfOk result (λ _. p.new ≡ record p.old { nodes = p.new.nodes }) }
    ensures found { IfOk result (λ found. Answered in_a_property property_answer p.old.nodes p.new.nodes id (noted_in notes.old) (noted_in notes.new) found) }
{
    convert_property(p.alloc, &mut p.ast, id, notes)
}

/// The ArrayAssignmentPattern that an ArrayLiteral covers (ECMA-262, section 13.15.5): a node of a target over the same
/// lexemes. Where it may be wider than one, as by a comma behind a rest, that is told and the target given.
///
/// # Errors
///
/// `Fatal` where no target is derived from its lexemes, with what is told of the current lexeme; `NoMemory`.
pub fn cover_array<C: ParserConfig>(p: &mut ParserImpl<'_, C>, id: NodeId) -> Result<NodeId, Stop>
    requires at { Standing p.old }
    requires read { ReadBefore (at Primary) (IsLiteral false) p.old id }
    ensures { CoversAs (at Primary) (IsLiteral false) (at ArrayTarget) in_a_literal id p.old p.new result }
{
    let mut notes = no_notes(p.alloc);
    let found = literal_node(p, id, &mut notes)?;
    finish(p, found, &notes.places)
}

/// The ObjectAssignmentPattern that an ObjectLiteral covers (ECMA-262, section 13.15.5): a node of a target over the same
/// lexemes. Where it may be wider than one, as by another operator before an initialiser, that is told and the target
/// given.
///
/// # Errors
///
/// `Fatal` where no target is derived from its lexemes, with what is told of the current lexeme; `NoMemory`.
pub fn cover_object<C: ParserConfig>(p: &mut ParserImpl<'_, C>, id: NodeId) -> Result<NodeId, Stop>
    requires at { Standing p.old }
    requires read { ReadBefore (at Primary) (IsLiteral true) p.old id }
    ensures { CoversAs (at Primary) (IsLiteral true) (at ObjectTarget) in_a_literal id p.old p.new result }
{
    let mut notes = no_notes(p.alloc);
    let found = literal_node(p, id, &mut notes)?;
    finish(p, found, &notes.places)
}

/// The simple target that an expression covers (ECMA-262, section 8.6.4): the node of a name or a member, out of its
/// parentheses.
///
/// # Errors
///
/// `Fatal` where no target is derived from its lexemes, with what is told of the current lexeme; `NoMemory`.
pub fn cover_simple_target<C: ParserConfig>(
    p: &mut ParserImpl<'_, C>,
    id: NodeId,
) -> Result<NodeId, Stop>
    requires at { Standing p.old }
    requires read { ReadBefore an_expression AnyLabel p.old id }
    ensures { CoversAs an_expression AnyLabel (at SimpleTarget) no_places id p.old p.new result }
{
    let Some(target) = simple_node(p, id) else {
        return Err(p.set_unexpected());
    };
    Ok(target)
}

/// The target of an assignment that an expression covers (ECMA-262, section 13.15.5): a simple one, or that of an array or
/// object literal. Where a literal may be wider than a target, that is told and the target given.
///
/// # Errors
///
/// `Fatal` where no target is derived from its lexemes, with what is told of the current lexeme; `NoMemory`.
pub fn cover_target<C: ParserConfig>(p: &mut ParserImpl<'_, C>, id: NodeId) -> Result<NodeId, Stop>
    requires at { Standing p.old }
    requires read { ReadBefore an_expression AnyLabel p.old id }
    ensures { CoversAs an_expression AnyLabel (at Target) in_a_target id p.old p.new result }
{
    let mut notes = no_notes(p.alloc);
    let found = target_node(p, id, &mut notes)?;
    finish(p, found, &notes.places)
}

/// The AssignmentElement that an expression covers (ECMA-262, section 13.15.5): a target, or one with its initialiser
/// where the expression is an assignment. Another operator than `=` is told and the target given.
///
/// # Errors
///
/// `Fatal` where no target is derived from its lexemes, with what is told of the current lexeme; `NoMemory`.
pub fn cover_element<C: ParserConfig>(p: &mut ParserImpl<'_, C>, id: NodeId) -> Result<NodeId, Stop>
    requires at { Standing p.old }
    requires read { ReadBefore an_expression AnyLabel p.old id }
    ensures { CoversAs an_expression AnyLabel (at TargetElement) in_an_element id p.old p.new result }
{
    let mut notes = no_notes(p.alloc);
    let found = element_node(p, id, &mut notes)?;
    finish(p, found, &notes.places)
}

/// The AssignmentElement with an initialiser that an assignment covers (ECMA-262, section 13.15.5). Another operator than
/// `=` is told and the target given.
///
/// # Errors
///
/// `NoMemory` alone: each assignment covers one.
pub fn cover_with_default<C: ParserConfig>(
    p: &mut ParserImpl<'_, C>,
    id: NodeId,
) -> Result<NodeId, Stop>
    requires at { Standing p.old }
    requires read { ReadBefore an_expression IsAssignment p.old id }
    ensures covers { CoversAs an_expression IsAssignment (at TargetElement) in_an_element id p.old p.new result }
    ensures keeps { KeepsInitialiser id p.old p.new result }
{
    let mut notes = no_notes(p.alloc);
    let found = assignment_node(p, id, &mut notes)?;
    finish(p, found, &notes.places)
}

/// The AssignmentProperty that a property of an ObjectLiteral covers (ECMA-262, section 13.15.5). Where its value may be
/// wider than a target, that is told and the target given.
///
/// # Errors
///
/// `Fatal` where no target is derived from its lexemes, with what is told of the current lexeme; `NoMemory`.
pub fn cover_property<C: ParserConfig>(
    p: &mut ParserImpl<'_, C>,
    id: NodeId,
) -> Result<NodeId, Stop>
    requires at { Standing p.old }
    requires read { ReadBefore (at Property) IsProperty p.old id }
    ensures { CoversAs (at Property) IsProperty (at TargetProperty) in_a_property id p.old p.new result }
{
    let mut notes = no_notes(p.alloc);
    let found = property_node(p, id, &mut notes)?;
    finish(p, found, &notes.places)
}
