//! Array and object literals read as targets (ECMA-262, section 13.15.5).

ghost use Rattle.std.specs.Prelude.{◌≡◌, ◌≤◌, ◌++◌, IfOk, [], ◌∷◌, Some, None, true, false, cond, length};
ghost use Rattle.std.specs.Option.{option_map};
ghost use Rattle.parse_targets.specs.Prelude.{assignment_target_with_default, end, EndsParse, GivesUp, goal, is_textual, kind_of, label_of, Mark, op_of, plain_label, Standing, tree};
ghost use Rattle.parse_shared.specs.js_tree.declared.kind.NodeKind.TheVariants as node;
ghost use Rattle.parse_shared.specs.js_tree.declared.op.Op.TheVariants as op;
ghost use Rattle.parse_targets.specs.Taken.{EndsTarget, LiteralRead, TakesTarget, refusal_at};
ghost use Rattle.parse_targets.specs.Targets.{Converted, OfNode, Stood, argument_places, element_slot, elements_in, in_literal, in_property, literal_places, literal_tree, made_span, noted_in, operator_places, one_node, one_slot, relabelled, rest_slot, places_in, places_of, property_places, property_slot, shorthand_slot, slot_of, target_by, unnoted, within, Noded};
ghost use Rattle.parse_targets.specs.declared.widening.Widening.TheVariants as widening;
ghost use Rattle.parse_targets.specs.Targets as target;

use crate::cover::{
    child_at, is_literal, is_object, only_child, refuse_target, simple_target, two_children,
};
use crate::widening::{Notes, Widening, tell_places};
use js_base::{AssignmentOperator, DiagnosticKind, NoMemory, Span};
use parse_shared::diagnostics::{diagnostic_at, kept_so_far};
use parse_shared::nodes::no_flags;
use parse_shared::{
    NodeFlags, NodeId, NodeKind, Op, ParserAstBuilder, ParserConfig, ParserImpl, Stop,
};
use std::alloc::Global;

/// A node of a target, which is no name and no string.
fn make_target(
    ast: &mut ParserAstBuilder,
    kind: NodeKind,
    span: Span,
    children: Vec<Option<NodeId>>,
) -> Result<NodeId, NoMemory>
    requires { is_textual kind ≡ false }
    ensures { IfOk result (λ id. Noded ast.old ast.new (plain_label kind op.None span) children.items id) }
{
    ast.node(kind, span, Op::None, no_flags(), None, children)
}

/// A rest of a target.
fn make_rest(ast: &mut ParserAstBuilder, span: Span, found: NodeId) -> Result<NodeId, NoMemory>
    ensures { IfOk result (λ id. Noded ast.old ast.new (plain_label node.AssignmentTargetRest op.None span) (Some found ∷ []) id) }
{
    let kind = NodeKind::AssignmentTargetRest;
    ast.node_of_one(kind, span, Op::None, no_flags(), Some(found))
}

/// A property of a target that is a name alone, with an initialiser or without one.
fn make_shorthand(
    ast: &mut ParserAstBuilder,
    span: Span,
    reference: NodeId,
    initialiser: Option<NodeId>,
) -> Result<NodeId, NoMemory>
    ensures { IfOk result (λ id. Noded ast.old ast.new (plain_label node.AssignmentTargetPropertyIdentifier op.None span) (Some reference ∷ initialiser ∷ []) id) }
{
    let kind = NodeKind::AssignmentTargetPropertyIdentifier;
    let reference = Some(reference);
    ast.node_of_two(kind, span, Op::None, no_flags(), reference, initialiser)
}

/// A property of a target that has a name and a target.
fn make_property(
    ast: &mut ParserAstBuilder,
    span: Span,
    flags: NodeFlags,
    name: NodeId,
    target: Option<NodeId>,
) -> Result<NodeId, NoMemory>
    ensures { IfOk result (λ id. Noded ast.old ast.new (label_of node.AssignmentTargetPropertyProperty op.None flags span) (Some name ∷ target ∷ []) id) }
{
    let kind = NodeKind::AssignmentTargetPropertyProperty;
    ast.node_of_two(kind, span, Op::None, flags, Some(name), target)
}

/// The kind of the target that a literal is.
fn pattern_kind(in_object: bool) -> NodeKind
    ensures { kind_of result ≡ target.pattern_kind in_object }
{
    if in_object {
        NodeKind::ObjectAssignmentTarget
    } else {
        NodeKind::ArrayAssignmentTarget
    }
}

/// Whether it is the operator `=`.
fn is_equals(op: Op) -> bool
    ensures { result ≡ target.is_equals (op_of op) }
{
    match op {
        Op::Assignment(AssignmentOperator::Assign) => true,
        _ => false,
    }
}

/// The node of the target that an array or object literal stands for; none where it stands for none. The places where it
/// may be wider than a target are noted.
#[cycle(targets)]
pub fn convert_literal(
    alloc: Global,
    ast: &mut ParserAstBuilder,
    id: NodeId,
    notes: &mut Notes,
) -> Result<Option<NodeId>, NoMemory>
    requires { Stood ast.old id }
    ensures { IfOk result (λ found. OfNode ast.old id (λ l cs rs. Converted ast.old ast.new rs (noted_in notes.old) (noted_in notes.new) (places_in (in_literal (target.is_object l.kind)) cs) (one_node found) (slot_of (literal_tree l (elements_in (in_literal (target.is_object l.kind)) cs))))) }
{
    let in_object = is_object(ast.kind(id));
    let Some(elements) = convert_elements(alloc, ast, id, in_object, notes)? else {
        return Ok(None);
    };
    let span = ast.span(id);
    let node = make_target(ast, pattern_kind(in_object), span, elements)?;
    Ok(Some(node))
}

/// The elements of an array literal, or the properties of an object literal, as those of a target.
#[cycle(targets)]
fn convert_elements(
    alloc: Global,
    ast: &mut ParserAstBuilder,
    id: NodeId,
    in_object: bool,
    notes: &mut Notes,
) -> Result<Option<Vec<Option<NodeId>>>, NoMemory>
    requires { Stood ast.old id }
    ensures { IfOk result (λ found. OfNode ast.old id (λ l cs rs. Converted ast.old ast.new rs (noted_in notes.old) (noted_in notes.new) (places_in (in_literal in_object) cs) (option_map (λ v. v.items) found) (elements_in (in_literal in_object) cs))) }
{
    let children = Vec::from_slice(alloc, ast.children(id))?;
    let mut elements = Vec::new(alloc);
    let mut next = 0;
    'elements: while next < children.len() {
        let Some(child) = children[next] else {
            return Ok(None);
        };
        next += 1;
        let is_last = next == children.len();
        let Some(element) = convert_element(alloc, ast, child, is_last, in_object, notes)? else {
            return Ok(None);
        };
        elements.push(element)?;
    }
    Ok(Some(elements))
}

/// An element or property of a literal, the last one or another, as one of a target; a gap is an empty slot.
/// Reads: TargetElement.
#[cycle(targets)]
fn convert_element(
    alloc: Global,
    ast: &mut ParserAstBuilder,
    id: NodeId,
    is_last: bool,
    in_object: bool,
    notes: &mut Notes,
) -> Result<Option<Option<NodeId>>, NoMemory>
    requires { Stood ast.old id }
    ensures { IfOk result (λ found. OfNode ast.old id (λ l cs rs. Converted ast.old ast.new rs (noted_in notes.old) (noted_in notes.new) (places_of in_object l cs (places_in (within l.kind) cs)) (one_slot found) (element_slot is_last l cs (elements_in (within l.kind) cs)))) }
{
    if let NodeKind::Elision = ast.kind(id) {
        return Ok(Some(None));
    }
    let found = convert_item(alloc, ast, id, is_last, in_object, notes)?;
    Ok(some_slot(found))
}

/// A node in a slot.
fn some_slot(found: Option<NodeId>) -> Option<Option<NodeId>>
    ensures { one_slot result ≡ one_node found }
{
    match found {
        Some(id) => Some(Some(id)),
        None => None,
    }
}

/// An element that is no gap.
#[cycle(targets)]
fn convert_item(
    alloc: Global,
    ast: &mut ParserAstBuilder,
    id: NodeId,
    is_last: bool,
    in_object: bool,
    notes: &mut Notes,
) -> Result<Option<NodeId>, NoMemory>
    requires { Stood ast.old id }
    ensures { IfOk result (λ found. OfNode ast.old id (λ l cs rs. target.is_elision l.kind ≡ false → Converted ast.old ast.new rs (noted_in notes.old) (noted_in notes.new) (places_of in_object l cs (places_in (within l.kind) cs)) (one_node found) (element_slot is_last l cs (elements_in (within l.kind) cs)))) }
{
    match ast.kind(id) {
        NodeKind::SpreadElement => convert_rest(alloc, ast, id, is_last, in_object, notes),
        NodeKind::AssignmentExpression => convert_assignment(alloc, ast, id, notes),
        NodeKind::ObjectProperty => convert_property(alloc, ast, id, notes),
        _ => convert_target(alloc, ast, id, notes),
    }
}

/// Notes the argument of an object's rest, where it is a literal.
fn note_argument(
    notes: &mut Notes,
    in_object: bool,
    kind: NodeKind,
    argument: Span,
) -> Result<(), NoMemory>
    ensures { IfOk result (λ _. noted_in notes.new ≡ record { places = notes.old.places.items ++ literal_places in_object (kind_of kind) argument; misplaced = notes.old.misplaced }) }
{
    if in_object && is_literal(kind) {
        notes.places.push(Widening::RestTarget(argument))?;
    }
    Ok(())
}

/// A spread, as a rest.
#[cycle(targets)]
fn convert_rest(
    alloc: Global,
    ast: &mut ParserAstBuilder,
    id: NodeId,
    is_last: bool,
    in_object: bool,
    notes: &mut Notes,
) -> Result<Option<NodeId>, NoMemory>
    requires { Stood ast.old id }
    ensures { IfOk result (λ found. OfNode ast.old id (λ l cs rs. Converted ast.old ast.new rs (noted_in notes.old) (noted_in notes.new) (places_in (in_literal false) cs ++ (argument_places in_object cs ++ widening.Rest (made_span l.span) ∷ [])) (one_node found) (rest_slot is_last l (elements_in (in_literal false) cs)))) }
{
    let span = ast.span(id);
    if !is_last {
        notes.misplaced = Some(span);
        return Ok(None);
    }
    let Some(argument) = only_child(ast, id) else {
        return Ok(None);
    };
    let kind = ast.kind(argument);
    let written = ast.span(argument);
    let Some(found) = convert_target(alloc, ast, argument, notes)? else {
        return Ok(None);
    };
    note_argument(notes, in_object, kind, written)?;
    notes.places.push(Widening::Rest(span))?;
    let node = make_rest(ast, span, found)?;
    Ok(Some(node))
}

/// Notes the operator of an element that is an assignment, where it isn't `=`.
fn note_operator(notes: &mut Notes, op: Op, element: Span) -> Result<(), NoMemory>
    ensures { IfOk result (λ _. noted_in notes.new ≡ record { places = notes.old.places.items ++ operator_places (op_of op) element; misplaced = notes.old.misplaced }) }
{
    if !is_equals(op) {
        notes.places.push(Widening::Operator(element))?;
    }
    Ok(())
}

/// An assignment, as a target with its initialiser. Another operator than `=` is noted.
pub fn convert_assignment(
    alloc: Global,
    ast: &mut ParserAstBuilder,
    id: NodeId,
    notes: &mut Notes,
) -> Result<Option<NodeId>, NoMemory>
    requires { Stood ast.old id }
    ensures { IfOk result (λ found. OfNode ast.old id (λ l cs rs. target.is_assignment l.kind ≡ true → Converted ast.old ast.new rs (noted_in notes.old) (noted_in notes.new) (operator_places l.op (made_span l.span)) (one_node found) (Some (tree (relabelled assignment_target_with_default l) cs end)))) }
{
    let span = ast.span(id);
    note_operator(notes, ast.op(id), span)?;
    let children = Vec::from_slice(alloc, ast.children(id))?;
    let node = make_target(ast, NodeKind::AssignmentTargetWithDefault, span, children)?;
    Ok(Some(node))
}

/// A property that is a name alone: the name, as a reference, and what it is initialised by.
fn convert_shorthand(ast: &mut ParserAstBuilder, id: NodeId) -> Result<Option<NodeId>, NoMemory>
    requires { Stood ast.old id }
    ensures { IfOk result (λ found. OfNode ast.old id (λ l cs rs. Converted ast.old ast.new rs unnoted unnoted [] (one_node found) (shorthand_slot l cs))) }
{
    let Some(reference) = child_at(ast, id, 1) else {
        return Ok(None);
    };
    let initialiser = child_at(ast, id, 2);
    let span = ast.span(id);
    let node = make_shorthand(ast, span, reference, initialiser)?;
    Ok(Some(node))
}

/// A property of an object literal, as one of a target.
/// Reads: TargetProperty.
#[cycle(targets)]
pub fn convert_property(
    alloc: Global,
    ast: &mut ParserAstBuilder,
    id: NodeId,
    notes: &mut Notes,
) -> Result<Option<NodeId>, NoMemory>
    requires { Stood ast.old id }
    ensures { IfOk result (λ found. OfNode ast.old id (λ l cs rs. Converted ast.old ast.new rs (noted_in notes.old) (noted_in notes.new) (property_places l (places_in in_property cs)) (one_node found) (property_slot l cs (elements_in in_property cs)))) }
{
    let flags = ast.flags(id);
    if flags.shorthand {
        return convert_shorthand(ast, id);
    }
    let Some((name, value)) = two_children(ast, id) else {
        return Ok(None);
    };
    let span = ast.span(id);
    let Some(target) = convert_element(alloc, ast, value, true, false, notes)? else {
        return Ok(None);
    };
    let node = make_property(ast, span, flags, name, target)?;
    Ok(Some(node))
}

/// The node of the target that an expression stands for; none where it stands for none (ECMA-262, section 13.15.1).
/// Reads: Target.
#[cycle(targets)]
pub fn convert_target(
    alloc: Global,
    ast: &mut ParserAstBuilder,
    id: NodeId,
    notes: &mut Notes,
) -> Result<Option<NodeId>, NoMemory>
    requires { Stood ast.old id }
    ensures { IfOk result (λ found. OfNode ast.old id (λ l cs rs. Converted ast.old ast.new rs (noted_in notes.old) (noted_in notes.new) (cond (target.is_literal l.kind) (places_in (within l.kind) cs) []) (one_node found) (slot_of (target_by l cs (elements_in (within l.kind) cs))))) }
{
    if is_literal(ast.kind(id)) {
        return convert_literal(alloc, ast, id, notes);
    }
    Ok(simple_target(ast, id))
}

/// The node of the target that a literal of a parser's nodes stands for; none where it stands for none.
fn convert<C: ParserConfig>(
    p: &mut ParserImpl<'_, C>,
    id: NodeId,
    notes: &mut Notes,
) -> Result<Option<NodeId>, NoMemory>
    requires { Stood p.old.nodes id }
    ensures stays { IfOk result (λ _. p.new ≡ record p.old { nodes = p.new.nodes }) }
    ensures found { IfOk result (λ found. OfNode p.old.nodes id (λ l cs rs. Converted p.old.nodes p.new.nodes rs (noted_in notes.old) (noted_in notes.new) (places_in (in_literal (target.is_object l.kind)) cs) (one_node found) (slot_of (literal_tree l (elements_in (in_literal (target.is_object l.kind)) cs))))) }
{
    convert_literal(p.alloc, &mut p.ast, id, notes)
}

/// Gives up on a literal, which was read from a place on and is no target: a spread that isn't its last element is
/// told. Where a diagnostic was kept since, when there were so many, that is enough of it, and what stands here is told.
fn refuse_literal<C: ParserConfig>(
    p: &mut ParserImpl<'_, C>,
    start: u32,
    kept: usize,
    misplaced: Option<Span>,
) -> Stop
    requires at { Standing p.old }
    requires start { start ≤ p.old.prev_token_end }
    requires marked { length p.old.errors ≡ kept → Mark (goal p.old) p.old.text (refusal_at start p.old.prev_token_end misplaced) }
    ensures { GivesUp EndsParse p.old p.new result }
{
    let Some(spread) = misplaced else {
        return refuse_target(p, start, kept);
    };
    if kept_so_far(p) != kept {
        return p.set_unexpected();
    }
    p.set_fatal_error(diagnostic_at(DiagnosticKind::SpreadLastElement, spread))
}

/// The target that an array or object literal is, which was read from a place on. Where a diagnostic was kept since, when there were
/// so many, that is enough, whatever is wrong with it.
/// Reads: ArrayTarget, ObjectTarget.
pub fn literal_target<C: ParserConfig>(
    p: &mut ParserImpl<'_, C>,
    start: u32,
    id: NodeId,
    kept: usize,
) -> Result<NodeId, Stop>
    requires at { Standing p.old }
    requires start { start ≤ p.old.prev_token_end }
    requires whole { p.old.cut ≡ false }
    requires sign { EndsTarget p.old }
    requires read { LiteralRead start id kept p.old }
    ensures { TakesTarget start id kept p.old p.new result }
{
    let mut notes = Notes {
        places: Vec::new(p.alloc),
        misplaced: None,
    };
    let Some(target) = convert(p, id, &mut notes)? else {
        return Err(refuse_literal(p, start, kept, notes.misplaced));
    };
    if kept_so_far(p) == kept {
        tell_places(p, &notes.places)?;
    }
    Ok(target)
}
