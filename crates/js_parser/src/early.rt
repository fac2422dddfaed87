//! Early rules (ECMA-262, section 5.2.7) that a tree is looked through for, since the grammar doesn't have them.

ghost use Rattle.std.specs.Prelude.{◌≡◌, ◌<◌, ◌≤◌, ◌++◌, ℕ, List, chars, is_some, length, true, false, None, IfOk, OnOk};
ghost use Rattle.js_base.specs.part_text.Decoding.{cooked};
ghost use Rattle.js_grammar.specs.Names as names;
ghost use Rattle.js_grammar.specs.Trees.{Tree as SeenTree};
ghost use Rattle.js_tree.specs.Holding.{IsTree};
ghost use Rattle.js_tree.specs.Labels.{kind_of};
ghost use Rattle.js_tree.specs.Nodes.{node_at};
ghost use Rattle.js_tree.specs.Sources.{text_of};
ghost use Rattle.js_parser.specs.declared.early.Position.{Position as Standing};
ghost use Rattle.js_parser.specs.declared.early.Position.TheVariants.{Anywhere, InTemplate};
ghost use Rattle.js_parser.specs.Broken as broken;
ghost use Rattle.js_parser.specs.Broken.{past, within, rule_at, breaks, name_fault_at, told_of, told_fault, told_in, told_rule, pending, pending_within, pending_alike, first_end};
ghost use Rattle.js_grammar.specs.EarlyRules.{is_member};
ghost use Rattle.js_parser.specs.AttributeKeys.{is_clause};
ghost use Rattle.js_core.specs.laws_shared.NodeTexts.{NodeFits};
ghost use Rattle.js_core.specs.laws_shared.States.{NodesLie};

use crate::attribute_keys::{has_keys, tell_keys};
use crate::flags::has_u_and_v;
use crate::member_names::name_fault;
use js_base::{Diagnostic, DiagnosticKind, Diagnostics, NoMemory};
use js_tree::{NodeId, NodeKind, Tree};
use std::alloc::Global;

/// Where a node stands, as far as a rule asks.
#[derive(Clone, Copy)]
enum Position {
    /// Where none asks.
    Anywhere,
    /// As the tag of a template.
    Tag,
    /// Behind the tag of a template.
    Tagged,
    /// In a template that isn't tagged.
    InTemplate,
}

impl Position {
    /// That of what stands behind a node at this one.
    fn past(self) -> Position
        ensures { result ≡ past self }
    {
        match self {
            Position::Tag => Position::Tagged,
            other => other,
        }
    }

    /// That of the first child of a node at this one.
    fn within(self, kind: NodeKind) -> Position
        ensures { result ≡ within self (kind_of kind) }
    {
        match kind {
            NodeKind::TaggedTemplateExpression => Position::Tag,
            NodeKind::TemplateLiteral => match self {
                Position::Tagged => Position::Anywhere,
                _ => Position::InTemplate,
            },
            _ => Position::Anywhere,
        }
    }
}

/// A node that is still to be looked at.
#[derive(Clone, Copy)]
struct Pending {
    id: NodeId,
    position: Position,
}

/// A diagnostic for each node of the tree that breaks a rule, in its order: a regular expression with the flags `u` and
/// `v`, both (section 22.2.3.4), a part without a cooked text of a template that isn't tagged (sections 13.2.8.1 and
/// 12.9.6.2), a member of a class that may not be named as it is (section 15.7.1), which is told at its key, and a key that
/// stands again in its WithClause (section 16.2.2.1). The only error is want of memory.
pub fn early_errors(alloc: Global, tree: &Tree, source: &str) -> Result<Diagnostics, NoMemory>
    requires { NodesLie source.now tree.now }
    ensures { IfOk result (λ told. (t : SeenTree) → IsTree tree.now t → told ≡ told_in source.now Anywhere t.slots) }
{
    let mut told = Diagnostics::new(alloc);
    if !has_suspect(alloc, tree, source)? {
        return Ok(told);
    }
    let mut stack = Vec::new(alloc);
    push_children(
        &mut stack,
        Position::Anywhere,
        tree.kinds().len(),
        tree.children(NodeId(0)),
    )?;
    'nodes: while let Some(node) = stack.pop() {
        tell(&mut told, alloc, tree, node, source)?;
        push_within(&mut stack, tree, node)?;
    }
    Ok(told)
}

/// Whether any node breaks a rule where most is asked, or has keys that may stand again, in the tree or not. A walk of
/// the tree is due only then.
fn has_suspect(alloc: Global, tree: &Tree, source: &str) -> Result<bool, NoMemory>
    requires { NodesLie source.now tree.now }
    ensures some { IfOk result (λ found. found ≡ true → 0 < length tree.now) }
    ensures none { IfOk result (λ found. found ≡ false → (id : NodeId) → id.0 < length tree.now → breaks source.now tree.now id ≡ false) }
{
    for i in 0..tree.kinds().len() {
        if breaks_in_template(alloc, tree, NodeId(i), source)? {
            return Ok(true);
        }
    }
    Ok(false)
}

/// Whether the node breaks a rule where most is asked, or has keys that may stand again.
#[inline(always)]
fn breaks_in_template(
    alloc: Global,
    tree: &Tree,
    id: NodeId,
    source: &str,
) -> Result<bool, NoMemory>
    requires contained { id.0 < length tree.now }
    requires fit { NodesLie source.now tree.now }
    ensures { IfOk result (λ found. found ≡ breaks source.now tree.now id) }
{
    if !may_break(tree.kind(id)) {
        return Ok(false);
    }
    let rule = broken_rule(alloc, tree, id, Position::InTemplate, source)?;
    if rule.is_some() {
        return Ok(true);
    }
    let fault = name_fault(alloc, tree, id, source)?;
    Ok(fault.is_some() || has_keys(tree, id))
}

/// Whether a node of this kind breaks a rule, by what its text is and where it stands, by its name or by its keys.
#[inline(always)]
fn may_break(kind: NodeKind) -> bool
    ensures rule { result ≡ false → (p : Standing) (w : List ℕ) → broken.broken_rule p (kind_of kind) w ≡ None }
    ensures name { result ≡ false → is_member (kind_of kind) ≡ false }
    ensures keys { result ≡ false → is_clause (kind_of kind) ≡ false }
{
    matches!(
        kind,
        NodeKind::RegExpLiteral
            | NodeKind::TemplateElement
            | NodeKind::MethodDefinition
            | NodeKind::PropertyDefinition
            | NodeKind::AccessorProperty
            | NodeKind::WithClause
    )
}

/// The rule that the node breaks, standing at the position.
#[inline(always)]
fn broken_rule(
    alloc: Global,
    tree: &Tree,
    id: NodeId,
    position: Position,
    source: &str,
) -> Result<Option<DiagnosticKind>, NoMemory>
    requires contained { id.0 < length tree.now }
    requires fits { NodeFits source.now (node_at tree.now id) }
    ensures { IfOk result (λ kind. kind ≡ rule_at source.now tree.now id position) }
{
    match (tree.kind(id), position) {
        (NodeKind::RegExpLiteral, _) if has_u_and_v(tree.text(id, source)) => {
            Ok(Some(DiagnosticKind::RegExpFlagUAndV))
        }
        (NodeKind::TemplateElement, Position::InTemplate)
            if !has_cooked(alloc, tree, id, source)? => {
            Ok(Some(DiagnosticKind::TemplateLiteral))
        }
        _ => Ok(None),
    }
}

/// Whether the part of a template has a cooked text (section 12.9.6.1), as it does where no backslash stands in it.
fn has_cooked(alloc: Global, tree: &Tree, id: NodeId, source: &str) -> Result<bool, NoMemory>
    requires contained { id.0 < length tree.now }
    requires fits { NodeFits source.now (node_at tree.now id) }
    ensures { IfOk result (λ has. has ≡ is_some (cooked (chars (text_of (node_at tree.now id) source.now)))) }
{
    if !has_backslash(tree.text(id, source)) {
        return Ok(true);
    }
    let units = tree.cooked(alloc, id, source)?;
    Ok(units.is_some())
}

/// Whether a backslash stands in a text.
pub fn has_backslash(text: &str) -> bool
    ensures { result ≡ names.has_backslash (chars text.now) }
{
    for c in text.chars() {
        if c == '\\' {
            return true;
        }
    }
    false
}

/// Tells that the node breaks a rule, if it does.
fn tell(
    told: &mut Diagnostics,
    alloc: Global,
    tree: &Tree,
    node: Pending,
    source: &str,
) -> Result<(), NoMemory>
    requires { NodesLie source.now tree.now }
    ensures { OnOk result (told.new ≡ told.old ++ told_of source.now tree.now node) }
{
    if !tree.contains(node.id) {
        return Ok(());
    }
    tell_rule(told, alloc, tree, node, source)?;
    tell_name(told, alloc, tree, node.id, source)?;
    tell_keys(told, alloc, tree, node.id, source)
}

/// Tells that it breaks one by what its text is and where it stands.
fn tell_rule(
    told: &mut Diagnostics,
    alloc: Global,
    tree: &Tree,
    node: Pending,
    source: &str,
) -> Result<(), NoMemory>
    requires contained { node.id.0 < length tree.now }
    requires fits { NodeFits source.now (node_at tree.now node.id) }
    ensures { OnOk result (told.new ≡ told.old ++ told_rule (rule_at source.now tree.now node.id node.position) (node_at tree.now node.id).span) }
{
    let Some(kind) = broken_rule(alloc, tree, node.id, node.position, source)? else {
        return Ok(());
    };
    told.push(Diagnostic {
        kind,
        span: tree.span(node.id),
        first: None,
        second: None,
    })
}

/// Tells that it breaks one by its name.
fn tell_name(
    told: &mut Diagnostics,
    alloc: Global,
    tree: &Tree,
    id: NodeId,
    source: &str,
) -> Result<(), NoMemory>
    requires contained { id.0 < length tree.now }
    requires fit { NodesLie source.now tree.now }
    ensures { OnOk result (told.new ≡ told.old ++ told_fault (name_fault_at source.now tree.now id)) }
{
    let Some(fault) = name_fault(alloc, tree, id, source)? else {
        return Ok(());
    };
    told.push(fault)
}

/// Puts the children of the node on the stack, the first on top; a child's number lies below its node's.
fn push_within(stack: &mut Vec<Pending>, tree: &Tree, node: Pending) -> Result<(), NoMemory>
    ensures { OnOk result (stack.new.items ≡ stack.old.items ++ pending_within tree.now node) }
{
    if !tree.contains(node.id) {
        return Ok(());
    }
    let first = node.position.within(tree.kind(node.id));
    push_children(stack, first, node.id.0, tree.children(node.id))
}

/// Puts the children in slots on the stack, the first on top and at the position, but for those whose number isn't below
/// the bound.
fn push_children(
    stack: &mut Vec<Pending>,
    first: Position,
    below: usize,
    slots: &[Option<NodeId>],
) -> Result<(), NoMemory>
    ensures { OnOk result (stack.new.items ≡ stack.old.items ++ pending first below slots.now) }
{
    let end = first_end(slots);
    push_alike(stack, first.past(), below, &slots[end..])?;
    push_alike(stack, first, below, &slots[..end])
}

/// Where the first child's slot ends; all slots, where none has a child.
fn first_end(slots: &[Option<NodeId>]) -> usize
    ensures is { result ≡ first_end slots.now }
    ensures within { result ≤ length slots.now }
{
    for i in 0..slots.len() {
        if slots[i].is_some() {
            return i + 1;
        }
    }
    slots.len()
}

/// The same of children that stand at one position, all of them.
fn push_alike(
    stack: &mut Vec<Pending>,
    position: Position,
    below: usize,
    slots: &[Option<NodeId>],
) -> Result<(), NoMemory>
    ensures { OnOk result (stack.new.items ≡ stack.old.items ++ pending_alike position below slots.now) }
{
    let mut i = slots.len();
    while i > 0 {
        i -= 1;
        if let Some(id) = slots[i] {
            if id.0 < below {
                stack.push(Pending { id, position })?;
            }
        }
    }
    Ok(())
}
