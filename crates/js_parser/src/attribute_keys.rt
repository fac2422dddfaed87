//! The early rule that no key stands twice in a WithClause (ECMA-262, section 16.2.2.1).

ghost use Rattle.std.specs.Prelude.{◌≡◌, ◌<◌, ◌++◌, ◌∷◌, List, Some, IfOk, OnOk, chars, length, slice_get};
ghost use Rattle.js_base.specs.part_text.Escapes.{code_units};
ghost use Rattle.js_grammar.specs.EarlyRules.{key_units};
ghost use Rattle.js_grammar.specs.Trees.{Label};
ghost use Rattle.js_tree.specs.Labels.{kind_of};
ghost use Rattle.js_tree.specs.Nodes.{label, node_at};
ghost use Rattle.js_tree.specs.declared.id.NodeId.{NodeId as Id};
ghost use Rattle.js_tree.specs.declared.kind.NodeKind.TheVariants.{IdentifierName, StringLiteral};
ghost use Rattle.js_core.specs.laws_shared.NodeTexts.{NodeFits};
ghost use Rattle.js_core.specs.laws_shared.States.{NodesLie};
ghost use Rattle.js_parser.specs.AttributeKeys as keys;
ghost use Rattle.js_parser.specs.AttributeKeys.{value_of, same_before, told_again, told_keys_at, AreLast};
ghost use Rattle.js_parser.specs.MemberNodes.{with_node};

use crate::key_value::KeyValue;
use crate::member_names::child_at;
use indexmap::IndexMap;
use js_base::{Diagnostic, DiagnosticKind, Diagnostics, NoMemory, Span};
use js_tree::{NodeId, NodeKind, Tree};
use std::alloc::Global;

/// Whether the node is a WithClause where a key may stand again.
#[inline(always)]
pub fn has_keys(tree: &Tree, id: NodeId) -> bool
    requires { id.0 < length tree.now }
    ensures { result ≡ keys.has_keys tree.now id }
{
    matches!(tree.kind(id), NodeKind::WithClause) && tree.child_count(id) > 1
}

/// Tells each key of a WithClause that stands again in it, in order; of any other node nothing. The only error is want of
/// memory.
pub fn tell_keys(
    told: &mut Diagnostics,
    alloc: Global,
    tree: &Tree,
    clause: NodeId,
    source: &str,
) -> Result<(), NoMemory>
    requires contained { clause.0 < length tree.now }
    requires fit { NodesLie source.now tree.now }
    ensures { OnOk result (told.new ≡ told.old ++ told_keys_at source.now tree.now clause) }
{
    if !has_keys(tree, clause) {
        return Ok(());
    }
    let mut last = IndexMap::new(alloc);
    for i in 0..tree.child_count(clause) {
        if let Some(key) = key_at(tree, clause, i) {
            tell_key(told, &mut last, alloc, tree, key, source)?;
        }
    }
    Ok(())
}

/// The key of the attribute in a slot of the WithClause, if there is one.
fn key_at(tree: &Tree, clause: NodeId, slot: usize) -> Option<NodeId>
    requires { clause.0 < length tree.now }
    ensures is { result ≡ keys.key_at tree.now (with_node tree.now (slice_get (node_at tree.now clause).children slot)) }
    ensures contained { (key : Id) → result ≡ Some key → key.0 < length tree.now }
{
    let Some(attribute) = child_at(tree, clause, slot) else {
        return None;
    };
    child_at(tree, attribute, 0)
}

/// Tells the key if one of the same value stood before, and notes its place.
fn tell_key(
    told: &mut Diagnostics,
    last: &mut IndexMap<KeyValue, Span>,
    alloc: Global,
    tree: &Tree,
    key: NodeId,
    source: &str,
) -> Result<(), NoMemory>
    requires within { key.0 < length tree.now }
    requires fits { NodeFits source.now (node_at tree.now key) }
    ensures told { OnOk result ((before : List Label) → AreLast source.now last.old.entries before → told.new ≡ told.old ++ told_again (label (node_at tree.now key)) (same_before source.now before (label (node_at tree.now key)))) }
    ensures noted { OnOk result ((before : List Label) → AreLast source.now last.old.entries before → AreLast source.now last.new.entries (label (node_at tree.now key) ∷ before)) }
{
    let Some(value) = key_value(alloc, tree, key, source)? else {
        return Ok(());
    };
    let span = tree.span(key);
    let Some(first) = last.insert(value, span)? else {
        return Ok(());
    };
    told.push(Diagnostic {
        kind: DiagnosticKind::Redeclaration,
        span,
        first: Some(first),
        second: None,
    })
}

/// The value of a key that is a name or a string; none of any other node.
fn key_value(
    alloc: Global,
    tree: &Tree,
    key: NodeId,
    source: &str,
) -> Result<Option<KeyValue>, NoMemory>
    requires within { key.0 < length tree.now }
    requires fits { NodeFits source.now (node_at tree.now key) }
    ensures { IfOk result (λ value. value ≡ value_of source.now (kind_of (node_at tree.now key).kind) (label (node_at tree.now key))) }
{
    match tree.kind(key) {
        NodeKind::IdentifierName => {
            let value = KeyValue::of_name(alloc, spelled(tree, key, source))?;
            Ok(Some(value))
        }
        NodeKind::StringLiteral => string_value(alloc, tree, key, source),
        _ => Ok(None),
    }
}

/// What an IdentifierName spells (section 12.7.1).
fn spelled<'s>(tree: &'s Tree, key: NodeId, source: &'s str) -> &'s str
    requires within { key.0 < length tree.now }
    requires fits { NodeFits source.now (node_at tree.now key) }
    requires kind { (node_at tree.now key).kind ≡ IdentifierName }
    ensures { key_units source.now (label (node_at tree.now key)) ≡ Some (code_units (chars result.now)) }
{
    if tree.owns_name(key) {
        return tree.name(key, source);
    }
    tree.text(key, source)
}

/// The value of a StringLiteral (section 12.9.4.2).
fn string_value(
    alloc: Global,
    tree: &Tree,
    key: NodeId,
    source: &str,
) -> Result<Option<KeyValue>, NoMemory>
    requires within { key.0 < length tree.now }
    requires fits { NodeFits source.now (node_at tree.now key) }
    requires kind { (node_at tree.now key).kind ≡ StringLiteral }
    ensures { IfOk result (λ value. value ≡ key_units source.now (label (node_at tree.now key))) }
{
    let string = tree.string_value(alloc, key, source)?;
    let value = KeyValue::of_string(alloc, &string)?;
    Ok(Some(value))
}
