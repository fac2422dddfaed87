//! What the nodes of a whole tree add to the record of its module (ECMA-262, 16.2.1.7.1).

ghost use Rattle.std.specs.Prelude.{◌≡◌, ◌<◌, ◌++◌, ◌∷◌, [], ℕ, List, All, false, true, length, map, IfOk, OnOk};
ghost use Rattle.js_base.specs.declared.span.Span.{Span as Placed};
ghost use Rattle.js_grammar.specs.Modules as def;
ghost use Rattle.js_grammar.specs.Modules.{found_in as all_in, in_order_of_ends, part_of, record_of, record_errors};
ghost use Rattle.js_grammar.specs.Trees.{Label, Slots, Tree};
ghost use Rattle.js_tree.specs.Holding.{Stands, StandsAll, HoldsAll, program_tree};
ghost use Rattle.js_tree.specs.Labels.{kind_of};
ghost use Rattle.js_record.specs.Checked.{AreHeld};
ghost use Rattle.js_record.specs.Shown.{IsRead, OfTree};
ghost use Rattle.js_record.specs.Walked.{adds_at, AreFound, AreStanding, IsPlace, forward, kept_before};

use crate::builder::ModuleVisits;
use crate::default_word::default_word;
use crate::record::ModuleRecord;
use js_base::{Diagnostics, NoMemory, SourceType};
use js_tree::{NodeId, NodeKind, ParserAstBuilder};
use part_visits::ModuleRecordBuilder;
use std::alloc::Global;

/// The record of the module whose Program has these children, and the early errors of its imports and exports. The children
/// have to stand for trees, no number twice, of which every node is read from the source. The only error is want of memory.
pub fn record_of_program(
    alloc: Global,
    source_type: SourceType,
    tree: &ParserAstBuilder,
    source: &str,
    children: &[Option<NodeId>],
) -> Result<(ModuleRecord, Diagnostics), NoMemory>
    requires { AreHeld tree.now source.now children.now }
    ensures { IfOk result (λ r. (s : Placed) (cs : Slots) → HoldsAll tree.now 1 (length tree.now) children.now cs → r ≡ (record_of source.now (program_tree s cs), record_errors source.now (program_tree s cs))) }
{
    let mut builder = ModuleRecordBuilder::new(alloc, source_type);
    visit_all(&mut builder, alloc, tree, source, children)?;
    builder.build()
}

/// Visits each node in these slots that adds something, in the order of their ends.
fn visit_all(
    builder: &mut ModuleRecordBuilder,
    alloc: Global,
    tree: &ParserAstBuilder,
    source: &str,
    slots: &[Option<NodeId>],
) -> Result<(), NoMemory>
    requires { AreHeld tree.now source.now slots.now }
    ensures { OnOk result ((cs : Slots) (rs : List ℕ) → StandsAll tree.now (length tree.now) slots.now cs rs → builder.new ≡ builder.old ++ map (part_of source.now) (in_order_of_ends (all_in cs))) }
{
    if !has_any(tree) {
        return Ok(());
    }
    let found = found_in(alloc, tree, slots)?;
    visit_each(builder, tree, source, &found)
}

/// Whether any node adds something, in the tree or not. A walk of the tree is due only then.
fn has_any(tree: &ParserAstBuilder) -> bool
    ensures { result ≡ false → (id : NodeId) → id.0 < length tree.now → adds_at tree.now id ≡ false }
{
    for i in 0..tree.kinds().len() {
        if adds(tree.kind(NodeId(i))) {
            return true;
        }
    }
    false
}

/// Whether a node of this kind adds something.
#[inline(always)]
fn adds(kind: NodeKind) -> bool
    ensures { result ≡ def.adds (kind_of kind) }
{
    matches!(
        kind,
        NodeKind::ImportDeclaration
            | NodeKind::ExportNamedDeclaration
            | NodeKind::ExportFromDeclaration
            | NodeKind::ExportAllDeclaration
            | NodeKind::ExportDeclaration
            | NodeKind::ExportDefaultDeclaration
            | NodeKind::ImportExpression
            | NodeKind::ImportMeta
    )
}

/// The nodes in these slots that add something, in the order of their ends, the last one first.
fn found_in(
    alloc: Global,
    tree: &ParserAstBuilder,
    slots: &[Option<NodeId>],
) -> Result<Vec<NodeId>, NoMemory>
    requires { AreStanding tree.now slots.now }
    ensures { IfOk result (λ found. (cs : Slots) (rs : List ℕ) → StandsAll tree.now (length tree.now) slots.now cs rs → AreFound tree.now found.items (in_order_of_ends (all_in cs))) }
{
    let mut found = Vec::new(alloc);
    let mut stack = Vec::new(alloc);
    push_slots(&mut stack, tree.kinds().len(), slots)?;
    'nodes: while let Some(id) = stack.pop() {
        keep(&mut found, tree, id)?;
        push_slots(&mut stack, id.0, tree.children(id))?;
    }
    Ok(found)
}

/// Puts the children in slots on the stack, the last on top, but for those whose number isn't below the bound.
fn push_slots(
    stack: &mut Vec<NodeId>,
    below: usize,
    slots: &[Option<NodeId>],
) -> Result<(), NoMemory>
    ensures { OnOk result (stack.new.items ≡ stack.old.items ++ forward below slots.now) }
{
    let mut i = 0;
    while i < slots.len() {
        if let Some(id) = slots[i] {
            if id.0 < below {
                stack.push(id)?;
            }
        }
        i += 1;
    }
    Ok(())
}

/// Keeps the node, if it adds something, where it stands by its end: those that are kept stand behind it, or in it.
fn keep(found: &mut Vec<NodeId>, tree: &ParserAstBuilder, id: NodeId) -> Result<(), NoMemory>
    requires contained { id.0 < length tree.now }
    requires found { All (λ other. other.0 < length tree.now) found.old.items }
    ensures { OnOk result ((l : Label) (cs : Slots) (rs : List ℕ) → Stands tree.now id.0 l cs rs → (ts : List Tree) → AreFound tree.now found.old.items ts → AreFound tree.now found.new.items (kept_before l cs ts)) }
{
    if !adds(tree.kind(id)) {
        return Ok(());
    }
    let at = place_of(found, tree, tree.span(id).end);
    found.insert(at, id)?;
    Ok(())
}

/// Behind how many of the nodes one with this end stands, where the last one stands first.
fn place_of(found: &Vec<NodeId>, tree: &ParserAstBuilder, end: u32) -> usize
    requires { All (λ id. id.0 < length tree.now) found.now.items }
    ensures { IsPlace tree.now found.now.items end result }
{
    let mut at = found.len();
    while at > 0 && tree.span(found[at - 1]).end < end {
        at -= 1;
    }
    at
}

/// Visits the nodes, the last one first.
fn visit_each(
    builder: &mut ModuleRecordBuilder,
    tree: &ParserAstBuilder,
    source: &str,
    found: &Vec<NodeId>,
) -> Result<(), NoMemory>
    requires { All (IsRead tree.now source.now) found.now.items }
    ensures { OnOk result ((ts : List Tree) → AreFound tree.now found.now.items ts → builder.new ≡ builder.old ++ map (part_of source.now) ts) }
{
    let mut i = found.len();
    while i > 0 {
        i -= 1;
        visit(builder, tree, source, found[i])?;
    }
    Ok(())
}

/// Visits a node of a kind that adds something.
fn visit(
    builder: &mut ModuleRecordBuilder,
    tree: &ParserAstBuilder,
    source: &str,
    id: NodeId,
) -> Result<(), NoMemory>
    requires { IsRead tree.now source.now id }
    ensures { OnOk result (adds_at tree.now id ≡ true → OfTree tree.now id (λ l cs. builder.new ≡ builder.old ++ part_of source.now (record { label = l; slots = cs }) ∷ [])) }
{
    match tree.kind(id) {
        NodeKind::ImportDeclaration => builder.visit_import_declaration(tree, source, id),
        NodeKind::ExportAllDeclaration => builder.visit_export_all_declaration(tree, source, id),
        NodeKind::ExportFromDeclaration => builder.visit_export_from_declaration(tree, source, id),
        NodeKind::ExportNamedDeclaration => {
            builder.visit_export_named_declaration(tree, source, id)
        }
        NodeKind::ExportDeclaration => builder.visit_export_declaration(tree, source, id),
        NodeKind::ExportDefaultDeclaration => visit_default(builder, tree, source, id),
        NodeKind::ImportExpression => builder.visit_import_expression(tree, id),
        NodeKind::ImportMeta => builder.visit_import_meta(tree.span(id)),
        _ => Ok(()),
    }
}

/// Visits an `export default`.
fn visit_default(
    builder: &mut ModuleRecordBuilder,
    tree: &ParserAstBuilder,
    source: &str,
    id: NodeId,
) -> Result<(), NoMemory>
    requires { IsRead tree.now source.now id }
    ensures { OnOk result (OfTree tree.now id (λ l cs. builder.new ≡ builder.old ++ def.export_default_part source.now (def.default_word source.now l) l cs ∷ [])) }
{
    let word = default_word(source, tree.span(id).start)?;
    builder.visit_export_default_declaration(tree, source, id, word)
}
