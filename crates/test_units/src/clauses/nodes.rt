//! Calls of `js_tree`.

ghost use Rattle.std.specs.Prelude.{◌≡◌, ◌<◌, length, IfOk};
ghost use Rattle.js_base.specs.Spans.{LiesIn};
ghost use Rattle.js_grammar.specs.Trees.{Slots};
ghost use Rattle.js_tree.specs.Nodes.{node_at, new_node, program_node};
ghost use Rattle.js_tree.specs.Holding.{Makes, HoldsAll, IsTree, with_program, program_tree};
ghost use Rattle.js_tree.specs.Sources.{raw_bytes};

use js_base::{NoMemory, Span, Text};
use js_tree::{NodeFlags, NodeId, NodeKind, Op, ParserAstBuilder, Tree};
use std::alloc::Global;

/// `ParserAstBuilder::node`.
pub fn node(
    ast: &mut ParserAstBuilder,
    kind: NodeKind,
    span: Span,
    op: Op,
    flags: NodeFlags,
    name: Option<Text>,
    children: Vec<Option<NodeId>>,
) -> Result<NodeId, NoMemory>
    ensures { Makes (new_node kind span op flags name children.items) ast.old ast.new result }
{
    ast.node(kind, span, op, flags, name, children)
}

/// `ParserAstBuilder::finish`.
pub fn finish(
    ast: ParserAstBuilder,
    span: Span,
    children: Vec<Option<NodeId>>,
) -> Result<Tree, NoMemory>
    ensures nodes { IfOk result (λ t. t ≡ with_program (program_node span children.items) ast) }
    ensures tree { IfOk result (λ t. (cs : Slots) → HoldsAll ast 1 (length ast) children.items cs → IsTree t (program_tree span cs)) }
{
    ast.finish(span, children)
}

/// `Tree::raw`.
pub fn raw(alloc: Global, tree: &Tree, id: NodeId, source: &str) -> Result<Text, NoMemory>
    requires contained { id.0 < length tree.now }
    requires lies { LiesIn (node_at tree.now id).span source.now }
    ensures { IfOk result (λ text. text ≡ raw_bytes (node_at tree.now id) source.now) }
{
    tree.raw(alloc, id, source)
}
