//! The nodes that a parser makes.

ghost use Rattle.std.specs.Prelude.{◌≡◌, ◌<◌, ◌↔◌, ◌∷◌, [], length, map, is_some, slice_get, IfOk, IsTrue, Some, None, take, ℕ, List, chars};
ghost use Rattle.js_base.specs.Spans.{LiesIn};
ghost use Rattle.js_grammar.specs.Trees.{Label, Slots};
ghost use Rattle.js_tree.specs.Nodes.{node_at, new_node, empty_program, flags_set, program_node};
ghost use Rattle.js_tree.specs.Holding.{Makes, Stands, HoldsAll, IsTree, with_program, program_tree};
ghost use Rattle.js_tree.specs.Sources.{text_of, name_of, IsString, units_of, raw_bytes, digit_bytes, IsKey, prop_name_of};
ghost use Rattle.js_tree.specs.Binding.{Binds};
ghost use Rattle.js_base.specs.part_text.Decoding.{cooked};

use crate::columns::{Columns, column_for};
use crate::count::count_with;
use crate::cover::{covers_with, may_cover};
use crate::flags::NodeFlags;
use crate::id::NodeId;
use crate::kind::NodeKind;
use crate::op::Op;
use crate::reading::{digits_of, with_line_feeds};
use crate::tree::Tree;
use js_base::{JsStr, NoMemory, Span, Text, decode_template};
use std::alloc::Global;
use std::marker::Model;

/// How many bytes of a dense text a node stands for.
const BYTES_OF_A_NODE: usize = 3;

/// The nodes made so far, seen as the list of them by number. Number 0 is Program's: at 0..0 without a child, until the
/// tree is finished.
#[derive(Drop)]
pub struct ParserAstBuilder {
    columns: Columns,
    /// How many nodes are reached from each number.
    counts: Vec<u32>,
    /// Whether what may be a shorthand with an initialiser is reached from each number.
    covers: Vec<bool>,
}

impl Model for ParserAstBuilder {
    ghost use Rattle.std.specs.Prelude.{List};
    ghost use Rattle.js_tree.specs.Nodes.{Node};

    ghost Value = { List Node };

    ghost view = { λ t. t.columns };

    ghost use Rattle.js_tree.specs.Counting.{AreCounts};
    ghost use Rattle.js_tree.specs.Covering.{AreCovers};

    ghost invariant = { λ t. AreCounts t.columns t.counts.items × AreCovers t.columns t.covers.items };
}

impl ParserAstBuilder {
    /// Program's node alone. The only error is want of memory.
    pub fn new(alloc: Global) -> Result<Self, NoMemory>
        ensures { IfOk result (λ ns. ns ≡ empty_program ∷ []) }
    {
        Self::with_room(alloc, 0)
    }

    /// Program's node alone, with room for the nodes of a text of so many bytes, as far as there is memory. The only error
    /// is want of memory.
    pub fn for_text(alloc: Global, bytes: usize) -> Result<Self, NoMemory>
        ensures { IfOk result (λ ns. ns ≡ empty_program ∷ []) }
    {
        Self::with_room(alloc, bytes / BYTES_OF_A_NODE)
    }

    /// Program's node alone, with room for so many nodes where there is that much memory.
    fn with_room(alloc: Global, nodes: usize) -> Result<Self, NoMemory>
        ensures { IfOk result (λ ns. ns ≡ empty_program ∷ []) }
    {
        let mut counts = column_for(alloc, nodes);
        counts.push(1)?;
        let mut covers = column_for(alloc, nodes);
        covers.push(false)?;
        Ok(ParserAstBuilder {
            columns: Columns::new(alloc, nodes)?,
            counts,
            covers,
        })
    }

    /// One more node. After `NoMemory` all is as before.
    #[inline(always)]
    fn append(
        &mut self,
        kind: NodeKind,
        span: Span,
        op: Op,
        flags: NodeFlags,
        name: Option<Text>,
        children: &[Option<NodeId>],
    ) -> Result<NodeId, NoMemory>
        ensures { Makes (new_node kind span op flags name children.now) self.old self.new result }
    {
        let count = count_with(self.counts.as_slice(), children)?;
        let itself = may_cover(kind, children.len());
        let cover = covers_with(self.covers.as_slice(), itself, children);
        self.counts.reserve(1)?;
        self.covers.reserve(1)?;
        let id = self.columns.append(kind, span, op, flags, name, children)?;
        self.counts.push_reserved(count);
        self.covers.push_reserved(cover);
        Ok(id)
    }

    /// Makes a node, whose number is one above the last one given; all other nodes stay. A name is kept where one is given.
    /// The children are numbers of nodes made before. The only error is want of memory, and all is then as before.
    #[inline(always)]
    pub fn node(
        &mut self,
        kind: NodeKind,
        span: Span,
        op: Op,
        flags: NodeFlags,
        name: Option<Text>,
        children: Vec<Option<NodeId>>,
    ) -> Result<NodeId, NoMemory>
        ensures { Makes (new_node kind span op flags name children.items) self.old self.new result }
    {
        self.append(kind, span, op, flags, name, children.as_slice())
    }

    /// Makes a node as `node` does, without a child and without a list.
    #[inline(always)]
    pub fn leaf(
        &mut self,
        kind: NodeKind,
        span: Span,
        op: Op,
        flags: NodeFlags,
        name: Option<Text>,
    ) -> Result<NodeId, NoMemory>
        ensures { Makes (new_node kind span op flags name []) self.old self.new result }
    {
        self.append(kind, span, op, flags, name, &[])
    }

    /// Makes a node as `node` does, with one slot and without a list.
    #[inline(always)]
    pub fn node_of_one(
        &mut self,
        kind: NodeKind,
        span: Span,
        op: Op,
        flags: NodeFlags,
        child: Option<NodeId>,
    ) -> Result<NodeId, NoMemory>
        ensures { Makes (new_node kind span op flags None (child ∷ [])) self.old self.new result }
    {
        self.append(kind, span, op, flags, None, &[child])
    }

    /// Makes a node as `node` does, with two slots and without a list.
    #[inline(always)]
    pub fn node_of_two(
        &mut self,
        kind: NodeKind,
        span: Span,
        op: Op,
        flags: NodeFlags,
        first: Option<NodeId>,
        second: Option<NodeId>,
    ) -> Result<NodeId, NoMemory>
        ensures { Makes (new_node kind span op flags None (first ∷ second ∷ [])) self.old self.new result }
    {
        self.append(kind, span, op, flags, None, &[first, second])
    }

    /// Makes a node as `node` does, with three slots, given in an array and without a list.
    #[inline(always)]
    pub fn node_of_three(
        &mut self,
        kind: NodeKind,
        span: Span,
        op: Op,
        flags: NodeFlags,
        children: [Option<NodeId>; 3],
    ) -> Result<NodeId, NoMemory>
        ensures { Makes (new_node kind span op flags None children) self.old self.new result }
    {
        self.append(kind, span, op, flags, None, &children)
    }

    /// Gives a node these flags; all else stays.
    pub fn set_flags(&mut self, id: NodeId, flags: NodeFlags)
        requires { id.0 < length self.old }
        ensures { self.new ≡ flags_set self.old id flags }
    {
        self.columns.set_flags(id, flags);
    }

    /// How many nodes there are; there is one at least, Program's.
    pub fn len(&self) -> usize
        ensures len { result ≡ length self.now }
        ensures some { 0 < length self.now }
    {
        self.columns.len()
    }

    /// Keeps the first nodes, so many, one at least, and drops those behind them.
    pub fn truncate(&mut self, len: usize)
        requires { 0 < len }
        ensures { self.new ≡ take len self.old }
    {
        self.columns.truncate(len);
        self.counts.truncate(len);
        self.covers.truncate(len);
    }

    /// The tree of a program of this span and these children. Where the children stand for slots and reach no number twice,
    /// and Program's not at all, the nodes stand for the tree of these slots. The only error is want of memory.
    pub fn finish(self, span: Span, children: Vec<Option<NodeId>>) -> Result<Tree, NoMemory>
        ensures nodes { IfOk result (λ t. t ≡ with_program (program_node span children.items) self) }
        ensures tree { IfOk result (λ t. (cs : Slots) → HoldsAll self 1 (length self) children.items cs → IsTree t (program_tree span cs)) }
    {
        let count = count_with(self.counts.as_slice(), children.as_slice())?;
        let columns = self.columns.finish(span, children.as_slice())?;
        let covers = covers_with(self.covers.as_slice(), false, children.as_slice());
        Ok(Tree::new(columns, count as usize, covers))
    }

    /// Whether the number is of this builder.
    pub fn contains(&self, id: NodeId) -> bool
        ensures { IsTrue result ↔ (id.0 < length self.now) }
    {
        self.columns.contains(id)
    }

    /// What the node is.
    pub fn kind(&self, id: NodeId) -> NodeKind
        requires { id.0 < length self.now }
        ensures { result ≡ (node_at self.now id).kind }
    {
        self.columns.kind(id)
    }

    /// The op of the node.
    pub fn op(&self, id: NodeId) -> Op
        requires { id.0 < length self.now }
        ensures { result ≡ (node_at self.now id).op }
    {
        self.columns.op(id)
    }

    /// The flags of the node.
    pub fn flags(&self, id: NodeId) -> NodeFlags
        requires { id.0 < length self.now }
        ensures { result ≡ (node_at self.now id).flags }
    {
        self.columns.flags(id)
    }

    /// The span of the node, in bytes of its text.
    pub fn span(&self, id: NodeId) -> Span
        requires { id.0 < length self.now }
        ensures { result ≡ (node_at self.now id).span }
    {
        self.columns.span(id)
    }

    /// How many slots the node has.
    pub fn child_count(&self, id: NodeId) -> usize
        requires { id.0 < length self.now }
        ensures { result ≡ length (node_at self.now id).children }
    {
        self.columns.children(id).len()
    }

    /// The child in a slot of the node, counted from 0; none where the slot is empty. The slot has to be below the count.
    pub fn child(&self, id: NodeId, slot: usize) -> Option<NodeId>
        requires contained { id.0 < length self.now }
        requires slot { slot < length (node_at self.now id).children }
        ensures { slice_get (node_at self.now id).children slot ≡ Some result }
    {
        self.columns.children(id)[slot]
    }

    /// The slots of the node in order, without copying.
    pub fn children(&self, id: NodeId) -> &[Option<NodeId>]
        requires { id.0 < length self.now }
        ensures { result.now ≡ (node_at self.now id).children }
    {
        self.columns.children(id)
    }

    /// The kinds of all nodes, in the order of their numbers, without copying.
    pub fn kinds(&self) -> &[NodeKind]
        ensures { result.now ≡ map (λ n. n.kind) self.now }
    {
        self.columns.kinds()
    }

    /// Whether the node keeps a name of its own.
    pub fn owns_name(&self, id: NodeId) -> bool
        requires { id.0 < length self.now }
        ensures { result ≡ is_some (node_at self.now id).name }
    {
        self.columns.kept_name(id).is_some()
    }

    /// The text at the node's span, without copying. Condition: it is the text that the node was made for, so the span
    /// lies in it and splits no character.
    pub fn text<'s>(&self, id: NodeId, source: &'s str) -> &'s str
        requires contained { id.0 < length self.now }
        requires lies { LiesIn (node_at self.now id).span source.now }
        ensures { result.now ≡ text_of (node_at self.now id) source.now }
    {
        self.columns.text(id, source)
    }

    /// The name of the node (ECMA-262, section 12.7): the one that it keeps, else its text without copying, a `#` before it
    /// aside. Condition: as in `text`.
    pub fn name<'s>(&'s self, id: NodeId, source: &'s str) -> &'s str
        requires contained { id.0 < length self.now }
        requires lies { LiesIn (node_at self.now id).span source.now }
        ensures { result.now ≡ name_of (node_at self.now id) source.now }
    {
        self.columns.name(id, source)
    }

    /// The code units that the string literal stands for: its SV (ECMA-262, section 12.9.4.2). Condition: as in `text`, and
    /// the node's text there is a string literal. The only error is want of memory.
    pub fn string_value(&self, alloc: Global, id: NodeId, source: &str) -> Result<JsStr, NoMemory>
        requires contained { id.0 < length self.now }
        requires lies { LiesIn (node_at self.now id).span source.now }
        requires string { IsString (node_at self.now id) source.now }
        ensures { IfOk result (λ units. Some units ≡ units_of (node_at self.now id) source.now) }
    {
        self.columns.string_value(alloc, id, source)
    }

    /// The code units that the template part stands for: its TV (ECMA-262, section 12.9.6.1); none exactly where an escape
    /// in it is ill-formed. Condition: as in `text`. The only error is want of memory.
    pub fn cooked(&self, alloc: Global, id: NodeId, source: &str) -> Result<Option<JsStr>, NoMemory>
        requires contained { id.0 < length self.now }
        requires lies { LiesIn (node_at self.now id).span source.now }
        ensures { IfOk result (λ units. units ≡ cooked (chars (text_of (node_at self.now id) source.now))) }
    {
        decode_template(alloc, self.columns.text(id, source))
    }

    /// The text of the template part with CR LF and CR as LF: its TRV (ECMA-262, section 12.9.6.2). Condition: as in `text`.
    /// The only error is want of memory.
    pub fn raw(&self, alloc: Global, id: NodeId, source: &str) -> Result<Text, NoMemory>
        requires contained { id.0 < length self.now }
        requires lies { LiesIn (node_at self.now id).span source.now }
        ensures { IfOk result (λ text. text ≡ raw_bytes (node_at self.now id) source.now) }
    {
        with_line_feeds(alloc, self.columns.text(id, source))
    }

    /// The digits of the big integer (ECMA-262, section 12.9.3) without prefix, separators and the `n` behind them.
    /// Condition: as in `text`. The only error is want of memory.
    pub fn digits(&self, alloc: Global, id: NodeId, source: &str) -> Result<Text, NoMemory>
        requires contained { id.0 < length self.now }
        requires lies { LiesIn (node_at self.now id).span source.now }
        ensures { IfOk result (λ text. text ≡ digit_bytes (node_at self.now id) source.now) }
    {
        digits_of(alloc, self.columns.text(id, source))
    }

    /// The nodes that bind the names of the pattern or declaration, in the order of the text (ECMA-262, section 8.2.1,
    /// BoundNames); none of any other node. The only error is want of memory.
    pub fn bound_names(&self, alloc: Global, id: NodeId) -> Result<Vec<NodeId>, NoMemory>
        requires { id.0 < length self.now }
        ensures { IfOk result (λ ids. (l : Label) (cs : Slots) (rs : List ℕ) → Stands self.now id.0 l cs rs → Binds self.now ids.items l cs rs) }
    {
        self.columns.bound_names(alloc, id)
    }

    /// The name of a key: of a name, of a private name without its `#`, or the text of a string literal without a lone
    /// surrogate; none of any other node. Condition: as in `text`, and the text of a StringLiteral is a string literal. The
    /// only error is want of memory.
    pub fn prop_name(
        &self,
        alloc: Global,
        id: NodeId,
        source: &str,
    ) -> Result<Option<Text>, NoMemory>
        requires contained { id.0 < length self.now }
        requires lies { LiesIn (node_at self.now id).span source.now }
        requires key { IsKey (node_at self.now id).kind (node_at self.now id) source.now }
        ensures { IfOk result (λ name. name ≡ prop_name_of (node_at self.now id) source.now) }
    {
        self.columns.prop_name(alloc, id, source)
    }
}
