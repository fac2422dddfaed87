//! The tree of a program.

ghost use Rattle.std.specs.Prelude.{◌≡◌, ◌<◌, ◌↔◌, false, length, map, is_some, slice_get, IfOk, IsTrue, Some, ℕ, List, chars};
ghost use Rattle.js_base.specs.Spans.{LiesIn};
ghost use Rattle.js_grammar.specs.Trees.{Label, Slots, Tree as SeenTree};
ghost use Rattle.js_grammar.specs.CoverInitialisers.{initialised_in};
ghost use Rattle.js_grammar.specs.Lines.{tree_text};
ghost use Rattle.js_tree.specs.Covering.{HasNone, placed};
ghost use Rattle.js_tree.specs.Counting.{IsCount};
ghost use Rattle.js_tree.specs.Nodes.{node_at};
ghost use Rattle.js_tree.specs.Holding.{Stands, IsTree};
ghost use Rattle.js_tree.specs.Sources.{text_of, name_of, IsString, units_of, raw_bytes, digit_bytes, IsKey, prop_name_of};
ghost use Rattle.js_tree.specs.Binding.{Binds};
ghost use Rattle.js_base.specs.part_text.Decoding.{cooked};

use crate::columns::Columns;
use crate::flags::NodeFlags;
use crate::id::NodeId;
use crate::kind::NodeKind;
use crate::op::Op;
use crate::reading::{digits_of, with_line_feeds};
use js_base::{JsStr, NoMemory, Span, Text, decode_template};
use std::alloc::Global;
use std::marker::Model;

/// The nodes of a whole program, seen as the list of them by number. Number 0 is Program's. Not every node is reached from
/// Program.
#[derive(Drop)]
pub struct Tree {
    columns: Columns,
    node_count: usize,
    /// Whether a shorthand with an initialiser may be in it.
    may_cover: bool,
}

impl Model for Tree {
    ghost use Rattle.std.specs.Prelude.{List};
    ghost use Rattle.js_tree.specs.Nodes.{Node};

    ghost Value = { List Node };

    ghost view = { λ t. t.columns };

    ghost use Rattle.std.specs.Prelude.{◌≡◌, false};
    ghost use Rattle.js_tree.specs.Counting.{IsCount};
    ghost use Rattle.js_tree.specs.Covering.{HasNone};

    ghost invariant = { λ t. IsCount t.columns t.node_count × (t.may_cover ≡ false → HasNone t.columns) };
}

impl Tree {
    /// The spans of the shorthands with an initialiser (CoverInitializedName, ECMA-262, section 13.2.5), in the order of the
    /// tree: a tree of the cover grammar may have some, a strict one has none. The only error is want of memory.
    pub fn cover_initializers(&self, alloc: Global) -> Result<Vec<Span>, NoMemory>
        ensures { IfOk result (λ spans. (t : SeenTree) → IsTree self.now t → spans.items ≡ map placed (initialised_in t.slots)) }
    {
        if !self.may_cover {
            return Ok(Vec::new(alloc));
        }
        self.columns.cover_initializers(alloc)
    }

    /// The tree of finished columns.
    pub(crate) fn new(columns: Columns, node_count: usize, may_cover: bool) -> Tree
        requires count { IsCount columns node_count }
        requires covers { may_cover ≡ false → HasNone columns }
        ensures { result ≡ columns }
    {
        Tree {
            columns,
            node_count,
            may_cover,
        }
    }

    /// Whether the number is of this tree.
    pub fn contains(&self, id: NodeId) -> bool
        ensures { IsTrue result ↔ (id.0 < length self.now) }
    {
        self.columns.contains(id)
    }

    /// What the node is.
    pub fn kind(&self, id: NodeId) -> NodeKind
        requires { id.0 < length self.now }
        ensures { result ≡ (node_at self.now id).kind }
    {
        self.columns.kind(id)
    }

    /// The op of the node.
    pub fn op(&self, id: NodeId) -> Op
        requires { id.0 < length self.now }
        ensures { result ≡ (node_at self.now id).op }
    {
        self.columns.op(id)
    }

    /// The flags of the node.
    pub fn flags(&self, id: NodeId) -> NodeFlags
        requires { id.0 < length self.now }
        ensures { result ≡ (node_at self.now id).flags }
    {
        self.columns.flags(id)
    }

    /// The span of the node, in bytes of its text.
    pub fn span(&self, id: NodeId) -> Span
        requires { id.0 < length self.now }
        ensures { result ≡ (node_at self.now id).span }
    {
        self.columns.span(id)
    }

    /// How many slots the node has.
    pub fn child_count(&self, id: NodeId) -> usize
        requires { id.0 < length self.now }
        ensures { result ≡ length (node_at self.now id).children }
    {
        self.columns.children(id).len()
    }

    /// The child in a slot of the node, counted from 0; none where the slot is empty. The slot has to be below the count.
    pub fn child(&self, id: NodeId, slot: usize) -> Option<NodeId>
        requires contained { id.0 < length self.now }
        requires slot { slot < length (node_at self.now id).children }
        ensures { slice_get (node_at self.now id).children slot ≡ Some result }
    {
        self.columns.children(id)[slot]
    }

    /// The slots of the node in order, without copying.
    pub fn children(&self, id: NodeId) -> &[Option<NodeId>]
        requires { id.0 < length self.now }
        ensures { result.now ≡ (node_at self.now id).children }
    {
        self.columns.children(id)
    }

    /// The kinds of all nodes, in the order of their numbers, without copying.
    pub fn kinds(&self) -> &[NodeKind]
        ensures { result.now ≡ map (λ n. n.kind) self.now }
    {
        self.columns.kinds()
    }

    /// Whether the node keeps a name of its own.
    pub fn owns_name(&self, id: NodeId) -> bool
        requires { id.0 < length self.now }
        ensures { result ≡ is_some (node_at self.now id).name }
    {
        self.columns.kept_name(id).is_some()
    }

    /// The text at the node's span, without copying. Condition: it is the text that the node was made for, so the span
    /// lies in it and splits no character.
    pub fn text<'s>(&self, id: NodeId, source: &'s str) -> &'s str
        requires contained { id.0 < length self.now }
        requires lies { LiesIn (node_at self.now id).span source.now }
        ensures { result.now ≡ text_of (node_at self.now id) source.now }
    {
        self.columns.text(id, source)
    }

    /// The name of the node (ECMA-262, section 12.7): the one that it keeps, else its text without copying, a `#` before it
    /// aside. Condition: as in `text`.
    pub fn name<'s>(&'s self, id: NodeId, source: &'s str) -> &'s str
        requires contained { id.0 < length self.now }
        requires lies { LiesIn (node_at self.now id).span source.now }
        ensures { result.now ≡ name_of (node_at self.now id) source.now }
    {
        self.columns.name(id, source)
    }

    /// The code units that the string literal stands for: its SV (ECMA-262, section 12.9.4.2). Condition: as in `text`, and
    /// the node's text there is a string literal. The only error is want of memory.
    pub fn string_value(&self, alloc: Global, id: NodeId, source: &str) -> Result<JsStr, NoMemory>
        requires contained { id.0 < length self.now }
        requires lies { LiesIn (node_at self.now id).span source.now }
        requires string { IsString (node_at self.now id) source.now }
        ensures { IfOk result (λ units. Some units ≡ units_of (node_at self.now id) source.now) }
    {
        self.columns.string_value(alloc, id, source)
    }

    /// The code units that the template part stands for: its TV (ECMA-262, section 12.9.6.1); none exactly where an escape
    /// in it is ill-formed. Condition: as in `text`. The only error is want of memory.
    pub fn cooked(&self, alloc: Global, id: NodeId, source: &str) -> Result<Option<JsStr>, NoMemory>
        requires contained { id.0 < length self.now }
        requires lies { LiesIn (node_at self.now id).span source.now }
        ensures { IfOk result (λ units. units ≡ cooked (chars (text_of (node_at self.now id) source.now))) }
    {
        decode_template(alloc, self.columns.text(id, source))
    }

    /// The text of the template part with CR LF and CR as LF: its TRV (ECMA-262, section 12.9.6.2). Condition: as in `text`.
    /// The only error is want of memory.
    pub fn raw(&self, alloc: Global, id: NodeId, source: &str) -> Result<Text, NoMemory>
        requires contained { id.0 < length self.now }
        requires lies { LiesIn (node_at self.now id).span source.now }
        ensures { IfOk result (λ text. text ≡ raw_bytes (node_at self.now id) source.now) }
    {
        with_line_feeds(alloc, self.columns.text(id, source))
    }

    /// The digits of the big integer (ECMA-262, section 12.9.3) without prefix, separators and the `n` behind them.
    /// Condition: as in `text`. The only error is want of memory.
    pub fn digits(&self, alloc: Global, id: NodeId, source: &str) -> Result<Text, NoMemory>
        requires contained { id.0 < length self.now }
        requires lies { LiesIn (node_at self.now id).span source.now }
        ensures { IfOk result (λ text. text ≡ digit_bytes (node_at self.now id) source.now) }
    {
        digits_of(alloc, self.columns.text(id, source))
    }

    /// The nodes that bind the names of the pattern or declaration, in the order of the text (ECMA-262, section 8.2.1,
    /// BoundNames); none of any other node. The only error is want of memory.
    pub fn bound_names(&self, alloc: Global, id: NodeId) -> Result<Vec<NodeId>, NoMemory>
        requires { id.0 < length self.now }
        ensures { IfOk result (λ ids. (l : Label) (cs : Slots) (rs : List ℕ) → Stands self.now id.0 l cs rs → Binds self.now ids.items l cs rs) }
    {
        self.columns.bound_names(alloc, id)
    }

    /// The name of a key: of a name, of a private name without its `#`, or the text of a string literal without a lone
    /// surrogate; none of any other node. Condition: as in `text`, and the text of a StringLiteral is a string literal. The
    /// only error is want of memory.
    pub fn prop_name(
        &self,
        alloc: Global,
        id: NodeId,
        source: &str,
    ) -> Result<Option<Text>, NoMemory>
        requires contained { id.0 < length self.now }
        requires lies { LiesIn (node_at self.now id).span source.now }
        requires key { IsKey (node_at self.now id).kind (node_at self.now id) source.now }
        ensures { IfOk result (λ name. name ≡ prop_name_of (node_at self.now id) source.now) }
    {
        self.columns.prop_name(alloc, id, source)
    }

    /// How many nodes are reached from Program, its own included.
    pub fn node_count(&self) -> usize
        ensures { IsCount self.now result }
    {
        self.node_count
    }

    /// The lines of the tree, a node before its own slots: two spaces for each level, the kind, the span, the op where there
    /// is one, and the flags that are set; an empty slot is a `-`. They are counted first, and their memory is taken once;
    /// more than 2,147,483,648 bytes count as want of memory, which is the only error.
    pub fn tree_lines(&self, alloc: Global) -> Result<Vec<u8>, NoMemory>
        ensures { IfOk result (λ bytes. (t : SeenTree) → IsTree self.now t → bytes.items ≡ tree_text t) }
    {
        self.columns.tree_lines(alloc)
    }
}
