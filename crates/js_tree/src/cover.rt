//! Shorthands with an initialiser, which are right in a target alone (CoverInitializedName, ECMA-262, section 13.2.5).

ghost use Rattle.std.specs.Prelude.{◌≡◌, ◌<◌, ◌&&◌, ◌||◌, ◌++◌, ◌∷◌, [], cond, length, map, nat_lt, IfOk, OnOk};
ghost use Rattle.js_grammar.specs.CoverInitialisers.{initialised_in, is_property};
ghost use Rattle.js_grammar.specs.Trees.{Tree as SeenTree};
ghost use Rattle.js_tree.specs.Covering.{covered_in, is_covering, placed};
ghost use Rattle.js_tree.specs.Holding.{IsTree};
ghost use Rattle.js_tree.specs.Labels.{kind_of};
ghost use Rattle.js_tree.specs.Nodes.{node_at};

use crate::bits::bits_of;
use crate::bound::push_children;
use crate::columns::Columns;
use crate::id::NodeId;
use crate::kind::NodeKind;
use js_base::{NoMemory, Span};
use std::alloc::Global;

/// The bit of the flag of shorthands.
const SHORTHAND: u16 = 8;

/// Whether a node of this kind with so many slots may be one.
#[inline(always)]
pub(crate) fn may_cover(kind: NodeKind, slots: usize) -> bool
    ensures { result ≡ (is_property (kind_of kind) && nat_lt 2 slots) }
{
    matches!(kind, NodeKind::ObjectProperty) && slots > 2
}

/// Whether a node that may be one is reached from one more node with these children: it may be one itself, or one is
/// reached from its children, by what is known of the nodes before it.
#[inline(always)]
pub(crate) fn covers_with(covers: &[bool], itself: bool, children: &[Option<NodeId>]) -> bool
    ensures { result ≡ (itself || covered_in covers.now (length covers.now) children.now) }
{
    let mut found = itself;
    for i in 0..children.len() {
        if let Some(child) = children[i] {
            if child.0 < covers.len() {
                found |= covers[child.0];
            }
        }
    }
    found
}

impl Columns {
    /// Whether a node is a shorthand with an initialiser.
    fn is_initialized(&self, id: NodeId) -> bool
        requires { id.0 < length self.now }
        ensures { result ≡ is_covering (node_at self.now id) }
    {
        matches!(self.kind(id), NodeKind::ObjectProperty)
            && bits_of(self.flags(id)) == SHORTHAND
            && self.children(id).len() > 2
    }

    /// Notes a node's span, if it is one.
    fn note_initialized(&self, spans: &mut Vec<Span>, id: NodeId) -> Result<(), NoMemory>
        ensures { OnOk result (spans.new.items ≡ spans.old.items ++ cond (is_covering (node_at self.now id)) ((node_at self.now id).span ∷ []) []) }
    {
        if self.contains(id) && self.is_initialized(id) {
            spans.push(self.span(id))?;
        }
        Ok(())
    }

    /// The spans of those in the tree, in its order.
    pub(crate) fn cover_initializers(&self, alloc: Global) -> Result<Vec<Span>, NoMemory>
        ensures { IfOk result (λ spans. (t : SeenTree) → IsTree self.now t → spans.items ≡ map placed (initialised_in t.slots)) }
    {
        let mut spans = Vec::new(alloc);
        let mut stack = Vec::new(alloc);
        push_children(&mut stack, self.len(), self.children(NodeId(0)))?;
        'nodes: while let Some(id) = stack.pop() {
            self.note_initialized(&mut spans, id)?;
            self.push_children_of(&mut stack, id)?;
        }
        Ok(spans)
    }
}
