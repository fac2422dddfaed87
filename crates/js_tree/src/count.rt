//! How many nodes a tree has.

ghost use Rattle.std.specs.Prelude.{◌≡◌, ◌++◌, IfOk, OnOk, length, suc};
ghost use Rattle.js_tree.specs.Counting.{counted};
ghost use Rattle.js_tree.specs.Nodes.{node_at};
ghost use Rattle.js_tree.specs.Parts.{below_all};

use crate::bound::push_children;
use crate::columns::Columns;
use crate::id::NodeId;
use js_base::NoMemory;

/// How many nodes are reached from one more node with these children, its own included, by the counts of the nodes before
/// it. More than fit 32 bits count as want of memory.
#[inline(always)]
pub(crate) fn count_with(counts: &[u32], children: &[Option<NodeId>]) -> Result<u32, NoMemory>
    ensures { IfOk result (λ count. count ≡ suc (counted counts.now (length counts.now) children.now)) }
{
    let mut count = 1u32;
    for i in 0..children.len() {
        if let Some(child) = children[i] {
            if child.0 < counts.len() {
                let Some(more) = count.checked_add(counts[child.0]) else {
                    return Err(NoMemory);
                };
                count = more;
            }
        }
    }
    Ok(count)
}

impl Columns {
    /// Puts the children of a node on the stack.
    pub(crate) fn push_children_of(
        &self,
        stack: &mut Vec<NodeId>,
        id: NodeId,
    ) -> Result<(), NoMemory>
        ensures { OnOk result (stack.new.items ≡ stack.old.items ++ below_all id.0 (node_at self.now id).children) }
    {
        if !self.contains(id) {
            return Ok(());
        }
        push_children(stack, id.0, self.children(id))
    }
}
