//! The JSON form of a tree.

ghost use Rattle.std.specs.Prelude.{◌≡◌, false, ◌<◌, ◌≤◌, ◌*◌, ◌+◌, ◌∷◌, length, IfOk, ℕ, List};
ghost use Rattle.std.specs.List.{All};
ghost use Rattle.serde_json.specs.Data.{depth};
ghost use Rattle.serde_json.specs.View.{view};
ghost use Rattle.serde_json.specs.Written.{has_float};
ghost use Rattle.js_base.specs.Spans.{LiesIn};
ghost use Rattle.js_grammar.specs.Trees.{Slots, Tree as SeenTree};
ghost use Rattle.js_tree.specs.Holding.{StandsAll, IsTree};
ghost use Rattle.js_json.specs.Json.{max_levels, json_of, slots_json, list};
ghost use Rattle.js_json.specs.Names.{AreNamed};

use crate::node::node_value;
use js_base::NoMemory;
use js_tree::{NodeId, Tree};
use serde_json::Value;
use std::alloc::Global;

/// How many levels a tree may have that has a value, Program's own included.
pub const MAX_LEVELS: usize = 10_000;

/// The values of slots in their order, whose trees have at most so many levels.
fn slots_value(
    alloc: Global,
    tree: &Tree,
    slots: &[Option<NodeId>],
    source: &str,
    levels: usize,
) -> Result<Value, NoMemory>
    requires { All (λ n. LiesIn n.span source.now) tree.now }
    ensures values { IfOk result (λ v. (below : ℕ) (cs : Slots) (rs : List ℕ) → StandsAll tree.now below slots.now cs rs → AreNamed source.now tree.now rs → view v ≡ list (slots_json source.now cs)) }
    ensures depth { IfOk result (λ v. depth (view v) ≤ 2 * levels + 1) }
    ensures integers { IfOk result (λ v. has_float (view v) ≡ false) }
{
    let mut values = Vec::with_capacity(alloc, slots.len())?;
    for slot in slots {
        let value = match *slot {
            Some(id) if tree.contains(id) => {
                if levels == 0 {
                    return Err(NoMemory);
                }
                let children = slots_value(alloc, tree, tree.children(id), source, levels - 1)?;
                node_value(alloc, tree, id, source, children)?
            }
            _ => Value::Null,
        };
        values.push(value)?;
    }
    Ok(Value::Array(values))
}

/// The JSON form of the tree: an object for each node, with the keys `children`, `end`, `flags`, `name`, `op`, `raw`, `start`
/// and `type`, and null for each empty slot. Places are offsets in bytes. Condition: the text is the one that the nodes were
/// made for, so that the span of each lies in it and splits no character. The value is `json_of` of the text and the tree
/// where `Tree::name` reads each name in the tree as what its text spells (ECMA-262, section 12.7.1), as it does on a tree
/// that was parsed without diagnostics.
///
/// The only error is want of memory. That is also the answer where the tree has more than `MAX_LEVELS` levels.
pub fn tree_json(alloc: Global, tree: &Tree, source: &str) -> Result<Value, NoMemory>
    requires { All (λ n. LiesIn n.span source.now) tree.now }
    ensures json { IfOk result (λ v. (t : SeenTree) (is : IsTree tree.now t) → AreNamed source.now tree.now (0 ∷ is.children.numbers) → view v ≡ json_of source.now t) }
    ensures depth { IfOk result (λ v. depth (view v) ≤ 2 * max_levels) }
    ensures integers { IfOk result (λ v. has_float (view v) ≡ false) }
{
    let program = NodeId(0);
    // Nodes that stand for a tree have Program's; others have no value that is claimed.
    if !tree.contains(program) {
        return Ok(Value::Null);
    }
    let children = slots_value(alloc, tree, tree.children(program), source, MAX_LEVELS - 1)?;
    node_value(alloc, tree, program, source, children)
}
