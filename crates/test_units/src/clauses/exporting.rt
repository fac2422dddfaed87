//! The call of `js_json`.

ghost use Rattle.std.specs.Prelude.{◌≡◌, false, ◌≤◌, ◌*◌, ◌∷◌, IfOk};
ghost use Rattle.std.specs.List.{All};
ghost use Rattle.serde_json.specs.Data.{depth};
ghost use Rattle.serde_json.specs.View.{view};
ghost use Rattle.serde_json.specs.Written.{has_float};
ghost use Rattle.js_base.specs.Spans.{LiesIn};
ghost use Rattle.js_grammar.specs.Trees.{Tree as SeenTree};
ghost use Rattle.js_tree.specs.Holding.{IsTree};
ghost use Rattle.js_json.specs.Json.{max_levels, json_of};
ghost use Rattle.js_json.specs.Names.{AreNamed};

use js_base::NoMemory;
use js_json::tree_json;
use js_tree::Tree;
use serde_json::Value;
use std::alloc::Global;

/// `tree_json`.
pub fn json(alloc: Global, tree: &Tree, source: &str) -> Result<Value, NoMemory>
    requires { All (λ n. LiesIn n.span source.now) tree.now }
    ensures json { IfOk result (λ v. (t : SeenTree) (is : IsTree tree.now t) → AreNamed source.now tree.now (0 ∷ is.children.numbers) → view v ≡ json_of source.now t) }
    ensures depth { IfOk result (λ v. depth (view v) ≤ 2 * max_levels) }
    ensures integers { IfOk result (λ v. has_float (view v) ≡ false) }
{
    tree_json(alloc, tree, source)
}
