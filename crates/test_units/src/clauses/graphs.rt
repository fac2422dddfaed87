//! Calls of `js_graph`.

ghost use Rattle.std.specs.Prelude.{◌≡◌, ◌<◌, IfOk, OnOk, OnErr, IsTrue, length};
ghost use Rattle.js_graph.specs.Modules.{are_linked, with_link};
ghost use Rattle.js_graph.specs.Names.{AreExported};
ghost use Rattle.js_graph.specs.Resolving.{Resolves, Bindings};

use js_base::NoMemory;
use js_graph::{Graph, Resolution, Texts};
use std::alloc::Global;

/// `Graph::link`.
pub fn link(graph: &mut Graph, number: usize, request: &str, target: usize) -> Result<(), NoMemory>
    requires exists { number < length graph.old }
    requires target_exists { target < length graph.old }
    ensures ok { OnOk result (graph.new ≡ with_link graph.old number request.now target) }
    ensures err { OnErr result (graph.new ≡ graph.old) }
{
    graph.link(number, request, target)
}

/// `Graph::resolve_export`.
pub fn resolve_export(
    alloc: Global,
    graph: &Graph,
    number: usize,
    name: &str,
) -> Result<Resolution, NoMemory>
    requires exists { number < length graph.now }
    requires linked { IsTrue (are_linked graph.now) }
    ensures resolved { IfOk result (Resolves (Bindings graph.now number name.now)) }
{
    graph.resolve_export(alloc, number, name)
}

/// `Graph::exported_names`.
pub fn exported_names(alloc: Global, graph: &Graph, number: usize) -> Result<Texts, NoMemory>
    requires exists { number < length graph.now }
    requires linked { IsTrue (are_linked graph.now) }
    ensures exported { IfOk result (AreExported graph.now number) }
{
    graph.exported_names(alloc, number)
}
