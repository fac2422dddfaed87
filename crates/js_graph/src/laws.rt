//! A law of graphs.

ghost use Rattle.js_graph.specs.Unreached.{UnreachedModulesDontMatter};

/// What `resolve_export` and `exported_names` answer is told by the modules that paths reach: where two graphs agree on
/// those, a name of a module reaches the same bindings in both, and the module exports the same names. So an answer stays
/// when modules are added or linked that no path reaches.
pub fn law_of_unreached_modules()
    ensures { UnreachedModulesDontMatter }
{}
