//! The example of README.md.

use js_base::{NoMemory, SourceType, Span};
use js_run::js_parser::Parser;
use std::alloc::Global;

/// How many nodes the tree of a module has, or the span of its first diagnostic.
pub fn nodes_or_fault(alloc: Global, text: &str) -> Result<Result<usize, Span>, NoMemory> {
    let parsed = Parser::new(alloc, text, SourceType::module()).parse()?;
    Ok(match parsed.diagnostics.get(0) {
        Some(fault) => Err(fault.span),
        None => Ok(parsed.program.tree.node_count()),
    })
}

#[test]
fn it_counts_or_tells(rt: HostRuntime) {
    let counted = nodes_or_fault(rt.alloc(), "let a = 1;");
    assert!(rt; matches!(counted, Ok(Ok(5))));
    let told = nodes_or_fault(rt.alloc(), "a b");
    assert!(rt; matches!(told, Ok(Err(Span { start: 2, end: 3 }))));
}
