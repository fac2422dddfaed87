//! Graphs of records that are made by hand: what the exports of their modules stand for, and which there are.

use crate::record::{Step, visit_all};
use crate::rows::is_so;
use js_base::{NoMemory, SourceType};
use js_graph::{BindingName, Graph, Resolution, Texts};
use js_record::{ModuleRecordBuilder, ModuleVisits};
use js_tree::NodeKind;
use std::alloc::Global;

/// A text and its nodes.
type Source = (&'static str, &'static [Step]);

/// The texts of the modules.
static SOURCES: [Source; 7] = [
    (
        "export * from 'b'; export * from 'c'",
        &[
            Step(NodeKind::StringLiteral, 14, 17, ""),
            Step(NodeKind::ExportAllDeclaration, 0, 18, "-n-"),
            Step(NodeKind::StringLiteral, 33, 36, ""),
            Step(NodeKind::ExportAllDeclaration, 19, 36, "-n-"),
        ],
    ),
    (
        "export var x",
        &[
            Step(NodeKind::BindingIdentifier, 11, 12, ""),
            Step(NodeKind::VariableDeclarator, 11, 12, "n-"),
            Step(NodeKind::VariableDeclaration, 7, 12, "n"),
            Step(NodeKind::ExportDeclaration, 0, 12, "n"),
        ],
    ),
    (
        "export * from 'b'",
        &[
            Step(NodeKind::StringLiteral, 14, 17, ""),
            Step(NodeKind::ExportAllDeclaration, 0, 17, "-n-"),
        ],
    ),
    (
        "export * from 'a'",
        &[
            Step(NodeKind::StringLiteral, 14, 17, ""),
            Step(NodeKind::ExportAllDeclaration, 0, 17, "-n-"),
        ],
    ),
    (
        "export default 1",
        &[
            Step(NodeKind::NumericLiteral, 15, 16, ""),
            Step(NodeKind::ExportDefaultDeclaration, 0, 16, "n"),
        ],
    ),
    (
        "import d from 'b'; export { d }",
        &[
            Step(NodeKind::StringLiteral, 14, 17, ""),
            Step(NodeKind::BindingIdentifier, 7, 8, ""),
            Step(NodeKind::ImportDefaultSpecifier, 7, 8, "n"),
            Step(NodeKind::ImportDeclaration, 0, 18, "n-n"),
            Step(NodeKind::IdentifierReference, 28, 29, ""),
            Step(NodeKind::IdentifierName, 28, 29, ""),
            Step(NodeKind::ExportSpecifier, 28, 29, "nn"),
            Step(NodeKind::ExportNamedDeclaration, 19, 31, "n"),
        ],
    ),
    (
        "export * as ns from 'b'; export { x as v } from 'b'",
        &[
            Step(NodeKind::IdentifierName, 12, 14, ""),
            Step(NodeKind::StringLiteral, 20, 23, ""),
            Step(NodeKind::ExportAllDeclaration, 0, 24, "nn-"),
            Step(NodeKind::StringLiteral, 48, 51, ""),
            Step(NodeKind::IdentifierName, 34, 35, ""),
            Step(NodeKind::IdentifierName, 39, 40, ""),
            Step(NodeKind::ExportSpecifier, 34, 40, "nn"),
            Step(NodeKind::ExportFromDeclaration, 25, 51, "n-n"),
        ],
    ),
];

/// What an export stands for, with the number of a module and a name there.
enum Found {
    Nothing,
    Name(usize, &'static str),
    Default(usize),
    Namespace(usize),
    Ambiguous,
}

/// The texts of modules, what their specifiers mean, what names of theirs stand for, and the names that they export.
type Row = (
    &'static [usize],
    &'static [(usize, &'static str, usize)],
    &'static [(usize, &'static str, Found)],
    &'static [(usize, &'static [&'static str])],
);

static ROWS: [Row; 6] = [
    (
        &[0, 1, 1],
        &[(0, "b", 1), (0, "c", 2)],
        &[(0, "x", Found::Ambiguous)],
        &[(0, &["x"])],
    ),
    (
        &[0, 1, 1],
        &[(0, "b", 1), (0, "c", 2), (0, "c", 1)],
        &[(0, "x", Found::Name(1, "x")), (2, "x", Found::Name(2, "x"))],
        &[(0, &["x"])],
    ),
    (
        &[2, 3],
        &[(0, "b", 1), (1, "a", 0)],
        &[(0, "x", Found::Nothing), (1, "x", Found::Nothing)],
        &[(0, &[]), (1, &[])],
    ),
    (
        &[2, 4],
        &[(0, "b", 1)],
        &[
            (0, "default", Found::Nothing),
            (1, "default", Found::Default(1)),
        ],
        &[(0, &[]), (1, &["default"])],
    ),
    (
        &[5, 4],
        &[(0, "b", 1)],
        &[(0, "d", Found::Default(1))],
        &[(0, &["d"])],
    ),
    (
        &[0, 1, 6],
        &[(0, "b", 1), (0, "c", 2), (2, "b", 1)],
        &[
            (0, "ns", Found::Namespace(1)),
            (0, "v", Found::Name(1, "x")),
            (0, "x", Found::Name(1, "x")),
            (2, "x", Found::Nothing),
        ],
        &[(0, &["ns", "v", "x"]), (2, &["ns", "v"])],
    ),
];

/// Whether the record of a text could be made and added as a module.
fn add(alloc: Global, graph: &mut Graph, source: &Source) -> Result<bool, NoMemory> {
    let mut builder = ModuleRecordBuilder::new(alloc, SourceType::module());
    if !visit_all(alloc, &mut builder, source.0, source.1)? {
        return Ok(false);
    }
    let built = builder.build()?;
    if !built.0.exports_distinct() {
        return Ok(false);
    }
    graph.add_module(built.0)?;
    Ok(true)
}

/// Whether the modules of a row could be added and linked, and the last link alone was wanting before.
fn is_made(alloc: Global, graph: &mut Graph, row: &Row) -> Result<bool, NoMemory> {
    for number in row.0 {
        if *number >= SOURCES.len() || !add(alloc, graph, &SOURCES[*number])? {
            return Ok(false);
        }
    }
    if graph.is_linked() {
        return Ok(false);
    }
    for &(module, request, target) in row.1 {
        if module >= graph.module_count() || target >= graph.module_count() {
            return Ok(false);
        }
        graph.link(module, request, target)?;
    }
    Ok(graph.is_linked())
}

/// Whether this is what an export stands for.
fn is_found(given: &Resolution, found: &Found) -> bool {
    match (given, found) {
        (Resolution::Null, Found::Nothing) | (Resolution::Ambiguous, Found::Ambiguous) => true,
        (Resolution::Binding(binding), Found::Name(module, name)) => {
            binding.module == *module
                && matches!(&binding.name, BindingName::Name(text) if text.as_str() == *name)
        }
        (Resolution::Binding(binding), Found::Default(module)) => {
            binding.module == *module && matches!(&binding.name, BindingName::Default)
        }
        (Resolution::Binding(binding), Found::Namespace(module)) => {
            binding.module == *module && matches!(&binding.name, BindingName::Namespace)
        }
        _ => false,
    }
}

/// Whether these are the names, in this order.
fn are_names(given: &Texts, names: &[&str]) -> bool {
    for (i, name) in names.iter().enumerate() {
        if !matches!(given.get(i), Some(text) if text.as_str() == *name) {
            return false;
        }
    }
    given.len() == names.len()
}

/// Whether the answers of a graph are those of a row.
fn answers(alloc: Global, graph: &Graph, row: &Row) -> Result<bool, NoMemory> {
    if !graph.is_linked() {
        return Ok(false);
    }
    for (module, name, found) in row.2 {
        if *module >= graph.module_count()
            || !is_found(&graph.resolve_export(alloc, *module, name)?, found)
        {
            return Ok(false);
        }
    }
    for (module, names) in row.3 {
        if *module >= graph.module_count()
            || !are_names(&graph.exported_names(alloc, *module)?, names)
        {
            return Ok(false);
        }
    }
    Ok(true)
}

/// Whether a row holds.
fn holds(alloc: Global, row: &Row) -> Result<bool, NoMemory> {
    let mut graph = Graph::new(alloc);
    Ok(is_made(alloc, &mut graph, row)? && answers(alloc, &graph, row)?)
}

/// The rows of graphs.
#[test]
fn exports_between_modules(rt: HostRuntime) {
    for (i, row) in ROWS.iter().enumerate() {
        assert!(rt; is_so(holds(rt.alloc(), row)), "at row {i}");
    }
}
