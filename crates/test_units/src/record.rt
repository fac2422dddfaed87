//! Records of declarations whose trees are made by hand, as rows of plain data.

ghost use Rattle.std.specs.Prelude.{◌≡◌, ◌<◌, length, Some, IsSome, IsTrue, chars};
ghost use Rattle.js_base.specs.part_text.Decoding.{name_text};
ghost use Rattle.js_base.specs.declared.kind.Kind.TheVariants.{Str};
ghost use Rattle.js_grammar.specs.NodeNames.{without_sign, IsReadFrom};
ghost use Rattle.js_grammar.specs.Strings.{string_kind};
ghost use Rattle.js_record.specs.Checked.{AreUnder, AreHeld, IsSound, AreSound};
ghost use Rattle.js_record.specs.NodeKinds.{is_string, is_name_kind};
ghost use Rattle.js_record.specs.Shown.{IsRead, label_at};

use crate::rows::{is_so, lies_in, slots_of};
use js_base::{Diagnostics, NoMemory, SourceType, Span};
use js_record::{ModuleRecord, ModuleRecordBuilder, ModuleVisits};
use js_tree::{NodeFlags, NodeId, NodeKind, Op, ParserAstBuilder};
use std::alloc::Global;

/// Makes the node of a declaration over slots that were made before, and visits it, as a parse function does.
fn declare(
    tree: &mut ParserAstBuilder,
    record: &mut ModuleRecordBuilder,
    source: &str,
    kind: NodeKind,
    span: Span,
    slots: Vec<Option<NodeId>>,
) -> Result<NodeId, NoMemory>
    requires { AreHeld tree.old source.now slots.items }
{
    let id = tree.node(kind, span, Op::None, NodeFlags::default(), None, slots)?;
    visit(record, tree, source, id, kind)?;
    Ok(id)
}

/// Makes the nodes of an `import()` and its specifier and visits the first.
fn import_call(
    tree: &mut ParserAstBuilder,
    record: &mut ModuleRecordBuilder,
    span: Span,
    specifier: Span,
) -> Result<(), NoMemory> {
    let flags = NodeFlags::default();
    let child = tree.leaf(NodeKind::StringLiteral, specifier, Op::None, flags, None)?;
    let kind = NodeKind::ImportExpression;
    let id = tree.node_of_one(kind, span, Op::None, flags, Some(child))?;
    record.visit_import_expression(tree, id)
}

/// A node to be made: what it is, its places, and its slots: `n` is the next of the nodes that are in no slot yet, `-` an
/// empty slot.
pub(crate) struct Step(
    pub(crate) NodeKind,
    pub(crate) u32,
    pub(crate) u32,
    pub(crate) &'static str,
);

/// The place of an error and the other place.
type Fault = (Span, Span);

/// A text, its nodes, the lines of its record, and its error.
type Row = (&'static str, &'static [Step], &'static str, Option<Fault>);

/// Imports, and calls and properties of `import`.
static IMPORTS: [Row; 8] = [
    (
        "import v from 'mod'",
        &[
            Step(NodeKind::StringLiteral, 14, 19, ""),
            Step(NodeKind::BindingIdentifier, 7, 8, ""),
            Step(NodeKind::ImportDefaultSpecifier, 7, 8, "n"),
            Step(NodeKind::ImportDeclaration, 0, 19, "n-n"),
        ],
        "syntax yes\nrequest 14..19 0..19 import\nimport 0..19 request 14..19 default 7..8 local 7..8\n",
        None,
    ),
    (
        "import * as ns from 'mod'",
        &[
            Step(NodeKind::StringLiteral, 20, 25, ""),
            Step(NodeKind::BindingIdentifier, 12, 14, ""),
            Step(NodeKind::ImportNamespaceSpecifier, 7, 14, "n"),
            Step(NodeKind::ImportDeclaration, 0, 25, "n-n"),
        ],
        "syntax yes\nrequest 20..25 0..25 import\nimport 0..25 request 20..25 namespace local 12..14\n",
        None,
    ),
    (
        "import { x as v } from 'mod'",
        &[
            Step(NodeKind::StringLiteral, 23, 28, ""),
            Step(NodeKind::IdentifierName, 9, 10, ""),
            Step(NodeKind::BindingIdentifier, 14, 15, ""),
            Step(NodeKind::ImportSpecifier, 9, 15, "nn"),
            Step(NodeKind::ImportDeclaration, 0, 28, "n-n"),
        ],
        "syntax yes\nrequest 23..28 0..28 import\nimport 0..28 request 23..28 name 9..10 local 14..15\n",
        None,
    ),
    (
        "import 'mod'",
        &[
            Step(NodeKind::StringLiteral, 7, 12, ""),
            Step(NodeKind::ImportDeclaration, 0, 12, "n-"),
        ],
        "syntax yes\nrequest 7..12 0..12 import\n",
        None,
    ),
    (
        "import.meta.foo; import.meta.bar",
        &[
            Step(NodeKind::ImportMeta, 0, 11, ""),
            Step(NodeKind::ImportMeta, 17, 28, ""),
        ],
        "syntax yes\nmeta 0..11\nmeta 17..28\n",
        None,
    ),
    (
        "import source from 'source'",
        &[
            Step(NodeKind::StringLiteral, 19, 27, ""),
            Step(NodeKind::BindingIdentifier, 7, 13, ""),
            Step(NodeKind::ImportDefaultSpecifier, 7, 13, "n"),
            Step(NodeKind::ImportDeclaration, 0, 27, "n-n"),
        ],
        "syntax yes\nrequest 19..27 0..27 import\nimport 0..27 request 19..27 default 7..13 local 7..13\n",
        None,
    ),
    (
        "(a = import('x'))",
        &[
            Step(NodeKind::IdentifierReference, 1, 2, ""),
            Step(NodeKind::StringLiteral, 12, 15, ""),
            Step(NodeKind::ImportExpression, 5, 16, "n-"),
            Step(NodeKind::AssignmentExpression, 1, 16, "nn"),
            Step(NodeKind::ParenthesizedExpression, 0, 17, "n"),
            Step(NodeKind::ExpressionStatement, 0, 17, "n"),
        ],
        "syntax no\ndynamic 5..16 request 12..15\n",
        None,
    ),
    (
        "import(import('x'))",
        &[
            Step(NodeKind::StringLiteral, 14, 17, ""),
            Step(NodeKind::ImportExpression, 7, 18, "n-"),
            Step(NodeKind::ImportExpression, 0, 19, "n-"),
        ],
        "syntax no\ndynamic 7..18 request 14..17\ndynamic 0..19 request 7..18\n",
        None,
    ),
];

/// Exports alone.
static EXPORTS: [Row; 7] = [
    (
        "export * from 'mod'",
        &[
            Step(NodeKind::StringLiteral, 14, 19, ""),
            Step(NodeKind::ExportAllDeclaration, 0, 19, "-n-"),
        ],
        "syntax yes\nrequest 14..19 0..19 export\nstar 0..19 0..19 request 14..19 import all-but-default export null local null\n",
        None,
    ),
    (
        "export { x as v } from 'mod'",
        &[
            Step(NodeKind::StringLiteral, 23, 28, ""),
            Step(NodeKind::IdentifierName, 9, 10, ""),
            Step(NodeKind::IdentifierName, 14, 15, ""),
            Step(NodeKind::ExportSpecifier, 9, 15, "nn"),
            Step(NodeKind::ExportFromDeclaration, 0, 28, "n-n"),
        ],
        "syntax yes\nrequest 23..28 0..28 export\nexported 14..15\nindirect 0..28 9..15 request 23..28 import name 9..10 export name 14..15 local null\n",
        None,
    ),
    (
        "export var v",
        &[
            Step(NodeKind::BindingIdentifier, 11, 12, ""),
            Step(NodeKind::VariableDeclarator, 11, 12, "n-"),
            Step(NodeKind::VariableDeclaration, 7, 12, "n"),
            Step(NodeKind::ExportDeclaration, 0, 12, "n"),
        ],
        "syntax yes\nexported 11..12\nlocal 0..12 7..12 request null import null export name 11..12 local name 11..12\n",
        None,
    ),
    (
        "export default function f() {}",
        &[
            Step(NodeKind::BindingIdentifier, 24, 25, ""),
            Step(NodeKind::FormalParameters, 25, 27, ""),
            Step(NodeKind::FunctionBody, 28, 30, ""),
            Step(NodeKind::FunctionDeclaration, 15, 30, "nnn"),
            Step(NodeKind::ExportDefaultDeclaration, 0, 30, "n"),
        ],
        "syntax yes\nlocal 0..30 15..30 request null import null export default 7..14 local name 24..25\n",
        None,
    ),
    (
        "export default 42",
        &[
            Step(NodeKind::NumericLiteral, 15, 17, ""),
            Step(NodeKind::ExportDefaultDeclaration, 0, 17, "n"),
        ],
        "syntax yes\nlocal 0..17 15..17 request null import null export default 7..14 local null\n",
        None,
    ),
    (
        "export { default } from 'mod'",
        &[
            Step(NodeKind::StringLiteral, 24, 29, ""),
            Step(NodeKind::IdentifierName, 9, 16, ""),
            Step(NodeKind::IdentifierName, 9, 16, ""),
            Step(NodeKind::ExportSpecifier, 9, 16, "nn"),
            Step(NodeKind::ExportFromDeclaration, 0, 29, "n-n"),
        ],
        "syntax yes\nrequest 24..29 0..29 export\nexported 9..16\nindirect 0..29 9..16 request 24..29 import name 9..16 export name 9..16 local null\n",
        None,
    ),
    (
        "export * from '\\uD800'",
        &[
            Step(NodeKind::StringLiteral, 14, 22, ""),
            Step(NodeKind::ExportAllDeclaration, 0, 22, "-n-"),
        ],
        "syntax yes\n",
        None,
    ),
];

/// Exports of names that stand elsewhere in the text, or that are exported twice.
static LISTS: [Row; 5] = [
    (
        "export { x }; var x",
        &[
            Step(NodeKind::IdentifierReference, 9, 10, ""),
            Step(NodeKind::IdentifierName, 9, 10, ""),
            Step(NodeKind::ExportSpecifier, 9, 10, "nn"),
            Step(NodeKind::ExportNamedDeclaration, 0, 13, "n"),
        ],
        "syntax yes\nexported 9..10\nlocal 0..13 9..10 request null import null export name 9..10 local name 9..10\n",
        None,
    ),
    (
        "export { x as v }; var x",
        &[
            Step(NodeKind::IdentifierReference, 9, 10, ""),
            Step(NodeKind::IdentifierName, 14, 15, ""),
            Step(NodeKind::ExportSpecifier, 9, 15, "nn"),
            Step(NodeKind::ExportNamedDeclaration, 0, 18, "n"),
        ],
        "syntax yes\nexported 14..15\nlocal 0..18 9..15 request null import null export name 14..15 local name 9..10\n",
        None,
    ),
    (
        "import { x } from 'mod';export { x };export * as ns from 'mod';",
        &[
            Step(NodeKind::StringLiteral, 18, 23, ""),
            Step(NodeKind::IdentifierName, 9, 10, ""),
            Step(NodeKind::BindingIdentifier, 9, 10, ""),
            Step(NodeKind::ImportSpecifier, 9, 10, "nn"),
            Step(NodeKind::ImportDeclaration, 0, 24, "n-n"),
            Step(NodeKind::IdentifierReference, 33, 34, ""),
            Step(NodeKind::IdentifierName, 33, 34, ""),
            Step(NodeKind::ExportSpecifier, 33, 34, "nn"),
            Step(NodeKind::ExportNamedDeclaration, 24, 37, "n"),
            Step(NodeKind::IdentifierName, 49, 51, ""),
            Step(NodeKind::StringLiteral, 57, 62, ""),
            Step(NodeKind::ExportAllDeclaration, 37, 63, "nn-"),
        ],
        "syntax yes\nrequest 18..23 0..24 import\nrequest 57..62 37..63 export\nexported 33..34\nexported 49..51\nimport 0..24 request 18..23 name 9..10 local 9..10\nindirect 0..24 33..34 request 18..23 import name 9..10 export name 33..34 local null\nindirect 37..63 37..63 request 57..62 import all export name 49..51 local null\n",
        None,
    ),
    (
        "export { a, a }; var a",
        &[
            Step(NodeKind::IdentifierReference, 9, 10, ""),
            Step(NodeKind::IdentifierName, 9, 10, ""),
            Step(NodeKind::ExportSpecifier, 9, 10, "nn"),
            Step(NodeKind::IdentifierReference, 12, 13, ""),
            Step(NodeKind::IdentifierName, 12, 13, ""),
            Step(NodeKind::ExportSpecifier, 12, 13, "nn"),
            Step(NodeKind::ExportNamedDeclaration, 0, 16, "nn"),
        ],
        "syntax yes\nexported 12..13\nlocal 0..16 9..10 request null import null export name 9..10 local name 9..10\nlocal 0..16 12..13 request null import null export name 12..13 local name 12..13\n",
        Some((Span { start: 9, end: 10 }, Span { start: 12, end: 13 })),
    ),
    (
        "export default 1; export { a as default }; var a",
        &[
            Step(NodeKind::NumericLiteral, 15, 16, ""),
            Step(NodeKind::ExportDefaultDeclaration, 0, 17, "n"),
            Step(NodeKind::IdentifierReference, 27, 28, ""),
            Step(NodeKind::IdentifierName, 32, 39, ""),
            Step(NodeKind::ExportSpecifier, 27, 39, "nn"),
            Step(NodeKind::ExportNamedDeclaration, 18, 42, "n"),
        ],
        "syntax yes\nexported 32..39\nlocal 0..17 15..16 request null import null export default 7..14 local null\nlocal 18..42 27..39 request null import null export name 32..39 local name 27..28\n",
        Some((Span { start: 7, end: 14 }, Span { start: 32, end: 39 })),
    ),
];

/// The span of the word `default` behind `export` in the rows.
static DEFAULT_WORD: Span = Span { start: 7, end: 14 };

/// Whether it is one of the names of the rows.
fn is_name(text: &str) -> bool
    ensures { IsTrue result → IsSome (name_text (chars (without_sign text.now))) }
{
    matches!(
        text,
        "x" | "v" | "a" | "f" | "ns" | "source" | "default" | "d"
    )
}

/// Whether it is one of the string literals of the rows.
fn is_quoted(text: &str) -> bool
    ensures { IsTrue result → string_kind (chars text.now) ≡ Some Str }
{
    matches!(
        text,
        "'x'" | "'mod'" | "'source'" | "'\\uD800'" | "'a'" | "'b'" | "'c'"
    )
}

/// Whether a node of this kind is a name.
fn is_word(kind: NodeKind) -> bool
    ensures { result ≡ is_name_kind kind }
{
    matches!(
        kind,
        NodeKind::IdentifierReference
            | NodeKind::BindingIdentifier
            | NodeKind::LabelIdentifier
            | NodeKind::IdentifierName
            | NodeKind::PrivateIdentifier
    )
}

/// Whether a node of this kind is a string literal.
fn is_string(kind: NodeKind) -> bool
    ensures { result ≡ is_string kind }
{
    matches!(kind, NodeKind::StringLiteral)
}

/// Whether the text at a node is known to be one that the node can be read from.
fn is_read(tree: &ParserAstBuilder, source: &str, id: NodeId) -> bool
    requires { id.0 < length tree.now }
    ensures { IsTrue result → IsReadFrom source.now (label_at tree.now id) }
{
    if !lies_in(source, tree.span(id)) {
        return false;
    }
    let text = tree.text(id, source);
    let kind = tree.kind(id);
    if is_word(kind) {
        is_name(text)
    } else if is_string(kind) {
        is_quoted(text)
    } else {
        true
    }
}

/// Whether each child has a number below this one.
fn are_below(slots: &[Option<NodeId>], id: NodeId) -> bool
    ensures { IsTrue result → AreUnder id slots.now }
{
    for slot in slots {
        if let Some(child) = slot {
            if child.0 >= id.0 {
                return false;
            }
        }
    }
    true
}

/// Whether a node is read from the text, and its children have numbers below its own.
fn is_sound(tree: &ParserAstBuilder, source: &str, id: NodeId) -> bool
    requires { id.0 < length tree.now }
    ensures { IsTrue result → IsSound tree.now source.now id.0 }
{
    if !is_read(tree, source, id) {
        return false;
    }
    are_below(tree.children(id), id)
}

/// Whether every node is read from the text, and its children have numbers below its own.
fn are_read(tree: &ParserAstBuilder, source: &str) -> bool
    ensures { IsTrue result → AreSound tree.now source.now }
{
    for i in 0..tree.kinds().len() {
        if !is_sound(tree, source, NodeId(i)) {
            return false;
        }
    }
    true
}

/// Whether the number stands for a tree that is read from the text.
fn is_visited(tree: &ParserAstBuilder, source: &str, id: NodeId) -> bool
    ensures { IsTrue result → IsRead tree.now source.now id }
{
    if !tree.contains(id) {
        return false;
    }
    are_read(tree, source)
}

/// Visits a node of a kind that adds something.
fn visit(
    record: &mut ModuleRecordBuilder,
    tree: &ParserAstBuilder,
    source: &str,
    id: NodeId,
    kind: NodeKind,
) -> Result<(), NoMemory>
    requires { IsRead tree.now source.now id }
{
    match kind {
        NodeKind::ImportDeclaration => record.visit_import_declaration(tree, source, id),
        NodeKind::ExportAllDeclaration => record.visit_export_all_declaration(tree, source, id),
        NodeKind::ExportFromDeclaration => record.visit_export_from_declaration(tree, source, id),
        NodeKind::ExportNamedDeclaration => record.visit_export_named_declaration(tree, source, id),
        NodeKind::ExportDeclaration => record.visit_export_declaration(tree, source, id),
        NodeKind::ExportDefaultDeclaration => {
            record.visit_export_default_declaration(tree, source, id, DEFAULT_WORD)
        }
        NodeKind::ImportExpression => record.visit_import_expression(tree, id),
        NodeKind::ImportMeta => record.visit_import_meta(tree.span(id)),
        _ => Ok(()),
    }
}

/// Makes the node of a step and visits it; whether it is read from the text.
fn visit_step(
    alloc: Global,
    record: &mut ModuleRecordBuilder,
    tree: &mut ParserAstBuilder,
    free: &mut Vec<NodeId>,
    source: &str,
    step: &Step,
) -> Result<bool, NoMemory> {
    let Step(kind, start, end, slots) = step;
    let span = Span {
        start: *start,
        end: *end,
    };
    let children = slots_of(alloc, free, slots)?;
    let id = tree.node(*kind, span, Op::None, NodeFlags::default(), None, children)?;
    if !is_visited(tree, source, id) {
        return Ok(false);
    }
    visit(record, tree, source, id, *kind)?;
    free.push(id)?;
    Ok(true)
}

/// Visits the nodes of a row, each when it is made; whether each is read from the text.
fn visit_steps(
    alloc: Global,
    record: &mut ModuleRecordBuilder,
    tree: &mut ParserAstBuilder,
    source: &str,
    steps: &[Step],
) -> Result<bool, NoMemory> {
    let mut free = Vec::new(alloc);
    for step in steps {
        if !visit_step(alloc, record, tree, &mut free, source, step)? {
            return Ok(false);
        }
    }
    Ok(true)
}

/// Visits the nodes of a row in a tree of their own.
pub(crate) fn visit_all(
    alloc: Global,
    record: &mut ModuleRecordBuilder,
    source: &str,
    steps: &[Step],
) -> Result<bool, NoMemory> {
    let mut tree = ParserAstBuilder::new(alloc)?;
    visit_steps(alloc, record, &mut tree, source, steps)
}

/// Whether these are the errors: this one alone, or none.
fn is_fault(errors: &Diagnostics, fault: Option<Fault>) -> bool {
    let Some((span, first)) = fault else {
        return errors.is_empty();
    };
    let Some(error) = errors.get(0) else {
        return false;
    };
    errors.len() == 1 && error.span == span && error.first == Some(first)
}

/// Whether the record has these lines.
fn has_lines(alloc: Global, record: &ModuleRecord, lines: &str) -> Result<bool, NoMemory> {
    let given = record.record_lines(alloc)?;
    Ok(given.as_slice() == lines.as_bytes())
}

/// Whether the record has these lines and the errors are this one or none, and a name is exported twice exactly where
/// there is one.
fn is_right(
    alloc: Global,
    record: &ModuleRecord,
    errors: &Diagnostics,
    lines: &str,
    fault: Option<Fault>,
) -> Result<bool, NoMemory> {
    let distinct = record.exports_distinct();
    Ok(has_lines(alloc, record, lines)? && is_fault(errors, fault) && distinct == fault.is_none())
}

/// Whether the record and the errors of the visits are right, as `is_right` says.
fn builds(
    alloc: Global,
    builder: ModuleRecordBuilder,
    lines: &str,
    fault: Option<Fault>,
) -> Result<bool, NoMemory> {
    let built = builder.build()?;
    is_right(alloc, &built.0, &built.1, lines, fault)
}

/// Whether a row holds: its nodes are read from its text, and its record and its errors are right.
fn holds(
    alloc: Global,
    source: &str,
    steps: &[Step],
    lines: &str,
    fault: Option<Fault>,
) -> Result<bool, NoMemory> {
    let mut builder = ModuleRecordBuilder::new(alloc, SourceType::module());
    if !visit_all(alloc, &mut builder, source, steps)? {
        return Ok(false);
    }
    builds(alloc, builder, lines, fault)
}

/// The rows of imports.
#[test]
fn records_of_imports(rt: HostRuntime) {
    for &(source, steps, lines, fault) in &IMPORTS {
        let given = is_so(holds(rt.alloc(), source, steps, lines, fault));
        assert!(rt; given, "at {source}");
    }
}

/// The rows of exports.
#[test]
fn records_of_exports(rt: HostRuntime) {
    for &(source, steps, lines, fault) in &EXPORTS {
        let given = is_so(holds(rt.alloc(), source, steps, lines, fault));
        assert!(rt; given, "at {source}");
    }
}

/// The rows of names that stand elsewhere.
#[test]
fn records_of_lists(rt: HostRuntime) {
    for &(source, steps, lines, fault) in &LISTS {
        let given = is_so(holds(rt.alloc(), source, steps, lines, fault));
        assert!(rt; given, "at {source}");
    }
}

/// Visits an `import()` in a tree of its own.
fn visit_call(alloc: Global, record: &mut ModuleRecordBuilder) -> Result<(), NoMemory> {
    let mut tree = ParserAstBuilder::new(alloc)?;
    let (span, specifier) = (Span { start: 0, end: 11 }, Span { start: 7, end: 10 });
    import_call(&mut tree, record, span, specifier)
}

/// Whether a record has no module syntax until it is set, and no errors then.
fn takes_syntax(record: &mut ModuleRecordBuilder) -> Result<bool, NoMemory> {
    if record.has_module_syntax() {
        return Ok(false);
    }
    record.set_module_syntax()?;
    let errors = record.errors()?;
    Ok(record.has_module_syntax() && errors.is_empty())
}

/// Whether the record of a call has no module syntax until it is set.
fn is_syntax_set(alloc: Global) -> Result<bool, NoMemory> {
    let mut record = ModuleRecordBuilder::new(alloc, SourceType::module());
    visit_call(alloc, &mut record)?;
    takes_syntax(&mut record)
}

/// The record of calls alone has no module syntax, and `set_module_syntax` gives it. Neither is an error.
#[test]
fn module_syntax_is_set(rt: HostRuntime) {
    assert!(rt; is_so(is_syntax_set(rt.alloc())));
}
