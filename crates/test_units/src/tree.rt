//! Trees and their lines, and what is read from nodes, as rows of plain data.

ghost use Rattle.std.specs.Prelude.{◌≡◌, IsTrue, Some, chars};
ghost use Rattle.js_base.specs.declared.kind.Kind.TheVariants.{Str};
ghost use Rattle.js_grammar.specs.Strings.{string_kind};

use crate::rows::{is_so, lies_in, slots_of};
use js_base::{AssignmentOperator, JsStr, NoMemory, Span, Text};
use js_tree::{
    BigintBase, ClauseWord, DeclarationKind, MethodKind, NodeFlags, NodeId, NodeKind, NumberBase,
    Op, ParserAstBuilder, PropertyKind, Tree,
};
use std::alloc::Global;

/// A node to be made: what it is, its places, its op, the bits of its flags, and its slots: `n` is the next of the nodes
/// that are in no slot yet, `-` an empty slot.
#[derive(Clone, Copy)]
struct Step(NodeKind, u32, u32, Op, u16, &'static str);

/// The flags of these bits.
fn flags_of(bits: u16) -> NodeFlags {
    NodeFlags {
        prefix: bits & 0x1 != 0,
        optional: bits & 0x2 != 0,
        computed: bits & 0x4 != 0,
        shorthand: bits & 0x8 != 0,
        method: bits & 0x10 != 0,
        is_async: bits & 0x20 != 0,
        generator: bits & 0x40 != 0,
        delegate: bits & 0x80 != 0,
        is_static: bits & 0x100 != 0,
        is_await: bits & 0x200 != 0,
        tail: bits & 0x400 != 0,
        bare: bits & 0x800 != 0,
        pure: bits & 0x1000 != 0,
        pife: bits & 0x2000 != 0,
    }
}

/// `[a, , [b] = 1, ...c.d] = e`
static TARGET: [Step; 12] = [
    Step(NodeKind::IdentifierReference, 1, 2, Op::None, 0, ""),
    Step(NodeKind::IdentifierReference, 7, 8, Op::None, 0, ""),
    Step(NodeKind::ArrayAssignmentTarget, 6, 9, Op::None, 0, "n"),
    Step(
        NodeKind::NumericLiteral,
        12,
        13,
        Op::Number(NumberBase::Decimal),
        0,
        "",
    ),
    Step(
        NodeKind::AssignmentTargetWithDefault,
        6,
        13,
        Op::None,
        0,
        "nn",
    ),
    Step(NodeKind::IdentifierReference, 18, 19, Op::None, 0, ""),
    Step(NodeKind::IdentifierName, 20, 21, Op::None, 0, ""),
    Step(NodeKind::StaticMemberExpression, 18, 21, Op::None, 0, "nn"),
    Step(NodeKind::AssignmentTargetRest, 15, 21, Op::None, 0, "n"),
    Step(NodeKind::ArrayAssignmentTarget, 0, 22, Op::None, 0, "n-nn"),
    Step(NodeKind::IdentifierReference, 25, 26, Op::None, 0, ""),
    Step(
        NodeKind::AssignmentExpression,
        0,
        26,
        Op::Assignment(AssignmentOperator::Assign),
        0,
        "nn",
    ),
];

static TARGET_LINES: &str =
    "Program 0..26\n  AssignmentExpression 0..26 =\n    ArrayAssignmentTarget 0..22\n      IdentifierReference 1..2\n      -\n      AssignmentTargetWithDefault 6..13\n        ArrayAssignmentTarget 6..9\n          IdentifierReference 7..8\n        NumericLiteral 12..13 Decimal\n      AssignmentTargetRest 15..21\n        StaticMemberExpression 18..21\n          IdentifierReference 18..19\n          IdentifierName 20..21\n    IdentifierReference 25..26\n";

/// `let [a, {b: c = 1, ...d}, , ...[e]] = f`
static PATTERN: [Step; 16] = [
    Step(NodeKind::BindingIdentifier, 5, 6, Op::None, 0, ""),
    Step(NodeKind::IdentifierName, 9, 10, Op::None, 0, ""),
    Step(NodeKind::BindingIdentifier, 12, 13, Op::None, 0, ""),
    Step(
        NodeKind::NumericLiteral,
        16,
        17,
        Op::Number(NumberBase::Decimal),
        0,
        "",
    ),
    Step(NodeKind::AssignmentPattern, 12, 17, Op::None, 0, "nn"),
    Step(NodeKind::BindingProperty, 9, 17, Op::None, 0, "nn"),
    Step(NodeKind::BindingIdentifier, 22, 23, Op::None, 0, ""),
    Step(NodeKind::BindingRestElement, 19, 23, Op::None, 0, "n"),
    Step(NodeKind::ObjectPattern, 8, 24, Op::None, 0, "nn"),
    Step(NodeKind::BindingIdentifier, 32, 33, Op::None, 0, ""),
    Step(NodeKind::ArrayPattern, 31, 34, Op::None, 0, "n"),
    Step(NodeKind::BindingRestElement, 28, 34, Op::None, 0, "n"),
    Step(NodeKind::ArrayPattern, 4, 35, Op::None, 0, "nn-n"),
    Step(NodeKind::IdentifierReference, 38, 39, Op::None, 0, ""),
    Step(NodeKind::VariableDeclarator, 4, 39, Op::None, 0, "nn"),
    Step(
        NodeKind::VariableDeclaration,
        0,
        39,
        Op::Declaration(DeclarationKind::Let),
        0,
        "n",
    ),
];

static PATTERN_LINES: &str =
    "Program 0..39\n  VariableDeclaration 0..39 let\n    VariableDeclarator 4..39\n      ArrayPattern 4..35\n        BindingIdentifier 5..6\n        ObjectPattern 8..24\n          BindingProperty 9..17\n            IdentifierName 9..10\n            AssignmentPattern 12..17\n              BindingIdentifier 12..13\n              NumericLiteral 16..17 Decimal\n          BindingRestElement 19..23\n            BindingIdentifier 22..23\n        -\n        BindingRestElement 28..34\n          ArrayPattern 31..34\n            BindingIdentifier 32..33\n      IdentifierReference 38..39\n";

/// Flags, words and bases; places of up to ten digits. No text has this tree.
static WORDS: [Step; 9] = [
    Step(
        NodeKind::MethodDefinition,
        9,
        10,
        Op::Method(MethodKind::Constructor),
        0x0104,
        "",
    ),
    Step(
        NodeKind::ObjectProperty,
        99,
        100,
        Op::Property(PropertyKind::Init),
        0x001C,
        "",
    ),
    Step(NodeKind::UpdateExpression, 999, 1000, Op::None, 0x0001, ""),
    Step(
        NodeKind::ImportDeclaration,
        4096,
        65_536,
        Op::None,
        0x0800,
        "",
    ),
    Step(
        NodeKind::ArrowFunctionExpression,
        999_999,
        1_000_000,
        Op::None,
        0x3060,
        "",
    ),
    Step(
        NodeKind::TemplateElement,
        12_345_678,
        123_456_789,
        Op::None,
        0x0400,
        "",
    ),
    Step(
        NodeKind::BigIntLiteral,
        4_294_967_038,
        4_294_967_039,
        Op::Bigint(BigintBase::Hex),
        0x0282,
        "",
    ),
    Step(
        NodeKind::NumericLiteral,
        0,
        3,
        Op::Number(NumberBase::Exponential),
        0,
        "",
    ),
    Step(
        NodeKind::WithClause,
        0,
        4_294_967_295,
        Op::Clause(ClauseWord::Assert),
        0,
        "---",
    ),
];

static WORDS_LINES: &str =
    "Program 0..7\n  MethodDefinition 9..10 constructor computed static\n  ObjectProperty 99..100 init computed shorthand method\n  UpdateExpression 999..1000 prefix\n  ImportDeclaration 4096..65536 bare\n  ArrowFunctionExpression 999999..1000000 async generator pure pife\n  TemplateElement 12345678..123456789 tail\n  BigIntLiteral 4294967038..4294967039 Hex optional delegate await\n  NumericLiteral 0..3 Exponential\n  WithClause 0..4294967295 assert\n    -\n    -\n    -\n";

/// The steps, the end of Program, the lines, and how many nodes there are.
type Row = (&'static [Step], u32, &'static str, usize);

/// Makes the node of a step, by the call for its number of slots.
fn step_made(
    alloc: Global,
    builder: &mut ParserAstBuilder,
    free: &mut Vec<NodeId>,
    step: &Step,
) -> Result<NodeId, NoMemory> {
    let Step(kind, start, end, op, bits, slots) = step;
    let span = Span {
        start: *start,
        end: *end,
    };
    let flags = flags_of(*bits);
    let children = slots_of(alloc, free, slots)?;
    match children.as_slice() {
        [] => builder.leaf(*kind, span, *op, flags, None),
        [child] => builder.node_of_one(*kind, span, *op, flags, *child),
        [first, second] => builder.node_of_two(*kind, span, *op, flags, *first, *second),
        [a, b, c] => builder.node_of_three(*kind, span, *op, flags, [*a, *b, *c]),
        _ => builder.node(*kind, span, *op, flags, None, children),
    }
}

/// Makes the nodes of the steps, and tells those that are in no slot then.
fn made(
    alloc: Global,
    builder: &mut ParserAstBuilder,
    steps: &[Step],
) -> Result<Vec<Option<NodeId>>, NoMemory> {
    let mut free = Vec::new(alloc);
    for step in steps {
        let id = step_made(alloc, builder, &mut free, step)?;
        free.push(id)?;
    }
    let mut children = Vec::new(alloc);
    for id in &free {
        children.push(Some(*id))?;
    }
    Ok(children)
}

/// The tree that steps make; the nodes that are in no slot then are Program's.
fn built(alloc: Global, steps: &[Step], end: u32) -> Result<Tree, NoMemory> {
    let mut builder = ParserAstBuilder::new(alloc)?;
    let children = made(alloc, &mut builder, steps)?;
    builder.finish(Span { start: 0, end }, children)
}

/// Whether a tree has these lines, whose memory is taken exactly.
fn has_lines(alloc: Global, tree: &Tree, lines: &str) -> Result<bool, NoMemory> {
    let bytes = tree.tree_lines(alloc)?;
    Ok(bytes.as_slice() == lines.as_bytes() && bytes.capacity() == lines.len())
}

/// Whether a tree of steps has so many nodes, of which Program is the first.
fn has_nodes(tree: &Tree, steps: &[Step], count: usize) -> bool {
    tree.node_count() == count
        && tree.kinds().len() == steps.len().wrapping_add(1)
        && tree.kinds().first().copied() == Some(NodeKind::Program)
}

/// Whether the tree of a row has its lines and its nodes.
fn row_holds(alloc: Global, row: Row) -> Result<bool, NoMemory> {
    let (steps, end, lines, count) = row;
    let tree = built(alloc, steps, end)?;
    if !has_nodes(&tree, steps, count) {
        return Ok(false);
    }
    has_lines(alloc, &tree, lines)
}

/// The lines of each tree, whose memory was taken exactly, and how many nodes it has.
#[test]
fn lines_of_trees(rt: HostRuntime) {
    let rows: [Row; 4] = [
        (&[], 0, "Program 0..0\n", 1),
        (&TARGET, 26, TARGET_LINES, 13),
        (&PATTERN, 39, PATTERN_LINES, 17),
        (&WORDS, 7, WORDS_LINES, 10),
    ];
    for row in rows {
        let given = is_so(row_holds(rt.alloc(), row));
        assert!(rt; given, "at {}", row.2);
    }
}

/// The children of a target of four slots, of which the second is empty.
static TARGETS: [Option<NodeId>; 4] = [Some(NodeId(1)), None, Some(NodeId(5)), Some(NodeId(9))];

/// Whether the tree of the target has its node, and none behind its last one.
fn has_target(tree: &Tree) -> bool {
    let target = NodeId(10);
    if !tree.contains(target) || tree.contains(NodeId(13)) {
        return false;
    }
    tree.kind(target) == NodeKind::ArrayAssignmentTarget
        && tree.children(target) == TARGETS.as_slice()
        && tree.child_count(target) == 4
        && tree.span(target).end == 22
}

/// Whether the tree of the target `has_target`.
fn is_target_made(alloc: Global) -> Result<bool, NoMemory> {
    let tree = built(alloc, &TARGET, 26)?;
    Ok(has_target(&tree))
}

/// The node of a target has four slots, of which the second is empty.
#[test]
fn children_of_a_target(rt: HostRuntime) {
    assert!(rt; is_so(is_target_made(rt.alloc())));
}

/// Nodes of the pattern, and those of the names that each binds.
static BOUND: [(usize, &[usize]); 4] = [(16, &[1, 3, 7, 10]), (9, &[3, 7]), (5, &[3]), (14, &[])];

/// Whether the nodes have these numbers.
fn are_numbered(ids: &[NodeId], numbers: &[usize]) -> bool {
    for (id, number) in ids.iter().zip(numbers) {
        if id.0 != *number {
            return false;
        }
    }
    ids.len() == numbers.len()
}

/// Whether a node binds the names of these nodes.
fn binds(
    alloc: Global,
    builder: &ParserAstBuilder,
    number: usize,
    wanted: &[usize],
) -> Result<bool, NoMemory> {
    let id = NodeId(number);
    if !builder.contains(id) {
        return Ok(false);
    }
    let found = builder.bound_names(alloc, id)?;
    Ok(are_numbered(found.as_slice(), wanted))
}

/// Whether a node of a finished tree binds the names of these nodes.
fn binds_finished(
    alloc: Global,
    tree: &Tree,
    number: usize,
    wanted: &[usize],
) -> Result<bool, NoMemory> {
    let id = NodeId(number);
    if !tree.contains(id) {
        return Ok(false);
    }
    let found = tree.bound_names(alloc, id)?;
    Ok(are_numbered(found.as_slice(), wanted))
}

/// Whether a node of the pattern binds the names of these nodes before the tree is finished.
fn pattern_binds(alloc: Global, number: usize, wanted: &[usize]) -> Result<bool, NoMemory> {
    let mut builder = ParserAstBuilder::new(alloc)?;
    made(alloc, &mut builder, &PATTERN)?;
    binds(alloc, &builder, number, wanted)
}

/// The same when the tree is finished.
fn finished_pattern_binds(
    alloc: Global,
    number: usize,
    wanted: &[usize],
) -> Result<bool, NoMemory> {
    let tree = built(alloc, &PATTERN, 39)?;
    binds_finished(alloc, &tree, number, wanted)
}

/// The names that a nested pattern binds, the rest's too, before and after the tree is finished.
#[test]
fn bound_names_of_a_pattern(rt: HostRuntime) {
    for &(number, wanted) in &BOUND {
        let before = is_so(pattern_binds(rt.alloc(), number, wanted));
        let after = is_so(finished_pattern_binds(rt.alloc(), number, wanted));
        assert!(rt; before && after, "at {number}");
    }
}

/// Whether it is one of the string literals of the rows.
fn is_quoted(text: &str) -> bool
    ensures { IsTrue result → string_kind (chars text.now) ≡ Some Str }
{
    matches!(text, "'a\\x62'" | "'\\uD800'")
}

/// Which call reads a node.
#[derive(Clone, Copy, PartialEq, Eq)]
enum Reader {
    Name,
    Raw,
    Digits,
    Key,
}

/// A text, the node at its whole, and what is read.
static READINGS: [(&str, NodeKind, Reader, &str); 14] = [
    ("ab", NodeKind::IdentifierReference, Reader::Name, "ab"),
    ("#ab", NodeKind::PrivateIdentifier, Reader::Name, "ab"),
    ("ab", NodeKind::IdentifierName, Reader::Key, "ab"),
    ("#ab", NodeKind::PrivateIdentifier, Reader::Key, "ab"),
    ("12", NodeKind::NumericLiteral, Reader::Key, "none"),
    ("'a\\x62'", NodeKind::StringLiteral, Reader::Key, "ab"),
    ("'\\uD800'", NodeKind::StringLiteral, Reader::Key, "none"),
    ("a\rb", NodeKind::TemplateElement, Reader::Raw, "a\nb"),
    (
        "a\r\nb\n\r",
        NodeKind::TemplateElement,
        Reader::Raw,
        "a\nb\n\n",
    ),
    (
        "\\u00e9\\r",
        NodeKind::TemplateElement,
        Reader::Raw,
        "\\u00e9\\r",
    ),
    ("0x1_fn", NodeKind::BigIntLiteral, Reader::Digits, "1f"),
    ("1_000n", NodeKind::BigIntLiteral, Reader::Digits, "1000"),
    ("0n", NodeKind::BigIntLiteral, Reader::Digits, "0"),
    ("0B10n", NodeKind::BigIntLiteral, Reader::Digits, "10"),
];

/// What a reader gives, as text.
fn read(
    alloc: Global,
    builder: &ParserAstBuilder,
    id: NodeId,
    source: &str,
    reader: Reader,
) -> Result<Option<Text>, NoMemory> {
    if !builder.contains(id) || !lies_in(source, builder.span(id)) {
        return Ok(None);
    }
    if builder.kind(id) == NodeKind::StringLiteral && !is_quoted(builder.text(id, source)) {
        return Ok(None);
    }
    match reader {
        Reader::Name => Ok(Some(Text::from_str(alloc, builder.name(id, source))?)),
        Reader::Raw => Ok(Some(builder.raw(alloc, id, source)?)),
        Reader::Digits => Ok(Some(builder.digits(alloc, id, source)?)),
        Reader::Key => builder.prop_name(alloc, id, source),
    }
}

/// What a reader of a finished tree gives, as text.
fn read_finished(
    alloc: Global,
    tree: &Tree,
    id: NodeId,
    source: &str,
    reader: Reader,
) -> Result<Option<Text>, NoMemory> {
    if !tree.contains(id) || !lies_in(source, tree.span(id)) {
        return Ok(None);
    }
    if tree.kind(id) == NodeKind::StringLiteral && !is_quoted(tree.text(id, source)) {
        return Ok(None);
    }
    match reader {
        Reader::Name => Ok(Some(Text::from_str(alloc, tree.name(id, source))?)),
        Reader::Raw => Ok(Some(tree.raw(alloc, id, source)?)),
        Reader::Digits => Ok(Some(tree.digits(alloc, id, source)?)),
        Reader::Key => tree.prop_name(alloc, id, source),
    }
}

/// Whether what was read is this text, or none.
fn is_wanted(found: &Option<Text>, wanted: &str) -> bool {
    match found {
        Some(text) => text.as_str() == wanted,
        None => wanted == "none",
    }
}

/// The step of a node of a kind at a whole text.
fn step_of(source: &str, kind: NodeKind) -> Step {
    let end = u32::try_from(source.len()).unwrap_or(0);
    Step(kind, 0, end, Op::None, 0, "")
}

/// Makes the node of a kind at a whole text.
fn leaf_of(
    alloc: Global,
    builder: &mut ParserAstBuilder,
    source: &str,
    kind: NodeKind,
) -> Result<NodeId, NoMemory> {
    let mut free = Vec::new(alloc);
    step_made(alloc, builder, &mut free, &step_of(source, kind))
}

/// The tree of the node of a kind at a whole text.
fn tree_of(alloc: Global, source: &str, kind: NodeKind) -> Result<Tree, NoMemory> {
    let step = step_of(source, kind);
    built(alloc, &[step], step.2)
}

/// The number of that node.
const LEAF: NodeId = NodeId(1);

/// Whether the node of a kind at a whole text is read as this before the tree is finished.
fn is_reading(
    alloc: Global,
    source: &str,
    kind: NodeKind,
    reader: Reader,
    wanted: &str,
) -> Result<bool, NoMemory> {
    let mut builder = ParserAstBuilder::new(alloc)?;
    let id = leaf_of(alloc, &mut builder, source, kind)?;
    let found = read(alloc, &builder, id, source, reader)?;
    Ok(is_wanted(&found, wanted))
}

/// The same when the tree is finished.
fn is_finished_reading(
    alloc: Global,
    source: &str,
    kind: NodeKind,
    reader: Reader,
    wanted: &str,
) -> Result<bool, NoMemory> {
    let tree = tree_of(alloc, source, kind)?;
    let found = read_finished(alloc, &tree, LEAF, source, reader)?;
    Ok(is_wanted(&found, wanted))
}

/// What each reader gives, before and after the tree is finished.
#[test]
fn readings(rt: HostRuntime) {
    for &(source, kind, reader, wanted) in &READINGS {
        let before = is_so(is_reading(rt.alloc(), source, kind, reader, wanted));
        let after = is_so(is_finished_reading(rt.alloc(), source, kind, reader, wanted));
        assert!(rt; before && after, "at {source}");
    }
}

/// A text, the kind of the node at its whole, a string literal or a part of a template, and the text of ASCII that its code
/// units spell; none where an escape of the part is ill-formed.
static VALUES: [(&str, NodeKind, Option<&str>); 5] = [
    ("'a\\x62'", NodeKind::StringLiteral, Some("ab")),
    ("a\rb", NodeKind::TemplateElement, Some("a\nb")),
    ("\\x61\\u{62}", NodeKind::TemplateElement, Some("ab")),
    ("\\0", NodeKind::TemplateElement, Some("\0")),
    ("\\01", NodeKind::TemplateElement, None),
];

/// The code units of a string literal or of a part of a template.
fn units_of(
    alloc: Global,
    builder: &ParserAstBuilder,
    id: NodeId,
    source: &str,
) -> Result<Option<JsStr>, NoMemory> {
    if !builder.contains(id) || !lies_in(source, builder.span(id)) {
        return Ok(None);
    }
    if is_quoted(builder.text(id, source)) {
        return Ok(Some(builder.string_value(alloc, id, source)?));
    }
    builder.cooked(alloc, id, source)
}

/// The same of a finished tree.
fn units_finished(
    alloc: Global,
    tree: &Tree,
    id: NodeId,
    source: &str,
) -> Result<Option<JsStr>, NoMemory> {
    if !tree.contains(id) || !lies_in(source, tree.span(id)) {
        return Ok(None);
    }
    if is_quoted(tree.text(id, source)) {
        return Ok(Some(tree.string_value(alloc, id, source)?));
    }
    tree.cooked(alloc, id, source)
}

/// Whether the code units are those of a text of ASCII.
fn are_spelled(units: &JsStr, text: &str) -> bool {
    for (i, byte) in text.bytes().enumerate() {
        if units.unit(i) != Some(u16::from(byte)) {
            return false;
        }
    }
    units.len() == text.len()
}

/// Whether there are code units, and those of this text, or none.
fn is_value(found: &Option<JsStr>, wanted: Option<&str>) -> bool {
    match (found, wanted) {
        (Some(units), Some(text)) => are_spelled(units, text),
        (None, None) => true,
        _ => false,
    }
}

/// Whether the code units of the node of a kind at a whole text are these before the tree is finished.
fn has_value(
    alloc: Global,
    source: &str,
    kind: NodeKind,
    wanted: Option<&str>,
) -> Result<bool, NoMemory> {
    let mut builder = ParserAstBuilder::new(alloc)?;
    let id = leaf_of(alloc, &mut builder, source, kind)?;
    let found = units_of(alloc, &builder, id, source)?;
    Ok(is_value(&found, wanted))
}

/// The same when the tree is finished.
fn has_finished_value(
    alloc: Global,
    source: &str,
    kind: NodeKind,
    wanted: Option<&str>,
) -> Result<bool, NoMemory> {
    let tree = tree_of(alloc, source, kind)?;
    let found = units_finished(alloc, &tree, LEAF, source)?;
    Ok(is_value(&found, wanted))
}

/// The code units of each, before and after the tree is finished.
#[test]
fn values(rt: HostRuntime) {
    for &(source, kind, wanted) in &VALUES {
        let before = is_so(has_value(rt.alloc(), source, kind, wanted));
        let after = is_so(has_finished_value(rt.alloc(), source, kind, wanted));
        assert!(rt; before && after, "at {source}");
    }
}

/// The text of two names, of which the second is written with an escape.
static TWO_NAMES: &str = "a; \\u0061";

/// Makes the nodes of the two names, and keeps the second.
fn two_names(alloc: Global, builder: &mut ParserAstBuilder) -> Result<(NodeId, NodeId), NoMemory> {
    let kind = NodeKind::IdentifierReference;
    let name = Text::from_str(alloc, "a")?;
    let first = builder.leaf(kind, Span { start: 0, end: 1 }, Op::None, flags_of(0), None)?;
    let place = Span { start: 3, end: 9 };
    let second = builder.leaf(kind, place, Op::None, flags_of(0), Some(name))?;
    Ok((first, second))
}

/// Whether a node is named `a`, and the name is kept or not.
fn is_named(
    alloc: Global,
    builder: &ParserAstBuilder,
    id: NodeId,
    owned: bool,
) -> Result<bool, NoMemory> {
    if !builder.contains(id) || builder.owns_name(id) != owned {
        return Ok(false);
    }
    let found = read(alloc, builder, id, TWO_NAMES, Reader::Name)?;
    Ok(is_wanted(&found, "a"))
}

/// Marks the first of two nodes; whether it alone is marked then.
fn marks_first(builder: &mut ParserAstBuilder, first: NodeId, second: NodeId) -> bool {
    if !builder.contains(first) {
        return false;
    }
    builder.set_flags(first, flags_of(0x2000));
    if !builder.contains(first) || !builder.contains(second) {
        return false;
    }
    builder.flags(first).pife && !builder.flags(second).pife
}

/// Whether the first of two nodes is named by the text and the second keeps its name, and the first alone can be marked.
fn are_kept(alloc: Global, builder: &mut ParserAstBuilder) -> Result<bool, NoMemory> {
    let (first, second) = two_names(alloc, builder)?;
    let is_read = is_named(alloc, builder, first, false)?;
    let is_kept = is_named(alloc, builder, second, true)?;
    Ok(is_read && is_kept && marks_first(builder, first, second))
}

/// Whether the two names `are_kept` in a tree of their own.
fn two_names_are_kept(alloc: Global) -> Result<bool, NoMemory> {
    let mut builder = ParserAstBuilder::for_text(alloc, TWO_NAMES.len())?;
    are_kept(alloc, &mut builder)
}

/// A name that is kept stands under its own number: in `a; \u0061` the second name's.
#[test]
fn kept_names(rt: HostRuntime) {
    assert!(rt; is_so(two_names_are_kept(rt.alloc())));
}

/// Makes nodes that stand each in the next, and tells the outermost.
fn nested(builder: &mut ParserAstBuilder, count: u32) -> Result<Option<NodeId>, NoMemory> {
    let span = Span { start: 0, end: 1 };
    let kind = NodeKind::ParenthesizedExpression;
    let mut inner = None;
    for _ in 0..count {
        inner = Some(builder.node_of_one(kind, span, Op::None, flags_of(0), inner)?);
    }
    Ok(inner)
}

/// The tree of nodes that stand each in the next.
fn nested_tree(alloc: Global, count: u32) -> Result<Tree, NoMemory> {
    let mut builder = ParserAstBuilder::new(alloc)?;
    let outermost = nested(&mut builder, count)?;
    builder.finish(Span { start: 0, end: 1 }, vec![in alloc; outermost]?)
}

/// Whether a tree of nodes that stand each in the next has so many, and no lines.
fn has_no_lines(alloc: Global, count: u32, nodes: usize) -> Result<bool, NoMemory> {
    let tree = nested_tree(alloc, count)?;
    Ok(tree.node_count() == nodes && tree.tree_lines(alloc).is_err())
}

/// A tree as deep as it has nodes, whose lines would have more bytes than there may be.
#[test]
fn too_deep(rt: HostRuntime) {
    assert!(rt; is_so(has_no_lines(rt.alloc(), 60_000, 60_001)));
}
