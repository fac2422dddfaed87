//! Rows of texts, trees of them made by hand, and their compact JSON text.

ghost use Rattle.std.specs.Prelude.{IsTrue};
ghost use Rattle.std.specs.List.{All};
ghost use Rattle.js_base.specs.Spans.{LiesIn};

use crate::rows::lies_in;
use js_base::{NoMemory, Span, UpdateOperator};
use js_json::{MAX_LEVELS, tree_json};
use js_tree::{NodeFlags, NodeId, NodeKind, NumberBase, Op, ParserAstBuilder, Tree};
use serde_json::Value;
use std::alloc::Global;
use std::test::Fail;

/// A node to be made: its kind, where it begins, its op, and whether it is a prefix. It ends with its text, and the node
/// before it is its only child.
#[derive(Clone, Copy)]
struct Step(NodeKind, u32, Op, bool);

static NAME: [Step; 2] = [
    Step(NodeKind::IdentifierReference, 0, Op::None, false),
    Step(NodeKind::ExpressionStatement, 0, Op::None, false),
];

static NAME_JSON: &str =
    r#"{"children":[{"children":[{"children":[],"end":1,"flags":[],"name":"a","op":null,"raw":null,"start":0,"type":"IdentifierReference"}],"end":1,"flags":[],"name":null,"op":null,"raw":null,"start":0,"type":"ExpressionStatement"}],"end":1,"flags":[],"name":null,"op":null,"raw":null,"start":0,"type":"Program"}"#;

static EMPTY_JSON: &str =
    r#"{"children":[],"end":0,"flags":[],"name":null,"op":null,"raw":null,"start":0,"type":"Program"}"#;

static UPDATE: [Step; 3] = [
    Step(NodeKind::IdentifierReference, 2, Op::None, false),
    Step(
        NodeKind::UpdateExpression,
        0,
        Op::Update(UpdateOperator::Increment),
        true,
    ),
    Step(NodeKind::ExpressionStatement, 0, Op::None, false),
];

static UPDATE_JSON: &str =
    r#"{"children":[{"children":[{"children":[{"children":[],"end":3,"flags":[],"name":"a","op":null,"raw":null,"start":2,"type":"IdentifierReference"}],"end":3,"flags":["prefix"],"name":null,"op":"++","raw":null,"start":0,"type":"UpdateExpression"}],"end":3,"flags":[],"name":null,"op":null,"raw":null,"start":0,"type":"ExpressionStatement"}],"end":3,"flags":[],"name":null,"op":null,"raw":null,"start":0,"type":"Program"}"#;

static NUMBER: [Step; 2] = [
    Step(
        NodeKind::NumericLiteral,
        0,
        Op::Number(NumberBase::Decimal),
        false,
    ),
    Step(NodeKind::ExpressionStatement, 0, Op::None, false),
];

static NUMBER_JSON: &str =
    r#"{"children":[{"children":[{"children":[],"end":1,"flags":[],"name":null,"op":"Decimal","raw":"0","start":0,"type":"NumericLiteral"}],"end":1,"flags":[],"name":null,"op":null,"raw":null,"start":0,"type":"ExpressionStatement"}],"end":1,"flags":[],"name":null,"op":null,"raw":null,"start":0,"type":"Program"}"#;

/// Makes a node above another one.
fn step_made(
    builder: &mut ParserAstBuilder,
    step: Step,
    end: u32,
    child: Option<NodeId>,
) -> Result<NodeId, NoMemory> {
    let Step(kind, start, op, prefix) = step;
    let span = Span { start, end };
    let flags = NodeFlags {
        prefix,
        optional: false,
        computed: false,
        shorthand: false,
        method: false,
        is_async: false,
        generator: false,
        delegate: false,
        is_static: false,
        is_await: false,
        tail: false,
        bare: false,
        pure: false,
        pife: false,
    };
    match child {
        None => builder.leaf(kind, span, op, flags, None),
        child => builder.node_of_one(kind, span, op, flags, child),
    }
}

/// The tree of a text that steps make, the last below Program, so many times.
fn built(alloc: Global, steps: &[Step], end: u32, times: usize) -> Result<Tree, NoMemory> {
    let mut builder = ParserAstBuilder::new(alloc)?;
    let mut last = None;
    for _ in 0..times {
        for step in steps {
            last = Some(step_made(&mut builder, *step, end, last)?);
        }
    }
    let mut children = Vec::new(alloc);
    if last.is_some() {
        children.push(last)?;
    }
    builder.finish(Span { start: 0, end }, children)
}

/// Whether the span of each node lies in a text of ASCII.
fn all_lie_in(source: &str, tree: &Tree) -> bool
    ensures { IsTrue result → All (λ n. LiesIn n.span source.now) tree.now }
{
    for i in 0..tree.kinds().len() {
        if !lies_in(source, tree.span(NodeId(i))) {
            return false;
        }
    }
    true
}

/// The value of the tree that steps make; none where one lies outside the text, or memory is wanting.
fn value_of(alloc: Global, source: &str, steps: &[Step], times: usize) -> Option<Value> {
    let end = u32::try_from(source.len()).ok()?;
    let tree = built(alloc, steps, end, times).ok()?;
    if !all_lie_in(source, &tree) {
        return None;
    }
    tree_json(alloc, &tree, source).ok()
}

/// The texts of the values, with their keys in the order of bytes.
#[test]
fn texts_of_values(rt: HostRuntime) -> Result<(), Fail> {
    let rows: [(&str, &[Step], &str); 4] = [
        ("a", &NAME, NAME_JSON),
        ("", &[], EMPTY_JSON),
        ("++a", &UPDATE, UPDATE_JSON),
        ("0", &NUMBER, NUMBER_JSON),
    ];
    for (source, steps, json) in rows {
        let value = value_of(rt.alloc(), source, steps, 1).ok_or("no value")?;
        let text = value.to_string(rt.alloc())?;
        assert!(rt; text.as_str() == json, "of {source}");
    }
    Ok(())
}

/// A tree of as many levels as may be has a value, which is let go; one of more has none.
#[test]
fn depths(rt: HostRuntime) {
    let deepest = MAX_LEVELS / 2;
    assert!(rt; value_of(rt.alloc(), "0", &NUMBER, deepest - 1).is_some());
    assert!(rt; value_of(rt.alloc(), "0", &NUMBER, deepest).is_none());
}
