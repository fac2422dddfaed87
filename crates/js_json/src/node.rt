//! The members of a node's object.

ghost use Rattle.std.specs.Prelude.{◌≡◌, ◌<◌, ◌++◌, ◌∷◌, [], length, map, cond, codes, IfOk, OnOk, option_map};
ghost use Rattle.serde_json.specs.Data.{string, number, unsigned, put as with_member};
ghost use Rattle.serde_json.specs.View.{view, members_view};
ghost use Rattle.js_base.specs.Spans.{LiesIn};
ghost use Rattle.js_grammar.specs.Lines.{flag_words};
ghost use Rattle.js_tree.specs.Labels.{kind_of, op_of, number_of};
ghost use Rattle.js_tree.specs.Nodes.{node_at, label};
ghost use Rattle.js_json.specs.Json as form;
ghost use Rattle.js_json.specs.Json.{string_or_null, words_set, object_of};
ghost use Rattle.js_json.specs.Members.{with_texts};
ghost use Rattle.js_json.specs.Names.{read_name};

use js_base::{NoMemory, Span};
use js_tree::{NodeFlags, NodeId, NodeKind, Op, Tree};
use serde_json::{Map, Value, put};
use std::alloc::Global;

/// Whether a node of this kind is a name (ECMA-262, sections 12.7 and 13.1).
fn is_name(kind: NodeKind) -> bool
    ensures { result ≡ form.is_name (kind_of kind) }
{
    matches!(
        kind,
        NodeKind::IdentifierReference
            | NodeKind::BindingIdentifier
            | NodeKind::LabelIdentifier
            | NodeKind::IdentifierName
            | NodeKind::PrivateIdentifier
    )
}

/// Whether the text of a node of this kind is given.
fn has_raw(kind: NodeKind) -> bool
    ensures { result ≡ form.has_raw (kind_of kind) }
{
    matches!(
        kind,
        NodeKind::BooleanLiteral
            | NodeKind::NumericLiteral
            | NodeKind::BigIntLiteral
            | NodeKind::StringLiteral
            | NodeKind::RegExpLiteral
            | NodeKind::TemplateElement
    )
}

/// The text of an op; none exactly where the kind tells all.
fn word_of(op: Op) -> Option<&'static str>
    ensures { option_map (λ s. s.now) result ≡ form.word_of (op_of op) }
{
    match op {
        Op::None => None,
        op => Some(op.as_str()),
    }
}

/// One more member, a text, or null where there is none.
fn put_text(
    members: &mut Map<String, Value>,
    alloc: Global,
    key: &str,
    text: Option<&str>,
) -> Result<(), NoMemory>
    ensures { OnOk result (members_view members.new.entries ≡ with_member key.now (string_or_null (option_map (λ s. s.now) text.entry)) (members_view members.old.entries)) }
{
    let value = match text {
        None => Value::Null,
        Some(text) => Value::try_from_str(alloc, text)?,
    };
    Ok(put(members, alloc, key, value)?)
}

/// One more word, where its flag is set.
fn push_word(
    words: &mut Vec<Value>,
    alloc: Global,
    is_set: bool,
    word: &str,
) -> Result<(), NoMemory>
    ensures { OnOk result (map view words.new.items ≡ map view words.old.items ++ cond is_set (string word.now ∷ []) []) }
{
    if is_set {
        words.push(Value::try_from_str(alloc, word)?)?;
    }
    Ok(())
}

/// The words of the flags that are set, in their order.
fn words_of(alloc: Global, flags: NodeFlags) -> Result<Value, NoMemory>
    ensures { IfOk result (λ v. view v ≡ form.list (words_set flag_words (number_of flags))) }
{
    let mut words = Vec::new(alloc);
    let mut rest = flags.bits();
    for bit in 0..NodeFlags::COUNT {
        push_word(&mut words, alloc, rest % 2 == 1, NodeFlags::word(bit))?;
        rest /= 2;
    }
    Ok(Value::Array(words))
}

/// The name of a node that is one.
fn name_of<'a>(tree: &'a Tree, id: NodeId, source: &'a str) -> Option<&'a str>
    requires contained { id.0 < length tree.now }
    requires lies { LiesIn (node_at tree.now id).span source.now }
    ensures { option_map (λ s. s.now) result ≡ read_name source.now (node_at tree.now id) }
{
    if is_name(tree.kind(id)) {
        Some(tree.name(id, source))
    } else {
        None
    }
}

/// The text of a node of which it is given.
fn raw_of<'a>(tree: &Tree, id: NodeId, source: &'a str) -> Option<&'a str>
    requires contained { id.0 < length tree.now }
    requires lies { LiesIn (node_at tree.now id).span source.now }
    ensures { option_map (λ s. s.now) result ≡ form.raw_of source.now (label (node_at tree.now id)) }
{
    if has_raw(tree.kind(id)) {
        Some(tree.text(id, source))
    } else {
        None
    }
}

/// The places of a node.
fn put_span(members: &mut Map<String, Value>, alloc: Global, span: Span) -> Result<(), NoMemory>
    ensures { OnOk result (members_view members.new.entries ≡ with_member (codes "start") (number (unsigned span.start)) (with_member (codes "end") (number (unsigned span.end)) (members_view members.old.entries))) }
{
    put(members, alloc, "end", Value::from(span.end))?;
    Ok(put(members, alloc, "start", Value::from(span.start))?)
}

/// The texts of a node: its name and its source, where they are given, its op, and the name of its kind.
fn put_texts(
    members: &mut Map<String, Value>,
    alloc: Global,
    tree: &Tree,
    id: NodeId,
    source: &str,
) -> Result<(), NoMemory>
    requires contained { id.0 < length tree.now }
    requires lies { LiesIn (node_at tree.now id).span source.now }
    ensures { OnOk result (members_view members.new.entries ≡ with_texts source.now (label (node_at tree.now id)) (read_name source.now (node_at tree.now id)) (members_view members.old.entries)) }
{
    put_text(members, alloc, "name", name_of(tree, id, source))?;
    put_text(members, alloc, "op", word_of(tree.op(id)))?;
    put_text(members, alloc, "raw", raw_of(tree, id, source))?;
    put_text(members, alloc, "type", Some(tree.kind(id).to_str()))
}

/// The object of a node, with the value of its slots.
pub(crate) fn node_value(
    alloc: Global,
    tree: &Tree,
    id: NodeId,
    source: &str,
    children: Value,
) -> Result<Value, NoMemory>
    requires contained { id.0 < length tree.now }
    requires lies { LiesIn (node_at tree.now id).span source.now }
    ensures { IfOk result (λ v. view v ≡ object_of source.now (label (node_at tree.now id)) (read_name source.now (node_at tree.now id)) (view children)) }
{
    let mut members = Map::new(alloc);
    put(&mut members, alloc, "children", children)?;
    put(
        &mut members,
        alloc,
        "flags",
        words_of(alloc, tree.flags(id))?,
    )?;
    put_span(&mut members, alloc, tree.span(id))?;
    put_texts(&mut members, alloc, tree, id, source)?;
    Ok(Value::Object(members))
}
