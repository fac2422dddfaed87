//! The names of nodes, decoded from the text.

ghost use Rattle.std.specs.Prelude.{◌≡◌, ◌<◌, length, true, IfOk, Some, All, IsSome};
ghost use Rattle.js_base.specs.Spans.{LiesIn};
ghost use Rattle.js_grammar.specs.NodeNames.{word_at, string_at, name_at, IsReadFrom};
ghost use Rattle.js_grammar.specs.Modules.{named, specifier as specified};
ghost use Rattle.js_tree.specs.declared.kind.NodeKind.TheVariants as node;
ghost use Rattle.js_tree.specs.Nodes.{node_at};
ghost use Rattle.js_record.specs.NodeKinds.{is_name_kind, is_string};
ghost use Rattle.js_record.specs.Shown.{label_at, IsNear, first_shown, second_shown, optional_shown, first_of, rest_of};

use js_base::{NoMemory, Span, Text, decode_name};
use js_tree::{NodeId, NodeKind, ParserAstBuilder, without_sign};
use part_visits::NameSpan;
use std::alloc::Global;

/// Whether a node of this kind is a name.
pub(crate) fn is_word(kind: NodeKind) -> bool
    ensures { result ≡ is_name_kind kind }
{
    matches!(
        kind,
        NodeKind::IdentifierReference
            | NodeKind::BindingIdentifier
            | NodeKind::LabelIdentifier
            | NodeKind::IdentifierName
            | NodeKind::PrivateIdentifier
    )
}

/// Whether a node of this kind is a string literal.
pub(crate) fn is_string(kind: NodeKind) -> bool
    ensures { result ≡ is_string kind }
{
    matches!(kind, NodeKind::StringLiteral)
}

/// The StringValue of a name (ECMA-262, 12.7.1), a `#` aside.
fn word_text(
    alloc: Global,
    tree: &ParserAstBuilder,
    source: &str,
    id: NodeId,
) -> Result<Text, NoMemory>
    requires contained { id.0 < length tree.now }
    requires lies { LiesIn (node_at tree.now id).span source.now }
    requires word { IsSome (word_at source.now (label_at tree.now id)) }
    ensures { IfOk result (λ text. Some text ≡ word_at source.now (label_at tree.now id)) }
{
    decode_name(alloc, without_sign(tree.text(id, source)))
}

/// The value of a string literal (ECMA-262, 12.9.4.2); none where a lone surrogate is in it.
fn string_text(
    alloc: Global,
    tree: &ParserAstBuilder,
    source: &str,
    id: NodeId,
) -> Result<Option<Text>, NoMemory>
    requires contained { id.0 < length tree.now }
    requires read { IsReadFrom source.now (label_at tree.now id) }
    requires string { is_string (node_at tree.now id).kind ≡ true }
    ensures { IfOk result (λ text. text ≡ string_at source.now (label_at tree.now id)) }
{
    tree.prop_name(alloc, id, source)
}

/// What the node stands for as a name; the empty text where it stands for none.
fn name_text(
    alloc: Global,
    tree: &ParserAstBuilder,
    source: &str,
    id: NodeId,
) -> Result<Text, NoMemory>
    requires contained { id.0 < length tree.now }
    requires read { IsReadFrom source.now (label_at tree.now id) }
    ensures { IfOk result (λ text. text ≡ name_at source.now (label_at tree.now id)) }
{
    let kind = tree.kind(id);
    if is_word(kind) {
        return word_text(alloc, tree, source, id);
    }
    if is_string(kind) {
        if let Some(text) = string_text(alloc, tree, source, id)? {
            return Ok(text);
        }
    }
    Text::from_str(alloc, "")
}

/// What the node stands for as a name, and where it stands.
pub(crate) fn name_of(
    alloc: Global,
    tree: &ParserAstBuilder,
    source: &str,
    id: NodeId,
) -> Result<NameSpan, NoMemory>
    requires contained { id.0 < length tree.now }
    requires read { IsReadFrom source.now (label_at tree.now id) }
    ensures { IfOk result (λ name. name ≡ named source.now (label_at tree.now id)) }
{
    let name = name_text(alloc, tree, source, id)?;
    let span = tree.span(id);
    Ok(NameSpan { name, span })
}

/// A module specifier and where it stands; none where a lone surrogate is in it.
pub(crate) fn specifier_of(
    alloc: Global,
    tree: &ParserAstBuilder,
    source: &str,
    id: NodeId,
) -> Result<Option<NameSpan>, NoMemory>
    requires contained { id.0 < length tree.now }
    requires read { IsReadFrom source.now (label_at tree.now id) }
    ensures { IfOk result (λ name. name ≡ specified source.now (label_at tree.now id)) }
{
    if !is_string(tree.kind(id)) {
        return Ok(None);
    }
    let span = tree.span(id);
    match string_text(alloc, tree, source, id)? {
        Some(name) => Ok(Some(NameSpan { name, span })),
        None => Ok(None),
    }
}

/// The child in the first slot, where there is one.
pub(crate) fn first(slots: &[Option<NodeId>]) -> Option<NodeId>
    ensures { result ≡ first_of slots.now }
{
    if slots.is_empty() { None } else { slots[0] }
}

/// The slots behind the first.
pub(crate) fn rest(slots: &[Option<NodeId>]) -> &[Option<NodeId>]
    ensures { result.now ≡ rest_of slots.now }
{
    if slots.is_empty() { slots } else { &slots[1..] }
}

/// The name in the first slot; where there is none, the empty text at 0..0.
pub(crate) fn first_name(
    alloc: Global,
    tree: &ParserAstBuilder,
    source: &str,
    slots: &[Option<NodeId>],
) -> Result<NameSpan, NoMemory>
    requires { All (IsNear tree.now source.now) slots.now }
    ensures { IfOk result (λ name. name ≡ first_shown tree.now source.now slots.now) }
{
    if let [Some(id), ..] = slots {
        return name_of(alloc, tree, source, *id);
    }
    let name = Text::from_str(alloc, "")?;
    let span = Span::empty(0);
    Ok(NameSpan { name, span })
}

/// The name in the second slot; where there is none, the empty text at 0..0.
pub(crate) fn second_name(
    alloc: Global,
    tree: &ParserAstBuilder,
    source: &str,
    slots: &[Option<NodeId>],
) -> Result<NameSpan, NoMemory>
    requires { All (IsNear tree.now source.now) slots.now }
    ensures { IfOk result (λ name. name ≡ second_shown tree.now source.now slots.now) }
{
    first_name(alloc, tree, source, rest(slots))
}

/// The name in the first slot, where there is one.
pub(crate) fn optional_name(
    alloc: Global,
    tree: &ParserAstBuilder,
    source: &str,
    slots: &[Option<NodeId>],
) -> Result<Vec<NameSpan>, NoMemory>
    requires { All (IsNear tree.now source.now) slots.now }
    ensures { IfOk result (λ names. names.items ≡ optional_shown tree.now source.now slots.now) }
{
    let mut names = Vec::new(alloc);
    if let [Some(id), ..] = slots {
        names.push(name_of(alloc, tree, source, *id)?)?;
    }
    Ok(names)
}
