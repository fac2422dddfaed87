//! Nodes without flags, made at a parser's place.

ghost use Rattle.std.specs.Prelude.{◌≡◌, ◌∷◌, [], true, false, Some, IfOk, chars, slice_range};
ghost use Rattle.parse_shared.specs.Prelude.{behind_sign, is_name_node, is_textual, IsKept, IsKeptPrivate, MadeHere, name_text, number_of, plain_label, spelled_at, SpellsName, SpellsPrivate, Str, string_kind};
ghost use Rattle.laws_shared.specs.js_tree.declared.kind.NodeKind.TheVariants as node;
ghost use Rattle.laws_shared.specs.js_tree.declared.op.Op.TheVariants as op;

use js_base::{NoMemory, Span, Text, Token, decode_name};
use laws_shared::{NodeFlags, NodeId, NodeKind, Op, ParserConfig, ParserImpl};

/// No flag at all.
pub fn no_flags() -> NodeFlags
    ensures { number_of result ≡ 0 }
{
    NodeFlags::default()
}

/// A node without children, which is no name and no string.
#[inline(always)]
pub fn make_leaf<C: ParserConfig>(
    p: &mut ParserImpl<'_, C>,
    kind: NodeKind,
    op: Op,
    span: Span,
) -> Result<NodeId, NoMemory>
    requires { is_textual kind ≡ false }
    ensures { IfOk result (λ id. MadeHere (plain_label kind op span) [] p.old p.new id) }
{
    p.ast.leaf(kind, span, op, no_flags(), None)
}

/// The name that a token is, where an escape stands in it; else its text is the name itself (ECMA-262, section 12.7.1).
#[inline(always)]
fn escaped_name<C: ParserConfig>(
    p: &ParserImpl<'_, C>,
    token: Token,
) -> Result<Option<Text>, NoMemory>
    requires { SpellsName p.now.text token }
    ensures { IfOk result (λ name. IsKept name (spelled_at p.now.text token)) }
{
    if token.escaped() {
        let name = decoded_name(p, token)?;
        return Ok(Some(name));
    }
    Ok(None)
}

/// The name that a token spells.
#[inline(never)]
fn decoded_name<C: ParserConfig>(p: &ParserImpl<'_, C>, token: Token) -> Result<Text, NoMemory>
    requires { SpellsName p.now.text token }
    ensures { IfOk result (λ name. Some name ≡ name_text (spelled_at p.now.text token)) }
{
    decode_name(p.alloc, token.text(p.source_text))
}

/// The node of a name, by its token: with an escape in it the node keeps what it spells (ECMA-262, section 12.7.1).
///
/// Names without one are frequent: their nodes are made apart, by code that knows that nothing is kept.
#[inline(always)]
pub fn make_name<C: ParserConfig>(
    p: &mut ParserImpl<'_, C>,
    kind: NodeKind,
    token: Token,
) -> Result<NodeId, NoMemory>
    requires kind { is_name_node kind ≡ true }
    requires spells { SpellsName p.old.text token }
    ensures { IfOk result (λ id. MadeHere (plain_label kind op.None token.span) [] p.old p.new id) }
{
    if !token.escaped() {
        let name = plain_name(p, token);
        return p.ast.leaf(kind, token.span(), Op::None, no_flags(), name);
    }
    make_spelled_name(p, kind, token)
}

/// The node of a name, whether an escape stands in it or not.
#[inline(never)]
fn make_spelled_name<C: ParserConfig>(
    p: &mut ParserImpl<'_, C>,
    kind: NodeKind,
    token: Token,
) -> Result<NodeId, NoMemory>
    requires kind { is_name_node kind ≡ true }
    requires spells { SpellsName p.old.text token }
    ensures { IfOk result (λ id. MadeHere (plain_label kind op.None token.span) [] p.old p.new id) }
{
    let name = escaped_name(p, token)?;
    p.ast.leaf(kind, token.span(), Op::None, no_flags(), name)
}

/// What is kept of a name without an escape: nothing.
#[inline(always)]
fn plain_name<C: ParserConfig>(_p: &ParserImpl<'_, C>, _token: Token) -> Option<Text>
    requires spells { SpellsName _p.now.text _token }
    requires plain { _token.escaped ≡ false }
    ensures { IsKept result (spelled_at _p.now.text _token) }
{
    None
}

/// The node of a private name, by its token: with an escape in it the node keeps what the name behind its `#` spells
/// (ECMA-262, section 12.7.1).
#[inline(never)]
pub fn make_private_name<C: ParserConfig>(
    p: &mut ParserImpl<'_, C>,
    token: Token,
) -> Result<NodeId, NoMemory>
    requires { SpellsPrivate p.old.text token }
    ensures { IfOk result (λ id. MadeHere (plain_label node.PrivateIdentifier op.None token.span) [] p.old p.new id) }
{
    let name = private_name(p, token)?;
    let kind = NodeKind::PrivateIdentifier;
    p.ast.leaf(kind, token.span(), Op::None, no_flags(), name)
}

/// What is kept of a private name: the name behind its `#`, where an escape stands in it.
fn private_name<C: ParserConfig>(
    p: &ParserImpl<'_, C>,
    token: Token,
) -> Result<Option<Text>, NoMemory>
    requires { SpellsPrivate p.now.text token }
    ensures { IfOk result (λ name. IsKeptPrivate name (spelled_at p.now.text token)) }
{
    if token.escaped() {
        let name = decoded_private_name(p, token)?;
        return Ok(Some(name));
    }
    Ok(None)
}

/// The name that a private name spells behind its `#`.
fn decoded_private_name<C: ParserConfig>(
    p: &ParserImpl<'_, C>,
    token: Token,
) -> Result<Text, NoMemory>
    requires { SpellsPrivate p.now.text token }
    ensures { IfOk result (λ name. Some name ≡ name_text (behind_sign p.now.text token)) }
{
    let name = &p.source_text[token.start() as usize + 1..token.end() as usize];
    decode_name(p.alloc, name)
}

/// The node of a string literal at a span (ECMA-262, section 12.9.4).
#[inline(always)]
pub fn make_string<C: ParserConfig>(
    p: &mut ParserImpl<'_, C>,
    span: Span,
) -> Result<NodeId, NoMemory>
    requires { string_kind (chars (slice_range p.old.text span.start span.end)) ≡ Some Str }
    ensures { IfOk result (λ id. MadeHere (plain_label node.StringLiteral op.None span) [] p.old p.new id) }
{
    p.ast
        .leaf(NodeKind::StringLiteral, span, Op::None, no_flags(), None)
}

/// A node of one child.
pub fn make_one<C: ParserConfig>(
    p: &mut ParserImpl<'_, C>,
    kind: NodeKind,
    op: Op,
    span: Span,
    child: NodeId,
) -> Result<NodeId, NoMemory>
    requires { is_textual kind ≡ false }
    ensures { IfOk result (λ id. MadeHere (plain_label kind op span) (Some child ∷ []) p.old p.new id) }
{
    p.ast.node_of_one(kind, span, op, no_flags(), Some(child))
}

/// A node of one child, or an empty slot.
pub fn make_optional<C: ParserConfig>(
    p: &mut ParserImpl<'_, C>,
    kind: NodeKind,
    span: Span,
    child: Option<NodeId>,
) -> Result<NodeId, NoMemory>
    requires { is_textual kind ≡ false }
    ensures { IfOk result (λ id. MadeHere (plain_label kind op.None span) (child ∷ []) p.old p.new id) }
{
    p.ast.node_of_one(kind, span, Op::None, no_flags(), child)
}

/// A node of two children.
pub fn make_two<C: ParserConfig>(
    p: &mut ParserImpl<'_, C>,
    kind: NodeKind,
    op: Op,
    span: Span,
    first: NodeId,
    second: NodeId,
) -> Result<NodeId, NoMemory>
    requires { is_textual kind ≡ false }
    ensures { IfOk result (λ id. MadeHere (plain_label kind op span) (Some first ∷ Some second ∷ []) p.old p.new id) }
{
    p.ast
        .node_of_two(kind, span, op, no_flags(), Some(first), Some(second))
}

/// A node of a child and a second one, or an empty slot.
pub fn make_with_optional<C: ParserConfig>(
    p: &mut ParserImpl<'_, C>,
    kind: NodeKind,
    span: Span,
    first: NodeId,
    second: Option<NodeId>,
) -> Result<NodeId, NoMemory>
    requires { is_textual kind ≡ false }
    ensures { IfOk result (λ id. MadeHere (plain_label kind op.None span) (Some first ∷ second ∷ []) p.old p.new id) }
{
    p.ast
        .node_of_two(kind, span, Op::None, no_flags(), Some(first), second)
}

/// A node of three children.
pub fn make_three<C: ParserConfig>(
    p: &mut ParserImpl<'_, C>,
    kind: NodeKind,
    op: Op,
    span: Span,
    first: NodeId,
    second: NodeId,
    third: NodeId,
) -> Result<NodeId, NoMemory>
    requires { is_textual kind ≡ false }
    ensures { IfOk result (λ id. MadeHere (plain_label kind op span) (Some first ∷ Some second ∷ Some third ∷ []) p.old p.new id) }
{
    let children = [Some(first), Some(second), Some(third)];
    p.ast.node_of_three(kind, span, op, no_flags(), children)
}

/// A node of two children and a third one, or an empty slot.
pub fn make_two_and_optional<C: ParserConfig>(
    p: &mut ParserImpl<'_, C>,
    kind: NodeKind,
    span: Span,
    first: NodeId,
    second: NodeId,
    third: Option<NodeId>,
) -> Result<NodeId, NoMemory>
    requires { is_textual kind ≡ false }
    ensures { IfOk result (λ id. MadeHere (plain_label kind op.None span) (Some first ∷ Some second ∷ third ∷ []) p.old p.new id) }
{
    let children = [Some(first), Some(second), third];
    p.ast
        .node_of_three(kind, span, Op::None, no_flags(), children)
}

/// A node of a list of children.
pub fn make_list<C: ParserConfig>(
    p: &mut ParserImpl<'_, C>,
    kind: NodeKind,
    op: Op,
    span: Span,
    children: Vec<Option<NodeId>>,
) -> Result<NodeId, NoMemory>
    requires { is_textual kind ≡ false }
    ensures { IfOk result (λ id. MadeHere (plain_label kind op span) children.items p.old p.new id) }
{
    p.ast.node(kind, span, op, no_flags(), None, children)
}
