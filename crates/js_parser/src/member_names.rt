//! Early rules on the names of members of classes (ECMA-262, section 15.7.1).

ghost use Rattle.std.specs.Prelude.{◌≡◌, ◌<◌, ◌&&◌, IfOk, length, chars, codes, bytes_eq, drop, Some, true};
ghost use Rattle.std.specs.List.{list_all};
ghost use Rattle.js_grammar.specs.Strings.{string_inside, string_kind};
ghost use Rattle.js_base.specs.declared.kind.Kind.TheVariants.{Str};
ghost use Rattle.js_tree.specs.Labels.{kind_of};
ghost use Rattle.js_tree.specs.Nodes.{label, node_at};
ghost use Rattle.js_tree.specs.declared.id.NodeId.{NodeId as Id};
ghost use Rattle.js_tree.specs.declared.kind.NodeKind.TheVariants.{IdentifierName, PrivateIdentifier, StringLiteral};
ghost use Rattle.js_core.specs.laws_shared.NodeTexts.{NodeFits};
ghost use Rattle.js_core.specs.laws_shared.States.{NodesLie};
ghost use Rattle.js_parser.specs.Broken.{name_fault_at, name_rule_at};
ghost use Rattle.js_parser.specs.MemberNodes.{child_at, key_at, is_small, constructor_fault_at, method_fault_at, function_fault};
ghost use Rattle.js_grammar.specs.EarlyRules.{is_member, is_named, is_private_constructor};

use crate::early::has_backslash;
use js_base::{Diagnostic, DiagnosticKind, JsStr, NoMemory};
use js_tree::{MethodKind, NodeId, NodeKind, NumberBase, Op, PropertyKind, Tree};
use std::alloc::Global;

/// What is told of the node where its name breaks a rule on members of classes (section 15.7.1), at its key. The only error
/// is want of memory.
pub fn name_fault(
    alloc: Global,
    tree: &Tree,
    id: NodeId,
    source: &str,
) -> Result<Option<Diagnostic>, NoMemory>
    requires contained { id.0 < length tree.now }
    requires fit { NodesLie source.now tree.now }
    ensures { IfOk result (λ fault. fault ≡ name_fault_at source.now tree.now id) }
{
    let Some(key) = member_key(tree, id) else {
        return Ok(None);
    };
    let Some(kind) = broken_name(alloc, tree, id, key, source)? else {
        return Ok(None);
    };
    Ok(Some(Diagnostic {
        kind,
        span: tree.span(key),
        first: None,
        second: None,
    }))
}

/// Whether a node of this kind is a member of a class that has a name.
#[inline(always)]
pub fn is_member(kind: NodeKind) -> bool
    ensures { result ≡ is_member (kind_of kind) }
{
    matches!(
        kind,
        NodeKind::MethodDefinition | NodeKind::PropertyDefinition | NodeKind::AccessorProperty
    )
}

/// The key of the member of a class; none of any other node.
fn member_key(tree: &Tree, id: NodeId) -> Option<NodeId>
    requires { id.0 < length tree.now }
    ensures { result ≡ key_at tree.now id }
{
    if !is_member(tree.kind(id)) {
        return None;
    }
    child_at(tree, id, 0)
}

/// The child in a slot of the node, if there is one.
pub fn child_at(tree: &Tree, id: NodeId, slot: usize) -> Option<NodeId>
    requires { id.0 < length tree.now }
    ensures is { result ≡ child_at tree.now id slot }
    ensures contained { (child : Id) → result ≡ Some child → child.0 < length tree.now }
{
    if slot >= tree.child_count(id) {
        return None;
    }
    let Some(child) = tree.child(id, slot) else {
        return None;
    };
    if !tree.contains(child) {
        return None;
    }
    Some(child)
}

/// The rule that the member with this key breaks.
fn broken_name(
    alloc: Global,
    tree: &Tree,
    id: NodeId,
    key: NodeId,
    source: &str,
) -> Result<Option<DiagnosticKind>, NoMemory>
    requires contained { id.0 < length tree.now }
    requires key { key_at tree.now id ≡ Some key }
    requires within { key.0 < length tree.now }
    requires fits { NodeFits source.now (node_at tree.now key) }
    ensures { IfOk result (λ kind. kind ≡ name_rule_at source.now tree.now id) }
{
    if is_private_constructor(tree, key, source) {
        return Ok(Some(DiagnosticKind::PrivateNameConstructor));
    }
    if tree.flags(id).computed {
        return Ok(None);
    }
    if is_static_prototype(alloc, tree, id, key, source)? {
        return Ok(Some(DiagnosticKind::StaticPrototype));
    }
    let Some(kind) = constructor_fault(tree, id) else {
        return Ok(None);
    };
    if is_named(alloc, tree, key, source, "constructor")? {
        return Ok(Some(kind));
    }
    Ok(None)
}

/// Whether the member is static and its key is named `prototype`.
fn is_static_prototype(
    alloc: Global,
    tree: &Tree,
    id: NodeId,
    key: NodeId,
    source: &str,
) -> Result<bool, NoMemory>
    requires contained { id.0 < length tree.now }
    requires within { key.0 < length tree.now }
    requires fits { NodeFits source.now (node_at tree.now key) }
    ensures { IfOk result (λ is. is ≡ ((node_at tree.now id).flags.is_static && is_named source.now (kind_of (node_at tree.now key).kind) (codes "prototype") (label (node_at tree.now key)))) }
{
    if !tree.flags(id).is_static {
        return Ok(false);
    }
    is_named(alloc, tree, key, source, "prototype")
}

/// What is told of the member where it is named `constructor`; none where it may be.
fn constructor_fault(tree: &Tree, id: NodeId) -> Option<DiagnosticKind>
    requires { id.0 < length tree.now }
    ensures { result ≡ constructor_fault_at tree.now id }
{
    match tree.kind(id) {
        NodeKind::PropertyDefinition => Some(DiagnosticKind::FieldConstructor),
        NodeKind::AccessorProperty => Some(DiagnosticKind::ConstructorAccessor),
        NodeKind::MethodDefinition => method_fault(tree, id),
        _ => None,
    }
}

/// The same of a method: a static one may be named so, and any other one that is a plain function.
fn method_fault(tree: &Tree, id: NodeId) -> Option<DiagnosticKind>
    requires { id.0 < length tree.now }
    ensures { result ≡ method_fault_at tree.now id }
{
    if tree.flags(id).is_static {
        return None;
    }
    match tree.op(id) {
        Op::Method(MethodKind::Constructor | MethodKind::Method) => function_fault(tree, id),
        Op::None | Op::Property(PropertyKind::Init) | Op::Number(NumberBase::Exponential) => None,
        _ => Some(DiagnosticKind::ConstructorGetterSetter),
    }
}

/// The same by the function of a method that is no accessor.
fn function_fault(tree: &Tree, id: NodeId) -> Option<DiagnosticKind>
    requires { id.0 < length tree.now }
    ensures { result ≡ function_fault tree.now (child_at tree.now id 1) }
{
    let Some(function) = child_at(tree, id, 1) else {
        return None;
    };
    let flags = tree.flags(function);
    if flags.is_async {
        return Some(DiagnosticKind::ConstructorAsync);
    }
    if flags.generator {
        return Some(DiagnosticKind::ConstructorGenerator);
    }
    None
}

/// Whether the key is the private name `#constructor`.
fn is_private_constructor(tree: &Tree, key: NodeId, source: &str) -> bool
    requires within { key.0 < length tree.now }
    requires fits { NodeFits source.now (node_at tree.now key) }
    ensures { result ≡ is_private_constructor source.now (kind_of (node_at tree.now key).kind) (label (node_at tree.now key)) }
{
    match tree.kind(key) {
        NodeKind::PrivateIdentifier => is_private_word(tree, key, source),
        _ => false,
    }
}

/// Whether the PrivateIdentifier spells `#constructor` (section 12.7.1).
fn is_private_word(tree: &Tree, key: NodeId, source: &str) -> bool
    requires within { key.0 < length tree.now }
    requires fits { NodeFits source.now (node_at tree.now key) }
    requires kind { (node_at tree.now key).kind ≡ PrivateIdentifier }
    ensures { result ≡ is_private_constructor source.now (kind_of (node_at tree.now key).kind) (label (node_at tree.now key)) }
{
    if tree.owns_name(key) {
        return tree.name(key, source) == "constructor";
    }
    behind_sign(tree.text(key, source)) == "constructor"
}

/// What stands behind the first character of a text.
fn behind_sign(text: &str) -> &str
    ensures { chars result.now ≡ drop 1 (chars text.now) }
{
    let mut rest = text.chars();
    rest.next();
    rest.as_str()
}

/// Whether the key is a name that spells this one (section 12.7.1), or a string with this value (section 12.9.4.2).
fn is_named(
    alloc: Global,
    tree: &Tree,
    key: NodeId,
    source: &str,
    name: &str,
) -> Result<bool, NoMemory>
    requires within { key.0 < length tree.now }
    requires fits { NodeFits source.now (node_at tree.now key) }
    requires small { list_all is_small name.now ≡ true }
    ensures { IfOk result (λ is. is ≡ is_named source.now (kind_of (node_at tree.now key).kind) name.now (label (node_at tree.now key))) }
{
    match tree.kind(key) {
        NodeKind::IdentifierName => Ok(is_word(tree, key, source, name)),
        NodeKind::StringLiteral => is_string(alloc, tree, key, source, name),
        _ => Ok(false),
    }
}

/// Whether the IdentifierName spells this name (section 12.7.1).
fn is_word(tree: &Tree, key: NodeId, source: &str, name: &str) -> bool
    requires within { key.0 < length tree.now }
    requires fits { NodeFits source.now (node_at tree.now key) }
    requires small { list_all is_small name.now ≡ true }
    requires kind { (node_at tree.now key).kind ≡ IdentifierName }
    ensures { result ≡ is_named source.now (kind_of (node_at tree.now key).kind) name.now (label (node_at tree.now key)) }
{
    if tree.owns_name(key) {
        return tree.name(key, source) == name;
    }
    tree.text(key, source) == name
}

/// Whether the StringLiteral has this value (section 12.9.4.2), which is what stands between its quotes where no backslash
/// does.
fn is_string(
    alloc: Global,
    tree: &Tree,
    key: NodeId,
    source: &str,
    name: &str,
) -> Result<bool, NoMemory>
    requires within { key.0 < length tree.now }
    requires fits { NodeFits source.now (node_at tree.now key) }
    requires small { list_all is_small name.now ≡ true }
    requires kind { (node_at tree.now key).kind ≡ StringLiteral }
    ensures { IfOk result (λ is. is ≡ is_named source.now (kind_of (node_at tree.now key).kind) name.now (label (node_at tree.now key))) }
{
    let text = tree.text(key, source);
    if !has_backslash(text) {
        return Ok(between_quotes(text) == name);
    }
    let units = tree.string_value(alloc, key, source)?;
    Ok(spells(&units, name))
}

/// What stands between the quotes of a string literal.
fn between_quotes(literal: &str) -> &str
    requires { string_kind (chars literal.now) ≡ Some Str }
    ensures { chars result.now ≡ string_inside (chars literal.now) }
{
    &literal[1..literal.len() - 1]
}

/// Whether the code units are those of an ASCII name.
fn spells(units: &JsStr, name: &str) -> bool
    ensures { result ≡ bytes_eq units.now name.now }
{
    let bytes = name.as_bytes();
    if units.len() != bytes.len() {
        return false;
    }
    let mut i = bytes.len();
    while i > 0 {
        i -= 1;
        if units.unit(i) != Some(bytes[i] as u16) {
            return false;
        }
    }
    true
}
