//! Expressions read as targets (ECMA-262, sections 8.6.4 and 13.15).

ghost use Rattle.std.specs.Prelude.{◌≡◌, ◌<◌, ◌≤◌, ℕ, length, [], IfOk, None, get_or};
ghost use Rattle.js_grammar.specs.TreeForms.{is_parenthesized};
ghost use Rattle.parse_targets.specs.Prelude.{EndsParse, GivesUp, goal, Holds, IsAt, kind_of, Label, Mark, node_at, Slots, Standing};
ghost use Rattle.parse_targets.specs.Taken.{TellsOnce, no_target_at, not_simple_at};
ghost use Rattle.parse_targets.specs.Targets.{Converted, IsTarget, OfNode, Only, Stood, Two, one_node, slot_of, target_of, unnoted};
ghost use Rattle.parse_targets.specs.Targets as target;

use js_base::{Diagnostic, DiagnosticKind, NoMemory};
use parse_shared::diagnostics::kept_so_far;
use parse_shared::{NodeId, NodeKind, ParserAstBuilder, ParserConfig, ParserImpl, Stop};

/// Whether it is an expression in parentheses.
fn is_parens(kind: NodeKind) -> bool
    ensures { result ≡ is_parenthesized (kind_of kind) }
{
    match kind {
        NodeKind::ParenthesizedExpression => true,
        _ => false,
    }
}

/// Whether it is a name or a member.
fn is_target(kind: NodeKind) -> bool
    ensures { result ≡ target.is_target (kind_of kind) }
{
    match kind {
        NodeKind::IdentifierReference
        | NodeKind::StaticMemberExpression
        | NodeKind::ComputedMemberExpression
        | NodeKind::PrivateFieldExpression => true,
        _ => false,
    }
}

/// Whether it is an array literal.
fn is_array(kind: NodeKind) -> bool
    ensures { result ≡ target.is_array (kind_of kind) }
{
    match kind {
        NodeKind::ArrayExpression => true,
        _ => false,
    }
}

/// Whether it is an object literal.
pub fn is_object(kind: NodeKind) -> bool
    ensures { result ≡ target.is_object (kind_of kind) }
{
    match kind {
        NodeKind::ObjectExpression => true,
        _ => false,
    }
}

/// Whether it is an array or object literal.
pub fn is_literal(kind: NodeKind) -> bool
    ensures { result ≡ target.is_literal (kind_of kind) }
{
    is_array(kind) || is_object(kind)
}

/// Whether an expression is an array or object literal, in no parentheses.
fn is_literal_node(ast: &ParserAstBuilder, id: NodeId) -> bool
    requires { Stood ast.now id }
    ensures { (lo hi : ℕ) (l : Label) (cs : Slots) → Holds ast.now lo hi id.0 l cs → result ≡ target.is_literal l.kind }
{
    is_literal(ast.kind(id))
}

/// Whether an expression of a parser's nodes is an array or object literal, in no parentheses.
pub fn is_array_or_object<C: ParserConfig>(p: &ParserImpl<'_, C>, id: NodeId) -> bool
    requires { Stood p.now.nodes id }
    ensures { (lo hi : ℕ) (l : Label) (cs : Slots) → Holds p.now.nodes lo hi id.0 l cs → result ≡ target.is_literal l.kind }
{
    is_literal_node(&p.ast, id)
}

/// The one child of a node, if it has one.
pub fn only_child(ast: &ParserAstBuilder, id: NodeId) -> Option<NodeId>
    requires { id.0 < length ast.now }
    ensures { Only (node_at ast.now id).children result }
{
    if ast.child_count(id) == 1 {
        ast.child(id, 0)
    } else {
        None
    }
}

/// The two children of a node, if it has two.
pub fn two_children(ast: &ParserAstBuilder, id: NodeId) -> Option<(NodeId, NodeId)>
    requires { id.0 < length ast.now }
    ensures { Two (node_at ast.now id).children result }
{
    if ast.child_count(id) != 2 {
        return None;
    }
    let first = ast.child(id, 0)?;
    let second = ast.child(id, 1)?;
    Some((first, second))
}

/// The child in a slot of a node, if there is one.
pub fn child_at(ast: &ParserAstBuilder, id: NodeId, slot: usize) -> Option<NodeId>
    requires { id.0 < length ast.now }
    ensures { result ≡ get_or (node_at ast.now id).children slot None }
{
    if slot < ast.child_count(id) {
        ast.child(id, slot)
    } else {
        None
    }
}

/// The node of the simple target that an expression stands for; none where it is no target (ECMA-262, section 8.6.4).
/// Reads: SimpleTarget.
pub fn simple_target(ast: &ParserAstBuilder, id: NodeId) -> Option<NodeId>
    requires { Stood ast.now id }
    ensures node { OfNode ast.now id (λ l cs rs. Converted ast.now ast.now rs unnoted unnoted [] (one_node result) (slot_of (target_of l cs))) }
    ensures tree { (lo hi : ℕ) (l : Label) (cs : Slots) → Holds ast.now lo hi id.0 l cs → IsTarget ast.now lo hi l cs result }
{
    let kind = ast.kind(id);
    if is_parens(kind) {
        let inner = only_child(ast, id)?;
        return simple_target(ast, inner);
    }
    if is_target(kind) { Some(id) } else { None }
}

/// The node of the simple target that an expression of a parser's nodes stands for; none where it is no target.
pub fn cover<C: ParserConfig>(p: &ParserImpl<'_, C>, id: NodeId) -> Option<NodeId>
    requires { Stood p.now.nodes id }
    ensures { (lo hi : ℕ) (l : Label) (cs : Slots) → Holds p.now.nodes lo hi id.0 l cs → IsTarget p.now.nodes lo hi l cs result }
{
    simple_target(&p.ast, id)
}

/// Tells of a literal before an assignment operator other than `=`, which was read from a place on (ECMA-262,
/// section 13.15.1). Where a diagnostic was kept since, when there were so many, that is enough.
#[inline(never)]
pub fn tell_not_simple<C: ParserConfig>(
    p: &mut ParserImpl<'_, C>,
    start: u32,
    kept: usize,
) -> Result<(), NoMemory>
    requires at { IsAt p.old }
    requires start { start ≤ p.old.prev_token_end }
    requires marked { length p.old.errors ≡ kept → Mark (goal p.old) p.old.text (not_simple_at start p.old.prev_token_end) }
    ensures { IfOk result (λ _. TellsOnce (not_simple_at start p.old.prev_token_end) kept p.old p.new) }
{
    if kept_so_far(p) == kept {
        p.error(Diagnostic {
            kind: DiagnosticKind::AssignmentIsNotSimple,
            span: p.end_span(start),
            first: None,
            second: None,
        })?;
    }
    Ok(())
}

/// Gives up, since what was read from a place on is no target. Where a diagnostic was kept since, when there were so
/// many, that is enough of it, and what stands here is told.
#[inline(never)]
pub fn refuse_target<C: ParserConfig>(p: &mut ParserImpl<'_, C>, start: u32, kept: usize) -> Stop
    requires at { Standing p.old }
    requires start { start ≤ p.old.prev_token_end }
    requires marked { length p.old.errors ≡ kept → Mark (goal p.old) p.old.text (no_target_at start p.old.prev_token_end) }
    ensures { GivesUp EndsParse p.old p.new result }
{
    if kept_so_far(p) != kept {
        return p.set_unexpected();
    }
    let span = p.end_span(start);
    p.set_fatal_error(Diagnostic {
        kind: DiagnosticKind::InvalidAssignment,
        span,
        first: None,
        second: None,
    })
}
