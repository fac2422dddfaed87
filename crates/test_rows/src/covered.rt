//! The calls for what an expression covers, by the types of what is wanted.

ghost use Rattle.std.specs.Prelude.{◌≡◌, true};
ghost use Rattle.js_base.specs.Contexts.{has_flag, in_flag};
ghost use Rattle.parse_targets.specs.Covered.{AnyLabel, ReadBefore, an_expression};
ghost use Rattle.parse_shared.specs.laws_shared.States.{Standing};

use js_base::Kind;
use js_cursor::Stop;
use js_parser::js_core::{
    ArrayAssignmentTargetId, ArrayExpressionId, AssignmentExpressionId, AssignmentTargetId,
    AssignmentTargetMaybeDefaultId, AssignmentTargetPropertyId, AssignmentTargetWithDefaultId,
    CoverGrammar, ExpressionId, ObjectAssignmentTargetId, ObjectExpressionId, ObjectPropertyId,
    RuntimeParser, SimpleAssignmentTargetId, parse_assignment_expression_or_higher,
};
use js_tree::{NodeId, NodeKind};
use parse_shared::diagnostics::kept_so_far;
use parse_targets::cover::{child_at, is_object};

/// What the text covers, where it is an AssignmentExpression of which nothing is told.
pub(crate) fn cover_text(p: &mut RuntimeParser<'_>, word: &str) -> Result<Option<NodeId>, Stop>
    requires at { Standing p.old }
    requires allows_in { has_flag in_flag p.old.ctx ≡ true }
{
    let kept = kept_so_far(p);
    let id = parse_assignment_expression_or_higher(p)?;
    if kept_so_far(p) != kept {
        return Ok(None);
    }
    if !p.at(Kind::Eof) {
        return Ok(None);
    }
    cover_as(p, id, word)
}

/// What an expression covers, as the type of a name.
fn cover_as(p: &mut RuntimeParser<'_>, id: NodeId, word: &str) -> Result<Option<NodeId>, Stop>
    requires at { Standing p.old }
    requires read { ReadBefore an_expression AnyLabel p.old id }
{
    match word {
        "SimpleAssignmentTargetId" => {
            let target = SimpleAssignmentTargetId::cover(ExpressionId(id), p)?;
            Ok(Some(target.0))
        }
        "AssignmentTargetId" => {
            let target = AssignmentTargetId::cover(ExpressionId(id), p)?;
            Ok(Some(target.0))
        }
        "AssignmentTargetMaybeDefaultId" => {
            let target = AssignmentTargetMaybeDefaultId::cover(ExpressionId(id), p)?;
            Ok(Some(target.0))
        }
        "AssignmentTargetPropertyId" => cover_first_property(p, id),
        "by kind" => cover_by_kind(p, id),
        _ => Ok(None),
    }
}

/// What an array literal, an object literal or an assignment covers, as the type for it.
fn cover_by_kind(p: &mut RuntimeParser<'_>, id: NodeId) -> Result<Option<NodeId>, Stop>
    requires at { Standing p.old }
    requires read { ReadBefore an_expression AnyLabel p.old id }
{
    if !p.ast.contains(id) {
        return Ok(None);
    }
    match p.ast.kind(id) {
        NodeKind::ArrayExpression => {
            let target = ArrayAssignmentTargetId::cover(ArrayExpressionId(id), p)?;
            Ok(Some(target.0))
        }
        NodeKind::ObjectExpression => {
            let target = ObjectAssignmentTargetId::cover(ObjectExpressionId(id), p)?;
            Ok(Some(target.0))
        }
        NodeKind::AssignmentExpression => {
            let target = AssignmentTargetWithDefaultId::cover(AssignmentExpressionId(id), p)?;
            Ok(Some(target.0))
        }
        _ => Ok(None),
    }
}

/// What the first property of an object literal covers.
fn cover_first_property(p: &mut RuntimeParser<'_>, id: NodeId) -> Result<Option<NodeId>, Stop>
    requires at { Standing p.old }
    requires read { ReadBefore an_expression AnyLabel p.old id }
{
    if !p.ast.contains(id) {
        return Ok(None);
    }
    if !is_object(p.ast.kind(id)) {
        return Ok(None);
    }
    let Some(first) = child_at(&p.ast, id, 0) else {
        return Ok(None);
    };
    if !p.ast.contains(first) {
        return Ok(None);
    }
    match p.ast.kind(first) {
        NodeKind::ObjectProperty => {
            let target = AssignmentTargetPropertyId::cover(ObjectPropertyId(first), p)?;
            Ok(Some(target.0))
        }
        _ => Ok(None),
    }
}
