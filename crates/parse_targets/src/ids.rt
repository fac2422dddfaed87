//! Numbers of nodes, by what stands there (ECMA-262, sections 13.2, 13.15 and 13.15.5).

use parse_shared::NodeId;

/// The number of an expression.
#[derive(Clone, Copy)]
pub struct ExpressionId(pub NodeId);

/// The number of an array literal.
#[derive(Clone, Copy)]
pub struct ArrayExpressionId(pub NodeId);

/// The number of an object literal.
#[derive(Clone, Copy)]
pub struct ObjectExpressionId(pub NodeId);

/// The number of an assignment.
#[derive(Clone, Copy)]
pub struct AssignmentExpressionId(pub NodeId);

/// The number of a property of an object literal.
#[derive(Clone, Copy)]
pub struct ObjectPropertyId(pub NodeId);

/// The number of a target.
#[derive(Clone, Copy)]
pub struct AssignmentTargetId(pub NodeId);

/// The number of a simple target.
#[derive(Clone, Copy)]
pub struct SimpleAssignmentTargetId(pub NodeId);

/// The number of an element of a target, with an initialiser or without one.
#[derive(Clone, Copy)]
pub struct AssignmentTargetMaybeDefaultId(pub NodeId);

/// The number of a target that is an array pattern.
#[derive(Clone, Copy)]
pub struct ArrayAssignmentTargetId(pub NodeId);

/// The number of a target that is an object pattern.
#[derive(Clone, Copy)]
pub struct ObjectAssignmentTargetId(pub NodeId);

/// The number of an element of a target with an initialiser.
#[derive(Clone, Copy)]
pub struct AssignmentTargetWithDefaultId(pub NodeId);

/// The number of a property of a target.
#[derive(Clone, Copy)]
pub struct AssignmentTargetPropertyId(pub NodeId);
