//! What an expression covers, by the type of what is wanted (ECMA-262, section 13.15.5).

ghost use Rattle.std.specs.Prelude.{Result, false, true};
ghost use Rattle.parse_targets.specs.Prelude.{ArrayTarget, at, ObjectTarget, Primary, Property, SimpleTarget, Standing, Target, TargetElement, TargetProperty};
ghost use Rattle.parse_targets.specs.Covered.{AnyLabel, CoversAs, IsAssignment, IsLiteral, IsProperty, KeepsInitialiser, ReadBefore, an_expression, in_a_literal, in_a_property, in_a_target, in_an_element, no_places, numbered};

use crate::convert::{
    cover_array, cover_element, cover_object, cover_property, cover_simple_target, cover_target,
    cover_with_default,
};
use crate::ids::{
    ArrayAssignmentTargetId, ArrayExpressionId, AssignmentExpressionId, AssignmentTargetId,
    AssignmentTargetMaybeDefaultId, AssignmentTargetPropertyId, AssignmentTargetWithDefaultId,
    ExpressionId, ObjectAssignmentTargetId, ObjectExpressionId, ObjectPropertyId,
    SimpleAssignmentTargetId,
};
use parse_shared::{ParserConfig, ParserImpl, Stop};

/// What is read again as something else: a value that covers it (ECMA-262, section 13.15.5).
pub trait CoverGrammar<T, C: ParserConfig>: Sized {
    ghost use Rattle.parse_shared.specs.js_cursor.Parsers.{Parser};
    ghost use Rattle.parse_shared.specs.js_cursor.declared.stop.Stop.{Stop};

    ghost can: { T → Parser → Type 0 };

    ghost gives: { T → Parser → Parser → Result Self Stop → Type 0 };

    /// What the value covers, over the same lexemes.
    ///
    /// # Errors
    ///
    /// `Fatal` where it covers nothing of this type; `NoMemory`.
    fn cover(value: T, p: &mut ParserImpl<'_, C>) -> Result<Self, Stop>
        requires at { Standing p.old }
        requires read { can value p.old }
        ensures { gives value p.old p.new result };
}

impl<C: ParserConfig> CoverGrammar<ExpressionId, C> for SimpleAssignmentTargetId {
    ghost can = { λ value p. ReadBefore an_expression AnyLabel p value.0 };

    ghost gives = { λ value old new r. CoversAs an_expression AnyLabel (at SimpleTarget) no_places value.0 old new (numbered (λ t. t.0) r) };

    fn cover(value: ExpressionId, p: &mut ParserImpl<'_, C>) -> Result<Self, Stop> {
        let id = cover_simple_target(p, value.0)?;
        Ok(SimpleAssignmentTargetId(id))
    }
}

impl<C: ParserConfig> CoverGrammar<ExpressionId, C> for AssignmentTargetId {
    ghost can = { λ value p. ReadBefore an_expression AnyLabel p value.0 };

    ghost gives = { λ value old new r. CoversAs an_expression AnyLabel (at Target) in_a_target value.0 old new (numbered (λ t. t.0) r) };

    fn cover(value: ExpressionId, p: &mut ParserImpl<'_, C>) -> Result<Self, Stop> {
        let id = cover_target(p, value.0)?;
        Ok(AssignmentTargetId(id))
    }
}

impl<C: ParserConfig> CoverGrammar<ExpressionId, C> for AssignmentTargetMaybeDefaultId {
    ghost can = { λ value p. ReadBefore an_expression AnyLabel p value.0 };

    ghost gives = { λ value old new r. CoversAs an_expression AnyLabel (at TargetElement) in_an_element value.0 old new (numbered (λ t. t.0) r) };

    fn cover(value: ExpressionId, p: &mut ParserImpl<'_, C>) -> Result<Self, Stop> {
        let id = cover_element(p, value.0)?;
        Ok(AssignmentTargetMaybeDefaultId(id))
    }
}

impl<C: ParserConfig> CoverGrammar<ArrayExpressionId, C> for ArrayAssignmentTargetId {
    ghost can = { λ value p. ReadBefore (at Primary) (IsLiteral false) p value.0 };

    ghost gives = { λ value old new r. CoversAs (at Primary) (IsLiteral false) (at ArrayTarget) in_a_literal value.0 old new (numbered (λ t. t.0) r) };

    fn cover(value: ArrayExpressionId, p: &mut ParserImpl<'_, C>) -> Result<Self, Stop> {
        let id = cover_array(p, value.0)?;
        Ok(ArrayAssignmentTargetId(id))
    }
}

impl<C: ParserConfig> CoverGrammar<ObjectExpressionId, C> for ObjectAssignmentTargetId {
    ghost can = { λ value p. ReadBefore (at Primary) (IsLiteral true) p value.0 };

    ghost gives = { λ value old new r. CoversAs (at Primary) (IsLiteral true) (at ObjectTarget) in_a_literal value.0 old new (numbered (λ t. t.0) r) };

    fn cover(value: ObjectExpressionId, p: &mut ParserImpl<'_, C>) -> Result<Self, Stop> {
        let id = cover_object(p, value.0)?;
        Ok(ObjectAssignmentTargetId(id))
    }
}

impl<C: ParserConfig> CoverGrammar<AssignmentExpressionId, C> for AssignmentTargetWithDefaultId {
    ghost can = { λ value p. ReadBefore an_expression IsAssignment p value.0 };

    ghost gives = { λ value old new r. CoversAs an_expression IsAssignment (at TargetElement) in_an_element value.0 old new (numbered (λ t. t.0) r) × KeepsInitialiser value.0 old new (numbered (λ t. t.0) r) };

    fn cover(value: AssignmentExpressionId, p: &mut ParserImpl<'_, C>) -> Result<Self, Stop> {
        let id = cover_with_default(p, value.0)?;
        Ok(AssignmentTargetWithDefaultId(id))
    }
}

impl<C: ParserConfig> CoverGrammar<ObjectPropertyId, C> for AssignmentTargetPropertyId {
    ghost can = { λ value p. ReadBefore (at Property) IsProperty p value.0 };

    ghost gives = { λ value old new r. CoversAs (at Property) IsProperty (at TargetProperty) in_a_property value.0 old new (numbered (λ t. t.0) r) };

    fn cover(value: ObjectPropertyId, p: &mut ParserImpl<'_, C>) -> Result<Self, Stop> {
        let id = cover_property(p, value.0)?;
        Ok(AssignmentTargetPropertyId(id))
    }
}
