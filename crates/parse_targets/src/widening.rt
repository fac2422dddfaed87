//! Where a literal may be wider than the target that it is read as (ECMA-262, section 13.15.5).

ghost use Rattle.std.specs.Prelude.{IfOk};
ghost use Rattle.js_base.specs.declared.diagnostic.DiagnosticKind.TheVariants as fault;
ghost use Rattle.parse_targets.specs.Prelude.{goal, KeepsDiagnostic, Mark, Standing, unrelated_at};
ghost use Rattle.parse_targets.specs.Taken.{PlaceTold, PlacesTold};
ghost use Rattle.parse_targets.specs.Targets.{Each, Ended, Fits, Spotted};
ghost use Rattle.parse_targets.specs.declared.widening.Widening.TheVariants as widening;

use js_base::{DiagnosticKind, Kind, NoMemory, Span};
use parse_shared::diagnostics::diagnostic_at;
use parse_shared::{ParserConfig, ParserImpl};

/// A place of an array or object literal where it may be wider than a target.
#[derive(Clone, Copy, Drop)]
pub enum Widening {
    /// A rest: no comma may stand behind it.
    Rest(Span),
    /// A literal as the argument of an object's rest, which has to be a simple target.
    RestTarget(Span),
    /// An assignment as an element: its operator has to be `=`.
    Operator(Span),
}

/// What is noted while a literal is converted.
#[derive(Drop)]
pub struct Notes {
    /// Where it may be wider than a target, in the order in which that is told.
    pub places: Vec<Widening>,
    /// A spread behind which another element stands, so that it is no rest.
    pub misplaced: Option<Span>,
}

/// Tells of a comma behind a rest.
fn tell_comma<C: ParserConfig>(p: &mut ParserImpl<'_, C>, rest: Span) -> Result<(), NoMemory>
    requires at { Standing p.old }
    requires ended { Ended p.old.text rest.end }
    ensures { IfOk result (λ _. PlaceTold (widening.Rest rest) p.old p.new) }
{
    let next = p.lexer.token_behind(rest.end)?;
    if let Kind::Comma = next.kind() {
        p.error(diagnostic_at(DiagnosticKind::RestElementTrailingComma, next.span()))?;
    }
    Ok(())
}

/// Tells of an element's operator before an initialiser that isn't `=`.
fn tell_operator<C: ParserConfig>(p: &mut ParserImpl<'_, C>, element: Span) -> Result<(), NoMemory>
    requires at { Standing p.old }
    requires mark { Mark (goal p.old) p.old.text (unrelated_at fault.InvalidAssignmentTargetDefaultValueOperator element) }
    ensures { IfOk result (λ _. KeepsDiagnostic (unrelated_at fault.InvalidAssignmentTargetDefaultValueOperator element) p.old p.new) }
{
    let kind = DiagnosticKind::InvalidAssignmentTargetDefaultValueOperator;
    p.error(diagnostic_at(kind, element))
}

/// Tells of a literal that is the argument of an object's rest.
fn tell_rest_target<C: ParserConfig>(
    p: &mut ParserImpl<'_, C>,
    argument: Span,
) -> Result<(), NoMemory>
    requires at { Standing p.old }
    requires mark { Mark (goal p.old) p.old.text (unrelated_at fault.InvalidRestAssignmentTarget argument) }
    ensures { IfOk result (λ _. KeepsDiagnostic (unrelated_at fault.InvalidRestAssignmentTarget argument) p.old p.new) }
{
    let kind = DiagnosticKind::InvalidRestAssignmentTarget;
    p.error(diagnostic_at(kind, argument))
}

/// Tells of a place where a literal is wider than a target, if it is.
fn tell_place<C: ParserConfig>(p: &mut ParserImpl<'_, C>, place: Widening) -> Result<(), NoMemory>
    requires at { Standing p.old }
    requires spotted { Spotted p.old.text place }
    requires fits { Fits p.old.text place }
    ensures { IfOk result (λ _. PlaceTold place p.old p.new) }
{
    match place {
        Widening::Rest(rest) => tell_comma(p, rest),
        Widening::RestTarget(argument) => tell_rest_target(p, argument),
        Widening::Operator(element) => tell_operator(p, element),
    }
}

/// Tells of each of these places where a literal is wider than a target.
pub fn tell_places<C: ParserConfig>(
    p: &mut ParserImpl<'_, C>,
    places: &Vec<Widening>,
) -> Result<(), NoMemory>
    requires at { Standing p.old }
    requires spotted { Each (Spotted p.old.text) places.now.items }
    requires fits { Each (Fits p.old.text) places.now.items }
    ensures { IfOk result (λ _. PlacesTold places.now.items p.old p.new) }
{
    let mut next = 0;
    'places: while next < places.len() {
        tell_place(p, places[next])?;
        next += 1;
    }
    Ok(())
}
