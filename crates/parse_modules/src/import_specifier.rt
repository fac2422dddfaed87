//! One imported name (ECMA-262, section 16.2.2).

ghost use Rattle.std.specs.Prelude.{◌≡◌, ◌≤◌, ◌∷◌, [], IfOk, Some};
ghost use Rattle.parse_modules.specs.Prelude.{BindsSingle, BoundMarked, GivesUp, goal, Imports, IsExportName, MadeHere, Mark, ReadsBound, ReadsNamed, specifier_label, SpellsExport, Standing, Str, string_bound, StringBound, word_bound};

use crate::module_name::parse_module_export_name;
use js_base::{DiagnosticKind, Kind, NoMemory, Token};
use parse_primary::leaf::{parse_name, parse_string};
use parse_shared::diagnostics::diagnostic_at;
use parse_shared::lexemes::{is_name_here, name_stands};
use parse_shared::nodes::{make_name, make_string, make_two};
use parse_shared::{NodeId, NodeKind, Op, ParserConfig, ParserImpl, Stop};

/// An ImportSpecifier (ECMA-262, section 16.2.2): a name that is bound, or one that is imported and, behind `as`, the one that is
/// bound.
/// Reads: Spec.
pub fn parse_import_specifier<C: ParserConfig>(p: &mut ParserImpl<'_, C>) -> Result<NodeId, Stop>
    requires { Standing p.old }
    ensures { ReadsNamed Imports p.old p.new result }
{
    let start = p.cur_start();
    let first = p.cur_token();
    let imported = parse_module_export_name(p)?;
    if p.eat(Kind::As)? {
        let local = parse_bound_name(p)?;
        let node = make_specifier(p, start, imported, local)?;
        return Ok(node);
    }
    let local = single_name(p, first)?;
    let node = make_specifier(p, start, imported, local)?;
    Ok(node)
}

/// The node of a specifier that began at a place.
fn make_specifier<C: ParserConfig>(
    p: &mut ParserImpl<'_, C>,
    start: u32,
    imported: NodeId,
    local: NodeId,
) -> Result<NodeId, NoMemory>
    requires before { start ≤ p.old.prev_token_end }
    ensures { IfOk result (λ id. MadeHere (specifier_label start p.old.prev_token_end) (Some imported ∷ Some local ∷ []) p.old p.new id) }
{
    let span = p.end_span(start);
    make_two(
        p,
        NodeKind::ImportSpecifier,
        Op::None,
        span,
        imported,
        local,
    )
}

/// The BindingIdentifier behind `as`. That a string stands there is told, and reading goes on.
fn parse_bound_name<C: ParserConfig>(p: &mut ParserImpl<'_, C>) -> Result<NodeId, Stop>
    requires { Standing p.old }
    ensures { ReadsBound p.old p.new result }
{
    if p.at(Kind::Str) {
        return parse_string_as_binding(p);
    }
    parse_imported_binding(p)
}

/// The string that stands where a name is bound: that is told.
fn parse_string_as_binding<C: ParserConfig>(p: &mut ParserImpl<'_, C>) -> Result<NodeId, Stop>
    requires at { Standing p.old }
    requires string { p.old.token.kind ≡ Str }
    ensures { ReadsBound p.old p.new result }
{
    let span = p.cur_token().span();
    p.error(diagnostic_at(DiagnosticKind::IdentifierExpected, span))?;
    parse_string(p)
}

/// A BindingIdentifier of an import (ECMA-262, section 16.2.2). A reserved word in its place is told as one.
pub(crate) fn parse_imported_binding<C: ParserConfig>(
    p: &mut ParserImpl<'_, C>,
) -> Result<NodeId, Stop>
    requires { Standing p.old }
    ensures { ReadsBound p.old p.new result }
{
    if name_stands(p) {
        return parse_name(p, NodeKind::BindingIdentifier);
    }
    let token = p.cur_token();
    if token.kind().is_reserved_keyword() {
        return Err(refuse_word(p, token));
    }
    Err(p.set_unexpected())
}

/// The name that is imported and bound, which was passed, as the one that is bound.
fn single_name<C: ParserConfig>(p: &mut ParserImpl<'_, C>, token: Token) -> Result<NodeId, Stop>
    requires at { Standing p.old }
    requires name { IsExportName token }
    requires spells { SpellsExport p.old.text token }
    requires marked { BoundMarked p.old token.span }
    ensures { BindsSingle token p.old p.new result }
{
    if is_name_here(p, token.kind()) {
        let node = make_name(p, NodeKind::BindingIdentifier, token)?;
        return Ok(node);
    }
    if !matches!(token.kind(), Kind::Str) {
        return Err(refuse_word(p, token));
    }
    let node = string_as_binding(p, token)?;
    Ok(node)
}

/// The node of a string that was passed where a name is bound: that is told.
fn string_as_binding<C: ParserConfig>(
    p: &mut ParserImpl<'_, C>,
    token: Token,
) -> Result<NodeId, NoMemory>
    requires at { Standing p.old }
    requires string { token.kind ≡ Str }
    requires spells { SpellsExport p.old.text token }
    requires mark { Mark (goal p.old) p.old.text (string_bound token.span) }
    ensures { IfOk result (λ id. StringBound token p.old p.new id) }
{
    let span = token.span();
    p.error(diagnostic_at(DiagnosticKind::IdentifierExpected, span))?;
    make_string(p, span)
}

/// Gives up at a word that may not be bound.
#[inline(never)]
fn refuse_word<C: ParserConfig>(p: &mut ParserImpl<'_, C>, token: Token) -> Stop
    requires at { Standing p.old }
    requires mark { Mark (goal p.old) p.old.text (word_bound token.span) }
    ensures { GivesUp (λ d. d ≡ word_bound token.span) p.old p.new result }
{
    p.set_fatal_error(diagnostic_at(DiagnosticKind::IdentifierReservedWord, token.span()))
}
