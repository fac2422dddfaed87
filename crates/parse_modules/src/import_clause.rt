//! What an import declaration imports (ECMA-262, section 16.2.2).

ghost use Rattle.std.specs.Prelude.{◌≡◌, MatchResult};
ghost use Rattle.parse_modules.specs.Prelude.{default_part, EndsParse, Eq, GivesUp, ImportsStop, ImportsTaken, namespace_part, NoOthers, OthersTaken, ReadsWhole, Standing, Star};

use crate::import_specifier::parse_imported_binding;
use crate::name_list::parse_name_list;
use js_base::{DiagnosticKind, Kind};
use laws_modules::forms::NameList;
use parse_shared::diagnostics::diagnostic_at;
use parse_shared::lexemes::{advance, name_stands};
use parse_shared::nodes::make_one;
use parse_shared::{NodeId, NodeKind, Op, ParserConfig, ParserImpl, Stop};

/// An ImportClause (ECMA-262, section 16.2.2): its specifiers.
pub fn parse_import_clause<C: ParserConfig>(
    p: &mut ParserImpl<'_, C>,
) -> Result<Vec<Option<NodeId>>, Stop>
    requires { Standing p.old }
    ensures { MatchResult result (λ v. ImportsTaken v.items p.old p.new) (λ e. ImportsStop p.old p.new e) }
{
    let mut specifiers = Vec::new(p.alloc);
    if !name_stands(p) {
        return parse_other_specifiers(p, specifiers);
    }
    let default = parse_default_specifier(p)?;
    specifiers.push(Some(default))?;
    if p.eat(Kind::Comma)? {
        return parse_other_specifiers(p, specifiers);
    }
    if p.at(Kind::Eq) {
        return Err(refuse_equals(p));
    }
    Ok(specifiers)
}

/// The name that the default export is bound to.
fn parse_default_specifier<C: ParserConfig>(p: &mut ParserImpl<'_, C>) -> Result<NodeId, Stop>
    requires { Standing p.old }
    ensures { ReadsWhole (λ f. default_part f) p.old p.new result }
{
    let start = p.cur_start();
    let local = parse_imported_binding(p)?;
    let span = p.end_span(start);
    let kind = NodeKind::ImportDefaultSpecifier;
    let node = make_one(p, kind, Op::None, span, local)?;
    Ok(node)
}

/// Gives up at the `=` of an import of TypeScript.
#[inline(never)]
fn refuse_equals<C: ParserConfig>(p: &mut ParserImpl<'_, C>) -> Stop
    requires at { Standing p.old }
    requires sign { p.old.token.kind ≡ Eq }
    ensures { GivesUp EndsParse p.old p.new result }
{
    let span = p.cur_token().span();
    p.set_fatal_error(diagnostic_at(DiagnosticKind::ImportEqualsInTs, span))
}

/// A NameSpaceImport, or NamedImports in their braces, behind the specifiers that there are already.
fn parse_other_specifiers<C: ParserConfig>(
    p: &mut ParserImpl<'_, C>,
    specifiers: Vec<Option<NodeId>>,
) -> Result<Vec<Option<NodeId>>, Stop>
    requires { Standing p.old }
    ensures { MatchResult result (λ v. OthersTaken specifiers.items v.items p.old p.new) (λ e. NoOthers p.old p.new e) }
{
    match p.cur_kind() {
        Kind::Star => parse_namespace_import(p, specifiers),
        Kind::LCurly => parse_name_list(p, NameList::Imports, specifiers),
        _ => Err(p.set_unexpected()),
    }
}

/// A NameSpaceImport (ECMA-262, section 16.2.2), from its `*` on, behind the specifiers that there are already.
fn parse_namespace_import<C: ParserConfig>(
    p: &mut ParserImpl<'_, C>,
    specifiers: Vec<Option<NodeId>>,
) -> Result<Vec<Option<NodeId>>, Stop>
    requires at { Standing p.old }
    requires sign { p.old.token.kind ≡ Star }
    ensures { MatchResult result (λ v. OthersTaken specifiers.items v.items p.old p.new) (λ e. NoOthers p.old p.new e) }
{
    let mut all = specifiers;
    let namespace = parse_namespace_specifier(p)?;
    all.push(Some(namespace))?;
    Ok(all)
}

/// The specifier of a NameSpaceImport.
fn parse_namespace_specifier<C: ParserConfig>(p: &mut ParserImpl<'_, C>) -> Result<NodeId, Stop>
    requires at { Standing p.old }
    requires sign { p.old.token.kind ≡ Star }
    ensures { ReadsWhole (λ f. namespace_part f) p.old p.new result }
{
    let start = p.cur_start();
    advance(p)?;
    p.expect(Kind::As)?;
    let local = parse_imported_binding(p)?;
    let span = p.end_span(start);
    let kind = NodeKind::ImportNamespaceSpecifier;
    let node = make_one(p, kind, Op::None, span, local)?;
    Ok(node)
}
