//! The first declarator in the head of a `for` (ECMA-262, sections 14.7.4, 14.7.5 and B.3.5). `in` is no operator there.

ghost use Rattle.std.specs.Prelude.{MatchResult};
ghost use Rattle.parse_declarations.specs.Prelude.{CanNest, room, Standing};
ghost use Rattle.parse_declarations.specs.Declarations.{is_constant};
ghost use Rattle.parse_declarations.specs.HeadDeclarators.{DeclaratorsBehind, InitialisedAs, NoneBehind, ReadsHeadDeclarator, ThroughHere};

use crate::declaration::{make_bare_declarator, parse_declarators};
use js_base::Kind;
use laws_patterns::patterns::Patterns;
use parse_shared::lexemes::{advance, name_stands, stands};
use parse_shared::nodes::{make_two, make_with_optional};
use parse_shared::refusals::refuse_annotation;
use parse_shared::{DeclarationKind, NodeId, NodeKind, Op, ParserConfig, ParserImpl, Stop};

/// What the first declarator in the head of a `for` is made of.
#[derive(Clone, Copy)]
pub enum HeadForm {
    /// What is bound, with `in` or `of` behind it.
    Through,
    /// What is bound alone, with something else behind it.
    Bare,
    /// A name with an initialiser.
    InitialisedName,
    /// A pattern with an initialiser.
    InitialisedPattern,
}

/// The first declarator in the head of a `for`.
#[derive(Clone, Copy)]
pub struct HeadDeclarator {
    /// Its node.
    pub node: NodeId,
    /// What it is made of.
    pub form: HeadForm,
}

/// The first declarator in the head of a `for`. Before `in` and `of` none needs an initialiser. A colon
/// begins a type annotation of TypeScript.
pub fn parse_head_declarator<C: ParserConfig, N: Patterns<C>>(
    p: &mut ParserImpl<'_, C>,
    nested: &N,
    kind: DeclarationKind,
) -> Result<HeadDeclarator, Stop>
    requires at { Standing p.old }
    requires nests { CanNest (N.can nested.now) (room p.old) }
    ensures { ReadsHeadDeclarator (is_constant kind) p.old p.new result }
{
    if p.at(Kind::Undetermined) {
        return Err(p.set_unexpected());
    }
    let start = p.cur_start();
    let is_name = name_stands(p);
    let binding = nested.binding_pattern(p)?;
    if p.at(Kind::Colon) {
        return Err(refuse_annotation(p));
    }
    if goes_through(p) {
        let span = p.end_span(start);
        let node = make_with_optional(p, NodeKind::VariableDeclarator, span, binding, None)?;
        return Ok(HeadDeclarator {
            node,
            form: HeadForm::Through,
        });
    }
    if !p.at(Kind::Eq) {
        let span = p.end_span(start);
        let node = make_bare_declarator(p, kind, is_name, span, binding)?;
        return Ok(HeadDeclarator {
            node,
            form: HeadForm::Bare,
        });
    }
    advance(p)?;
    let initialiser = nested.assignment(p)?;
    let span = p.end_span(start);
    let node_kind = NodeKind::VariableDeclarator;
    let node = make_two(p, node_kind, Op::None, span, binding, initialiser)?;
    Ok(HeadDeclarator {
        node,
        form: initialised_form(is_name),
    })
}

/// All declarators of a head, of which the first one was read up to here: the others stand behind a comma.
pub fn parse_declarators_behind<C: ParserConfig, N: Patterns<C>>(
    p: &mut ParserImpl<'_, C>,
    nested: &N,
    kind: DeclarationKind,
    first: NodeId,
) -> Result<Vec<Option<NodeId>>, Stop>
    requires at { Standing p.old }
    requires nests { CanNest (N.can nested.now) (room p.old) }
    ensures { MatchResult result (λ v. DeclaratorsBehind (is_constant kind) first p.old p.new v.items) (λ e. NoneBehind (is_constant kind) first p.old p.new e) }
{
    if !p.at(Kind::Comma) {
        let mut declarators = Vec::new(p.alloc);
        declarators.push(Some(first))?;
        return Ok(declarators);
    }
    advance(p)?;
    let mut declarators = parse_declarators(p, nested, kind)?;
    declarators.insert(0, Some(first))?;
    Ok(declarators)
}

/// A name or a pattern, with an initialiser.
fn initialised_form(is_name: bool) -> HeadForm
    ensures { InitialisedAs is_name result }
{
    if is_name {
        HeadForm::InitialisedName
    } else {
        HeadForm::InitialisedPattern
    }
}

/// Whether `in` or `of` stands here, without an escape.
pub fn goes_through<C: ParserConfig>(p: &ParserImpl<'_, C>) -> bool
    ensures { ThroughHere p.now result }
{
    stands(p, Kind::In) || stands(p, Kind::Of)
}
