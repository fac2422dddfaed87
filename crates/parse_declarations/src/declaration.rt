//! The declarators behind `var`, `let` and `const` (ECMA-262, sections 14.3.1 and 14.3.2).

ghost use Rattle.std.specs.Prelude.{◌≡◌, ◌&&◌, not, IfOk, MatchResult};
ghost use Rattle.parse_declarations.specs.Prelude.{CanNest, goal, IsAt, Mark, room, Standing};
ghost use Rattle.parse_declarations.specs.Declarations.{ChecksInitialiser, DeclaratorsRead, EndsDeclarator, NoDeclarators, ReadsDeclarator, ReadsOneDeclarator, is_constant, missing, no_initialiser};

use js_base::{DiagnosticKind, Kind, NoMemory, Span};
use laws_patterns::patterns::Patterns;
use parse_shared::diagnostics::diagnostic_at;
use parse_shared::lexemes::{advance, name_stands};
use parse_shared::nodes::{make_two, make_with_optional};
use parse_shared::refusals::refuse_annotation;
use parse_shared::{DeclarationKind, NodeId, NodeKind, Op, ParserConfig, ParserImpl, Stop};

/// The declarators behind the word of a declaration, with commas between them (ECMA-262, sections 14.3.1 and 14.3.2).
pub fn parse_declarators<C: ParserConfig, N: Patterns<C>>(
    p: &mut ParserImpl<'_, C>,
    nested: &N,
    kind: DeclarationKind,
) -> Result<Vec<Option<NodeId>>, Stop>
    requires at { Standing p.old }
    requires nests { CanNest (N.can nested.now) (room p.old) }
    ensures { MatchResult result (λ v. DeclaratorsRead (is_constant kind) p.old p.new v.items) (λ e. NoDeclarators (is_constant kind) p.old p.new e) }
{
    let mut declarators = Vec::new(p.alloc);
    'declarators: loop {
        let more = parse_declarator_and_comma(p, nested, kind, &mut declarators)?;
        if !more {
            break;
        }
    }
    Ok(declarators)
}

/// A declarator, and the comma behind it, where one stands there: whether another one is due.
fn parse_declarator_and_comma<C: ParserConfig, N: Patterns<C>>(
    p: &mut ParserImpl<'_, C>,
    nested: &N,
    kind: DeclarationKind,
    declarators: &mut Vec<Option<NodeId>>,
) -> Result<bool, Stop>
    requires at { Standing p.old }
    requires nests { CanNest (N.can nested.now) (room p.old) }
    ensures { ReadsOneDeclarator (is_constant kind) declarators.old.items declarators.new.items p.old p.new result }
{
    let declarator = parse_variable_declarator(p, nested, kind)?;
    declarators.push(Some(declarator))?;
    if !p.at(Kind::Comma) {
        return Ok(false);
    }
    advance(p)?;
    Ok(true)
}

/// A VariableDeclaration (ECMA-262, section 14.3.2) or a LexicalBinding (14.3.1): what is bound, and an initialiser or none.
/// A colon begins a type annotation of TypeScript.
/// Reads: Init.
fn parse_variable_declarator<C: ParserConfig, N: Patterns<C>>(
    p: &mut ParserImpl<'_, C>,
    nested: &N,
    kind: DeclarationKind,
) -> Result<NodeId, Stop>
    requires at { Standing p.old }
    requires nests { CanNest (N.can nested.now) (room p.old) }
    ensures { ReadsDeclarator (is_constant kind) p.old p.new result }
{
    if p.at(Kind::Undetermined) {
        return Err(p.set_unexpected());
    }
    let start = p.cur_start();
    let is_name = name_stands(p);
    let binding = nested.binding_pattern(p)?;
    if p.at(Kind::Colon) {
        return Err(refuse_annotation(p));
    }
    if !p.at(Kind::Eq) {
        let span = p.end_span(start);
        let node = make_bare_declarator(p, kind, is_name, span, binding)?;
        return Ok(node);
    }
    advance(p)?;
    let initialiser = nested.assignment(p)?;
    let span = p.end_span(start);
    let node_kind = NodeKind::VariableDeclarator;
    let node = make_two(p, node_kind, Op::None, span, binding, initialiser)?;
    Ok(node)
}

/// A declarator without an initialiser, whose span is that of what is bound.
pub(crate) fn make_bare_declarator<C: ParserConfig>(
    p: &mut ParserImpl<'_, C>,
    kind: DeclarationKind,
    is_name: bool,
    span: Span,
    binding: NodeId,
) -> Result<NodeId, NoMemory>
    requires at { IsAt p.old }
    requires mark { Mark (goal p.old) p.old.text (no_initialiser is_name span) }
    ensures { IfOk result (λ id. EndsDeclarator (is_constant kind) is_name span binding p.old p.new id) }
{
    check_initialiser(p, kind, is_name, span)?;
    make_with_optional(p, NodeKind::VariableDeclarator, span, binding, None)
}

/// Tells of an initialiser that is missing: a constant has one, and so has a pattern (ECMA-262, sections 14.3.1 and 14.3.2).
fn check_initialiser<C: ParserConfig>(
    p: &mut ParserImpl<'_, C>,
    kind: DeclarationKind,
    is_name: bool,
    span: Span,
) -> Result<(), NoMemory>
    requires at { IsAt p.old }
    requires mark { Mark (goal p.old) p.old.text (no_initialiser is_name span) }
    ensures { IfOk result (λ _. ChecksInitialiser (is_constant kind) is_name span p.old p.new) }
{
    if may_lack_initialiser(kind, is_name) {
        return Ok(());
    }
    p.error(diagnostic_at(missing_kind(is_name), span))
}

/// Whether a declarator may have no initialiser: of a name, where no constant is declared.
fn may_lack_initialiser(kind: DeclarationKind, is_name: bool) -> bool
    ensures { result ≡ (is_name && not (is_constant kind)) }
{
    is_name && !matches!(kind, DeclarationKind::Const)
}

/// What is told of an initialiser that is missing: of a constant's name, or of a pattern.
fn missing_kind(is_name: bool) -> DiagnosticKind
    ensures { result ≡ missing is_name }
{
    if is_name {
        DiagnosticKind::MissingInitializerInConst
    } else {
        DiagnosticKind::InvalidDestructuringDeclaration
    }
}
