//! Import declarations (ECMA-262, section 16.2.2).

ghost use Rattle.std.specs.Prelude.{◌≡◌, ◌≤◌, ◌∷◌, IfOk, MatchResult, Some};
ghost use Rattle.parse_modules.specs.Prelude.{Answers, at, bare_flag, FindsImports, flag, import_declaration, import_label, ImportDecl, ImportsEnd, kind_of, MadeHere, node_at, number_of, Standing};

use crate::import_clause::parse_import_clause;
use crate::source::parse_source;
use js_base::{Kind, NoMemory};
use laws_modules::forms::ModuleSource;
use parse_shared::{NodeFlags, NodeId, NodeKind, Op, ParserConfig, ParserImpl, Stop};

/// An ImportDeclaration (ECMA-262, section 16.2.2).
/// Reads: ImportDecl.
pub fn parse_import_declaration<C: ParserConfig>(p: &mut ParserImpl<'_, C>) -> Result<NodeId, Stop>
    requires { Standing p.old }
    ensures answer { Answers (at ImportDecl) p.old p.new result }
    ensures kind { IfOk result (λ id. kind_of (node_at p.new.nodes id).kind ≡ import_declaration) }
{
    let start = p.cur_start();
    p.expect(Kind::Import)?;
    let bare = p.at(Kind::Str);
    let specifiers = parse_imports(p)?;
    let source = parse_source(p)?;
    let node = make_import(p, start, bare, source, specifiers)?;
    Ok(node)
}

/// What is imported, and the `from` behind it; nothing, where the string stands here that names a module.
fn parse_imports<C: ParserConfig>(p: &mut ParserImpl<'_, C>) -> Result<Vec<Option<NodeId>>, Stop>
    requires { Standing p.old }
    ensures { MatchResult result (λ v. FindsImports v.items p.old p.new) (λ e. ImportsEnd p.old p.new e) }
{
    if p.at(Kind::Str) {
        return Ok(Vec::new(p.alloc));
    }
    let specifiers = parse_import_clause(p)?;
    p.expect(Kind::From)?;
    Ok(specifiers)
}

/// The node of an ImportDeclaration that began at a place.
fn make_import<C: ParserConfig>(
    p: &mut ParserImpl<'_, C>,
    start: u32,
    bare: bool,
    source: ModuleSource,
    specifiers: Vec<Option<NodeId>>,
) -> Result<NodeId, NoMemory>
    requires before { start ≤ p.old.prev_token_end }
    ensures { IfOk result (λ id. MadeHere (import_label bare start p.old.prev_token_end) (Some source.specifier ∷ source.attributes ∷ specifiers.items) p.old p.new id) }
{
    let span = p.end_span(start);
    let flags = import_flags(bare);
    let mut children = Vec::new(p.alloc);
    children.push(Some(source.specifier))?;
    children.push(source.attributes)?;
    children.extend_from_slice(specifiers.as_slice())?;
    p.ast.node(
        NodeKind::ImportDeclaration,
        span,
        Op::None,
        flags,
        None,
        children,
    )
}

/// The flags of an ImportDeclaration, which imports names or none.
fn import_flags(bare: bool) -> NodeFlags
    ensures { number_of result ≡ flag bare bare_flag }
{
    NodeFlags {
        bare,
        ..NodeFlags::default()
    }
}
