//! A whole text (ECMA-262, sections 16.1 and 16.2).

ghost use Rattle.std.specs.Prelude.{◌≡◌, [], Bool, IfOk, MatchResult};
ghost use Rattle.js_core.specs.Prelude.{Hashbang, HashbangComment, MadeHere, number_of, plain_label, Starts};
ghost use Rattle.parse_shared.specs.js_tree.declared.op.Op.TheVariants as op;
ghost use Rattle.js_core.specs.Taken.{ProgramTaken, ProgramStops};

use crate::parse::{RuntimeParser, parse_directives_and_statements};
use js_base::{Kind, NoMemory, Span};
use parse_shared::{NodeFlags, NodeId, NodeKind, Op, Stop};

/// The children of Program.
/// Reads: Program.
pub fn parse_program(p: &mut RuntimeParser<'_>) -> Result<Vec<Option<NodeId>>, Stop>
    requires { (b : Bool) × Starts p.old.text p.old.source_type p.old.options b p.old }
    ensures { MatchResult result (λ v. ProgramTaken p.old.text p.old.source_type p.old.options p.old.lexer.keeps_tokens p.new v.items) (λ e. ProgramStops p.old.text p.old.source_type p.old.options p.new e) }
{
    if p.at(Kind::HashbangComment) {
        return parse_behind_hashbang(p);
    }
    parse_directives_and_statements(p)
}

/// A hashbang comment (ECMA-262, section 12.5), and the children behind it.
fn parse_behind_hashbang(p: &mut RuntimeParser<'_>) -> Result<Vec<Option<NodeId>>, Stop>
    requires starts { (b : Bool) × Starts p.old.text p.old.source_type p.old.options b p.old }
    requires here { p.old.token.kind ≡ HashbangComment }
    ensures { MatchResult result (λ v. ProgramTaken p.old.text p.old.source_type p.old.options p.old.lexer.keeps_tokens p.new v.items) (λ e. ProgramStops p.old.text p.old.source_type p.old.options p.new e) }
{
    let span = p.cur_token().span();
    p.bump_any()?;
    let comment = make_hashbang(p, span)?;
    let mut items = parse_directives_and_statements(p)?;
    items.insert(0, Some(comment))?;
    Ok(items)
}

/// The node of a hashbang comment.
fn make_hashbang(p: &mut RuntimeParser<'_>, span: Span) -> Result<NodeId, NoMemory>
    ensures { IfOk result (λ id. MadeHere (plain_label Hashbang op.None span) [] p.old p.new id) }
{
    p.ast
        .leaf(NodeKind::Hashbang, span, Op::None, no_flags(), None)
}

/// No flag at all.
fn no_flags() -> NodeFlags
    ensures { number_of result ≡ 0 }
{
    NodeFlags::default()
}
