//! Static blocks of classes (ECMA-262, section 15.7).

ghost use Rattle.std.specs.Prelude.{◌≤◌};
ghost use Rattle.parse_classes.specs.Prelude.{CanNest, InStaticBlock, ReadsStaticBlock, room, Standing};

use js_base::Context;
use parse_shared::context::{context, set_context};
use parse_shared::nodes::make_list;
use parse_shared::{NodeId, NodeKind, Op, ParserConfig, ParserImpl, Stop};
use parse_statements::block::parse_statements_in_braces;
use parse_statements::forms::StatementList;
use parse_statements::sequences::Sequences;

/// A ClassStaticBlock behind its `static`, which began at a place (ECMA-262, section 15.7).
pub fn parse_static_block<C: ParserConfig, N: Sequences<C>>(
    p: &mut ParserImpl<'_, C>,
    nested: &N,
    start: u32,
) -> Result<NodeId, Stop>
    requires at { Standing p.old }
    requires nests { CanNest (N.can nested.now) (room p.old) }
    requires before { start ≤ p.old.prev_token_end }
    ensures { ReadsStaticBlock start p.old p.new result }
{
    let outer = context(p);
    set_context(p, in_static_block(outer));
    let items = parse_statements_in_braces(p, nested, StatementList::Block)?;
    set_context(p, outer);
    let span = p.end_span(start);
    let node = make_list(p, NodeKind::StaticBlock, Op::None, span, items)?;
    Ok(node)
}

/// What is in force in the statements of a static block: In, Await and NewTarget, neither Yield nor Return (ECMA-262, section
/// 15.7).
fn in_static_block(outer: Context) -> Context
    ensures { InStaticBlock result }
{
    let without = outer.and_yield(false).and_return(false);
    let within = without.and_in(true).and_new_target(true);
    within.and_await(true).and_await_expression(true)
}
