//! Calls of `js_core`.

ghost use Rattle.std.specs.Prelude.{◌≡◌, true, not};
ghost use Rattle.js_run.specs.js_parser.js_core.Calls.{above};
ghost use Rattle.js_run.specs.js_parser.js_core.Prelude.{Answers, at, Expression, has_flag, in_flag, is_single, placed, Standing, TakesStatement};

use js_base::{Precedence, StatementContext};
use js_cursor::Stop;
use js_run::js_parser::js_core::{self, RuntimeParser};
use js_tree::NodeId;

/// `parse_expr`.
pub fn parse_expr(p: &mut RuntimeParser<'_>) -> Result<NodeId, Stop>
    requires { Standing p.old }
    ensures { Answers (at Expression) p.old p.new result }
{
    js_core::parse_expr(p)
}

/// `parse_binary_expression_or_higher`.
pub fn parse_binary_expression_or_higher(
    p: &mut RuntimeParser<'_>,
    least: Precedence,
) -> Result<NodeId, Stop>
    requires { Standing p.old }
    ensures { Answers (above least) p.old p.new result }
{
    js_core::parse_binary_expression_or_higher(p, least)
}

/// `parse_statement_list_item`.
pub fn parse_statement_list_item(
    p: &mut RuntimeParser<'_>,
    context: StatementContext,
) -> Result<NodeId, Stop>
    requires at { Standing p.old }
    requires allows_in { has_flag in_flag p.old.ctx ≡ true }
    ensures { TakesStatement (placed (not (is_single context))) p.old p.new result }
{
    js_core::parse_statement_list_item(p, context)
}
