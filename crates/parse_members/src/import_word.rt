//! What begins with `import` where an operand is due: ImportCall and ImportMeta (ECMA-262, sections 13.3.10 and 13.3.12).

ghost use Rattle.std.specs.Prelude.{true};
ghost use Rattle.parse_members.specs.Prelude.{CanNest, Heads, Import, ReadsCallee, room, Standing, StandsHere};

use crate::import_call::{parse_import_call, refuse_behind_new};
use crate::import_meta::parse_import_meta;
use crate::left_hand_side::{
    parse_call_expression_rest, parse_call_links, parse_member_expression_rest,
};
use js_base::Kind;
use parse_shared::lexemes::{advance, stands};
use parse_shared::nested::Nested;
use parse_shared::{NodeId, ParserConfig, ParserImpl, Stop};

/// What begins with `import`, up to an optional chain: an ImportCall, or ImportMeta, and what stands behind.
#[inline(never)]
pub(crate) fn parse_import_callee<C: ParserConfig, N: Nested<C>>(
    p: &mut ParserImpl<'_, C>,
    nested: &N,
) -> Result<NodeId, Stop>
    requires at { Standing p.old }
    requires nests { CanNest (N.can nested.now) (room p.old) }
    requires word { StandsHere p.old Import true }
    ensures { ReadsCallee p.old p.new result }
{
    let start = p.cur_start();
    advance(p)?;
    if stands(p, Kind::LParen) {
        let call = parse_import_call(p, nested, start)?;
        return parse_call_links(p, nested, start, call);
    }
    let meta = parse_import_meta(p, start)?;
    let member = parse_member_expression_rest(p, nested, start, meta)?;
    parse_call_expression_rest(p, nested, start, member)
}

/// What begins with `import` behind `new`: ImportMeta, and the names, expressions in brackets and templates behind it. Of an
/// ImportCall is told that it may not stand there, and reading goes on.
#[inline(never)]
pub(crate) fn parse_import_member<C: ParserConfig, N: Nested<C>>(
    p: &mut ParserImpl<'_, C>,
    nested: &N,
) -> Result<NodeId, Stop>
    requires at { Standing p.old }
    requires nests { CanNest (N.can nested.now) (room p.old) }
    requires word { StandsHere p.old Import true }
    ensures { Heads p.old p.new result }
{
    let start = p.cur_start();
    advance(p)?;
    if stands(p, Kind::LParen) {
        let call = parse_import_call(p, nested, start)?;
        refuse_behind_new(p, start)?;
        return parse_member_expression_rest(p, nested, start, call);
    }
    let meta = parse_import_meta(p, start)?;
    parse_member_expression_rest(p, nested, start, meta)
}
