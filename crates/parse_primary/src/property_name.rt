//! Names of properties (ECMA-262, section 13.2.5).

ghost use Rattle.std.specs.Prelude.{◌≡◌, true, false};
ghost use Rattle.parse_primary.specs.Prelude.{CanNest, LBrack, NamesComputed, NamesPlainly, NamesProperty, PrivateIdentifier, room, Standing, StandsHere};

use crate::leaf::{
    number_node, number_op, parse_identifier_name, parse_leaf, parse_private_name, parse_string,
};
use js_base::{DiagnosticKind, Kind};
use laws_primary::forms::PropertyName;
use parse_shared::context::assignment_with_in;
use parse_shared::diagnostics::diagnostic_at;
use parse_shared::lexemes::{advance, stands};
use parse_shared::nested::Nested;
use parse_shared::{NodeId, ParserConfig, ParserImpl, Stop};

/// A PropertyName (ECMA-262, section 13.2.5): a word, a string, a number, or an AssignmentExpression in brackets.
pub fn parse_property_name<C: ParserConfig, N: Nested<C>>(
    p: &mut ParserImpl<'_, C>,
    nested: &N,
) -> Result<PropertyName, Stop>
    requires at { Standing p.old }
    requires nests { CanNest (N.can nested.now) (room p.old) }
    ensures { NamesProperty p.old p.new result }
{
    if stands(p, Kind::LBrack) {
        let key = parse_computed_name(p, nested)?;
        return Ok(PropertyName {
            key,
            computed: true,
        });
    }
    let key = parse_plain_name(p)?;
    Ok(PropertyName {
        key,
        computed: false,
    })
}

/// A LiteralPropertyName (ECMA-262, section 13.2.5): a word, a string or a number. A private name is told, and read.
fn parse_plain_name<C: ParserConfig>(p: &mut ParserImpl<'_, C>) -> Result<NodeId, Stop>
    requires at { Standing p.old }
    requires no_bracket { StandsHere p.old LBrack false }
    ensures { NamesPlainly p.old p.new result }
{
    let kind = p.cur_kind();
    if kind.is_number() {
        return parse_leaf(p, number_node(kind), number_op(kind));
    }
    match kind {
        Kind::Str => parse_string(p),
        Kind::PrivateIdentifier => parse_private_key(p),
        _ => parse_identifier_name(p),
    }
}

/// A private name, which is no name of a property (ECMA-262, section 13.2.5): that is told, and reading goes on.
#[inline(never)]
fn parse_private_key<C: ParserConfig>(p: &mut ParserImpl<'_, C>) -> Result<NodeId, Stop>
    requires at { Standing p.old }
    requires private { p.old.token.kind ≡ PrivateIdentifier }
    ensures { NamesPlainly p.old p.new result }
{
    let span = p.cur_token().span();
    let kind = DiagnosticKind::PrivateIdentifierInPropertyName;
    p.error(diagnostic_at(kind, span))?;
    let key = parse_private_name(p)?;
    Ok(key)
}

/// A ComputedPropertyName (ECMA-262, section 13.2.5): the brackets make no node.
#[inline(never)]
fn parse_computed_name<C: ParserConfig, N: Nested<C>>(
    p: &mut ParserImpl<'_, C>,
    nested: &N,
) -> Result<NodeId, Stop>
    requires at { Standing p.old }
    requires nests { CanNest (N.can nested.now) (room p.old) }
    requires open { StandsHere p.old LBrack true }
    ensures { NamesComputed p.old p.new result }
{
    let opening = p.cur_token().span();
    advance(p)?;
    let key = assignment_with_in(p, nested)?;
    p.expect_closing(Kind::RBrack, opening)?;
    Ok(key)
}
