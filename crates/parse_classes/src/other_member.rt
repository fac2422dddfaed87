//! Members whose names are numbers, private names, or stand in brackets (ECMA-262, section 15.7).

ghost use Rattle.std.specs.Prelude.{◌≡◌, ◌+◌, ◌≤◌, true, false};
ghost use Rattle.parse_classes.specs.Prelude.{CanNest, name_kinds, one_of_kinds, ReadsMember, room, special_firsts, Standing};

use crate::element_name::parse_element_name;
use crate::field::parse_field;
use crate::method::parse_method;
use js_base::Kind;
use laws_classes::forms::{ElementHead, FieldKind};
use parse_shared::nested::Nested;
use parse_shared::{MethodKind, NodeId, ParserConfig, ParserImpl, Stop};

/// A method or a field whose name is a number or a private name, or stands in brackets (ECMA-262, section 15.7).
pub fn parse_other_member<C: ParserConfig, N: Nested<C>>(
    p: &mut ParserImpl<'_, C>,
    nested: &N,
    head: ElementHead,
) -> Result<NodeId, Stop>
    requires at { Standing p.old }
    requires nests { CanNest (N.can nested.now) (room p.old + 1) }
    requires before { head.start ≤ p.old.token.span.start }
    requires plain { one_of_kinds special_firsts p.old.token.kind ≡ false }
    requires name { one_of_kinds name_kinds p.old.token.kind ≡ true }
    ensures { ReadsMember head p.old p.new result }
{
    let name = parse_element_name(p, nested)?;
    if p.at(Kind::LParen) {
        return parse_method(p, nested, head, MethodKind::Method, name, false, false);
    }
    parse_field(p, nested, head, FieldKind::Property, name)
}
