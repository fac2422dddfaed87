//! Getters, setters and the fields of `accessor`, from their names on (ECMA-262, sections 15.4 and 15.7).

ghost use Rattle.std.specs.Prelude.{◌≡◌, ◌+◌, ◌≤◌};
ghost use Rattle.parse_classes.specs.Prelude.{CanNest, ReadsAccessorField, ReadsAccessorMethod, room, Standing};

use crate::element_name::parse_element_name;
use crate::field::parse_field;
use crate::method::parse_method;
use laws_classes::forms::{ElementHead, FieldKind};
use parse_shared::nested::Nested;
use parse_shared::{MethodKind, NodeId, ParserConfig, ParserImpl, Stop};

/// A getter or a setter, whose `get` or `set` was passed (ECMA-262, section 15.4).
pub fn parse_accessor_method<C: ParserConfig, N: Nested<C>>(
    p: &mut ParserImpl<'_, C>,
    nested: &N,
    head: ElementHead,
    kind: MethodKind,
) -> Result<NodeId, Stop>
    requires at { Standing p.old }
    requires nests { CanNest (N.can nested.now) (room p.old + 1) }
    requires before { head.start ≤ p.old.prev_token_end }
    ensures { ReadsAccessorMethod head kind p.old p.new result }
{
    let name = parse_element_name(p, nested)?;
    parse_method(p, nested, head, kind, name, false, false)
}

/// A field behind `accessor`, which was passed (of the proposal Decorators; no section of ECMA-262).
pub fn parse_accessor_field<C: ParserConfig, N: Nested<C>>(
    p: &mut ParserImpl<'_, C>,
    nested: &N,
    head: ElementHead,
) -> Result<NodeId, Stop>
    requires at { Standing p.old }
    requires nests { CanNest (N.can nested.now) (room p.old + 1) }
    requires before { head.start ≤ p.old.prev_token_end }
    ensures { ReadsAccessorField head p.old p.new result }
{
    let name = parse_element_name(p, nested)?;
    parse_field(p, nested, head, FieldKind::Accessor, name)
}
