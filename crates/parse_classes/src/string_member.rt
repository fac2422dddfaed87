//! Members that are named by a string (ECMA-262, section 15.7).

ghost use Rattle.std.specs.Prelude.{◌≡◌, ◌+◌, ◌<◌, ◌≤◌, IfOk, bytes_eq, codes, length};
ghost use Rattle.parse_classes.specs.Prelude.{CanNest, IsString, kind_of_string, LiesIn, node_at, ReadsMember, room, Standing, Str, units_of};

use crate::field::parse_field;
use crate::method::parse_method;
use js_base::{JsStr, Kind, NoMemory};
use laws_classes::forms::{ElementHead, FieldKind};
use parse_primary::forms::PropertyName;
use parse_primary::leaf::parse_string;
use parse_shared::nested::Nested;
use parse_shared::{MethodKind, NodeId, ParserConfig, ParserImpl, Stop};

/// A method or a field whose name is a string (ECMA-262, section 15.7).
pub fn parse_string_member<C: ParserConfig, N: Nested<C>>(
    p: &mut ParserImpl<'_, C>,
    nested: &N,
    head: ElementHead,
) -> Result<NodeId, Stop>
    requires at { Standing p.old }
    requires nests { CanNest (N.can nested.now) (room p.old + 1) }
    requires before { head.start ≤ p.old.token.span.start }
    requires string { p.old.token.kind ≡ Str }
    ensures { ReadsMember head p.old p.new result }
{
    let key = parse_string(p)?;
    let name = PropertyName {
        key,
        computed: false,
    };
    if p.at(Kind::LParen) {
        let kind = kind_of_string(p, head.is_static, key)?;
        return parse_method(p, nested, head, kind, name, false, false);
    }
    parse_field(p, nested, head, FieldKind::Property, name)
}

/// Which method it is that has the string of a node as its name: the constructor, where no `static` stands before it and
/// the string is `constructor` (ECMA-262, sections 12.9.4 and 15.7).
pub(crate) fn kind_of_string<C: ParserConfig>(
    p: &ParserImpl<'_, C>,
    is_static: bool,
    key: NodeId,
) -> Result<MethodKind, NoMemory>
    requires contained { key.0 < length p.now.nodes }
    requires lies { LiesIn (node_at p.now.nodes key).span p.now.text }
    requires string { IsString (node_at p.now.nodes key) p.now.text }
    ensures { IfOk result (λ kind. kind ≡ kind_of_string is_static (units_of (node_at p.now.nodes key) p.now.text)) }
{
    if is_static {
        return Ok(MethodKind::Method);
    }
    let units = p.ast.string_value(p.alloc, key, p.source_text)?;
    if spells_constructor(&units) {
        return Ok(MethodKind::Constructor);
    }
    Ok(MethodKind::Method)
}

/// Whether the code units are those of `constructor`.
fn spells_constructor(units: &JsStr) -> bool
    ensures { result ≡ bytes_eq (codes "constructor") units.now }
{
    let name = b"constructor";
    if units.len() != name.len() {
        return false;
    }
    let mut i = name.len();
    while i > 0 {
        i -= 1;
        if units.unit(i) != Some(name[i] as u16) {
            return false;
        }
    }
    true
}
