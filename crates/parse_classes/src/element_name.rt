//! Names of elements of classes (ECMA-262, section 15.7).

ghost use Rattle.parse_classes.specs.Prelude.{CanNest, NamesElement, room, Standing};

use js_base::Kind;
use parse_primary::forms::PropertyName;
use parse_primary::leaf::parse_private_name;
use parse_primary::property_name::parse_property_name;
use parse_shared::nested::Nested;
use parse_shared::{ParserConfig, ParserImpl, Stop};

/// A ClassElementName (ECMA-262, section 15.7): the name of a property, or a private name.
pub fn parse_element_name<C: ParserConfig, N: Nested<C>>(
    p: &mut ParserImpl<'_, C>,
    nested: &N,
) -> Result<PropertyName, Stop>
    requires at { Standing p.old }
    requires nests { CanNest (N.can nested.now) (room p.old) }
    ensures { NamesElement p.old p.new result }
{
    if p.at(Kind::PrivateIdentifier) {
        let key = parse_private_name(p)?;
        return Ok(PropertyName {
            key,
            computed: false,
        });
    }
    parse_property_name(p, nested)
}
