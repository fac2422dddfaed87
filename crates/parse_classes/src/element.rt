//! Elements of classes as a whole (ECMA-262, section 15.7).

ghost use Rattle.std.specs.Prelude.{◌≡◌, ◌+◌};
ghost use Rattle.parse_classes.specs.Prelude.{At, CanNest, ReadsElement, room, Standing};

use crate::member::{begins_member, parse_member};
use crate::static_block::parse_static_block;
use crate::word_member::parse_behind_word;
use js_base::Kind;
use laws_classes::forms::ElementHead;
use parse_shared::lexemes::{advance, stands};
use parse_shared::{NodeId, ParserConfig, ParserImpl, Stop};
use parse_statements::sequences::Sequences;

/// A ClassElement, before which no decorator stands (ECMA-262, section 15.7). `static` begins a block before `{`, and is a
/// prefix where a member may begin behind it; elsewhere it is the name of a method or a field.
/// Reads: Element.
pub fn parse_class_element<C: ParserConfig, N: Sequences<C>>(
    p: &mut ParserImpl<'_, C>,
    nested: &N,
) -> Result<NodeId, Stop>
    requires at { Standing p.old }
    requires nests { CanNest (N.can nested.now) (room p.old + 1) }
    requires undecorated { p.old.token.kind ≡ At → ⊥ }
    ensures { ReadsElement p.old p.new result }
{
    let start = p.cur_start();
    let plain = ElementHead {
        start,
        is_static: false,
    };
    if !stands(p, Kind::Static) {
        return parse_member(p, nested, plain);
    }
    let word = p.cur_token();
    advance(p)?;
    if p.at(Kind::LCurly) {
        return parse_static_block(p, nested, start);
    }
    if begins_member(p.cur_kind()) {
        let head = ElementHead {
            start,
            is_static: true,
        };
        return parse_member(p, nested, head);
    }
    parse_behind_word(p, nested, plain, word)
}
