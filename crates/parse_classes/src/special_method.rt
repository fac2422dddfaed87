//! Generators and asynchronous methods of classes (ECMA-262, sections 15.5, 15.6 and 15.8).

ghost use Rattle.std.specs.Prelude.{◌≡◌, ◌||◌, ◌+◌, ◌≤◌, true, false};
ghost use Rattle.parse_classes.specs.Prelude.{CanNest, kind_of_word, ReadsAsyncMethod, ReadsMember, ReadsNamedMethod, room, Standing, Star, Str};

use crate::element_name::parse_element_name;
use crate::method::parse_method;
use crate::string_member::kind_of_string;
use crate::word_member::kind_of_word;
use js_base::Kind;
use laws_classes::forms::ElementHead;
use parse_primary::forms::PropertyName;
use parse_primary::leaf::parse_string;
use parse_shared::lexemes::advance;
use parse_shared::nested::Nested;
use parse_shared::{MethodKind, NodeId, ParserConfig, ParserImpl, Stop};

/// A generator method, from its `*` on (ECMA-262, section 15.5).
pub fn parse_generator_method<C: ParserConfig, N: Nested<C>>(
    p: &mut ParserImpl<'_, C>,
    nested: &N,
    head: ElementHead,
) -> Result<NodeId, Stop>
    requires at { Standing p.old }
    requires nests { CanNest (N.can nested.now) (room p.old + 1) }
    requires before { head.start ≤ p.old.token.span.start }
    requires sign { p.old.token.kind ≡ Star }
    ensures { ReadsMember head p.old p.new result }
{
    advance(p)?;
    parse_named_method(p, nested, head, false, true)
}

/// An asynchronous method, from what stands behind its `async` on (ECMA-262, sections 15.6 and 15.8).
pub fn parse_async_method<C: ParserConfig, N: Nested<C>>(
    p: &mut ParserImpl<'_, C>,
    nested: &N,
    head: ElementHead,
) -> Result<NodeId, Stop>
    requires at { Standing p.old }
    requires nests { CanNest (N.can nested.now) (room p.old + 1) }
    requires before { head.start ≤ p.old.prev_token_end }
    ensures { ReadsAsyncMethod head p.old p.new result }
{
    if p.at(Kind::Star) {
        advance(p)?;
        return parse_named_method(p, nested, head, true, true);
    }
    parse_named_method(p, nested, head, true, false)
}

/// A method from its name on, which is asynchronous or not, and a generator or not.
fn parse_named_method<C: ParserConfig, N: Nested<C>>(
    p: &mut ParserImpl<'_, C>,
    nested: &N,
    head: ElementHead,
    is_async: bool,
    generator: bool,
) -> Result<NodeId, Stop>
    requires at { Standing p.old }
    requires nests { CanNest (N.can nested.now) (room p.old + 1) }
    requires before { head.start ≤ p.old.prev_token_end }
    ensures { ReadsNamedMethod head is_async generator p.old p.new result }
{
    if p.at(Kind::Str) {
        return parse_string_method(p, nested, head, is_async, generator);
    }
    let first = p.cur_kind();
    let name = parse_element_name(p, nested)?;
    let kind = kind_of_named(head.is_static, name.computed, first);
    parse_method(p, nested, head, kind, name, is_async, generator)
}

/// The same, where the name is a string.
fn parse_string_method<C: ParserConfig, N: Nested<C>>(
    p: &mut ParserImpl<'_, C>,
    nested: &N,
    head: ElementHead,
    is_async: bool,
    generator: bool,
) -> Result<NodeId, Stop>
    requires at { Standing p.old }
    requires nests { CanNest (N.can nested.now) (room p.old + 1) }
    requires before { head.start ≤ p.old.prev_token_end }
    requires string { p.old.token.kind ≡ Str }
    ensures { ReadsNamedMethod head is_async generator p.old p.new result }
{
    let key = parse_string(p)?;
    let kind = kind_of_string(p, head.is_static, key)?;
    let name = PropertyName {
        key,
        computed: false,
    };
    parse_method(p, nested, head, kind, name, is_async, generator)
}

/// Which method it is that has this name, in brackets or not, which begins with such a lexeme and is no string.
fn kind_of_named(is_static: bool, computed: bool, first: Kind) -> MethodKind
    ensures { result ≡ kind_of_word (computed || is_static) first }
{
    if computed {
        return MethodKind::Method;
    }
    kind_of_word(is_static, first)
}
