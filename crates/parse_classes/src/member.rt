//! Members of classes, behind their `static` (ECMA-262, section 15.7).

ghost use Rattle.std.specs.Prelude.{◌≡◌, ◌+◌, ◌≤◌, ◌∷◌, true, false};
ghost use Rattle.parse_classes.specs.Prelude.{accessor_of, At, begins_accessor, begins_async, CanNest, identifier_name_kinds, name_kinds, one_of_kinds, other_name_kinds, ReadsMember, room, Standing, Star, Static};

use crate::accessor_member::{parse_accessor_field, parse_accessor_method};
use crate::other_member::parse_other_member;
use crate::special_method::{parse_async_method, parse_generator_method};
use crate::string_member::parse_string_member;
use crate::word_member::parse_behind_word;
use js_base::{Kind, Token};
use laws_classes::forms::ElementHead;
use parse_shared::lexemes::{advance, keyword_of};
use parse_shared::nested::Nested;
use parse_shared::{MethodKind, NodeId, ParserConfig, ParserImpl, Stop};

/// A member: a method, a getter, a setter or a field (ECMA-262, section 15.7). No decorator stands before it; and where no
/// `static` was passed, none stands here.
pub fn parse_member<C: ParserConfig, N: Nested<C>>(
    p: &mut ParserImpl<'_, C>,
    nested: &N,
    head: ElementHead,
) -> Result<NodeId, Stop>
    requires at { Standing p.old }
    requires nests { CanNest (N.can nested.now) (room p.old + 1) }
    requires before { head.start ≤ p.old.token.span.start }
    requires undecorated { p.old.token.kind ≡ At → ⊥ }
    requires member { head.is_static ≡ false → p.old.token.kind ≡ Static → p.old.token.escaped ≡ false → ⊥ }
    ensures { ReadsMember head p.old p.new result }
{
    if p.cur_kind().is_identifier_name() {
        return parse_word_member(p, nested, head);
    }
    if p.at(Kind::Star) {
        return parse_generator_method(p, nested, head);
    }
    if p.at(Kind::Str) {
        return parse_string_member(p, nested, head);
    }
    if !begins_name(p.cur_kind()) {
        return Err(p.set_unexpected());
    }
    parse_other_member(p, nested, head)
}

/// A member that begins with a word: which is its name, or begins another member (ECMA-262, section 15.7). Where no `static`
/// was passed, none stands here.
fn parse_word_member<C: ParserConfig, N: Nested<C>>(
    p: &mut ParserImpl<'_, C>,
    nested: &N,
    head: ElementHead,
) -> Result<NodeId, Stop>
    requires at { Standing p.old }
    requires nests { CanNest (N.can nested.now) (room p.old + 1) }
    requires before { head.start ≤ p.old.token.span.start }
    requires word { one_of_kinds identifier_name_kinds p.old.token.kind ≡ true }
    requires member { head.is_static ≡ false → p.old.token.kind ≡ Static → p.old.token.escaped ≡ false → ⊥ }
    ensures { ReadsMember head p.old p.new result }
{
    let word = p.cur_token();
    advance(p)?;
    let keyword = keyword_of(word);
    if let Some(kind) = accessor_kind(keyword, p.cur_kind()) {
        return parse_accessor_method(p, nested, head, kind);
    }
    if begins_async_method(keyword, p.cur_token()) {
        return parse_async_method(p, nested, head);
    }
    if begins_accessor_field(keyword, p.cur_token()) {
        return parse_accessor_field(p, nested, head);
    }
    parse_behind_word(p, nested, head, word)
}

/// Whether the name of an element begins with such a lexeme.
pub(crate) fn begins_name(kind: Kind) -> bool
    ensures { result ≡ one_of_kinds name_kinds kind }
{
    if begins_other_name(kind) {
        return true;
    }
    if kind.is_number() {
        return true;
    }
    kind.is_identifier_name()
}

/// Whether a name begins with it that is neither a number nor a word.
fn begins_other_name(kind: Kind) -> bool
    ensures { result ≡ one_of_kinds other_name_kinds kind }
{
    matches!(kind, Kind::Str | Kind::PrivateIdentifier | Kind::LBrack)
}

/// Which accessor a word begins before such a lexeme, if one.
fn accessor_kind(word: Kind, behind: Kind) -> Option<MethodKind>
    ensures { result ≡ accessor_of word behind }
{
    if !begins_name(behind) {
        return None;
    }
    match word {
        Kind::Get => Some(MethodKind::Get),
        Kind::Set => Some(MethodKind::Set),
        _ => None,
    }
}

/// Whether a member begins with such a lexeme, be it behind `static`, or a method behind `async`.
pub(crate) fn begins_member(kind: Kind) -> bool
    ensures { result ≡ one_of_kinds (Star ∷ name_kinds) kind }
{
    matches!(kind, Kind::Star) || begins_name(kind)
}

/// Whether a word is the `async` of a method before such a lexeme (ECMA-262, sections 15.6 and 15.8).
fn begins_async_method(word: Kind, behind: Token) -> bool
    ensures { result ≡ begins_async word behind.kind behind.is_on_new_line }
{
    if !begins_member(behind.kind()) || behind.is_on_new_line() {
        return false;
    }
    matches!(word, Kind::Async)
}

/// Whether a word is the `accessor` of a field before such a lexeme (of the proposal Decorators; no section of ECMA-262).
fn begins_accessor_field(word: Kind, behind: Token) -> bool
    ensures { result ≡ begins_accessor word behind.kind behind.is_on_new_line }
{
    if !begins_name(behind.kind()) || behind.is_on_new_line() {
        return false;
    }
    matches!(word, Kind::Accessor)
}
