//! Members that are named by a word (ECMA-262, section 15.7).

ghost use Rattle.std.specs.Prelude.{◌≡◌, ◌+◌, ◌≤◌};
ghost use Rattle.parse_classes.specs.Prelude.{CanNest, is_modifier, kind_of_word, LParen, PassedLast, ReadsBehindWord, ReadsWordMethod, room, SpellsName, Standing};

use crate::field::parse_field;
use crate::member::begins_name;
use crate::method::parse_method;
use js_base::{DiagnosticKind, Kind, Token};
use laws_classes::forms::{ElementHead, FieldKind};
use parse_primary::forms::PropertyName;
use parse_shared::lexemes::keyword_of;
use parse_shared::nested::Nested;
use parse_shared::nodes::make_name;
use parse_shared::refusals::refuse_at;
use parse_shared::{MethodKind, NodeId, NodeKind, ParserConfig, ParserImpl, Stop};

/// What stands behind the name of a member, a word that was passed and begins no other member: the parameters of a method,
/// or the rest of a field (ECMA-262, section 15.7). A modifier of TypeScript is told.
pub fn parse_behind_word<C: ParserConfig, N: Nested<C>>(
    p: &mut ParserImpl<'_, C>,
    nested: &N,
    head: ElementHead,
    word: Token,
) -> Result<NodeId, Stop>
    requires at { Standing p.old }
    requires nests { CanNest (N.can nested.now) (room p.old + 1) }
    requires before { head.start ≤ p.old.prev_token_end }
    requires spells { SpellsName p.old.text word }
    requires passed { PassedLast word p.old }
    ensures { ReadsBehindWord head word p.old p.new result }
{
    if p.at(Kind::LParen) {
        return parse_word_method(p, nested, head, word);
    }
    let key = make_name(p, NodeKind::IdentifierName, word)?;
    if modifies(word, p.cur_token()) {
        return Err(refuse_at(p, DiagnosticKind::ModifierInTs, word.span()));
    }
    let name = PropertyName {
        key,
        computed: false,
    };
    parse_field(p, nested, head, FieldKind::Property, name)
}

/// Whether a word is a modifier of TypeScript before such a token: a name begins there, on its line.
fn modifies(word: Token, behind: Token) -> bool
    ensures { result ≡ is_modifier word behind }
{
    if !begins_name(behind.kind()) || behind.is_on_new_line() {
        return false;
    }
    matches!(
        keyword_of(word),
        Kind::Private | Kind::Protected | Kind::Public
    )
}

/// A method whose name, a word, was passed, and which is neither asynchronous nor a generator: the constructor, where that
/// is its name and no `static` stands before it (ECMA-262, sections 15.4 and 15.7).
fn parse_word_method<C: ParserConfig, N: Nested<C>>(
    p: &mut ParserImpl<'_, C>,
    nested: &N,
    head: ElementHead,
    word: Token,
) -> Result<NodeId, Stop>
    requires at { Standing p.old }
    requires nests { CanNest (N.can nested.now) (room p.old + 1) }
    requires before { head.start ≤ p.old.prev_token_end }
    requires parameters { p.old.token.kind ≡ LParen }
    requires spells { SpellsName p.old.text word }
    ensures { ReadsWordMethod head word p.old p.new result }
{
    let key = make_name(p, NodeKind::IdentifierName, word)?;
    let name = PropertyName {
        key,
        computed: false,
    };
    let kind = kind_of_word(head.is_static, word.kind());
    parse_method(p, nested, head, kind, name, false, false)
}

/// Which method it is that has this word as its name.
pub(crate) fn kind_of_word(is_static: bool, word: Kind) -> MethodKind
    ensures { result ≡ kind_of_word is_static word }
{
    if is_static {
        return MethodKind::Method;
    }
    match word {
        Kind::Constructor => MethodKind::Constructor,
        _ => MethodKind::Method,
    }
}
