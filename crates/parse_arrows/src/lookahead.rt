//! What the lexeme behind an opening parenthesis says of the head of an arrow function (ECMA-262, section 15.3).

ghost use Rattle.std.specs.Prelude.{◌≡◌, IfOk, IsCharBoundary, MatchResult};
ghost use Rattle.parse_arrows.specs.Prelude.{begins_operand, LooksAhead, LParen, NotesMore, OnlyMemory, Standing};

use crate::closing::look_for_closings;
use crate::notes::arrow_behind;
use js_base::{Kind, NoMemory};
use laws_operators::forms::HeadLookahead;
use parse_shared::{ParserConfig, ParserImpl, Stop};

/// What may begin with the parenthesis that stands here.
pub(crate) fn is_parenthesized_head<C: ParserConfig>(
    p: &mut ParserImpl<'_, C>,
) -> Result<HeadLookahead, Stop>
    requires at { Standing p.old }
    requires open { p.old.token.kind ≡ LParen }
    ensures { MatchResult result (λ found. LooksAhead p.old p.new found) OnlyMemory }
{
    let next = p.peek_token()?;
    let kind = next.kind();
    if matches!(kind, Kind::Dot3) {
        return Ok(HeadLookahead::Head);
    }
    if begins_no_parameter(kind) {
        return Ok(HeadLookahead::NoHead);
    }
    let found = look_behind_closing(p)?;
    Ok(found)
}

/// What may begin with the parenthesis that stands here, by whether `=>` stands behind the one that closes it, as far as
/// that is noted. It is looked up where a head is being attempted, so that heads that are attempted in vain in one another
/// aren't read again and again.
fn look_behind_closing<C: ParserConfig>(
    p: &mut ParserImpl<'_, C>,
) -> Result<HeadLookahead, NoMemory>
    requires at { Standing p.old }
    requires open { p.old.token.kind ≡ LParen }
    ensures { IfOk result (λ found. LooksAhead p.old p.new found) }
{
    let place = p.prev_token_end();
    look_through(p, place)?;
    match arrow_behind(p, place) {
        Some(true) => Ok(HeadLookahead::Head),
        Some(false) => Ok(HeadLookahead::NoHead),
        None => Ok(HeadLookahead::Maybe),
    }
}

/// Looks through the text from a place on, where a head is being attempted and that wasn't done.
fn look_through<C: ParserConfig>(p: &mut ParserImpl<'_, C>, place: u32) -> Result<(), NoMemory>
    requires at { Standing p.old }
    requires between { IsCharBoundary p.old.text place }
    ensures { IfOk result (λ _. NotesMore p.old p.new) }
{
    if !p.state.is_attempting() || p.state.looked() > place {
        return Ok(());
    }
    look_for_closings(p, place)
}

/// Whether a lexeme is one of those that begin an expression, and neither a parameter nor a rest: a literal, a sign, `(`,
/// `this` or `new`.
fn begins_no_parameter(kind: Kind) -> bool
    ensures { result ≡ begins_operand kind }
{
    kind.is_literal()
        || kind.is_unary_operator()
        || kind.is_update_operator()
        || matches!(kind, Kind::LParen | Kind::This | Kind::New)
}
