//! Where the parentheses close that begin at a place.

ghost use Rattle.std.specs.Prelude.{◌≡◌, true, false, [], ◌∷◌, ◌++◌, IfOk, IsCharBoundary};
ghost use Rattle.parse_arrows.specs.Prelude.{ArrowTold, ClosesLast, FindsClosing, LexemePassed, NoneCloses, NotesMore, Standing, StandOpen, WholeBehind};

use crate::notes::{is_arrow_noted, note_closing, set_looked};
use js_base::{Kind, NoMemory, Token};
use laws_operators::forms::{OpenBracket, OpenedBracket};
use parse_shared::{ParserConfig, ParserImpl};

/// Whether it is known that `=>` stands behind the parentheses that begin behind a place, where it is looked up.
pub(crate) fn is_arrow_behind_one<C: ParserConfig>(
    p: &mut ParserImpl<'_, C>,
    place: u32,
) -> Result<bool, NoMemory>
    requires at { Standing p.old }
    requires between { IsCharBoundary p.old.text place }
    ensures { IfOk result (λ found. FindsClosing place p.old p.new found) }
{
    look_for_closings(p, place)?;
    Ok(is_arrow_noted(p, place))
}

/// Notes of the brackets that begin behind a place, and of all inside, whether `=>` stands behind them. It goes on to where
/// those close, or to a slash, a part of a template or a bracket that closes no open one: of what is open there nothing is
/// noted. Where the text ends, or no lexeme stands, before they close, no `=>` stands behind them.
pub(crate) fn look_for_closings<C: ParserConfig>(
    p: &mut ParserImpl<'_, C>,
    start: u32,
) -> Result<(), NoMemory>
    requires at { Standing p.old }
    requires between { IsCharBoundary p.old.text start }
    ensures { IfOk result (λ _. NotesMore p.old p.new) }
{
    let mut brackets = Vec::new(p.alloc);
    let mut place = start;
    'lexemes: for _ in start..u32::MAX {
        let next = whole_behind(p, place)?;
        let goes_on = pass_lexeme(p, &mut brackets, place, next)?;
        place = next.span().end;
        set_looked(p, place);
        if !goes_on {
            return Ok(());
        }
    }
    Ok(())
}

/// Passes a lexeme, which may open a bracket or close the one that was opened last; of that one it is noted whether `=>` stands
/// behind it. Where the text ends, or no lexeme stands, it is noted of all that none does. False: all are closed, or there
/// is no more to look for.
fn pass_lexeme<C: ParserConfig>(
    p: &mut ParserImpl<'_, C>,
    brackets: &mut Vec<OpenedBracket>,
    behind: u32,
    next: Token,
) -> Result<bool, NoMemory>
    requires at { Standing p.old }
    requires between { IsCharBoundary p.old.text behind }
    requires gives { WholeBehind p.old.text behind next }
    requires stand { StandOpen p.old.text behind brackets.old.items }
    ensures { IfOk result (λ on. LexemePassed p.old next p.new brackets.new.items on) }
{
    match next.kind() {
        Kind::LParen => open_bracket(brackets, OpenBracket::Round, behind),
        Kind::LBrack => open_bracket(brackets, OpenBracket::Square, behind),
        Kind::LCurly => open_bracket(brackets, OpenBracket::Curly, behind),
        Kind::RParen => close_bracket(p, brackets, OpenBracket::Round, next.span().end),
        Kind::RBrack => close_bracket(p, brackets, OpenBracket::Square, next.span().end),
        Kind::RCurly => close_bracket(p, brackets, OpenBracket::Curly, next.span().end),
        Kind::Undetermined => note_unclosed(p, brackets),
        Kind::Eof => note_unclosed(p, brackets),
        Kind::Slash | Kind::SlashEq => Ok(false),
        Kind::TemplateHead | Kind::TemplateMiddle | Kind::TemplateTail => Ok(false),
        _ => Ok(true),
    }
}

/// The whole lexeme of the plain lexical goal that stands behind a place.
fn whole_behind<C: ParserConfig>(p: &ParserImpl<'_, C>, place: u32) -> Result<Token, NoMemory>
    requires at { Standing p.now }
    requires between { IsCharBoundary p.now.text place }
    ensures { IfOk result (λ t. WholeBehind p.now.text place t) }
{
    let next = p.lexer.token_behind(place)?;
    match next.kind() {
        Kind::RAngle => Ok(p.lexer.whole_right_angle(place, next)),
        _ => Ok(next),
    }
}

/// Opens a bracket behind a place.
fn open_bracket(
    brackets: &mut Vec<OpenedBracket>,
    bracket: OpenBracket,
    behind: u32,
) -> Result<bool, NoMemory>
    ensures { IfOk result (λ on. (on ≡ true) × (brackets.new.items ≡ brackets.old.items ++ record { bracket = bracket; behind = behind } ∷ [])) }
{
    brackets.push(OpenedBracket { bracket, behind })?;
    Ok(true)
}

/// Closes the bracket that was opened last, if it is such a one, and notes whether `=>` stands behind the place where it
/// ends. False: it isn't, or none is open.
fn close_bracket<C: ParserConfig>(
    p: &mut ParserImpl<'_, C>,
    brackets: &mut Vec<OpenedBracket>,
    bracket: OpenBracket,
    end: u32,
) -> Result<bool, NoMemory>
    requires at { Standing p.old }
    requires between { IsCharBoundary p.old.text end }
    ensures { IfOk result (λ on. ClosesLast bracket end p.old brackets.old.items p.new brackets.new.items on) }
{
    let Some(last) = brackets.pop() else {
        return Ok(false);
    };
    if !is_same(last.bracket, bracket) {
        return Ok(false);
    }
    let found = is_arrow_at(p, end)?;
    note_closing(p, last.behind, found)?;
    Ok(true)
}

/// Whether they are one bracket.
fn is_same(last: OpenBracket, bracket: OpenBracket) -> bool
    ensures { result ≡ true → last ≡ bracket }
{
    last == bracket
}

/// Notes of brackets, of which none closes, that no `=>` stands behind them.
fn note_unclosed<C: ParserConfig>(
    p: &mut ParserImpl<'_, C>,
    brackets: &mut Vec<OpenedBracket>,
) -> Result<bool, NoMemory>
    requires { NoneCloses p.old.text brackets.old.items }
    ensures { IfOk result (λ on. (on ≡ false) × NotesMore p.old p.new) }
{
    'brackets: while let Some(last) = brackets.pop() {
        note_closing(p, last.behind, false)?;
    }
    Ok(false)
}

/// Whether `=>` stands behind a place.
fn is_arrow_at<C: ParserConfig>(p: &ParserImpl<'_, C>, place: u32) -> Result<bool, NoMemory>
    requires at { Standing p.now }
    requires between { IsCharBoundary p.now.text place }
    ensures { IfOk result (λ found. ArrowTold p.now.text place found) }
{
    let next = p.lexer.token_behind(place)?;
    Ok(matches!(next.kind(), Kind::Arrow))
}
