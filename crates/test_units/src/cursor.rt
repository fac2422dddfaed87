//! Rows of what the moves over lexemes answer.

ghost use Rattle.std.specs.Prelude.{◌≡◌, ◌<◌, IfOk, IfSome};
ghost use Rattle.js_base.specs.declared.TheConstants.{MAX_LEN};
ghost use Rattle.js_cursor.specs.Checkpoints.{GoesOn};
ghost use Rattle.js_cursor.specs.Places.{IsAt};

use js_base::{Diagnostic, DiagnosticKind, Kind, MAX_LEN, ParseOptions, SourceType, Span};
use js_cursor::{CoverInitializer, ListStep, MAX_DEPTH, ParserImpl, Stop};
use js_lex::NoTokensParserConfig;
use js_tree::NodeId;
use std::alloc::Global;

/// A call at the first lexeme.
#[derive(Clone, Copy)]
enum Call {
    BumpAny,
    Eat(Kind),
    Bump(Kind),
    Expect(Kind),
    Asi,
    Unexpected,
    Peek,
    ReLex,
}

/// What it answers: that it went well, that nothing was eaten, the kind of the lexeme behind, where a pattern ends, or the
/// kind of the diagnostic that was kept last.
#[derive(Clone, Copy, PartialEq, Eq)]
enum Answer {
    Done,
    Stayed,
    Behind(Kind),
    PatternEnds(u32),
    Fatal(DiagnosticKind),
    NoMemory,
}

type Parser<'a> = ParserImpl<'a, NoTokensParserConfig>;

/// The parser of a text as a script; none where the text is too long, or memory is wanting.
fn parser_of(alloc: Global, source: &str) -> Option<Parser<'_>>
    ensures { IfSome result (λ p. IsAt p) }
{
    if source.len() > MAX_LEN {
        return None;
    }
    match Parser::new(
        alloc,
        source,
        SourceType::script(),
        ParseOptions::default(),
        NoTokensParserConfig,
    ) {
        Ok(p) => Some(p),
        Err(_) => None,
    }
}

/// The answer of a call that gives up: the diagnostic that was kept last, or none.
fn fatal(p: &Parser<'_>, stop: Stop) -> Answer {
    match stop {
        Stop::NoMemory => Answer::NoMemory,
        Stop::Fatal => match p.errors.len() {
            0 => Answer::Stayed,
            len => Answer::Fatal(p.errors[len - 1].kind),
        },
    }
}

/// The answer of a call that reads a pattern.
fn pattern_read(given: Result<u32, Stop>) -> Result<Answer, Stop> {
    match given {
        Ok(end) => Ok(Answer::PatternEnds(end)),
        Err(stop) => Err(stop),
    }
}

/// The answer of a call that only moves.
fn moved(given: Result<(), Stop>) -> Result<Answer, Stop> {
    match given {
        Ok(()) => Ok(Answer::Done),
        Err(stop) => Err(stop),
    }
}

/// Reads the current sign again, as what it may begin.
fn re_lex(p: &mut Parser<'_>) -> Result<Answer, Stop>
    requires { IsAt p.old }
{
    if p.at(Kind::Slash) {
        return pattern_read(p.re_lex_regex());
    }
    if p.at(Kind::SlashEq) {
        return pattern_read(p.re_lex_regex());
    }
    if p.at(Kind::RAngle) {
        return moved(p.re_lex_right_angle());
    }
    if p.at(Kind::RCurly) {
        return moved(p.re_lex_template_tail());
    }
    Ok(Answer::Stayed)
}

/// The lexeme behind.
fn peek(p: &mut Parser<'_>) -> Result<Answer, Stop>
    requires { IsAt p.old }
{
    let token = p.peek_token()?;
    Ok(Answer::Behind(token.kind()))
}

/// The answer of a call that never gives up.
fn given_by(given: Result<Answer, Stop>) -> Answer {
    match given {
        Ok(answer) => answer,
        Err(_) => Answer::NoMemory,
    }
}

/// Makes a call; what it answers.
fn make(p: &mut Parser<'_>, call: Call) -> Answer
    requires { IsAt p.old }
{
    let made = match call {
        Call::BumpAny => p.bump_any(),
        Call::Bump(kind) => p.bump(kind),
        Call::Expect(kind) => p.expect(kind),
        Call::Asi => p.asi(),
        Call::Unexpected => Err(p.set_unexpected()),
        Call::Peek => return given_by(peek(p)),
        Call::ReLex => return given_by(re_lex(p)),
        Call::Eat(kind) => match p.eat(kind) {
            Ok(true) => Ok(()),
            Ok(false) => return Answer::Stayed,
            Err(stop) => Err(stop),
        },
    };
    match made {
        Ok(()) => Answer::Done,
        Err(stop) => fatal(p, stop),
    }
}

/// The text, the call at its first lexeme and its answer; the kind of the current lexeme then, and the end of the one before.
static CALLS: [(&str, Call, Answer, Kind, u32); 33] = [
    ("ab cd", Call::BumpAny, Answer::Done, Kind::Ident, 2),
    ("", Call::BumpAny, Answer::Done, Kind::Eof, 0),
    ("\u{1}", Call::BumpAny, Answer::Done, Kind::Undetermined, 0),
    (">>= a", Call::BumpAny, Answer::Done, Kind::Ident, 3),
    ("if (", Call::Eat(Kind::If), Answer::Done, Kind::LParen, 2),
    (
        "i\\u0066 (",
        Call::Eat(Kind::If),
        Answer::Stayed,
        Kind::If,
        0,
    ),
    ("if (", Call::Eat(Kind::LParen), Answer::Stayed, Kind::If, 0),
    ("if (", Call::Bump(Kind::If), Answer::Done, Kind::LParen, 2),
    (
        "i\\u0066 (",
        Call::Bump(Kind::If),
        Answer::Done,
        Kind::If,
        0,
    ),
    (
        "if (",
        Call::Expect(Kind::If),
        Answer::Done,
        Kind::LParen,
        2,
    ),
    (
        "i\\u0066 (",
        Call::Expect(Kind::If),
        Answer::Fatal(DiagnosticKind::ExpectToken),
        Kind::If,
        0,
    ),
    (
        "if (",
        Call::Expect(Kind::LParen),
        Answer::Fatal(DiagnosticKind::ExpectToken),
        Kind::If,
        0,
    ),
    (";a", Call::Asi, Answer::Done, Kind::Ident, 1),
    ("}a", Call::Asi, Answer::Done, Kind::RCurly, 0),
    ("", Call::Asi, Answer::Done, Kind::Eof, 0),
    ("\na", Call::Asi, Answer::Done, Kind::Ident, 0),
    (
        "a",
        Call::Asi,
        Answer::Fatal(DiagnosticKind::ExpectToken),
        Kind::Ident,
        0,
    ),
    (
        "a",
        Call::Unexpected,
        Answer::Fatal(DiagnosticKind::UnexpectedToken),
        Kind::Ident,
        0,
    ),
    (
        "'a",
        Call::Unexpected,
        Answer::Fatal(DiagnosticKind::UnterminatedString),
        Kind::Undetermined,
        0,
    ),
    ("#!a\nb", Call::BumpAny, Answer::Done, Kind::Ident, 3),
    (
        " #!a",
        Call::Unexpected,
        Answer::Fatal(DiagnosticKind::InvalidCharacter),
        Kind::Undetermined,
        0,
    ),
    (
        "a b",
        Call::Peek,
        Answer::Behind(Kind::Ident),
        Kind::Ident,
        0,
    ),
    ("a", Call::Peek, Answer::Behind(Kind::Eof), Kind::Ident, 0),
    (
        "a 'b",
        Call::Peek,
        Answer::Behind(Kind::Undetermined),
        Kind::Ident,
        0,
    ),
    (
        ">>",
        Call::Peek,
        Answer::Behind(Kind::RAngle),
        Kind::RAngle,
        0,
    ),
    ("/a/g", Call::ReLex, Answer::PatternEnds(3), Kind::RegExp, 0),
    ("/=/", Call::ReLex, Answer::PatternEnds(3), Kind::RegExp, 0),
    (
        "/a",
        Call::ReLex,
        Answer::PatternEnds(2),
        Kind::Undetermined,
        0,
    ),
    (">>>=", Call::ReLex, Answer::Done, Kind::ShiftRight3Eq, 0),
    ("> >", Call::ReLex, Answer::Done, Kind::RAngle, 0),
    ("}a`", Call::ReLex, Answer::Done, Kind::TemplateTail, 0),
    ("}a${", Call::ReLex, Answer::Done, Kind::TemplateMiddle, 0),
    ("}a", Call::ReLex, Answer::Done, Kind::Undetermined, 0),
];

/// Makes a call, and tells where the parser stands then.
fn called(p: &mut Parser<'_>, call: Call) -> Outcome
    requires { IsAt p.old }
{
    let answer = make(p, call);
    Outcome::Called(answer, p.cur_kind(), p.prev_token_end())
}

#[test]
fn calls(rt: HostRuntime) {
    for &(source, call, answer, kind, end) in &CALLS {
        let found = outcome_at(rt.alloc(), source, Trial::Call(call));
        let wanted = Some(Outcome::Called(answer, kind, end));
        assert!(rt; found == wanted, "at {source}");
    }
}

/// A step in the list that the first lexeme opens; none where it opens none, or where the step gives up.
fn step(p: &mut Parser<'_>, close: Kind, first: bool) -> Option<ListStep>
    requires { IsAt p.old }
{
    if !p.at(Kind::LParen) {
        return None;
    }
    let opening = p.cur_token().span();
    match p.bump_any() {
        Ok(()) => p.delimited_step(close, opening, first).ok(),
        Err(_) => None,
    }
}

/// The text, the closing bracket, whether no item was read, and the step; the kind of the current lexeme then.
static STEPS: [(&str, Kind, bool, Option<ListStep>, Kind); 7] = [
    ("()", Kind::RParen, true, Some(ListStep::End), Kind::RParen),
    ("()", Kind::RParen, false, Some(ListStep::End), Kind::RParen),
    (
        "(a)",
        Kind::RParen,
        true,
        Some(ListStep::Element),
        Kind::Ident,
    ),
    (
        "(,a)",
        Kind::RParen,
        false,
        Some(ListStep::Element),
        Kind::Ident,
    ),
    (
        "( ,)",
        Kind::RParen,
        false,
        Some(ListStep::EndAfterComma(2)),
        Kind::RParen,
    ),
    ("(a)", Kind::RParen, false, None, Kind::Ident),
    ("(]", Kind::RParen, false, None, Kind::RBrack),
];

/// Makes a step in a list, and tells where the parser stands then.
fn stepped(p: &mut Parser<'_>, close: Kind, first: bool) -> Outcome
    requires { IsAt p.old }
{
    let given = step(p, close, first);
    Outcome::Stepped(given, p.cur_kind())
}

#[test]
fn steps(rt: HostRuntime) {
    for &(source, close, first, answer, kind) in &STEPS {
        let found = outcome_at(rt.alloc(), source, Trial::Step(close, first));
        let wanted = Some(Outcome::Stepped(answer, kind));
        assert!(rt; found == wanted, "at {source}");
    }
}

/// One lexeme on, and back.
fn on_and_back(p: &mut Parser<'_>) -> Result<Kind, Stop>
    requires { IsAt p.old }
{
    let here = p.checkpoint()?;
    p.bump_any()?;
    let next = p.cur_kind();
    p.rewind(here);
    Ok(next)
}

/// What is seen of a text when the parser went one lexeme on and back: the kinds of the first two lexemes, the end of the
/// one before the first, and how many comments and faults are kept.
#[derive(Clone, Copy, PartialEq, Eq)]
struct Seen {
    first: Kind,
    second: Option<Kind>,
    end: u32,
    comments: usize,
    faults: usize,
}

/// The text, the kinds of its first two lexemes, and how many comments and faults are kept before the first.
static TURNS: [(&str, Kind, Kind, usize, usize); 4] = [
    ("/*1*/ a /*2*/ ;", Kind::Ident, Kind::Semicolon, 1, 0),
    ("a 'b", Kind::Ident, Kind::Undetermined, 0, 0),
    ("'b", Kind::Undetermined, Kind::Undetermined, 0, 1),
    ("(", Kind::LParen, Kind::Eof, 0, 0),
];

/// Goes one lexeme on and back, and lets the parser go.
fn seen_by(mut p: Parser<'_>) -> Seen
    requires { IsAt p }
{
    let second = on_and_back(&mut p).ok();
    let (first, end) = (p.cur_kind(), p.prev_token_end());
    let kept = p.into_parts().lexer.finish();
    Seen {
        first,
        second,
        end,
        comments: kept.comments.len(),
        faults: kept.errors.len(),
    }
}

/// What is seen of a text; none where no parser is made.
fn seen_in(alloc: Global, source: &str) -> Option<Seen> {
    match parser_of(alloc, source) {
        None => None,
        Some(p) => Some(seen_by(p)),
    }
}

#[test]
fn turns(rt: HostRuntime) {
    for &(source, first, second, comments, faults) in &TURNS {
        let wanted = Seen {
            first,
            second: Some(second),
            end: 0,
            comments,
            faults,
        };
        assert!(rt; seen_in(rt.alloc(), source) == Some(wanted), "at {source}");
    }
}

/// Gives up at the current lexeme.
fn give_up(p: &mut Parser<'_>) -> Result<Diagnostic, Stop>
    requires { IsAt p.old }
{
    match p.set_unexpected() {
        Stop::NoMemory => Err(Stop::NoMemory),
        Stop::Fatal => match p.errors.len() {
            0 => Err(Stop::Fatal),
            len => Ok(p.errors[len - 1]),
        },
    }
}

/// Gives up at the next one.
fn give_up_behind(p: &mut Parser<'_>) -> Result<Diagnostic, Stop>
    requires { IsAt p.old }
{
    move_on(p)?;
    give_up(p)
}

/// Gives up at one of the two.
fn give_up_at(p: &mut Parser<'_>, next: bool) -> Result<Diagnostic, Stop>
    requires { IsAt p.old }
{
    if next {
        return give_up_behind(p);
    }
    give_up(p)
}

/// The kind, and the places of the diagnostic and of its two related places, each as its start and its end.
type Told = (DiagnosticKind, (u32, u32), (u32, u32), (u32, u32));

/// No place.
const NONE: (u32, u32) = (0, 0);

/// The start and the end of a place, or no place.
fn ends_of(span: Option<Span>) -> (u32, u32) {
    match span {
        Some(span) => (span.start, span.end),
        None => NONE,
    }
}

/// The text, whether its first lexeme is passed before the parser gives up, and what is told.
static MARKERS: [(&str, bool, Told); 12] = [
    (
        "<<<<<<< HEAD\na\n=======\nb\n>>>>>>> x",
        false,
        (
            DiagnosticKind::MergeConflictMarker,
            (0, 7),
            (15, 22),
            (25, 32),
        ),
    ),
    (
        "<<<<<<<",
        false,
        (DiagnosticKind::MergeConflictMarker, (0, 7), NONE, NONE),
    ),
    (
        "a\n<<<<<<< b\n=======",
        true,
        (DiagnosticKind::MergeConflictMarker, (2, 9), (12, 19), NONE),
    ),
    (
        "<<<<<<< a\n>>>>>>> b\n=======",
        false,
        (DiagnosticKind::MergeConflictMarker, (0, 7), NONE, (10, 17)),
    ),
    (
        "=======\nb\n>>>>>>> x",
        false,
        (DiagnosticKind::MergeConflictMarker, (0, 7), NONE, (10, 17)),
    ),
    (
        ">>>>>>> x",
        false,
        (DiagnosticKind::MergeConflictMarker, (0, 7), NONE, NONE),
    ),
    (
        "||||||| a\n=======\n>>>>>>> b",
        false,
        (
            DiagnosticKind::MergeConflictMarker,
            (0, 7),
            (10, 17),
            (18, 25),
        ),
    ),
    (
        "<<<<<<< a\n'\n=======",
        false,
        (DiagnosticKind::MergeConflictMarker, (0, 7), NONE, NONE),
    ),
    (
        "<<<<<<< a =======\n\t>>>>>>>",
        false,
        (DiagnosticKind::MergeConflictMarker, (0, 7), NONE, (19, 26)),
    ),
    (
        "a <<<<<<< b",
        true,
        (DiagnosticKind::UnexpectedToken, (2, 4), NONE, NONE),
    ),
    (
        "<<<<<< a",
        false,
        (DiagnosticKind::UnexpectedToken, (0, 2), NONE, NONE),
    ),
    (
        "/*\n*/ ====== ",
        false,
        (DiagnosticKind::UnexpectedToken, (6, 9), NONE, NONE),
    ),
];

/// The kind and the places of a diagnostic, where there is one.
fn told_of(found: Result<Diagnostic, Stop>) -> Option<Told> {
    match found {
        Err(_) => None,
        Ok(found) => Some((
            found.kind,
            ends_of(Some(found.span)),
            ends_of(found.first),
            ends_of(found.second),
        )),
    }
}

/// Gives up, and tells of the diagnostic.
fn given_up(p: &mut Parser<'_>, passed: bool) -> Outcome
    requires { IsAt p.old }
{
    Outcome::GivenUp(told_of(give_up_at(p, passed)))
}

#[test]
fn markers(rt: HostRuntime) {
    for &(source, passed, told) in &MARKERS {
        let found = outcome_at(rt.alloc(), source, Trial::GiveUp(passed));
        let wanted = Some(Outcome::GivenUp(Some(told)));
        assert!(rt; found == wanted, "at {source}");
    }
}

/// What is done between a checkpoint and the way back to it.
#[derive(Clone, Copy)]
enum Deed {
    Move,
    Diagnostic,
    Visit,
    Parameter,
    Enter,
    Cover,
    Take,
    Pop,
    Comma,
    Memo,
    OperandMemo,
}

/// A shorthand at the text's start.
fn cover() -> CoverInitializer {
    CoverInitializer {
        span: Span::empty(0),
        init: NodeId(1),
    }
}

/// Another one that would stand there.
fn other_cover() -> CoverInitializer {
    CoverInitializer {
        span: Span::empty(9),
        init: NodeId(9),
    }
}

/// One lexeme is passed.
fn move_on(p: &mut Parser<'_>) -> Result<(), Stop>
    requires { IsAt p.old }
    ensures { IfOk result (λ _. GoesOn p.old p.new) }
{
    p.bump_any()?;
    Ok(())
}

/// A diagnostic is kept.
fn keep_diagnostic(p: &mut Parser<'_>) -> Result<(), Stop>
    requires { IsAt p.old }
    ensures { IfOk result (λ _. GoesOn p.old p.new) }
{
    match p.set_unexpected() {
        Stop::Fatal => Ok(()),
        Stop::NoMemory => Err(Stop::NoMemory),
    }
}

/// A visit is kept.
fn keep_visit(p: &mut Parser<'_>) -> Result<(), Stop>
    requires { IsAt p.old }
    ensures { IfOk result (λ _. GoesOn p.old p.new) }
{
    p.module_record_builder.set_module_syntax()?;
    Ok(())
}

/// A parameter is set.
fn set_parameter(p: &mut Parser<'_>)
    requires { IsAt p.old }
    ensures { GoesOn p.old p.new }
{
    p.ctx = p.ctx.and_yield(true);
}

/// One level deeper.
fn go_deeper(p: &mut Parser<'_>) -> Result<(), Stop>
    requires { IsAt p.old }
    ensures { IfOk result (λ _. GoesOn p.old p.new) }
{
    p.enter(1)?;
    Ok(())
}

/// A shorthand is kept for the text's start.
fn keep_cover(p: &mut Parser<'_>, kept: CoverInitializer) -> Result<(), Stop>
    requires at { IsAt p.old }
    requires behind { 0 < p.old.token.span.start }
    ensures goes_on { IfOk result (λ _. GoesOn p.old p.new) }
    ensures stays { IfOk result (λ _. p.new.token ≡ p.old.token) }
{
    p.state.add_cover_initializer(0, kept.span, kept.init)?;
    Ok(())
}

/// The one that is kept there is taken out.
fn take_cover(p: &mut Parser<'_>)
    requires { IsAt p.old }
    ensures { GoesOn p.old p.new }
{
    p.state.take_cover_initializer(0);
}

/// The first one is taken out.
fn pop_cover(p: &mut Parser<'_>)
    requires { IsAt p.old }
    ensures { GoesOn p.old p.new }
{
    p.state.pop_cover_initializer();
}

/// A comma is kept for the text's start.
fn keep_comma(p: &mut Parser<'_>) -> Result<(), Stop>
    requires at { IsAt p.old }
    requires behind { 0 < p.old.token.span.start }
    ensures { IfOk result (λ _. GoesOn p.old p.new) }
{
    p.state.add_trailing_comma(0, Span::empty(9))?;
    Ok(())
}

/// It is noted that no head of an arrow function stands at the text's start.
fn note_head(p: &mut Parser<'_>) -> Result<(), Stop>
    requires { IsAt p.old }
    ensures { IfOk result (λ _. GoesOn p.old p.new) }
{
    p.note_arrow_failed(0)?;
    Ok(())
}

/// It is noted that no operand stands there.
fn note_operand(p: &mut Parser<'_>) -> Result<(), Stop>
    requires { IsAt p.old }
    ensures { IfOk result (λ _. GoesOn p.old p.new) }
{
    p.note_operand_failed(0)?;
    Ok(())
}

/// Does it. The place of what is noted is the text's start, before the current lexeme.
fn make_deed(p: &mut Parser<'_>, deed: Deed) -> Result<(), Stop>
    requires at { IsAt p.old }
    requires behind { 0 < p.old.token.span.start }
    ensures { IfOk result (λ _. GoesOn p.old p.new) }
{
    match deed {
        Deed::Move => return move_on(p),
        Deed::Diagnostic => return keep_diagnostic(p),
        Deed::Visit => return keep_visit(p),
        Deed::Enter => return go_deeper(p),
        Deed::Cover => return keep_cover(p, other_cover()),
        Deed::Comma => return keep_comma(p),
        Deed::Memo => return note_head(p),
        Deed::OperandMemo => return note_operand(p),
        Deed::Parameter => set_parameter(p),
        Deed::Take => take_cover(p),
        Deed::Pop => pop_cover(p),
    }
    Ok(())
}

/// Whether no level was entered: all of them may be.
fn is_outside(p: &mut Parser<'_>) -> bool
    requires { IsAt p.old }
{
    match p.enter(MAX_DEPTH) {
        Ok(()) => {
            p.leave(MAX_DEPTH);
            true
        }
        Err(_) => false,
    }
}

/// Does a deed and goes back; whether no level was entered then.
fn turn_back(p: &mut Parser<'_>, deed: Deed) -> Result<bool, Stop>
    requires at { IsAt p.old }
    requires behind { 0 < p.old.token.span.start }
{
    let here = p.checkpoint()?;
    make_deed(p, deed)?;
    p.rewind(here);
    Ok(is_outside(p))
}

/// What a parser shows of what it has kept and noted.
#[derive(Clone, Copy, PartialEq, Eq)]
struct Shown {
    start: u32,
    errors: usize,
    visits: usize,
    yields: bool,
    failed: bool,
    operand_failed: bool,
    comma: Option<Span>,
    first: Option<CoverInitializer>,
    second: Option<CoverInitializer>,
}

/// Shows it, and takes out the shorthands.
fn show(p: &mut Parser<'_>) -> Shown {
    Shown {
        start: p.cur_start(),
        errors: p.errors.len(),
        visits: p.module_record_builder.mark(),
        yields: p.ctx.has_yield(),
        failed: p.arrow_failed(0),
        operand_failed: p.operand_failed(0),
        comma: p.state.trailing_comma(0),
        first: p.state.pop_cover_initializer(),
        second: p.state.pop_cover_initializer(),
    }
}

/// The deed, and whether it is known afterwards that no head of an arrow function, or no operand, stands at the text's
/// start.
static DEEDS: [(Deed, bool, bool); 11] = [
    (Deed::Move, false, false),
    (Deed::Diagnostic, false, false),
    (Deed::Visit, false, false),
    (Deed::Parameter, false, false),
    (Deed::Enter, false, false),
    (Deed::Cover, false, false),
    (Deed::Take, false, false),
    (Deed::Pop, false, false),
    (Deed::Comma, false, false),
    (Deed::Memo, true, false),
    (Deed::OperandMemo, false, true),
];

/// Notes a shorthand, does a deed and goes back; whether no level was entered then.
fn there_and_back(p: &mut Parser<'_>, deed: Deed) -> Result<bool, Stop>
    requires { IsAt p.old }
{
    if p.cur_start() == 0 {
        return Err(Stop::Fatal);
    }
    keep_cover(p, cover())?;
    turn_back(p, deed)
}

/// Does a deed and goes back: whether no level was entered then, and what the parser shows.
fn turned_back(p: &mut Parser<'_>, deed: Deed) -> Outcome
    requires { IsAt p.old }
{
    let outside = matches!(there_and_back(p, deed), Ok(true));
    Outcome::TurnedBack(outside, show(p))
}

/// What a parser shows at the first lexeme when it has only the first shorthand and one or the other note.
fn shown_before(failed: bool, operand_failed: bool) -> Shown {
    Shown {
        start: 1,
        errors: 0,
        visits: 0,
        yields: false,
        failed,
        operand_failed,
        comma: None,
        first: Some(cover()),
        second: None,
    }
}

#[test]
fn deeds(rt: HostRuntime) {
    for (i, &(deed, failed, operand_failed)) in DEEDS.iter().enumerate() {
        let found = outcome_at(rt.alloc(), " a /*1*/ 'b", Trial::Deed(deed));
        let shown = shown_before(failed, operand_failed);
        assert!(rt;
            found == Some(Outcome::TurnedBack(true, shown)),
            "at row {i}"
        );
    }
}

/// What a parser is to do at the first lexeme of a text: a call, a step in the list, to give up at this lexeme or the next,
/// or a deed and the way back.
#[derive(Clone, Copy)]
enum Trial {
    Call(Call),
    Step(Kind, bool),
    GiveUp(bool),
    Deed(Deed),
}

/// What comes of it: the answer, the kind of the current lexeme and the end of the one before; the step and that kind; what
/// is told; whether no level was entered, and what the parser shows.
#[derive(Clone, Copy, PartialEq, Eq)]
enum Outcome {
    Called(Answer, Kind, u32),
    Stepped(Option<ListStep>, Kind),
    GivenUp(Option<Told>),
    TurnedBack(bool, Shown),
}

/// Makes a trial.
fn outcome_of(p: &mut Parser<'_>, trial: Trial) -> Outcome
    requires { IsAt p.old }
{
    match trial {
        Trial::Call(call) => called(p, call),
        Trial::Step(close, first) => stepped(p, close, first),
        Trial::GiveUp(passed) => given_up(p, passed),
        Trial::Deed(deed) => turned_back(p, deed),
    }
}

/// Makes a trial, and lets the parser go.
fn last_outcome(mut p: Parser<'_>, trial: Trial) -> Outcome
    requires { IsAt p }
{
    outcome_of(&mut p, trial)
}

/// What comes of a trial in a text; none where no parser is made.
fn outcome_at(alloc: Global, source: &str, trial: Trial) -> Option<Outcome> {
    match parser_of(alloc, source) {
        None => None,
        Some(p) => Some(last_outcome(p, trial)),
    }
}
