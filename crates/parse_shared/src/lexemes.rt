//! What stands at a parser's place.

ghost use Rattle.std.specs.Prelude.{◌≡◌, MatchResult, not};
ghost use Rattle.parse_shared.specs.Prelude.{await_flag, EndsOperand, escaped_word, has_flag, in_flag, IsCompleted, IsWholeHere, keyword_kind, may_name, Moves, NameHere, NameUnder, one_of_kinds, OnlyMemory, OperatorHere, power_of, ReadsHere, Standing, StandsHere, unread_kinds, yield_flag};

use js_base::{Kind, Token};
use laws_shared::{ParserConfig, ParserImpl, Stop};

/// Moves one lexeme on, which is none of those that can't be passed, and no part of a longer one.
#[inline(always)]
pub fn advance<C: ParserConfig>(p: &mut ParserImpl<'_, C>) -> Result<(), Stop>
    requires at { Standing p.old }
    requires whole { IsWholeHere p.old }
    ensures { MatchResult result (λ _. Moves p.old p.new) OnlyMemory }
{
    p.bump_any()
}

/// The whole of a punctuator that begins with `>` becomes the current token; any other token stays.
#[inline(always)]
fn complete_here<C: ParserConfig>(p: &mut ParserImpl<'_, C>) -> Result<(), Stop>
    requires { Standing p.old }
    ensures { MatchResult result (λ _. IsCompleted p.old p.new) OnlyMemory }
{
    if p.at(Kind::RAngle) {
        return p.re_lex_right_angle();
    }
    Ok(())
}

/// Whether `in` is an operator here.
#[inline(always)]
fn allows_in<C: ParserConfig>(p: &ParserImpl<'_, C>) -> bool
    ensures { result ≡ has_flag in_flag p.now.ctx }
{
    p.ctx.has_in()
}

/// How tight the operator binds that stands here; 0 where none does. A punctuator that begins with `>` is then the
/// whole of it.
#[inline(always)]
pub fn operator_here<C: ParserConfig>(p: &mut ParserImpl<'_, C>) -> Result<u8, Stop>
    requires { Standing p.old }
    ensures { MatchResult result (λ power. OperatorHere p.old p.new power) OnlyMemory }
{
    complete_here(p)?;
    let token = p.cur_token();
    if token.escaped() {
        return Ok(0);
    }
    Ok(binding_power(token.kind(), allows_in(p)))
}

/// Whether this lexeme stands here, without an escape.
#[inline(always)]
pub fn stands<C: ParserConfig>(p: &ParserImpl<'_, C>, kind: Kind) -> bool
    ensures { StandsHere p.now kind result }
{
    p.at(kind) && !p.cur_token().escaped()
}

/// Whether it has an escape, and is no plain name: a word of the keyword table, which is no keyword then (ECMA-262,
/// section 12.7.2).
#[inline(always)]
pub fn is_escaped_word(token: Token) -> bool
    ensures { result ≡ escaped_word token.kind token.escaped }
{
    match token.kind() {
        Kind::Ident => false,
        _ => token.escaped(),
    }
}

/// Which keyword it is: with an escape it is a name and none (ECMA-262, section 12.7.2).
#[inline(always)]
pub fn keyword_of(token: Token) -> Kind
    ensures { result ≡ keyword_kind token }
{
    if token.escaped() {
        return Kind::Ident;
    }
    token.kind()
}

/// Whether such a word stands here.
#[inline(always)]
pub fn escaped_word_stands<C: ParserConfig>(p: &ParserImpl<'_, C>) -> bool
    ensures { result ≡ escaped_word p.now.token.kind p.now.token.escaped }
{
    is_escaped_word(p.cur_token())
}

/// Whether it is a name where the parameters Yield and Await are these: `yield` and `await` are none where theirs is on.
#[inline(always)]
pub fn is_name_under(kind: Kind, yields: bool, awaits: bool) -> bool
    ensures { result ≡ may_name yields awaits kind }
{
    match kind {
        Kind::Yield => !yields,
        Kind::Await => !awaits,
        _ => kind.is_binding_identifier(),
    }
}

/// Whether it is a name under the parameters in force.
#[inline(always)]
pub fn is_name_here<C: ParserConfig>(p: &ParserImpl<'_, C>, kind: Kind) -> bool
    ensures { result ≡ may_name (has_flag yield_flag p.now.ctx) (has_flag await_flag p.now.ctx) kind }
{
    is_name_under(kind, p.ctx.has_yield(), p.ctx.has_await())
}

/// Whether a name stands here, with an escape or without, where the parameters Yield and Await are these.
#[inline(always)]
pub fn name_stands_under<C: ParserConfig>(p: &ParserImpl<'_, C>, yields: bool, awaits: bool) -> bool
    ensures { NameUnder yields awaits p.now result }
{
    is_name_under(p.cur_kind(), yields, awaits)
}

/// Whether a name stands here, with an escape or without.
#[inline(always)]
pub fn name_stands<C: ParserConfig>(p: &ParserImpl<'_, C>) -> bool
    ensures { NameHere p.now result }
{
    name_stands_under(p, p.ctx.has_yield(), p.ctx.has_await())
}

/// Whether what stands here is known to end an operand: an operator that groups to the left, a part of a conditional
/// expression, a comma, a semicolon, `)`, `]`, or the end of the text.
pub fn ends_operand<C: ParserConfig>(p: &mut ParserImpl<'_, C>) -> Result<bool, Stop>
    requires { Standing p.old }
    ensures { MatchResult result (λ b. EndsOperand p.old p.new b) OnlyMemory }
{
    let power = operator_here(p)?;
    match p.cur_kind() {
        Kind::Eof
        | Kind::Question
        | Kind::Colon
        | Kind::Comma
        | Kind::Semicolon
        | Kind::RParen
        | Kind::RBrack => Ok(true),
        _ => Ok(power > 0),
    }
}

/// Whether it is a lexeme that is read: any but a hashbang comment and what is none.
fn is_read_kind(kind: Kind) -> bool
    ensures { result ≡ not (one_of_kinds unread_kinds kind) }
{
    !matches!(kind, Kind::HashbangComment | Kind::Undetermined)
}

/// Whether a lexeme that is read stands here.
pub fn reads_here<C: ParserConfig>(p: &ParserImpl<'_, C>) -> bool
    requires { Standing p.now }
    ensures { ReadsHere p.now result }
{
    is_read_kind(p.cur_kind())
}

// How tight the operators of each level bind (ECMA-262, sections 13.7 to 13.13).

/// `||`.
pub const OR: u8 = 5;

/// `&&`.
pub const AND: u8 = 6;

/// `|`.
pub const BIT_OR: u8 = 7;

/// `^`.
pub const BIT_XOR: u8 = 8;

/// `&`.
pub const BIT_AND: u8 = 9;

/// `==`, `!=`, `===`, `!==`.
pub const EQUALITY: u8 = 10;

/// `<`, `>`, `<=`, `>=`, `instanceof`, `in`.
pub const RELATIONAL: u8 = 11;

/// `<<`, `>>`, `>>>`.
pub const SHIFT: u8 = 12;

/// `+`, `-`.
pub const ADDITIVE: u8 = 13;

/// `*`, `/`, `%`.
pub const MULTIPLICATIVE: u8 = 14;

/// How tight a lexeme binds as an operator between two operands that groups to the left (ECMA-262, sections 13.6 to
/// 13.13), from `OR` to `MULTIPLICATIVE`; 0 for what is none. `in` is one where it is allowed.
pub fn binding_power(kind: Kind, allows_in: bool) -> u8
    ensures { result ≡ power_of allows_in kind }
{
    match kind {
        Kind::Pipe2 => OR,
        Kind::Amp2 => AND,
        Kind::Pipe => BIT_OR,
        Kind::Caret => BIT_XOR,
        Kind::Amp => BIT_AND,
        Kind::Eq2 | Kind::Neq | Kind::Eq3 | Kind::Neq2 => EQUALITY,
        Kind::LAngle | Kind::RAngle | Kind::LtEq | Kind::GtEq | Kind::Instanceof => RELATIONAL,
        Kind::In => { if allows_in { RELATIONAL } else { 0 } }
        Kind::ShiftLeft | Kind::ShiftRight | Kind::ShiftRight3 => SHIFT,
        Kind::Plus | Kind::Minus => ADDITIVE,
        Kind::Star | Kind::Slash | Kind::Percent => MULTIPLICATIVE,
        _ => 0,
    }
}
