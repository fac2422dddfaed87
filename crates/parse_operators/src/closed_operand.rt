//! Operands of one lexeme with a closing sign behind them (ECMA-262, section 13.15).

ghost use Rattle.std.specs.Prelude.{◌≡◌, MatchResult};
ghost use Rattle.parse_operators.specs.Prelude.{ClosesAt, closing_bytes, one_of, OnlyMemory, Standing, TakesClosed, TakesLexeme};

use js_base::Kind;
use parse_primary::leaf::{parse_leaf, parse_name, parse_string};
use parse_shared::{NodeId, NodeKind, NumberBase, Op, ParserConfig, ParserImpl, Stop};

/// A name, a string or a decimal number with `,`, `;`, `)` or `]` directly behind it, which then is all of an
/// AssignmentExpression: no production goes on with these signs, and each of them is a lexeme by itself (section 12.8). None
/// where no such operand stands here, and nothing is read then.
#[inline(always)]
pub(crate) fn parse_closed_operand<C: ParserConfig>(
    p: &mut ParserImpl<'_, C>,
) -> Result<Option<NodeId>, Stop>
    requires { Standing p.old }
    ensures { MatchResult result (λ found. TakesClosed p.old p.new found) OnlyMemory }
{
    if !is_closed(p) {
        return Ok(None);
    }
    parse_lexeme(p)
}

/// Whether a closing sign stands directly behind the current lexeme.
#[inline(always)]
fn is_closed<C: ParserConfig>(p: &ParserImpl<'_, C>) -> bool
    ensures { ClosesAt p.now.text p.now.token.span.end result }
{
    closes_at(p.source_text, p.cur_token().end())
}

/// Whether the byte of such a sign stands at a place.
#[inline(always)]
fn closes_at(text: &str, place: u32) -> bool
    ensures { ClosesAt text.now place result }
{
    let bytes = text.as_bytes();
    let place = place as usize;
    if place >= bytes.len() {
        return false;
    }
    is_closing_byte(bytes[place])
}

/// Whether it is `,`, `)`, `;` or `]`.
#[inline(always)]
fn is_closing_byte(byte: u8) -> bool
    ensures { result ≡ one_of closing_bytes byte }
{
    matches!(byte, b',' | b')' | b';' | b']')
}

/// The node of a name, a string or a decimal number, where one stands here.
///
/// It has a frame of its own: that of the function that recurses stays small.
#[inline(never)]
fn parse_lexeme<C: ParserConfig>(p: &mut ParserImpl<'_, C>) -> Result<Option<NodeId>, Stop>
    requires { Standing p.old }
    ensures { MatchResult result (λ found. TakesLexeme p.old p.new found) OnlyMemory }
{
    match p.cur_kind() {
        Kind::Ident => {
            let name = parse_name(p, NodeKind::IdentifierReference)?;
            Ok(Some(name))
        }
        Kind::Str => {
            let string = parse_string(p)?;
            Ok(Some(string))
        }
        Kind::Decimal => {
            let op = Op::Number(NumberBase::Decimal);
            let number = parse_leaf(p, NodeKind::NumericLiteral, op)?;
            Ok(Some(number))
        }
        _ => Ok(None),
    }
}
