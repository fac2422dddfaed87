//! Operands of one lexeme, and the end of parentheses (ECMA-262, sections 12.7, 12.9 and 13.2).

ghost use Rattle.std.specs.Prelude.{◌≡◌, true, false, MatchResult};
ghost use Rattle.parse_primary.specs.Prelude.{Answers, at, identifier_name_kinds, IdentifierName, is_name_node, is_textual, IsWholeHere, node_of_number, one_of_kinds, OnlyMemory, op_of_number, Opened, Passes, PrivateIdentifier, RParen, Standing, Str, TakesLeaf};
ghost use Rattle.laws_primary.specs.js_tree.declared.kind.NodeKind.TheVariants as node;
ghost use Rattle.laws_primary.specs.js_tree.declared.op.Op.TheVariants as op;

use js_base::{Kind, Span};
use parse_shared::lexemes::advance;
use parse_shared::nodes::{make_leaf, make_name, make_private_name, make_string};
use parse_shared::{BigintBase, NodeId, NodeKind, NumberBase, Op, ParserConfig, ParserImpl, Stop};

/// An IdentifierName: a name or a word, with escapes or without (ECMA-262, section 12.7).
/// Reads: IdentifierName.
pub fn parse_identifier_name<C: ParserConfig>(p: &mut ParserImpl<'_, C>) -> Result<NodeId, Stop>
    requires { Standing p.old }
    ensures { Answers (at IdentifierName) p.old p.new result }
{
    if !p.cur_kind().is_identifier_name() {
        return Err(p.set_unexpected());
    }
    parse_name(p, NodeKind::IdentifierName)
}

/// The PrivateIdentifier that stands here: `#` and a name, with escapes or without (ECMA-262, section 12.7).
/// Reads: PrivateName.
pub fn parse_private_name<C: ParserConfig>(p: &mut ParserImpl<'_, C>) -> Result<NodeId, Stop>
    requires at { Standing p.old }
    requires private { p.old.token.kind ≡ PrivateIdentifier }
    ensures { MatchResult result (λ id. TakesLeaf node.PrivateIdentifier op.None p.old p.new id) OnlyMemory }
{
    let token = p.cur_token();
    advance(p)?;
    let node = make_private_name(p, token)?;
    Ok(node)
}

/// A node of one lexeme, which is no name and no string.
pub fn parse_leaf<C: ParserConfig>(
    p: &mut ParserImpl<'_, C>,
    kind: NodeKind,
    op: Op,
) -> Result<NodeId, Stop>
    requires at { Standing p.old }
    requires whole { IsWholeHere p.old }
    requires kind { is_textual kind ≡ false }
    ensures { MatchResult result (λ id. TakesLeaf kind op p.old p.new id) OnlyMemory }
{
    let span = p.cur_token().span();
    advance(p)?;
    let node = make_leaf(p, kind, op, span)?;
    Ok(node)
}

/// The node of the name, or the word, that stands here (ECMA-262, section 12.7).
pub fn parse_name<C: ParserConfig>(
    p: &mut ParserImpl<'_, C>,
    kind: NodeKind,
) -> Result<NodeId, Stop>
    requires at { Standing p.old }
    requires whole { IsWholeHere p.old }
    requires kind { is_name_node kind ≡ true }
    requires word { one_of_kinds identifier_name_kinds p.old.token.kind ≡ true }
    ensures { MatchResult result (λ id. TakesLeaf kind op.None p.old p.new id) OnlyMemory }
{
    let token = p.cur_token();
    advance(p)?;
    let node = make_name(p, kind, token)?;
    Ok(node)
}

/// The node of the string that stands here (ECMA-262, section 12.9.4).
pub fn parse_string<C: ParserConfig>(p: &mut ParserImpl<'_, C>) -> Result<NodeId, Stop>
    requires at { Standing p.old }
    requires string { p.old.token.kind ≡ Str }
    ensures { MatchResult result (λ id. TakesLeaf node.StringLiteral op.None p.old p.new id) OnlyMemory }
{
    let span = p.cur_token().span();
    advance(p)?;
    let node = make_string(p, span)?;
    Ok(node)
}

/// The kind of the node of a number.
pub fn number_node(kind: Kind) -> NodeKind
    ensures node { result ≡ node_of_number kind }
    ensures plain { is_textual result ≡ false }
{
    match kind {
        Kind::DecimalBigInt | Kind::BinaryBigInt | Kind::OctalBigInt | Kind::HexBigInt => {
            NodeKind::BigIntLiteral
        }
        _ => NodeKind::NumericLiteral,
    }
}

/// How a number is written.
pub fn number_op(kind: Kind) -> Op
    ensures { result ≡ op_of_number kind }
{
    match kind {
        Kind::Float => Op::Number(NumberBase::Float),
        Kind::Binary => Op::Number(NumberBase::Binary),
        Kind::Octal => Op::Number(NumberBase::Octal),
        Kind::Hex => Op::Number(NumberBase::Hex),
        Kind::PositiveExponential | Kind::NegativeExponential => Op::Number(
            NumberBase::Exponential,
        ),
        Kind::DecimalBigInt => Op::Bigint(BigintBase::Decimal),
        Kind::BinaryBigInt => Op::Bigint(BigintBase::Binary),
        Kind::OctalBigInt => Op::Bigint(BigintBase::Octal),
        Kind::HexBigInt => Op::Bigint(BigintBase::Hex),
        _ => Op::Number(NumberBase::Decimal),
    }
}

/// Moves on over the closing parenthesis, whose opening one stood at a span.
pub fn close_parentheses<C: ParserConfig>(
    p: &mut ParserImpl<'_, C>,
    opening: Span,
) -> Result<(), Stop>
    requires at { Standing p.old }
    requires opened { Opened p.old opening }
    ensures { Passes RParen p.old p.new result }
{
    p.expect_closing(Kind::RParen, opening)
}
