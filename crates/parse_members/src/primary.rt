//! Names, literals and parentheses (ECMA-262, section 13.2).

ghost use Rattle.std.specs.Prelude.{◌≡◌, true, false, ◌<◌, length};
ghost use Rattle.parse_members.specs.Prelude.{Answers, at, CanNest, EndsParse, GivesUp, kind_of, LParen, Marks, MarksNode, NameHere, number_kinds, one_of_kinds, Percent, Primary, ReadsParentheses, room, slashes, Standing, Str};
ghost use Rattle.parse_shared.specs.js_tree.declared.kind.NodeKind.TheVariants as node;
ghost use Rattle.parse_primary.specs.laws_primary.Marked as marked;

use crate::decorated::parse_class;
use crate::left_hand_side::parse_with_arguments;
use js_base::{DiagnosticKind, Kind};
use parse_primary::array::parse_array_expression;
use parse_primary::forms::ClassForm;
use parse_primary::function::{function_stands, parse_function_expression};
use parse_primary::leaf::{
    close_parentheses, number_node, number_op, parse_identifier_name, parse_leaf, parse_name,
    parse_string,
};
use parse_primary::object::parse_object_expression;
use parse_primary::template::parse_template;
use parse_shared::context::expression_with_in;
use parse_shared::lexemes::{advance, escaped_word_stands, name_stands, stands};
use parse_shared::nested::Nested;
use parse_shared::nodes::{make_leaf, make_one};
use parse_shared::refusals::{refuse_any, refuse_here};
use parse_shared::{
    NodeFlags, NodeId, NodeKind, Op, ParserAstBuilder, ParserConfig, ParserImpl, Stop,
};

/// A PrimaryExpression (ECMA-262, section 13.2): a name, a literal, a regular expression, an array, an object literal, a function, a
/// class, parentheses or a call of V8.
/// Reads: Primary.
pub fn parse_primary_expression<C: ParserConfig, N: Nested<C>>(
    p: &mut ParserImpl<'_, C>,
    nested: &N,
) -> Result<NodeId, Stop>
    requires at { Standing p.old }
    requires nests { CanNest (N.can nested.now) (room p.old) }
    ensures { Answers (at Primary) p.old p.new result }
{
    if name_stands(p) {
        return parse_name_or_function(p, nested);
    }
    if escaped_word_stands(p) {
        return Err(p.set_unexpected());
    }
    if p.cur_kind().is_number() {
        return parse_number(p);
    }
    match p.cur_kind() {
        Kind::This => parse_leaf(p, NodeKind::ThisExpression, Op::None),
        Kind::Null => parse_leaf(p, NodeKind::NullLiteral, Op::None),
        Kind::True | Kind::False => parse_leaf(p, NodeKind::BooleanLiteral, Op::None),
        Kind::Str => parse_string(p),
        Kind::Slash | Kind::SlashEq => parse_literal_regexp(p),
        Kind::NoSubstitutionTemplate | Kind::TemplateHead => parse_template(p, nested),
        Kind::LParen => parse_parenthesized_expression(p, nested),
        Kind::LBrack => parse_array_expression(p, nested),
        Kind::Function => parse_function_expression(p, nested),
        Kind::Class | Kind::At => parse_class(p, nested, ClassForm::Expression),
        Kind::LCurly => parse_object_expression(p, nested),
        Kind::Percent => parse_v8_intrinsic_expression(p, nested),
        _ => Err(refuse_operand(p)),
    }
}

/// Gives up where an operand is due and none stands. A `<` begins an element of JSX.
#[inline(never)]
fn refuse_operand<C: ParserConfig>(p: &mut ParserImpl<'_, C>) -> Stop
    requires { Standing p.old }
    ensures { GivesUp EndsParse p.old p.new result }
{
    if p.at(Kind::LAngle) {
        return refuse_here(p, DiagnosticKind::JsxInNonJsx);
    }
    refuse_any(p)
}

/// A name; where it is `async` with `function` behind it on its line, an asynchronous function (ECMA-262, sections 15.6
/// and 15.8).
/// Reads: IdentifierReference.
fn parse_name_or_function<C: ParserConfig, N: Nested<C>>(
    p: &mut ParserImpl<'_, C>,
    nested: &N,
) -> Result<NodeId, Stop>
    requires at { Standing p.old }
    requires nests { CanNest (N.can nested.now) (room p.old) }
    requires name { NameHere p.old true }
    ensures { Answers (at Primary) p.old p.new result }
{
    if function_stands(p)? {
        return parse_function_expression(p, nested);
    }
    parse_name(p, NodeKind::IdentifierReference)
}

/// A NumericLiteral (ECMA-262, section 12.9.3), or one of a BigInt, which has a node of its own.
#[inline(never)]
fn parse_number<C: ParserConfig>(p: &mut ParserImpl<'_, C>) -> Result<NodeId, Stop>
    requires at { Standing p.old }
    requires number { one_of_kinds number_kinds p.old.token.kind ≡ true }
    requires plain { p.old.token.escaped ≡ false }
    ensures { Answers (at Primary) p.old p.new result }
{
    let kind = p.cur_kind();
    parse_leaf(p, number_node(kind), number_op(kind))
}

/// An Expression in parentheses (ECMA-262, section 13.2.9).
pub(crate) fn parse_parenthesized_expression<C: ParserConfig, N: Nested<C>>(
    p: &mut ParserImpl<'_, C>,
    nested: &N,
) -> Result<NodeId, Stop>
    requires at { Standing p.old }
    requires nests { CanNest (N.can nested.now) (room p.old) }
    requires kind { p.old.token.kind ≡ LParen }
    ensures { ReadsParentheses p.old p.new result }
{
    let opening = p.cur_token().span();
    advance(p)?;
    let expression = expression_with_in(p, nested)?;
    close_parentheses(p, opening)?;
    mark_in_parentheses(p, expression);
    let span = p.end_span(opening.start);
    let kind = NodeKind::ParenthesizedExpression;
    let node = make_one(p, kind, Op::None, span, expression)?;
    Ok(node)
}

/// Whether it is a function expression or an arrow function.
fn is_function(kind: NodeKind) -> bool
    ensures { result ≡ marked.is_function (kind_of kind) }
{
    match kind {
        NodeKind::FunctionExpression | NodeKind::ArrowFunctionExpression => true,
        _ => false,
    }
}

/// Marks the node of a function.
fn mark_function(ast: &mut ParserAstBuilder, id: NodeId)
    requires { id.0 < length ast.old }
    ensures { MarksNode id ast.old ast.new }
{
    if !is_function(ast.kind(id)) {
        return;
    }
    let flags = NodeFlags {
        pife: true,
        ..ast.flags(id)
    };
    ast.set_flags(id, flags);
}

/// Marks a function that stands directly in parentheses: it is probably called at once.
fn mark_in_parentheses<C: ParserConfig>(p: &mut ParserImpl<'_, C>, expression: NodeId)
    requires { expression.0 < length p.old.nodes }
    ensures { Marks expression p.old p.new }
{
    mark_function(&mut p.ast, expression);
}

/// A RegularExpressionLiteral (ECMA-262, sections 13.2.7.3, 12.9.5): at an operand's place a slash, or `/=`, begins
/// nothing else, so it is read again.
#[inline(never)]
fn parse_literal_regexp<C: ParserConfig>(p: &mut ParserImpl<'_, C>) -> Result<NodeId, Stop>
    requires at { Standing p.old }
    requires sign { one_of_kinds slashes p.old.token.kind ≡ true }
    ensures { Answers (at Primary) p.old p.new result }
{
    p.re_lex_regex()?;
    if p.at(Kind::Undetermined) {
        return Err(p.set_unexpected());
    }
    let span = p.cur_token().span();
    p.bump_any()?;
    let node = make_leaf(p, NodeKind::RegExpLiteral, Op::None, span)?;
    Ok(node)
}

/// Whether calls of V8 are read.
fn allows_v8<C: ParserConfig>(p: &ParserImpl<'_, C>) -> bool
    ensures { result ≡ p.now.options.allow_v8_intrinsics }
{
    p.options.allow_v8_intrinsics
}

/// A call of V8, `%name(..)`, where the options allow it.
#[inline(never)]
fn parse_v8_intrinsic_expression<C: ParserConfig, N: Nested<C>>(
    p: &mut ParserImpl<'_, C>,
    nested: &N,
) -> Result<NodeId, Stop>
    requires at { Standing p.old }
    requires nests { CanNest (N.can nested.now) (room p.old) }
    requires kind { p.old.token.kind ≡ Percent }
    ensures { Answers (at Primary) p.old p.new result }
{
    if !allows_v8(p) {
        return Err(p.set_unexpected());
    }
    let start = p.cur_start();
    advance(p)?;
    let name = parse_identifier_name(p)?;
    if !stands(p, Kind::LParen) {
        return Err(p.set_unexpected());
    }
    let kind = NodeKind::V8IntrinsicExpression;
    parse_with_arguments(p, nested, start, kind, false, name)
}
