//! The one function that recurses, and the calls for others.

ghost use Rattle.std.specs.Prelude.{◌≡◌, true, not, MatchResult};
ghost use Rattle.js_core.specs.Prelude.{AllRefused, AllTaken, Answers, Assignment, at, Binding, Body, CanNest, ClassBody, Exponent, Expression, has_flag, ImportDecl, in_flag, is_single, LeftHandSide, NamesProperty, parameters_of, Params, placed, AnswersFor, ReadsWhole, Ready, room, Standing, TakesStatement, Text, TriesArrow};
ghost use Rattle.js_core.specs.Calls.{above};

use crate::by::By;
use js_base::{Kind, Precedence, StatementContext};
use parse_classes::sequences::Sequences;
use parse_classes::{
    PropertyName, StatementList, block, class_body, left_hand_side, property_name, statement,
    statement_list,
};
use parse_modules::import_declaration;
use parse_operators::arrow;
use parse_operators::assignment::parse_assignment_expression;
use parse_operators::operators::{self, parse_exponentiation_expression, parse_operators};
use parse_operators::sequence::parse_sequence_expression;
use parse_operators::unary::parse_unary_expression_or_higher;
use parse_patterns::method_parameters::parse_method_parameters;
use parse_patterns::{binding, parameters};
use parse_shared::lexemes::{
    ADDITIVE, AND, BIT_AND, BIT_OR, BIT_XOR, EQUALITY, MULTIPLICATIVE, OR, RELATIONAL, SHIFT,
};
use parse_shared::nested::{MethodForm, Nested, Nonterminal};
use parse_shared::{NodeId, ParserConfig, ParserImpl, RuntimeParserConfig, Stop};

/// A parser that is told when the program runs whether it keeps the tokens.
pub type RuntimeParser<'a> = ParserImpl<'a, RuntimeParserConfig>;

/// Reads what is asked for, where productions nest by `nested`.
pub fn parse_nonterminal<C: ParserConfig, N: Sequences<C>>(
    p: &mut ParserImpl<'_, C>,
    nested: &N,
    what: Nonterminal,
) -> Result<NodeId, Stop>
    requires at { Ready what p.old }
    requires nests { CanNest (N.can nested.now) (room p.old) }
    ensures { AnswersFor what p.old p.new result }
{
    match what {
        Nonterminal::Expression => parse_sequence_expression(p, nested),
        Nonterminal::Assignment | Nonterminal::Element => parse_assignment_expression(p, nested),
        Nonterminal::Unary => parse_unary_expression_or_higher(p, nested),
        Nonterminal::LeftHandSide => parse_left_hand_side(p, nested),
        Nonterminal::Exponentiation => parse_exponentiation(p, nested),
        Nonterminal::Binding => binding::parse_binding_pattern(p, nested),
        Nonterminal::Statement => statement::parse_statement(p, nested),
        Nonterminal::ListItem => statement::parse_statement_list_item(p, nested),
        Nonterminal::Body => parse_body(p, nested),
        Nonterminal::ClassBody => parse_class_body(p, nested),
        Nonterminal::Params => parse_parameters(p, nested),
        Nonterminal::MethodParameters(form) => parse_parameters_of_method(p, nested, form),
    }
}

/// An ExponentiationExpression (ECMA-262, section 13.6), in a frame of its own, so that the function that recurses has a small one.
#[inline(never)]
fn parse_exponentiation<C: ParserConfig, N: Nested<C>>(
    p: &mut ParserImpl<'_, C>,
    nested: &N,
) -> Result<NodeId, Stop>
    requires at { Standing p.old }
    requires nests { CanNest (N.can nested.now) (room p.old) }
    ensures { Answers (at Exponent) p.old p.new result }
{
    parse_exponentiation_expression(p, nested)
}

/// A LeftHandSideExpression (ECMA-262, section 13.3), in a frame of its own too.
#[inline(never)]
fn parse_left_hand_side<C: ParserConfig, N: Nested<C>>(
    p: &mut ParserImpl<'_, C>,
    nested: &N,
) -> Result<NodeId, Stop>
    requires at { Standing p.old }
    requires nests { CanNest (N.can nested.now) (room p.old) }
    ensures { Answers (at LeftHandSide) p.old p.new result }
{
    left_hand_side::parse_lhs_expression_or_higher(p, nested)
}

/// A ClassBody in its braces (ECMA-262, section 15.7), in a frame of its own too.
#[inline(never)]
fn parse_class_body<C: ParserConfig, N: Sequences<C>>(
    p: &mut ParserImpl<'_, C>,
    nested: &N,
) -> Result<NodeId, Stop>
    requires at { Standing p.old }
    requires nests { CanNest (N.can nested.now) (room p.old) }
    ensures { Answers (at ClassBody) p.old p.new result }
{
    class_body::parse_class_body(p, nested)
}

/// A FunctionBody in its braces (ECMA-262, section 15.2), in a frame of its own too.
#[inline(never)]
fn parse_body<C: ParserConfig, N: Sequences<C>>(
    p: &mut ParserImpl<'_, C>,
    nested: &N,
) -> Result<NodeId, Stop>
    requires at { Standing p.old }
    requires nests { CanNest (N.can nested.now) (room p.old) }
    requires allows_in { has_flag in_flag p.old.ctx ≡ true }
    ensures { Answers (at Body) p.old p.new result }
{
    block::parse_function_body(p, nested)
}

/// The parameters of a method (ECMA-262, section 15.4), in a frame of their own too.
#[inline(never)]
fn parse_parameters_of_method<C: ParserConfig, N: Nested<C>>(
    p: &mut ParserImpl<'_, C>,
    nested: &N,
    form: MethodForm,
) -> Result<NodeId, Stop>
    requires at { Standing p.old }
    requires nests { CanNest (N.can nested.now) (room p.old) }
    ensures { ReadsWhole (parameters_of form) p.old p.new result }
{
    parse_method_parameters(p, nested, form)
}

/// FormalParameters in their parentheses (ECMA-262, section 15.1), in a frame of their own too.
#[inline(never)]
fn parse_parameters<C: ParserConfig, N: Nested<C>>(
    p: &mut ParserImpl<'_, C>,
    nested: &N,
) -> Result<NodeId, Stop>
    requires at { Standing p.old }
    requires nests { CanNest (N.can nested.now) (room p.old) }
    ensures { Answers (at Params) p.old p.new result }
{
    if !p.at(Kind::LParen) {
        return Err(p.set_unexpected());
    }
    parameters::parse_formal_parameters(p, nested)
}

/// Reads what is asked for, as many levels deeper as that takes.
fn parse(p: &mut RuntimeParser<'_>, what: Nonterminal) -> Result<NodeId, Stop>
    requires { Ready what p.old }
    ensures { AnswersFor what p.old p.new result }
{
    let levels = what.levels();
    p.enter(levels)?;
    let node = parse_nonterminal(p, &By(parse), what)?;
    p.leave(levels);
    Ok(node)
}

/// An AssignmentExpression (ECMA-262, section 13.15).
pub fn parse_assignment_expression_or_higher(p: &mut RuntimeParser<'_>) -> Result<NodeId, Stop>
    requires { Standing p.old }
    ensures { Answers (at Assignment) p.old p.new result }
{
    parse(p, Nonterminal::Assignment)
}

/// An Expression (ECMA-262, section 13.16).
pub fn parse_expr(p: &mut RuntimeParser<'_>) -> Result<NodeId, Stop>
    requires { Standing p.old }
    ensures { Answers (at Expression) p.old p.new result }
{
    parse(p, Nonterminal::Expression)
}

/// A LeftHandSideExpression (ECMA-262, section 13.3).
pub fn parse_lhs_expression_or_higher(p: &mut RuntimeParser<'_>) -> Result<NodeId, Stop>
    requires { Standing p.old }
    ensures { Answers (at LeftHandSide) p.old p.new result }
{
    left_hand_side::parse_lhs_expression_or_higher(p, &By(parse))
}

/// A BindingIdentifier or a BindingPattern (ECMA-262, section 14.3.3).
pub fn parse_binding_pattern(p: &mut RuntimeParser<'_>) -> Result<NodeId, Stop>
    requires { Standing p.old }
    ensures { Answers (at Binding) p.old p.new result }
{
    parse(p, Nonterminal::Binding)
}

/// An arrow function whose parameters stand in parentheses, behind `async` on their line or not (ECMA-262, sections 15.3
/// and 15.9). None where no such parameters stand here with `=>` behind them, on their line or on another; the parser is
/// then where it was. `Fatal` where no AssignmentExpression stands here.
pub fn try_parse_parenthesized_arrow_function_expression(
    p: &mut RuntimeParser<'_>,
) -> Result<Option<NodeId>, Stop>
    requires { Standing p.old }
    ensures { TriesArrow p.old p.new result }
{
    arrow::try_parse_parenthesized_arrow_function_expression(p, &By(parse))
}

/// FormalParameters in their parentheses (ECMA-262, section 15.1).
pub fn parse_formal_parameters(p: &mut RuntimeParser<'_>) -> Result<NodeId, Stop>
    requires { Standing p.old }
    ensures { Answers (at Params) p.old p.new result }
{
    parse_parameters(p, &By(parse))
}

/// The directives and the statements of a text, up to its end (ECMA-262, sections 16.1 and 16.2).
pub fn parse_directives_and_statements(
    p: &mut RuntimeParser<'_>,
) -> Result<Vec<Option<NodeId>>, Stop>
    requires at { Standing p.old }
    requires allows_in { has_flag in_flag p.old.ctx ≡ true }
    ensures { MatchResult result (λ v. AllTaken Text p.old p.new v.items) (λ e. AllRefused Text p.old p.new e) }
{
    statement_list::parse_directives_and_statements(p, &By(parse), StatementList::Text)
}

/// Operands, and operators between them that bind tighter than those of `least`; for `Comma` a ShortCircuitExpression
/// (ECMA-262, sections 13.6 to 13.13).
pub fn parse_binary_expression_or_higher(
    p: &mut RuntimeParser<'_>,
    least: Precedence,
) -> Result<NodeId, Stop>
    requires { Standing p.old }
    ensures { Answers (above least) p.old p.new result }
{
    match least {
        Precedence::Comma => operators::parse_binary_expression_or_higher(p, &By(parse)),
        Precedence::NullishCoalescing => parse_operators(p, &By(parse), OR),
        Precedence::LogicalOr => parse_operators(p, &By(parse), AND),
        Precedence::LogicalAnd => parse_operators(p, &By(parse), BIT_OR),
        Precedence::BitwiseOr => parse_operators(p, &By(parse), BIT_XOR),
        Precedence::BitwiseXor => parse_operators(p, &By(parse), BIT_AND),
        Precedence::BitwiseAnd => parse_operators(p, &By(parse), EQUALITY),
        Precedence::Equals => parse_operators(p, &By(parse), RELATIONAL),
        Precedence::Compare => parse_operators(p, &By(parse), SHIFT),
        Precedence::Shift => parse_operators(p, &By(parse), ADDITIVE),
        Precedence::Add => parse_operators(p, &By(parse), MULTIPLICATIVE),
        Precedence::Multiply | Precedence::Exponentiation => {
            parse_exponentiation_expression(p, &By(parse))
        }
    }
}

/// A PropertyName (ECMA-262, section 13.2.5).
pub fn parse_property_name(p: &mut RuntimeParser<'_>) -> Result<PropertyName, Stop>
    requires { Standing p.old }
    ensures { NamesProperty p.old p.new result }
{
    property_name::parse_property_name(p, &By(parse))
}

/// An ImportDeclaration (ECMA-262, section 16.2.2), in a text of any kind.
pub fn parse_import_declaration(p: &mut RuntimeParser<'_>) -> Result<NodeId, Stop>
    requires { Standing p.old }
    ensures { Answers (at ImportDecl) p.old p.new result }
{
    import_declaration::parse_import_declaration(p)
}

/// A FunctionBody in its braces (ECMA-262, section 15.2).
pub fn parse_function_body(p: &mut RuntimeParser<'_>) -> Result<NodeId, Stop>
    requires at { Standing p.old }
    requires allows_in { has_flag in_flag p.old.ctx ≡ true }
    ensures { Answers (at Body) p.old p.new result }
{
    parse(p, Nonterminal::Body)
}

/// What stands where a statement may, by its place (ECMA-262, chapter 14): a StatementListItem in a list, or a Statement
/// that is the body of another one.
pub fn parse_statement_list_item(
    p: &mut RuntimeParser<'_>,
    context: StatementContext,
) -> Result<NodeId, Stop>
    requires at { Standing p.old }
    requires allows_in { has_flag in_flag p.old.ctx ≡ true }
    ensures { TakesStatement (placed (not (is_single context))) p.old p.new result }
{
    if context.is_single_statement() {
        return parse(p, Nonterminal::Statement);
    }
    parse(p, Nonterminal::ListItem)
}
