//! Which operator a kind of lexeme stands for.

ghost use Rattle.std.specs.Prelude.{◌≡◌, IsSome, Some};
ghost use Rattle.js_base.specs.Operators.{assignment_operators, assignment_text, binary_operators, binary_text, logical_operators, logical_text, row_of, unary_operators, unary_text, update_operators, update_text};
ghost use Rattle.js_base.specs.Texts.{text_of};

use crate::kind::Kind;
use crate::operator::{
    AssignmentOperator, BinaryOperator, LogicalOperator, UnaryOperator, UpdateOperator,
};

/// The binary operator of a kind (ECMA-262, sections 13.6 to 13.12): the one with the same text. The kind has to be one of
/// them, as `Kind::is_binary_operator` tells.
pub fn map_binary_operator(kind: Kind) -> BinaryOperator
    requires { IsSome (row_of binary_operators kind) }
    ensures row { row_of binary_operators kind ≡ Some result }
    ensures text { binary_text result ≡ text_of kind }
{
    match kind {
        Kind::Eq2 => BinaryOperator::Equality,
        Kind::Neq => BinaryOperator::Inequality,
        Kind::Eq3 => BinaryOperator::StrictEquality,
        Kind::Neq2 => BinaryOperator::StrictInequality,
        Kind::LAngle => BinaryOperator::LessThan,
        Kind::LtEq => BinaryOperator::LessEqualThan,
        Kind::RAngle => BinaryOperator::GreaterThan,
        Kind::GtEq => BinaryOperator::GreaterEqualThan,
        Kind::ShiftLeft => BinaryOperator::ShiftLeft,
        Kind::ShiftRight => BinaryOperator::ShiftRight,
        Kind::ShiftRight3 => BinaryOperator::ShiftRightZeroFill,
        Kind::Plus => BinaryOperator::Addition,
        Kind::Minus => BinaryOperator::Subtraction,
        Kind::Star => BinaryOperator::Multiplication,
        Kind::Slash => BinaryOperator::Division,
        Kind::Percent => BinaryOperator::Remainder,
        Kind::Pipe => BinaryOperator::BitwiseOR,
        Kind::Caret => BinaryOperator::BitwiseXOR,
        Kind::Amp => BinaryOperator::BitwiseAnd,
        Kind::In => BinaryOperator::In,
        Kind::Instanceof => BinaryOperator::Instanceof,
        Kind::Star2 => BinaryOperator::Exponential,
        _ => unreachable!(),
    }
}

/// The unary operator of a kind (ECMA-262, section 13.5): the one with the same text. The kind has to be one of
/// them, as `Kind::is_unary_operator` tells.
pub fn map_unary_operator(kind: Kind) -> UnaryOperator
    requires { IsSome (row_of unary_operators kind) }
    ensures row { row_of unary_operators kind ≡ Some result }
    ensures text { unary_text result ≡ text_of kind }
{
    match kind {
        Kind::Minus => UnaryOperator::UnaryNegation,
        Kind::Plus => UnaryOperator::UnaryPlus,
        Kind::Bang => UnaryOperator::LogicalNot,
        Kind::Tilde => UnaryOperator::BitwiseNot,
        Kind::Typeof => UnaryOperator::Typeof,
        Kind::Void => UnaryOperator::Void,
        Kind::Delete => UnaryOperator::Delete,
        _ => unreachable!(),
    }
}

/// The logical operator of a kind (ECMA-262, section 13.13): the one with the same text. The kind has to be one of
/// them, as `Kind::is_logical_operator` tells.
pub fn map_logical_operator(kind: Kind) -> LogicalOperator
    requires { IsSome (row_of logical_operators kind) }
    ensures row { row_of logical_operators kind ≡ Some result }
    ensures text { logical_text result ≡ text_of kind }
{
    match kind {
        Kind::Pipe2 => LogicalOperator::Or,
        Kind::Amp2 => LogicalOperator::And,
        Kind::Question2 => LogicalOperator::Coalesce,
        _ => unreachable!(),
    }
}

/// The update operator of a kind (ECMA-262, section 13.4): the one with the same text. The kind has to be one of
/// them, as `Kind::is_update_operator` tells.
pub fn map_update_operator(kind: Kind) -> UpdateOperator
    requires { IsSome (row_of update_operators kind) }
    ensures row { row_of update_operators kind ≡ Some result }
    ensures text { update_text result ≡ text_of kind }
{
    match kind {
        Kind::Plus2 => UpdateOperator::Increment,
        Kind::Minus2 => UpdateOperator::Decrement,
        _ => unreachable!(),
    }
}

/// The assignment operator of a kind (ECMA-262, section 13.15): the one with the same text. The kind has to be one of
/// them, as `Kind::is_assignment_operator` tells.
pub fn map_assignment_operator(kind: Kind) -> AssignmentOperator
    requires { IsSome (row_of assignment_operators kind) }
    ensures row { row_of assignment_operators kind ≡ Some result }
    ensures text { assignment_text result ≡ text_of kind }
{
    match kind {
        Kind::Eq => AssignmentOperator::Assign,
        Kind::PlusEq => AssignmentOperator::Addition,
        Kind::MinusEq => AssignmentOperator::Subtraction,
        Kind::StarEq => AssignmentOperator::Multiplication,
        Kind::SlashEq => AssignmentOperator::Division,
        Kind::PercentEq => AssignmentOperator::Remainder,
        Kind::ShiftLeftEq => AssignmentOperator::ShiftLeft,
        Kind::ShiftRightEq => AssignmentOperator::ShiftRight,
        Kind::ShiftRight3Eq => AssignmentOperator::ShiftRightZeroFill,
        Kind::PipeEq => AssignmentOperator::BitwiseOR,
        Kind::CaretEq => AssignmentOperator::BitwiseXOR,
        Kind::AmpEq => AssignmentOperator::BitwiseAnd,
        Kind::Amp2Eq => AssignmentOperator::LogicalAnd,
        Kind::Pipe2Eq => AssignmentOperator::LogicalOr,
        Kind::Question2Eq => AssignmentOperator::LogicalNullish,
        Kind::Star2Eq => AssignmentOperator::Exponential,
        _ => unreachable!(),
    }
}
