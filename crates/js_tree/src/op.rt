//! What tells nodes of one kind apart: operators, words and bases.

use js_base::{AssignmentOperator, BinaryOperator, LogicalOperator, UnaryOperator, UpdateOperator};

/// The operator of a node, its word, or how its number is written.
#[derive(Debug, Clone, Copy, PartialEq, Eq)]
pub enum Op {
    /// The kind tells all.
    None,
    /// A binary operator (ECMA-262, sections 13.6 to 13.12).
    Binary(BinaryOperator),
    /// `||`, `&&` or `??` (13.13).
    Logical(LogicalOperator),
    /// A unary operator (13.5).
    Unary(UnaryOperator),
    /// `++` or `--` (13.4).
    Update(UpdateOperator),
    /// An assignment operator (13.15).
    Assignment(AssignmentOperator),
    /// The word of a declaration (14.3).
    Declaration(DeclarationKind),
    /// What a property of an object literal is (13.2.5).
    Property(PropertyKind),
    /// What a method of a class is (15.7).
    Method(MethodKind),
    /// How a number is written (12.9.3).
    Number(NumberBase),
    /// How a big integer is written (12.9.3).
    Bigint(BigintBase),
    /// The word before attributes (16.2.2).
    Clause(ClauseWord),
}

/// The word of a declaration of variables (ECMA-262, section 14.3).
#[derive(Debug, Clone, Copy, PartialEq, Eq)]
pub enum DeclarationKind {
    /// `var`
    Var,
    /// `let`
    Let,
    /// `const`
    Const,
}

/// What a property of an object literal is (ECMA-262, section 13.2.5).
#[derive(Debug, Clone, Copy, PartialEq, Eq)]
pub enum PropertyKind {
    /// A key and its value, or a method.
    Init,
    /// A getter.
    Get,
    /// A setter.
    Set,
}

/// What a method of a class is (ECMA-262, sections 15.4 and 15.7).
#[derive(Debug, Clone, Copy, PartialEq, Eq)]
pub enum MethodKind {
    /// The constructor.
    Constructor,
    /// Any other method.
    Method,
    /// A getter.
    Get,
    /// A setter.
    Set,
}

/// How a number is written (ECMA-262, section 12.9.3).
#[derive(Debug, Clone, Copy, PartialEq, Eq)]
pub enum NumberBase {
    /// In decimal.
    Decimal,
    /// In decimal with a dot.
    Float,
    /// With `0b`.
    Binary,
    /// With `0o`, or with a `0` before octal digits.
    Octal,
    /// With `0x`.
    Hex,
    /// In decimal with an exponent.
    Exponential,
}

/// How a big integer is written (ECMA-262, section 12.9.3).
#[derive(Debug, Clone, Copy, PartialEq, Eq)]
pub enum BigintBase {
    /// In decimal.
    Decimal,
    /// With `0b`.
    Binary,
    /// With `0o`.
    Octal,
    /// With `0x`.
    Hex,
}

/// The word before the attributes of an import or export (ECMA-262, section 16.2.2).
#[derive(Debug, Clone, Copy, PartialEq, Eq)]
pub enum ClauseWord {
    /// `with`
    With,
    /// `assert`
    Assert,
}
