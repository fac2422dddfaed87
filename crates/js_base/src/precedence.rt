//! How tightly operators bind (ECMA-262, sections 13.6 to 13.16).

ghost use Rattle.std.specs.Prelude.{◌≡◌, ◌↔◌, IsTrue, is_some};
ghost use Rattle.js_base.specs.Operators.{row_of};
ghost use Rattle.js_base.specs.Precedences.{is_infix, precedences};
ghost use Rattle.js_base.specs.declared.precedence.Precedence.TheVariants.{Exponentiation};

use crate::kind::Kind;

/// How tightly an operator binds, from the loosest on (ECMA-262, the sections named).
#[derive(Debug, Clone, Copy, PartialEq, Eq, PartialOrd, Ord)]
pub enum Precedence {
    /// `,` (13.16), which stands between expressions: no kind is given it.
    Comma,
    /// `??` (13.13).
    NullishCoalescing,
    /// `||` (13.13).
    LogicalOr,
    /// `&&` (13.13).
    LogicalAnd,
    /// `|` (13.12).
    BitwiseOr,
    /// `^` (13.12).
    BitwiseXor,
    /// `&` (13.12).
    BitwiseAnd,
    /// `==`, `!=`, `===` and `!==` (13.11).
    Equals,
    /// `<`, `>`, `<=`, `>=`, `instanceof` and `in` (13.10).
    Compare,
    /// `<<`, `>>` and `>>>` (13.9).
    Shift,
    /// `+` and `-` (13.8).
    Add,
    /// `*`, `/` and `%` (13.7).
    Multiply,
    /// `**` (13.6).
    Exponentiation,
}

impl Precedence {
    /// Whether the operators of this precedence group to the right: `a ** b ** c` is `a ** (b ** c)`.
    pub fn is_right_associative(self) -> bool
        ensures { IsTrue result ↔ (self ≡ Exponentiation) }
    {
        matches!(self, Precedence::Exponentiation)
    }
}

/// The precedence of a kind as an operator between two operands; none exactly where it is none. The words `as` and
/// `satisfies`, which stand so in TypeScript, have that of `<`.
#[tactic(auto, using(crate::proofs::PrecedenceLemmas::kind_laws))]
pub fn kind_to_precedence(kind: Kind) -> Option<Precedence>
    ensures row { result ≡ row_of precedences kind }
    ensures operators { is_some result ≡ is_infix kind }
{
    Some(match kind {
        Kind::Question2 => Precedence::NullishCoalescing,
        Kind::Pipe2 => Precedence::LogicalOr,
        Kind::Amp2 => Precedence::LogicalAnd,
        Kind::Pipe => Precedence::BitwiseOr,
        Kind::Caret => Precedence::BitwiseXor,
        Kind::Amp => Precedence::BitwiseAnd,
        Kind::Eq2 | Kind::Eq3 | Kind::Neq | Kind::Neq2 => Precedence::Equals,
        Kind::LAngle
        | Kind::RAngle
        | Kind::LtEq
        | Kind::GtEq
        | Kind::Instanceof
        | Kind::In
        | Kind::As
        | Kind::Satisfies => Precedence::Compare,
        Kind::ShiftLeft | Kind::ShiftRight | Kind::ShiftRight3 => Precedence::Shift,
        Kind::Plus | Kind::Minus => Precedence::Add,
        Kind::Star | Kind::Slash | Kind::Percent => Precedence::Multiply,
        Kind::Star2 => Precedence::Exponentiation,
        _ => return None,
    })
}
