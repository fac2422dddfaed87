//! Sets of kinds: literals, words and operators.

ghost use Rattle.std.specs.Prelude.{◌≡◌, is_some};
ghost use Rattle.js_base.specs.Kinds.{one_of_kinds};
ghost use Rattle.js_base.specs.KindSets.{binding_identifier_kinds, identifier_name_kinds, literal_kinds, number_kinds};
ghost use Rattle.js_base.specs.Operators.{assignment_operators, binary_operators, logical_operators, row_of, unary_operators, update_operators};
ghost use Rattle.js_base.specs.Texts.{reserved_words};

use crate::kind::Kind;

impl Kind {
    /// Whether it is a literal: a number, a string, a regular expression, `null`, `true` or `false` (ECMA-262, section 12.9).
    pub fn is_literal(self) -> bool
        ensures { result ≡ one_of_kinds literal_kinds self }
    {
        self.is_number()
            || matches!(
                self,
                Kind::Str | Kind::RegExp | Kind::Null | Kind::True | Kind::False
            )
    }

    /// Whether it is a number, or a big integer (ECMA-262, section 12.9.3).
    pub fn is_number(self) -> bool
        ensures { result ≡ one_of_kinds number_kinds self }
    {
        matches!(
            self,
            Kind::Decimal
                | Kind::Float
                | Kind::Binary
                | Kind::Octal
                | Kind::Hex
                | Kind::PositiveExponential
                | Kind::NegativeExponential
                | Kind::DecimalBigInt
                | Kind::BinaryBigInt
                | Kind::OctalBigInt
                | Kind::HexBigInt
        )
    }

    /// Whether it is a reserved word (ECMA-262, section 12.7.2). `await` and `yield`, which are reserved in some places
    /// alone, are none.
    pub fn is_reserved_keyword(self) -> bool
        ensures { result ≡ one_of_kinds reserved_words self }
    {
        matches!(
            self,
            Kind::Break
                | Kind::Case
                | Kind::Catch
                | Kind::Class
                | Kind::Const
                | Kind::Continue
                | Kind::Debugger
                | Kind::Default
                | Kind::Delete
                | Kind::Do
                | Kind::Else
                | Kind::Enum
                | Kind::Export
                | Kind::Extends
                | Kind::False
                | Kind::Finally
                | Kind::For
                | Kind::Function
                | Kind::If
                | Kind::Import
                | Kind::In
                | Kind::Instanceof
                | Kind::New
                | Kind::Null
                | Kind::Return
                | Kind::Super
                | Kind::Switch
                | Kind::This
                | Kind::Throw
                | Kind::True
                | Kind::Try
                | Kind::Typeof
                | Kind::Var
                | Kind::Void
                | Kind::While
                | Kind::With
        )
    }

    /// Whether it may be a BindingIdentifier in some place (ECMA-262, section 13.1): a name, or a word that isn't reserved.
    pub fn is_binding_identifier(self) -> bool
        ensures { result ≡ one_of_kinds binding_identifier_kinds self }
    {
        matches!(
            self,
            Kind::Ident
                | Kind::Let
                | Kind::Static
                | Kind::Implements
                | Kind::Interface
                | Kind::Package
                | Kind::Private
                | Kind::Protected
                | Kind::Public
                | Kind::Yield
                | Kind::Await
                | Kind::Async
                | Kind::Of
                | Kind::Get
                | Kind::Set
                | Kind::As
                | Kind::From
                | Kind::Assert
                | Kind::Accessor
                | Kind::Using
                | Kind::Defer
                | Kind::Source
                | Kind::Meta
                | Kind::Target
                | Kind::Satisfies
                | Kind::Constructor
                | Kind::TypeWord
        )
    }

    /// Whether it is an IdentifierName (ECMA-262, section 12.7): a name, or any word of the keyword table.
    pub fn is_identifier_name(self) -> bool
        ensures { result ≡ one_of_kinds identifier_name_kinds self }
    {
        self.is_reserved_keyword() || self.is_binding_identifier()
    }

    /// Whether it is an operator of an assignment (ECMA-262, section 13.15).
    pub fn is_assignment_operator(self) -> bool
        ensures { result ≡ is_some (row_of assignment_operators self) }
    {
        matches!(
            self,
            Kind::Eq
                | Kind::PlusEq
                | Kind::MinusEq
                | Kind::StarEq
                | Kind::SlashEq
                | Kind::PercentEq
                | Kind::ShiftLeftEq
                | Kind::ShiftRightEq
                | Kind::ShiftRight3Eq
                | Kind::PipeEq
                | Kind::CaretEq
                | Kind::AmpEq
                | Kind::Amp2Eq
                | Kind::Pipe2Eq
                | Kind::Question2Eq
                | Kind::Star2Eq
        )
    }

    /// Whether it is an operator of a binary expression (ECMA-262, sections 13.6 to 13.12).
    pub fn is_binary_operator(self) -> bool
        ensures { result ≡ is_some (row_of binary_operators self) }
    {
        matches!(
            self,
            Kind::Eq2
                | Kind::Neq
                | Kind::Eq3
                | Kind::Neq2
                | Kind::LAngle
                | Kind::LtEq
                | Kind::RAngle
                | Kind::GtEq
                | Kind::ShiftLeft
                | Kind::ShiftRight
                | Kind::ShiftRight3
                | Kind::Plus
                | Kind::Minus
                | Kind::Star
                | Kind::Slash
                | Kind::Percent
                | Kind::Pipe
                | Kind::Caret
                | Kind::Amp
                | Kind::In
                | Kind::Instanceof
                | Kind::Star2
        )
    }

    /// Whether it is an operator of a logical expression (ECMA-262, section 13.13).
    pub fn is_logical_operator(self) -> bool
        ensures { result ≡ is_some (row_of logical_operators self) }
    {
        matches!(self, Kind::Pipe2 | Kind::Amp2 | Kind::Question2)
    }

    /// Whether it is an operator of a unary expression (ECMA-262, section 13.5).
    pub fn is_unary_operator(self) -> bool
        ensures { result ≡ is_some (row_of unary_operators self) }
    {
        matches!(
            self,
            Kind::Minus
                | Kind::Plus
                | Kind::Bang
                | Kind::Tilde
                | Kind::Typeof
                | Kind::Void
                | Kind::Delete
        )
    }

    /// Whether it is an operator of an update expression (ECMA-262, section 13.4).
    pub fn is_update_operator(self) -> bool
        ensures { result ≡ is_some (row_of update_operators self) }
    {
        matches!(self, Kind::Plus2 | Kind::Minus2)
    }
}
