//! What parse functions call where a production nests.

ghost use Rattle.std.specs.Prelude.{◌≡◌};
ghost use Rattle.js_grammar.specs.Productions.{at, Assignment, Binding, Body, ClassBody, Exponent, Expression, LeftHandSide, ListItem, Params, Sub, Unary};
ghost use Rattle.laws_shared.specs.Answers.{Answers};
ghost use Rattle.laws_shared.specs.Methods.{ReadsWhole, parameters_of};
ghost use Rattle.laws_shared.specs.Nesting.{levels_of};
ghost use Rattle.laws_shared.specs.Statements.{TakesStatement};

use js_cursor::{NodeId, ParserConfig, ParserImpl, Stop};

/// Which parameters a method has (ECMA-262, section 15.4).
#[derive(Clone, Copy)]
pub enum MethodForm {
    /// FormalParameters: those of a method that is no getter and no setter.
    Method,
    /// Those of a getter, of which there are none.
    Getter,
    /// Those of a setter: one FormalParameter.
    Setter,
}

/// What is to be read where a production nests.
#[derive(Clone, Copy)]
pub enum Nonterminal {
    /// An Expression.
    Expression,
    /// An AssignmentExpression.
    Assignment,
    /// An AssignmentExpression between brackets.
    Element,
    /// A UnaryExpression.
    Unary,
    /// A LeftHandSideExpression.
    LeftHandSide,
    /// An ExponentiationExpression.
    Exponentiation,
    /// A BindingIdentifier or a BindingPattern.
    Binding,
    /// A Statement that is the body of another one.
    Statement,
    /// A StatementListItem.
    ListItem,
    /// A FunctionBody in its braces.
    Body,
    /// A ClassBody in its braces.
    ClassBody,
    /// FormalParameters in their parentheses.
    Params,
    /// The parameters of a method in their parentheses.
    MethodParameters(MethodForm),
}

impl Nonterminal {
    /// How many levels of depth it takes: what stands between brackets is read through all levels of operators again, and
    /// takes four times the stack of the others and more. So do the bodies of functions and of classes, which stand in
    /// operands, and what a class extends. What stands in other braces takes twice as much as the others.
    pub fn levels(self) -> u32
        ensures { result ≡ levels_of self }
    {
        match self {
            Nonterminal::Expression
            | Nonterminal::Element
            | Nonterminal::LeftHandSide
            | Nonterminal::Binding
            | Nonterminal::Body
            | Nonterminal::ClassBody => 4,
            Nonterminal::ListItem | Nonterminal::MethodParameters(_) => 2,
            Nonterminal::Assignment
            | Nonterminal::Unary
            | Nonterminal::Exponentiation
            | Nonterminal::Statement
            | Nonterminal::Params => 1,
        }
    }
}

/// What may be read deeper, once a lexeme was passed. So each parse function is proved alone, and one alone
/// recurses.
pub trait Nested<C: ParserConfig> {
    ghost use Rattle.js_cursor.specs.Parsers.{Parser};
    ghost use Rattle.laws_shared.specs.declared.nested.Nonterminal.{Nonterminal};

    ghost can: { Self → Parser → Nonterminal → Type 0 };

    /// An Expression (ECMA-262, section 13.16).
    fn expression(&self, p: &mut ParserImpl<'_, C>) -> Result<NodeId, Stop>
        requires { can self.now p.old Nonterminal.Expression }
        ensures { Answers (at Expression) p.old p.new result };

    /// An AssignmentExpression (ECMA-262, section 13.15).
    fn assignment(&self, p: &mut ParserImpl<'_, C>) -> Result<NodeId, Stop>
        requires { can self.now p.old Nonterminal.Assignment }
        ensures { Answers (at Assignment) p.old p.new result };

    /// An AssignmentExpression between brackets: an argument, an element, the consequent of a conditional expression.
    fn element(&self, p: &mut ParserImpl<'_, C>) -> Result<NodeId, Stop>
        requires { can self.now p.old Nonterminal.Element }
        ensures { Answers (at Assignment) p.old p.new result };

    /// A UnaryExpression (ECMA-262, section 13.5).
    fn unary(&self, p: &mut ParserImpl<'_, C>) -> Result<NodeId, Stop>
        requires { can self.now p.old Nonterminal.Unary }
        ensures { Answers (at Unary) p.old p.new result };

    /// A LeftHandSideExpression (ECMA-262, section 13.3).
    fn left_hand_side(&self, p: &mut ParserImpl<'_, C>) -> Result<NodeId, Stop>
        requires { can self.now p.old Nonterminal.LeftHandSide }
        ensures { Answers (at LeftHandSide) p.old p.new result };

    /// An ExponentiationExpression (ECMA-262, section 13.6).
    fn exponentiation(&self, p: &mut ParserImpl<'_, C>) -> Result<NodeId, Stop>
        requires { can self.now p.old Nonterminal.Exponentiation }
        ensures { Answers (at Exponent) p.old p.new result };

    /// A BindingIdentifier or a BindingPattern (ECMA-262, section 14.3.3).
    fn binding(&self, p: &mut ParserImpl<'_, C>) -> Result<NodeId, Stop>
        requires { can self.now p.old Nonterminal.Binding }
        ensures { Answers (at Binding) p.old p.new result };

    /// A Statement that is the body of another one (ECMA-262, chapter 14).
    fn statement(&self, p: &mut ParserImpl<'_, C>) -> Result<NodeId, Stop>
        requires { can self.now p.old Nonterminal.Statement }
        ensures { TakesStatement (at Sub) p.old p.new result };

    /// A StatementListItem (ECMA-262, section 14.2).
    fn list_item(&self, p: &mut ParserImpl<'_, C>) -> Result<NodeId, Stop>
        requires { can self.now p.old Nonterminal.ListItem }
        ensures { TakesStatement (at ListItem) p.old p.new result };

    /// A FunctionBody in its braces (ECMA-262, section 15.2).
    fn body(&self, p: &mut ParserImpl<'_, C>) -> Result<NodeId, Stop>
        requires { can self.now p.old Nonterminal.Body }
        ensures { Answers (at Body) p.old p.new result };

    /// A ClassBody in its braces (ECMA-262, section 15.7).
    fn class_body(&self, p: &mut ParserImpl<'_, C>) -> Result<NodeId, Stop>
        requires { can self.now p.old Nonterminal.ClassBody }
        ensures { Answers (at ClassBody) p.old p.new result };

    /// FormalParameters in their parentheses (ECMA-262, section 15.1).
    fn parameters(&self, p: &mut ParserImpl<'_, C>) -> Result<NodeId, Stop>
        requires { can self.now p.old Nonterminal.Params }
        ensures { Answers (at Params) p.old p.new result };

    /// The parameters of a method in their parentheses (ECMA-262, section 15.4).
    fn method_parameters(&self, p: &mut ParserImpl<'_, C>, form: MethodForm) -> Result<NodeId, Stop>
        requires { can self.now p.old (Nonterminal.MethodParameters form) }
        ensures { ReadsWhole (parameters_of form) p.old p.new result };
}
