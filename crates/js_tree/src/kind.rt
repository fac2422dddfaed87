//! What nodes are (ECMA-262, chapters 11 to 16).

ghost use Rattle.std.specs.Prelude.{◌≡◌};
ghost use Rattle.js_grammar.specs.Lines.{kind_text};
ghost use Rattle.js_tree.specs.Labels.{kind_of};

use std::fmt;

/// The kinds of nodes.
#[derive(Clone, Copy, PartialEq, Eq)]
pub enum NodeKind {
    /// A script or a module (ECMA-262, 16.1, 16.2).
    Program,
    /// The line `#!` (12.5).
    Hashbang,
    /// A directive of a prologue (11.2.1).
    Directive,
    /// A block (14.2).
    BlockStatement,
    /// A semicolon alone (14.4).
    EmptyStatement,
    /// An expression and its semicolon (14.5).
    ExpressionStatement,
    /// `var`, `let` or `const` (14.3).
    VariableDeclaration,
    /// A binding and its initialiser (14.3).
    VariableDeclarator,
    /// `if` (14.6).
    IfStatement,
    /// `do` (14.7.2).
    DoWhileStatement,
    /// `while` (14.7.3).
    WhileStatement,
    /// `with` (14.11).
    WithStatement,
    /// `for` with semicolons (14.7.4).
    ForStatement,
    /// `for` with `in` (14.7.5).
    ForInStatement,
    /// `for` with `of` (14.7.5).
    ForOfStatement,
    /// `continue` (14.8).
    ContinueStatement,
    /// `break` (14.9).
    BreakStatement,
    /// `return` (14.10).
    ReturnStatement,
    /// `throw` (14.14).
    ThrowStatement,
    /// `switch` (14.12).
    SwitchStatement,
    /// `case` or `default` (14.12).
    SwitchCase,
    /// `try` (14.15).
    TryStatement,
    /// `catch` (14.15).
    CatchClause,
    /// The binding of a `catch` (14.15).
    CatchParameter,
    /// `debugger` (14.16).
    DebuggerStatement,
    /// A label and its statement (14.13).
    LabeledStatement,
    /// A function declaration (15.2).
    FunctionDeclaration,
    /// A function expression (15.2), or the function of a method (15.4).
    FunctionExpression,
    /// A list of parameters (15.1).
    FormalParameters,
    /// A parameter (15.1).
    FormalParameter,
    /// A rest parameter (15.1).
    FormalParameterRest,
    /// `...` and a binding (14.3.3).
    BindingRestElement,
    /// The body of a function (15.2).
    FunctionBody,
    /// An arrow function (15.3).
    ArrowFunctionExpression,
    /// A class declaration (15.7).
    ClassDeclaration,
    /// A class expression (15.7).
    ClassExpression,
    /// The elements of a class (15.7).
    ClassBody,
    /// A method of a class (15.4).
    MethodDefinition,
    /// A field of a class (15.7).
    PropertyDefinition,
    /// A field of a class with `accessor`.
    AccessorProperty,
    /// A static block of a class (15.7).
    StaticBlock,
    /// A decorator of a class or an element.
    Decorator,
    /// An object literal (13.2.5).
    ObjectExpression,
    /// A property of an object literal (13.2.5).
    ObjectProperty,
    /// `...` and an expression (13.2.4, 13.2.5, 13.3).
    SpreadElement,
    /// Expressions with commas (13.16).
    SequenceExpression,
    /// An assignment (13.15).
    AssignmentExpression,
    /// `yield` (15.5).
    YieldExpression,
    /// `? :` (13.14).
    ConditionalExpression,
    /// `||`, `&&` or `??` (13.13).
    LogicalExpression,
    /// A binary operator (13.6 to 13.12).
    BinaryExpression,
    /// A private name and `in` (13.10).
    PrivateInExpression,
    /// A unary operator (13.5).
    UnaryExpression,
    /// `await` (15.8).
    AwaitExpression,
    /// `++` or `--` (13.4).
    UpdateExpression,
    /// `new` (13.3).
    NewExpression,
    /// `.` and a name (13.3).
    StaticMemberExpression,
    /// An expression in brackets behind an object (13.3).
    ComputedMemberExpression,
    /// `.` and a private name (13.3).
    PrivateFieldExpression,
    /// A tag and a template (13.3).
    TaggedTemplateExpression,
    /// `new.target` (13.3).
    NewTarget,
    /// `import.meta` (13.3).
    ImportMeta,
    /// A callee and its arguments (13.3).
    CallExpression,
    /// `import` with arguments (13.3).
    ImportExpression,
    /// An optional chain (13.3).
    ChainExpression,
    /// `super` (13.3).
    Super,
    /// `this` (13.2).
    ThisExpression,
    /// `null` (13.2.3).
    NullLiteral,
    /// `true` or `false` (13.2.3).
    BooleanLiteral,
    /// A number (12.9.3).
    NumericLiteral,
    /// A big integer (12.9.3).
    BigIntLiteral,
    /// A string (12.9.4).
    StringLiteral,
    /// A regular expression (12.9.5).
    RegExpLiteral,
    /// An array literal (13.2.4).
    ArrayExpression,
    /// A missing item of an array literal (13.2.4).
    Elision,
    /// An expression in parentheses (13.2).
    ParenthesizedExpression,
    /// A call of a V8 intrinsic, `%name()`.
    V8IntrinsicExpression,
    /// A template (13.2.8).
    TemplateLiteral,
    /// A part of a template (12.9.6).
    TemplateElement,
    /// A name that is read or written (13.1).
    IdentifierReference,
    /// A name that is bound (13.1).
    BindingIdentifier,
    /// A label (13.1).
    LabelIdentifier,
    /// A name that may be a reserved word (12.7).
    IdentifierName,
    /// `#` and a name (12.7).
    PrivateIdentifier,
    /// An array pattern of an assignment (13.15.5).
    ArrayAssignmentTarget,
    /// An object pattern of an assignment (13.15.5).
    ObjectAssignmentTarget,
    /// `...` and a target (13.15.5).
    AssignmentTargetRest,
    /// A target and its initialiser (13.15.5).
    AssignmentTargetWithDefault,
    /// A name as a property of a target (13.15.5).
    AssignmentTargetPropertyIdentifier,
    /// A key and a target (13.15.5).
    AssignmentTargetPropertyProperty,
    /// An array pattern of a binding (14.3.3).
    ArrayPattern,
    /// An object pattern of a binding (14.3.3).
    ObjectPattern,
    /// A key and a binding (14.3.3).
    BindingProperty,
    /// A binding and its initialiser (14.3.3).
    AssignmentPattern,
    /// `import` (16.2.2).
    ImportDeclaration,
    /// The default import (16.2.2).
    ImportDefaultSpecifier,
    /// `* as` and a name (16.2.2).
    ImportNamespaceSpecifier,
    /// A named import (16.2.2).
    ImportSpecifier,
    /// Attributes of an import or export (16.2.2).
    WithClause,
    /// A key and a string (16.2.2).
    ImportAttribute,
    /// `export *` (16.2.3).
    ExportAllDeclaration,
    /// `export` of names `from` a module (16.2.3).
    ExportFromDeclaration,
    /// `export` of names (16.2.3).
    ExportNamedDeclaration,
    /// `export` of a declaration (16.2.3).
    ExportDeclaration,
    /// `export default` (16.2.3).
    ExportDefaultDeclaration,
    /// A name that is exported (16.2.3).
    ExportSpecifier,
}

// The name of each kind, in the order of the enum.
static NAMES: [&str; 106] = [
    "Program",
    "Hashbang",
    "Directive",
    "BlockStatement",
    "EmptyStatement",
    "ExpressionStatement",
    "VariableDeclaration",
    "VariableDeclarator",
    "IfStatement",
    "DoWhileStatement",
    "WhileStatement",
    "WithStatement",
    "ForStatement",
    "ForInStatement",
    "ForOfStatement",
    "ContinueStatement",
    "BreakStatement",
    "ReturnStatement",
    "ThrowStatement",
    "SwitchStatement",
    "SwitchCase",
    "TryStatement",
    "CatchClause",
    "CatchParameter",
    "DebuggerStatement",
    "LabeledStatement",
    "FunctionDeclaration",
    "FunctionExpression",
    "FormalParameters",
    "FormalParameter",
    "FormalParameterRest",
    "BindingRestElement",
    "FunctionBody",
    "ArrowFunctionExpression",
    "ClassDeclaration",
    "ClassExpression",
    "ClassBody",
    "MethodDefinition",
    "PropertyDefinition",
    "AccessorProperty",
    "StaticBlock",
    "Decorator",
    "ObjectExpression",
    "ObjectProperty",
    "SpreadElement",
    "SequenceExpression",
    "AssignmentExpression",
    "YieldExpression",
    "ConditionalExpression",
    "LogicalExpression",
    "BinaryExpression",
    "PrivateInExpression",
    "UnaryExpression",
    "AwaitExpression",
    "UpdateExpression",
    "NewExpression",
    "StaticMemberExpression",
    "ComputedMemberExpression",
    "PrivateFieldExpression",
    "TaggedTemplateExpression",
    "NewTarget",
    "ImportMeta",
    "CallExpression",
    "ImportExpression",
    "ChainExpression",
    "Super",
    "ThisExpression",
    "NullLiteral",
    "BooleanLiteral",
    "NumericLiteral",
    "BigIntLiteral",
    "StringLiteral",
    "RegExpLiteral",
    "ArrayExpression",
    "Elision",
    "ParenthesizedExpression",
    "V8IntrinsicExpression",
    "TemplateLiteral",
    "TemplateElement",
    "IdentifierReference",
    "BindingIdentifier",
    "LabelIdentifier",
    "IdentifierName",
    "PrivateIdentifier",
    "ArrayAssignmentTarget",
    "ObjectAssignmentTarget",
    "AssignmentTargetRest",
    "AssignmentTargetWithDefault",
    "AssignmentTargetPropertyIdentifier",
    "AssignmentTargetPropertyProperty",
    "ArrayPattern",
    "ObjectPattern",
    "BindingProperty",
    "AssignmentPattern",
    "ImportDeclaration",
    "ImportDefaultSpecifier",
    "ImportNamespaceSpecifier",
    "ImportSpecifier",
    "WithClause",
    "ImportAttribute",
    "ExportAllDeclaration",
    "ExportFromDeclaration",
    "ExportNamedDeclaration",
    "ExportDeclaration",
    "ExportDefaultDeclaration",
    "ExportSpecifier",
];

impl NodeKind {
    /// The name in the lines of a tree.
    pub fn name(self) -> &'static str
        ensures { result.now ≡ kind_text (kind_of self) }
    {
        NAMES[self as usize]
    }

    /// The same: the kind's name, as `Kind::to_str` gives that of a lexeme's kind.
    pub fn to_str(self) -> &'static str
        ensures { result.now ≡ kind_text (kind_of self) }
    {
        self.name()
    }
}

impl fmt::Debug for NodeKind {
    /// Writes the name.
    fn fmt<W: fmt::Write>(&self, f: &mut fmt::Formatter<W>) -> fmt::Result {
        f.write_str(self.name())
    }
}
