//! What is wrong with a text, and where.

use crate::span::Span;
use part_memory::List;

/// The classes of diagnostics: by what kind of rule a text is refused.
#[derive(Debug, Clone, Copy, PartialEq, Eq)]
pub enum DiagnosticClass {
    /// No lexeme fits (ECMA-262, chapter 12).
    Lexical,
    /// No production fits (chapters 13 to 16).
    Syntax,
    /// A form of TypeScript or JSX.
    Form,
    /// An early error (chapter 17), or a form that a condition of its production forbids.
    Early,
    /// An early error of a module's imports and exports (section 16.2.1).
    Record,
    /// A text of the language Flow.
    Flow,
    /// A text that is too long.
    Overlong,
}

/// The kinds of diagnostics. Each is what stands at the diagnostic's span; the numbers are the sections of ECMA-262
/// whose rule it breaks.
#[derive(Clone, Copy, PartialEq, Eq)]
pub enum DiagnosticKind {
    /// A character at which no token begins (12.6).
    InvalidCharacter,
    /// The replacement character U+FFFD, which stands for bytes that are no text.
    BinaryFile,
    /// A string without its closing quote, to the end of the line (12.9.4).
    UnterminatedString,
    /// A template part without its closing backquote or `${`, to the end of the text (12.9.6).
    UnterminatedTemplate,
    /// A regular expression without its closing `/`, to the end of the line (12.9.5).
    UnterminatedRegexp,
    /// A block comment without its closing `*/`, to the end of the text (12.4).
    UnterminatedComment,
    /// A backslash that begins no escape sequence allowed there (12.7.1, 12.9.4).
    InvalidEscape,
    /// A digit, or a dot and a digit, at which no number begins (12.9.3).
    InvalidNumber,
    /// A flag of a regular expression that is unknown or stands twice (13.2.7).
    RegExpFlag,
    /// `<!--` or `-->` in a module (B.1.1).
    HtmlCommentInModule,
    /// A token that can't stand there, or the end of the text.
    UnexpectedToken,
    /// A token, or the end of the text, where another token has to stand.
    ExpectToken,
    /// A token, or the end of the text, where a bracket has to be closed. `first` is the opening bracket.
    ExpectClosing,
    /// A token, or the end of the text, where a comma or a closing bracket has to stand. `first` is the opening bracket.
    ExpectClosingOrSeparator,
    /// A token, or the end of the text, where the `:` of a conditional expression has to stand (13.14). `first` is the `?`.
    ExpectConditionalAlternative,
    /// A reserved word where a name has to stand (13.1).
    IdentifierReservedWord,
    /// A keyword with an escape sequence (12.7.2).
    EscapedKeyword,
    /// What can't be assigned to (13.4, 13.15).
    InvalidAssignment,
    /// An element after a rest element of an assignment target (13.15.5).
    SpreadLastElement,
    /// An element after a rest element of a pattern (14.3.3).
    BindingRestElementLast,
    /// A parameter after a rest parameter (15.1).
    RestParameterLast,
    /// A rest of an object pattern that is no name (14.3.3).
    InvalidBindingRestElement,
    /// A trailing comma where none may stand.
    UnexpectedTrailingComma,
    /// Parentheses without an expression, where no arrow function begins (13.2.9).
    EmptyParenthesizedExpression,
    /// `?.` in the callee of `new` (13.3).
    InvalidNewOptionalChain,
    /// A token after `?.` that begins no link of a chain (13.3).
    IdentifierExpectedAfterQuestionDot,
    /// `import()` without arguments (13.3).
    ImportRequiresASpecifier,
    /// `import()` with more than two arguments (13.3).
    ImportArguments,
    /// A spread argument of `import()` (13.3).
    DynamicImportArgumentSpread,
    /// A word other than `meta` after `import.` (13.3).
    InvalidImportProperty,
    /// A word other than `target` after `new.` (13.3).
    NewTarget,
    /// A private name where none may stand.
    UnexpectedPrivateIdentifier,
    /// A private name as the right operand of `in`, after a private name (13.10).
    PrivateInPrivate,
    /// A token, or the end of the text, where the body of a function has to stand (15.2).
    ExpectFunctionBody,
    /// A class declaration without a name (15.7).
    ExpectClassName,
    /// An expression that no decorator may hold.
    DecoratorForm,
    /// A token, or the end of the text, where `case` or `default` has to stand (14.12).
    ExpectSwitchClause,
    /// A string with a lone surrogate as the name of an import or an export (16.2).
    ExportLoneSurrogate,
    /// A value of an import attribute that is no string (16.2.2).
    ImportAttributeValueMustBeStringLiteral,
    /// A marker of a merge conflict. `first` is the marker between the versions, `second` the one at the end.
    MergeConflictMarker,
    /// `as` after an expression on its line.
    AsInTs,
    /// `satisfies` after an expression on its line.
    SatisfiesInTs,
    /// An `implements` clause of a class.
    ImplementsClauseInTs,
    /// The `:` of a type annotation.
    TypeAnnotationInTs,
    /// `private`, `protected` or `public` before the name of a class element.
    ModifierInTs,
    /// A modifier of a parameter.
    ParameterModifiersInTs,
    /// The `=` of `import a = b`.
    ImportEqualsInTs,
    /// `<` where an expression has to stand.
    JsxInNonJsx,
    /// `??` and `||` or `&&` in one expression without parentheses (13.13).
    MixedCoalesce,
    /// A unary expression as the left operand of `**` (13.6).
    UnaryExponentiationLeftOperand,
    /// A line terminator before `=>` (15.3).
    LineterminatorBeforeArrow,
    /// The comma after a rest element or a rest parameter (13.15.5, 14.3.3, 15.1).
    RestElementTrailingComma,
    /// A shorthand property with `=` in an object that is no target (13.2.5).
    CoverInitializedName,
    /// A rest of an object target that is no simple target (13.15.5).
    InvalidRestAssignmentTarget,
    /// An assignment operator other than `=` before a default value (13.15.5).
    InvalidAssignmentTargetDefaultValueOperator,
    /// An array or an object target before an assignment operator other than `=` (13.15).
    AssignmentIsNotSimple,
    /// A template after an optional chain (13.3).
    OptionalChainTaggedTemplate,
    /// An ill-formed escape sequence in a template without a tag (13.2.8).
    TemplateLiteral,
    /// `import()` as the callee of `new` (13.3).
    NewDynamicImport,
    /// `super()` as the callee of `new` (13.3).
    NewSuper,
    /// `new.target` outside a function (13.3.12).
    NewTargetOutsideFunction,
    /// `super` that is neither called nor has a member taken (13.3).
    UnexpectedSuper,
    /// A private name as a member of `super` (13.3).
    SuperPrivate,
    /// `import.meta` in a script (13.3.12).
    ImportMeta,
    /// The `...` of an argument of a call of V8's runtime.
    V8IntrinsicSpreadElem,
    /// `await` as a name in an asynchronous function or a module (13.1).
    IdentifierAsync,
    /// `yield` as a name in a generator (13.1).
    IdentifierGenerator,
    /// `await` outside an asynchronous function or the top level of a module (15.8).
    AwaitExpression,
    /// `yield` outside a generator (15.5).
    YieldExpression,
    /// The flags `u` and `v` of one regular expression (13.2.7).
    RegExpFlagUAndV,
    /// A parameter of a getter (15.4).
    GetterParameters,
    /// A setter without or with more than one parameter (15.4).
    SetterWithParameters,
    /// A rest parameter of a setter (15.4).
    SetterWithRestParameter,
    /// A constructor that is a getter or a setter (15.7).
    ConstructorGetterSetter,
    /// A constructor that is asynchronous (15.7).
    ConstructorAsync,
    /// A constructor that is a generator (15.7).
    ConstructorGenerator,
    /// An accessor named `constructor`.
    ConstructorAccessor,
    /// A field named `constructor` (15.7).
    FieldConstructor,
    /// A static member named `prototype` (15.7).
    StaticPrototype,
    /// The private name `#constructor` (15.7).
    PrivateNameConstructor,
    /// A private name as the name of a property of an object (13.2.5).
    PrivateIdentifierInPropertyName,
    /// A rest element with an initializer (13.15.5, 14.3.3).
    ARestElementCannotHaveAnInitializer,
    /// A rest parameter with an initializer (15.1).
    ARestParameterCannotHaveAnInitializer,
    /// A class declaration as the only statement of another (14).
    ClassDeclaration,
    /// `let` or `const` as the only statement of another (14).
    LexicalDeclarationSingleStatement,
    /// The declaration of an asynchronous function as the only statement of another (14).
    AsyncFunctionDeclaration,
    /// The declaration of a generator as the only statement of another (14).
    GeneratorFunctionDeclaration,
    /// A function declaration without a name (15.2).
    ExpectFunctionName,
    /// Decorators of what is no class and no element of one.
    DecoratorsAreNotValidHere,
    /// Decorators both before and after `export`.
    DecoratorsInExportAndClass,
    /// A pattern without an initializer in a declaration (14.3).
    InvalidDestructuringDeclaration,
    /// A name without an initializer in a `const` declaration (14.3.1).
    MissingInitializerInConst,
    /// More than one declarator in the head of a `for` with `in` or `of` (14.7.5).
    MultipleDeclarationsInForLoopHead,
    /// An initializer of `let` or `const` in the head of a `for` with `in` or `of` (14.7.5).
    InitializerInForInLexicalDeclaration,
    /// An initializer of `var` in the head of a `for` with `of`, or of a pattern in one with `in` (14.7.5, B.3.5).
    InitializerInForHead,
    /// `for (async of` without `await` (14.7.5).
    ForLoopAsyncOf,
    /// A left side of `for` with `of` that begins with `let` (14.7.5).
    ForLoopLetReservedWord,
    /// `for await` with a head that has no `of` (14.7.5).
    ForAwait,
    /// `for await` outside an asynchronous function or the top level of a module (14.7.5).
    ForAwaitStatement,
    /// `return` outside a function (14.10).
    ReturnStatementOnlyInFunctionBody,
    /// `return` in a static block of a class (15.7).
    ReturnStatementInClassStaticBlock,
    /// A second `default` of a `switch` (14.12). `first` is the earlier one.
    SwitchMultipleDefaultClause,
    /// A line terminator where none may stand, as after `throw` (14.14).
    IllegalNewline,
    /// A `try` without `catch` and `finally` (14.15).
    ExpectCatchFinally,
    /// `import` or `export` in a script (16.2).
    ModuleCode,
    /// `import` or `export` below the top level of a module (16.2).
    TopLevel,
    /// A string as the local name of an export without `from` (16.2.3).
    ExportNamedString,
    /// A reserved word as the local name of an export without `from` (16.2.3).
    ExportReservedWord,
    /// What is no name where the local name of an import has to stand (16.2.2).
    IdentifierExpected,
    /// A key of an import attribute that stands again (16.2.2). `first` is the earlier one.
    Redeclaration,
    /// An exported name that is exported again (16.2.1). `first` is a later place.
    DuplicateExport,
    /// A default export, where there is another (16.2.1). `first` is the other place.
    DuplicateDefaultExport,
    /// The first comment, which holds `@flow`.
    Flow,
    /// A text of more than `MAX_LEN` bytes, at the empty span 0..0.
    OverlongSource,
}

/// A diagnostic: what is wrong, where, and up to two related places.
#[derive(Debug, Clone, Copy, PartialEq, Eq)]
pub struct Diagnostic {
    /// What is wrong.
    pub kind: DiagnosticKind,
    /// Where it stands, in bytes from the start of the text.
    pub span: Span,
    /// A related place, where the kind has one.
    pub first: Option<Span>,
    /// A second related place, where the kind has one.
    pub second: Option<Span>,
}

/// A list of diagnostics.
pub type Diagnostics = List<Diagnostic>;
