//! The kinds of lexemes (ECMA-262, sections 12.7 to 12.9).

/// The kind of a lexeme. The kind of a word is that of its decoded text.
#[derive(Clone, Copy, PartialEq, Eq)]
pub enum Kind {
    /// The reserved word `break`.
    Break,
    /// The reserved word `case`.
    Case,
    /// The reserved word `catch`.
    Catch,
    /// The reserved word `class`.
    Class,
    /// The reserved word `const`.
    Const,
    /// The reserved word `continue`.
    Continue,
    /// The reserved word `debugger`.
    Debugger,
    /// The reserved word `default`.
    Default,
    /// The reserved word `delete`.
    Delete,
    /// The reserved word `do`.
    Do,
    /// The reserved word `else`.
    Else,
    /// The reserved word `enum`.
    Enum,
    /// The reserved word `export`.
    Export,
    /// The reserved word `extends`.
    Extends,
    /// The reserved word `false`.
    False,
    /// The reserved word `finally`.
    Finally,
    /// The reserved word `for`.
    For,
    /// The reserved word `function`.
    Function,
    /// The reserved word `if`.
    If,
    /// The reserved word `import`.
    Import,
    /// The reserved word `in`.
    In,
    /// The reserved word `instanceof`.
    Instanceof,
    /// The reserved word `new`.
    New,
    /// The reserved word `null`.
    Null,
    /// The reserved word `return`.
    Return,
    /// The reserved word `super`.
    Super,
    /// The reserved word `switch`.
    Switch,
    /// The reserved word `this`.
    This,
    /// The reserved word `throw`.
    Throw,
    /// The reserved word `true`.
    True,
    /// The reserved word `try`.
    Try,
    /// The reserved word `typeof`.
    Typeof,
    /// The reserved word `var`.
    Var,
    /// The reserved word `void`.
    Void,
    /// The reserved word `while`.
    While,
    /// The reserved word `with`.
    With,
    /// The word `let`, which may be a name too.
    Let,
    /// The word `static`, which may be a name too.
    Static,
    /// The word `implements`, which may be a name too.
    Implements,
    /// The word `interface`, which may be a name too.
    Interface,
    /// The word `package`, which may be a name too.
    Package,
    /// The word `private`, which may be a name too.
    Private,
    /// The word `protected`, which may be a name too.
    Protected,
    /// The word `public`, which may be a name too.
    Public,
    /// The word `yield`, which may be a name too.
    Yield,
    /// The word `await`, which may be a name too.
    Await,
    /// The word `async`, which may be a name too.
    Async,
    /// The word `of`, which may be a name too.
    Of,
    /// The word `get`, which may be a name too.
    Get,
    /// The word `set`, which may be a name too.
    Set,
    /// The word `as`, which may be a name too.
    As,
    /// The word `from`, which may be a name too.
    From,
    /// The word `assert`, which may be a name too.
    Assert,
    /// The word `accessor`, which may be a name too.
    Accessor,
    /// The word `using`, which may be a name too.
    Using,
    /// The word `defer`, which may be a name too.
    Defer,
    /// The word `source`, which may be a name too.
    Source,
    /// The word `meta`, which may be a name too.
    Meta,
    /// The word `target`, which may be a name too.
    Target,
    /// The word `satisfies`, which may be a name too.
    Satisfies,
    /// The word `constructor`, which may be a name too.
    Constructor,
    /// The word `type`, which may be a name too.
    TypeWord,
    /// `(`
    LParen,
    /// `)`
    RParen,
    /// `{`
    LCurly,
    /// `}`
    RCurly,
    /// `[`
    LBrack,
    /// `]`
    RBrack,
    /// `;`
    Semicolon,
    /// `,`
    Comma,
    /// `:`
    Colon,
    /// `.`
    Dot,
    /// `...`
    Dot3,
    /// `=>`
    Arrow,
    /// `@`
    At,
    /// `~`
    Tilde,
    /// `!`
    Bang,
    /// `?`
    Question,
    /// `?.`
    QuestionDot,
    /// `??`
    Question2,
    /// `??=`
    Question2Eq,
    /// `+`
    Plus,
    /// `++`
    Plus2,
    /// `+=`
    PlusEq,
    /// `-`
    Minus,
    /// `--`
    Minus2,
    /// `-=`
    MinusEq,
    /// `*`
    Star,
    /// `**`
    Star2,
    /// `*=`
    StarEq,
    /// `**=`
    Star2Eq,
    /// `/`
    Slash,
    /// `/=`
    SlashEq,
    /// `%`
    Percent,
    /// `%=`
    PercentEq,
    /// `=`
    Eq,
    /// `==`
    Eq2,
    /// `===`
    Eq3,
    /// `!=`
    Neq,
    /// `!==`
    Neq2,
    /// `<`
    LAngle,
    /// `<=`
    LtEq,
    /// `>`
    RAngle,
    /// `>=`
    GtEq,
    /// `<<`
    ShiftLeft,
    /// `<<=`
    ShiftLeftEq,
    /// `>>`
    ShiftRight,
    /// `>>=`
    ShiftRightEq,
    /// `>>>`
    ShiftRight3,
    /// `>>>=`
    ShiftRight3Eq,
    /// `&`
    Amp,
    /// `&&`
    Amp2,
    /// `&=`
    AmpEq,
    /// `&&=`
    Amp2Eq,
    /// `|`
    Pipe,
    /// `||`
    Pipe2,
    /// `|=`
    PipeEq,
    /// `||=`
    Pipe2Eq,
    /// `^`
    Caret,
    /// `^=`
    CaretEq,
    /// A name outside the keyword table.
    Ident,
    /// `#` and a name.
    PrivateIdentifier,
    /// A string.
    Str,
    /// A decimal integer.
    Decimal,
    /// A number with a dot.
    Float,
    /// A number that begins with `0b`.
    Binary,
    /// A number that begins with `0o`, or with `0` and has octal digits alone.
    Octal,
    /// A number that begins with `0x`.
    Hex,
    /// A number with an exponent without `-`.
    PositiveExponential,
    /// A number with an exponent with `-`.
    NegativeExponential,
    /// A decimal integer and `n`.
    DecimalBigInt,
    /// A big integer that begins with `0b`.
    BinaryBigInt,
    /// A big integer that begins with `0o`.
    OctalBigInt,
    /// A big integer that begins with `0x`.
    HexBigInt,
    /// A regular expression with its flags.
    RegExp,
    /// A template from a backquote to a backquote.
    NoSubstitutionTemplate,
    /// A template part from a backquote to `${`.
    TemplateHead,
    /// A template part from `}` to `${`.
    TemplateMiddle,
    /// A template part from `}` to a backquote.
    TemplateTail,
    /// The line that begins with `#!` at the start of a text.
    HashbangComment,
    /// The end of the text.
    Eof,
    /// No lexeme fits.
    Undetermined,
}
