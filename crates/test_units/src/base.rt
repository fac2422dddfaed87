//! Each call on a table of what it has to answer, and each public call once.

ghost use Rattle.std.specs.Prelude.{◌≡◌, ◌↔◌, IsTrue, fold};
ghost use Rattle.std.specs.Hash as fed;
ghost use Rattle.std.specs.Ordering.{nat_cmp};
ghost use Rattle.js_base.specs.Contexts.{bits_of};

use js_base::{
    AssignmentOperator, BinaryOperator, Context, Diagnostic, DiagnosticClass, DiagnosticKind,
    Diagnostics, FunctionKind, Kind, LogicalOperator, NoMemory, ParseOptions, Precedence,
    SourceType, Span, Spans, StatementContext, Steps, Text, TickLedger, Token, Tokens,
    UnaryOperator, UpdateOperator, kind_to_precedence, map_assignment_operator,
    map_binary_operator, map_logical_operator, map_unary_operator, map_update_operator,
};
use std::alloc::Global;
use std::cmp::Ordering;
use std::hash::{DefaultHasher, Hash, Hasher};

static KINDS: [(Kind, &str, &str); 142] = [
    (Kind::Break, "break", "Break"),
    (Kind::Case, "case", "Case"),
    (Kind::Catch, "catch", "Catch"),
    (Kind::Class, "class", "Class"),
    (Kind::Const, "const", "Const"),
    (Kind::Continue, "continue", "Continue"),
    (Kind::Debugger, "debugger", "Debugger"),
    (Kind::Default, "default", "Default"),
    (Kind::Delete, "delete", "Delete"),
    (Kind::Do, "do", "Do"),
    (Kind::Else, "else", "Else"),
    (Kind::Enum, "enum", "Enum"),
    (Kind::Export, "export", "Export"),
    (Kind::Extends, "extends", "Extends"),
    (Kind::False, "false", "False"),
    (Kind::Finally, "finally", "Finally"),
    (Kind::For, "for", "For"),
    (Kind::Function, "function", "Function"),
    (Kind::If, "if", "If"),
    (Kind::Import, "import", "Import"),
    (Kind::In, "in", "In"),
    (Kind::Instanceof, "instanceof", "Instanceof"),
    (Kind::New, "new", "New"),
    (Kind::Null, "null", "Null"),
    (Kind::Return, "return", "Return"),
    (Kind::Super, "super", "Super"),
    (Kind::Switch, "switch", "Switch"),
    (Kind::This, "this", "This"),
    (Kind::Throw, "throw", "Throw"),
    (Kind::True, "true", "True"),
    (Kind::Try, "try", "Try"),
    (Kind::Typeof, "typeof", "Typeof"),
    (Kind::Var, "var", "Var"),
    (Kind::Void, "void", "Void"),
    (Kind::While, "while", "While"),
    (Kind::With, "with", "With"),
    (Kind::Let, "let", "Let"),
    (Kind::Static, "static", "Static"),
    (Kind::Implements, "implements", "Implements"),
    (Kind::Interface, "interface", "Interface"),
    (Kind::Package, "package", "Package"),
    (Kind::Private, "private", "Private"),
    (Kind::Protected, "protected", "Protected"),
    (Kind::Public, "public", "Public"),
    (Kind::Yield, "yield", "Yield"),
    (Kind::Await, "await", "Await"),
    (Kind::Async, "async", "Async"),
    (Kind::Of, "of", "Of"),
    (Kind::Get, "get", "Get"),
    (Kind::Set, "set", "Set"),
    (Kind::As, "as", "As"),
    (Kind::From, "from", "From"),
    (Kind::Assert, "assert", "Assert"),
    (Kind::Accessor, "accessor", "Accessor"),
    (Kind::Using, "using", "Using"),
    (Kind::Defer, "defer", "Defer"),
    (Kind::Source, "source", "Source"),
    (Kind::Meta, "meta", "Meta"),
    (Kind::Target, "target", "Target"),
    (Kind::Satisfies, "satisfies", "Satisfies"),
    (Kind::Constructor, "constructor", "Constructor"),
    (Kind::TypeWord, "type", "TypeWord"),
    (Kind::LParen, "(", "LParen"),
    (Kind::RParen, ")", "RParen"),
    (Kind::LCurly, "{", "LCurly"),
    (Kind::RCurly, "}", "RCurly"),
    (Kind::LBrack, "[", "LBrack"),
    (Kind::RBrack, "]", "RBrack"),
    (Kind::Semicolon, ";", "Semicolon"),
    (Kind::Comma, ",", "Comma"),
    (Kind::Colon, ":", "Colon"),
    (Kind::Dot, ".", "Dot"),
    (Kind::Dot3, "...", "Dot3"),
    (Kind::Arrow, "=>", "Arrow"),
    (Kind::At, "@", "At"),
    (Kind::Tilde, "~", "Tilde"),
    (Kind::Bang, "!", "Bang"),
    (Kind::Question, "?", "Question"),
    (Kind::QuestionDot, "?.", "QuestionDot"),
    (Kind::Question2, "??", "Question2"),
    (Kind::Question2Eq, "??=", "Question2Eq"),
    (Kind::Plus, "+", "Plus"),
    (Kind::Plus2, "++", "Plus2"),
    (Kind::PlusEq, "+=", "PlusEq"),
    (Kind::Minus, "-", "Minus"),
    (Kind::Minus2, "--", "Minus2"),
    (Kind::MinusEq, "-=", "MinusEq"),
    (Kind::Star, "*", "Star"),
    (Kind::Star2, "**", "Star2"),
    (Kind::StarEq, "*=", "StarEq"),
    (Kind::Star2Eq, "**=", "Star2Eq"),
    (Kind::Slash, "/", "Slash"),
    (Kind::SlashEq, "/=", "SlashEq"),
    (Kind::Percent, "%", "Percent"),
    (Kind::PercentEq, "%=", "PercentEq"),
    (Kind::Eq, "=", "Eq"),
    (Kind::Eq2, "==", "Eq2"),
    (Kind::Eq3, "===", "Eq3"),
    (Kind::Neq, "!=", "Neq"),
    (Kind::Neq2, "!==", "Neq2"),
    (Kind::LAngle, "<", "LAngle"),
    (Kind::LtEq, "<=", "LtEq"),
    (Kind::RAngle, ">", "RAngle"),
    (Kind::GtEq, ">=", "GtEq"),
    (Kind::ShiftLeft, "<<", "ShiftLeft"),
    (Kind::ShiftLeftEq, "<<=", "ShiftLeftEq"),
    (Kind::ShiftRight, ">>", "ShiftRight"),
    (Kind::ShiftRightEq, ">>=", "ShiftRightEq"),
    (Kind::ShiftRight3, ">>>", "ShiftRight3"),
    (Kind::ShiftRight3Eq, ">>>=", "ShiftRight3Eq"),
    (Kind::Amp, "&", "Amp"),
    (Kind::Amp2, "&&", "Amp2"),
    (Kind::AmpEq, "&=", "AmpEq"),
    (Kind::Amp2Eq, "&&=", "Amp2Eq"),
    (Kind::Pipe, "|", "Pipe"),
    (Kind::Pipe2, "||", "Pipe2"),
    (Kind::PipeEq, "|=", "PipeEq"),
    (Kind::Pipe2Eq, "||=", "Pipe2Eq"),
    (Kind::Caret, "^", "Caret"),
    (Kind::CaretEq, "^=", "CaretEq"),
    (Kind::Ident, "Ident", "Ident"),
    (
        Kind::PrivateIdentifier,
        "PrivateIdentifier",
        "PrivateIdentifier",
    ),
    (Kind::Str, "Str", "Str"),
    (Kind::Decimal, "Decimal", "Decimal"),
    (Kind::Float, "Float", "Float"),
    (Kind::Binary, "Binary", "Binary"),
    (Kind::Octal, "Octal", "Octal"),
    (Kind::Hex, "Hex", "Hex"),
    (
        Kind::PositiveExponential,
        "PositiveExponential",
        "PositiveExponential",
    ),
    (
        Kind::NegativeExponential,
        "NegativeExponential",
        "NegativeExponential",
    ),
    (Kind::DecimalBigInt, "DecimalBigInt", "DecimalBigInt"),
    (Kind::BinaryBigInt, "BinaryBigInt", "BinaryBigInt"),
    (Kind::OctalBigInt, "OctalBigInt", "OctalBigInt"),
    (Kind::HexBigInt, "HexBigInt", "HexBigInt"),
    (Kind::RegExp, "RegExp", "RegExp"),
    (
        Kind::NoSubstitutionTemplate,
        "NoSubstitutionTemplate",
        "NoSubstitutionTemplate",
    ),
    (Kind::TemplateHead, "TemplateHead", "TemplateHead"),
    (Kind::TemplateMiddle, "TemplateMiddle", "TemplateMiddle"),
    (Kind::TemplateTail, "TemplateTail", "TemplateTail"),
    (Kind::HashbangComment, "HashbangComment", "HashbangComment"),
    (Kind::Eof, "Eof", "Eof"),
    (Kind::Undetermined, "Undetermined", "Undetermined"),
];

/// Whether a kind has this text and this name, and is found by its text where that is a word.
fn is_kind(kind: Kind, text: &str, name: &str) -> bool {
    let is_word = kind.is_identifier_name() && kind != Kind::Ident;
    let found = if is_word { kind } else { Kind::Ident };
    kind.to_str() == text && kind.name() == name && Kind::match_keyword(text) == found
}

#[test]
fn texts_and_names_of_kinds(rt: HostRuntime) {
    for &(kind, text, name) in &KINDS {
        assert!(rt; is_kind(kind, text, name), "at {text}");
    }
}

/// Words that are no keyword.
#[test]
fn texts_of_no_keyword(rt: HostRuntime) {
    for text in ["", "While", "whiles", "typ", "length"] {
        assert!(rt; Kind::match_keyword(text) == Kind::Ident, "at {text}");
    }
}

static BINARY: [(Kind, BinaryOperator, &str); 22] = [
    (Kind::Eq2, BinaryOperator::Equality, "=="),
    (Kind::Neq, BinaryOperator::Inequality, "!="),
    (Kind::Eq3, BinaryOperator::StrictEquality, "==="),
    (Kind::Neq2, BinaryOperator::StrictInequality, "!=="),
    (Kind::LAngle, BinaryOperator::LessThan, "<"),
    (Kind::LtEq, BinaryOperator::LessEqualThan, "<="),
    (Kind::RAngle, BinaryOperator::GreaterThan, ">"),
    (Kind::GtEq, BinaryOperator::GreaterEqualThan, ">="),
    (Kind::ShiftLeft, BinaryOperator::ShiftLeft, "<<"),
    (Kind::ShiftRight, BinaryOperator::ShiftRight, ">>"),
    (Kind::ShiftRight3, BinaryOperator::ShiftRightZeroFill, ">>>"),
    (Kind::Plus, BinaryOperator::Addition, "+"),
    (Kind::Minus, BinaryOperator::Subtraction, "-"),
    (Kind::Star, BinaryOperator::Multiplication, "*"),
    (Kind::Slash, BinaryOperator::Division, "/"),
    (Kind::Percent, BinaryOperator::Remainder, "%"),
    (Kind::Pipe, BinaryOperator::BitwiseOR, "|"),
    (Kind::Caret, BinaryOperator::BitwiseXOR, "^"),
    (Kind::Amp, BinaryOperator::BitwiseAnd, "&"),
    (Kind::In, BinaryOperator::In, "in"),
    (Kind::Instanceof, BinaryOperator::Instanceof, "instanceof"),
    (Kind::Star2, BinaryOperator::Exponential, "**"),
];

/// Whether a kind stands for this operator, which has this text.
fn is_binary(kind: Kind, operator: BinaryOperator, text: &str) -> bool {
    if !kind.is_binary_operator() {
        return false;
    }
    map_binary_operator(kind) == operator && operator.as_str() == text
}

#[test]
fn binary_operators(rt: HostRuntime) {
    for &(kind, operator, text) in &BINARY {
        assert!(rt; is_binary(kind, operator, text), "at {text}");
    }
}

static UNARY: [(Kind, UnaryOperator, &str); 7] = [
    (Kind::Minus, UnaryOperator::UnaryNegation, "-"),
    (Kind::Plus, UnaryOperator::UnaryPlus, "+"),
    (Kind::Bang, UnaryOperator::LogicalNot, "!"),
    (Kind::Tilde, UnaryOperator::BitwiseNot, "~"),
    (Kind::Typeof, UnaryOperator::Typeof, "typeof"),
    (Kind::Void, UnaryOperator::Void, "void"),
    (Kind::Delete, UnaryOperator::Delete, "delete"),
];

/// Whether a kind stands for this operator, which has this text.
fn is_unary(kind: Kind, operator: UnaryOperator, text: &str) -> bool {
    if !kind.is_unary_operator() {
        return false;
    }
    map_unary_operator(kind) == operator && operator.as_str() == text
}

#[test]
fn unary_operators(rt: HostRuntime) {
    for &(kind, operator, text) in &UNARY {
        assert!(rt; is_unary(kind, operator, text), "at {text}");
    }
}

static LOGICAL: [(Kind, LogicalOperator, &str); 3] = [
    (Kind::Pipe2, LogicalOperator::Or, "||"),
    (Kind::Amp2, LogicalOperator::And, "&&"),
    (Kind::Question2, LogicalOperator::Coalesce, "??"),
];

/// Whether a kind stands for this operator, which has this text.
fn is_logical(kind: Kind, operator: LogicalOperator, text: &str) -> bool {
    if !kind.is_logical_operator() {
        return false;
    }
    map_logical_operator(kind) == operator && operator.as_str() == text
}

#[test]
fn logical_operators(rt: HostRuntime) {
    for &(kind, operator, text) in &LOGICAL {
        assert!(rt; is_logical(kind, operator, text), "at {text}");
    }
}

static UPDATE: [(Kind, UpdateOperator, &str); 2] = [
    (Kind::Plus2, UpdateOperator::Increment, "++"),
    (Kind::Minus2, UpdateOperator::Decrement, "--"),
];

/// Whether a kind stands for this operator, which has this text.
fn is_update(kind: Kind, operator: UpdateOperator, text: &str) -> bool {
    if !kind.is_update_operator() {
        return false;
    }
    map_update_operator(kind) == operator && operator.as_str() == text
}

#[test]
fn update_operators(rt: HostRuntime) {
    for &(kind, operator, text) in &UPDATE {
        assert!(rt; is_update(kind, operator, text), "at {text}");
    }
}

static ASSIGNMENT: [(Kind, AssignmentOperator, &str); 16] = [
    (Kind::Eq, AssignmentOperator::Assign, "="),
    (Kind::PlusEq, AssignmentOperator::Addition, "+="),
    (Kind::MinusEq, AssignmentOperator::Subtraction, "-="),
    (Kind::StarEq, AssignmentOperator::Multiplication, "*="),
    (Kind::SlashEq, AssignmentOperator::Division, "/="),
    (Kind::PercentEq, AssignmentOperator::Remainder, "%="),
    (Kind::ShiftLeftEq, AssignmentOperator::ShiftLeft, "<<="),
    (Kind::ShiftRightEq, AssignmentOperator::ShiftRight, ">>="),
    (
        Kind::ShiftRight3Eq,
        AssignmentOperator::ShiftRightZeroFill,
        ">>>=",
    ),
    (Kind::PipeEq, AssignmentOperator::BitwiseOR, "|="),
    (Kind::CaretEq, AssignmentOperator::BitwiseXOR, "^="),
    (Kind::AmpEq, AssignmentOperator::BitwiseAnd, "&="),
    (Kind::Amp2Eq, AssignmentOperator::LogicalAnd, "&&="),
    (Kind::Pipe2Eq, AssignmentOperator::LogicalOr, "||="),
    (Kind::Question2Eq, AssignmentOperator::LogicalNullish, "??="),
    (Kind::Star2Eq, AssignmentOperator::Exponential, "**="),
];

/// Whether a kind stands for this operator, which has this text.
fn is_assignment(kind: Kind, operator: AssignmentOperator, text: &str) -> bool {
    if !kind.is_assignment_operator() {
        return false;
    }
    map_assignment_operator(kind) == operator && operator.as_str() == text
}

#[test]
fn assignment_operators(rt: HostRuntime) {
    for &(kind, operator, text) in &ASSIGNMENT {
        assert!(rt; is_assignment(kind, operator, text), "at {text}");
    }
}

static PRECEDENCES: [(Kind, Precedence); 12] = [
    (Kind::Question2, Precedence::NullishCoalescing),
    (Kind::Pipe2, Precedence::LogicalOr),
    (Kind::Amp2, Precedence::LogicalAnd),
    (Kind::Pipe, Precedence::BitwiseOr),
    (Kind::Caret, Precedence::BitwiseXor),
    (Kind::Amp, Precedence::BitwiseAnd),
    (Kind::Eq3, Precedence::Equals),
    (Kind::Satisfies, Precedence::Compare),
    (Kind::ShiftRight3, Precedence::Shift),
    (Kind::Minus, Precedence::Add),
    (Kind::Percent, Precedence::Multiply),
    (Kind::Star2, Precedence::Exponentiation),
];

/// Whether a kind has this precedence, which is above that of the comma and goes to the right for the power alone.
fn has_precedence(kind: Kind, precedence: Precedence) -> bool {
    kind_to_precedence(kind) == Some(precedence)
        && precedence.is_right_associative() == (kind == Kind::Star2)
        && Precedence::Comma < precedence
}

#[test]
fn precedences(rt: HostRuntime) {
    for &(kind, precedence) in &PRECEDENCES {
        assert!(rt; has_precedence(kind, precedence), "at {}", kind.to_str());
    }
}

/// The comma separates expressions, and has no precedence as an operator.
#[test]
fn comma_has_no_precedence(rt: HostRuntime) {
    assert!(rt; kind_to_precedence(Kind::Comma).is_none());
}

static MESSAGES: [(DiagnosticKind, &str); 6] = [
    (DiagnosticKind::UnexpectedToken, "Unexpected token"),
    (DiagnosticKind::UnterminatedString, "Unterminated string"),
    (DiagnosticKind::BinaryFile, "File appears to be binary."),
    (DiagnosticKind::Flow, "Flow is not supported"),
    (
        DiagnosticKind::OverlongSource,
        "Source length exceeds 4 GiB limit",
    ),
    (
        DiagnosticKind::V8IntrinsicSpreadElem,
        "V8 runtime calls cannot have spread elements as arguments",
    ),
];

/// Whether a diagnostic of a kind is shown by this message.
fn is_shown(alloc: Global, kind: DiagnosticKind, message: &str) -> bool {
    let diagnostic = Diagnostic {
        kind,
        span: Span::new(12, 15),
        first: None,
        second: None,
    };
    match format!(in alloc; "{diagnostic}") {
        Ok(text) => text.as_str() == message,
        Err(_) => false,
    }
}

#[test]
fn fixed_messages(rt: HostRuntime) {
    for &(kind, message) in &MESSAGES {
        assert!(rt; is_shown(rt.alloc(), kind, message), "at {message}");
    }
}

/// The name and the class of one kind.
#[test]
fn name_and_class_of_a_diagnostic(rt: HostRuntime) {
    let kind = DiagnosticKind::V8IntrinsicSpreadElem;
    let holds = kind.name() == "v8_intrinsic_spread_elem" && kind.class() == DiagnosticClass::Early;
    assert!(rt; holds);
}

/// Whether a context that is made of the default one has the parameters that were set.
fn has_parameters(context: Context) -> bool {
    let has_both = context.has_await() && context.has_yield() && !context.has_in();
    has_both && context == Context::Await | Context::Yield && Context::In < context
}

#[test]
fn contexts(rt: HostRuntime) {
    let start = Context::default();
    let context = start.and_await(true).and_in(false).union_yield_if(true);
    assert!(rt; start.has_in() && has_parameters(context));
}

/// Where a statement and a function stand.
#[test]
fn contexts_of_statements_and_functions(rt: HostRuntime) {
    let statements = StatementContext::Label.is_single_statement()
        && !StatementContext::StatementList.is_single_statement();
    let functions = FunctionKind::Declaration.is_id_required()
        && FunctionKind::Expression.is_expression();
    assert!(rt; statements && functions);
}

/// Each source type, and the default one.
#[test]
fn source_types(rt: HostRuntime) {
    let holds = SourceType::default().is_module()
        && SourceType::unambiguous().is_unambiguous()
        && SourceType::script().is_script()
        && SourceType::commonjs().is_commonjs();
    assert!(rt; holds);
}

/// What is on and off where nothing is asked for.
#[test]
fn default_options(rt: HostRuntime) {
    let options = ParseOptions::default();
    assert!(rt;
        options.preserve_parens
            && !options.allow_v8_intrinsics
            && !options.allow_return_outside_function
    );
}

/// The token before the first.
#[test]
fn default_token(rt: HostRuntime) {
    let token = Token::default();
    assert!(rt; token.kind() == Kind::Eof && token.end() == 0);
}

/// How many spans a list has that one is put into.
fn fill_spans(alloc: Global, span: Span) -> Result<usize, NoMemory> {
    let mut spans = Spans::new(alloc);
    spans.push(span)?;
    Ok(spans.len())
}

/// How many tokens a list has that two are put into and one is taken from.
fn fill_tokens(alloc: Global, span: Span) -> Result<usize, NoMemory> {
    let mut tokens = Tokens::new(alloc);
    tokens.push(Token::new(Kind::Ident, span, true, false, false))?;
    tokens.push(Token::default())?;
    tokens.truncate(1);
    Ok(tokens.len())
}

/// How many diagnostics a list has that one is put into.
fn fill_diagnostics(alloc: Global, span: Span) -> Result<usize, NoMemory> {
    let mut diagnostics = Diagnostics::new(alloc);
    diagnostics.push(Diagnostic {
        kind: DiagnosticKind::Flow,
        span,
        first: Some(span),
        second: None,
    })?;
    Ok(diagnostics.len())
}

#[test]
fn lists(rt: HostRuntime) {
    let span = Span::sized(2, 4).merge(Span::empty(9));
    let holds = matches!(fill_spans(rt.alloc(), span), Ok(1))
        && matches!(fill_tokens(rt.alloc(), span), Ok(1))
        && matches!(fill_diagnostics(rt.alloc(), span), Ok(1));
    assert!(rt; holds);
}

/// Whether a text that is made of another is the same.
fn is_text(alloc: Global, wanted: &str) -> bool {
    match Text::from_str(alloc, wanted) {
        Ok(text) => text.as_str() == wanted,
        Err(_) => false,
    }
}

#[test]
fn texts(rt: HostRuntime) {
    assert!(rt; is_text(rt.alloc(), "a\u{e9}"));
}

/// The text between the ends of a token.
#[test]
fn text_of_a_token(rt: HostRuntime) {
    let token = Token::new(Kind::Ident, Span::new(1, 3), false, false, false);
    assert!(rt; token.text("abc") == "bc");
}

/// Two steps. What is tested is its contract, since nothing of a count is there when the program runs.
fn two_steps() -> Steps<TickLedger>
    ensures { result ≡ 2 }
{
    let mut steps = Steps::new();
    steps.tick();
    steps.tick();
    steps
}

/// Steps are counted.
#[test]
fn steps_are_counted(_rt: HostRuntime) {
    drop(two_steps());
}

/// Whether two contexts are equal.
fn is_same(a: Context, b: Context) -> bool
    ensures { IsTrue result ↔ (bits_of a ≡ bits_of b) }
{
    a == b
}

/// The order of two contexts.
fn order_of(a: Context, b: Context) -> Ordering
    ensures { result ≡ nat_cmp (bits_of a) (bits_of b) }
{
    a.cmp(&b)
}

/// Puts a context into a hash.
fn hash_of<H: Hasher>(a: Context, state: &mut H)
    ensures { state.new ≡ fold H.write state.old (fed.u16 (bits_of a)) }
{
    a.hash(state);
}

/// Whether two contexts have the same hash.
fn hash_alike(a: Context, b: Context) -> bool {
    let (mut one, mut other) = (DefaultHasher::new(), DefaultHasher::new());
    hash_of(a, &mut one);
    hash_of(b, &mut other);
    one.finish() == other.finish()
}

#[test]
fn comparisons(rt: HostRuntime) {
    let (here, there) = (Context::In | Context::Await, Context::Await | Context::In);
    let equal = is_same(here, there) && !is_same(Context::In, Context::Yield);
    let order = order_of(Context::In | Context::Yield, Context::Await);
    assert!(rt; equal && order == Ordering::Less && hash_alike(here, there));
}
