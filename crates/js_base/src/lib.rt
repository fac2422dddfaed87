//! What every crate of the parser speaks of: spans, source types, kinds of lexemes, tokens, options and diagnostics.
#![tactic(auto)]

mod context;
mod diagnostic;
mod diagnostic_text;
mod function_kind;
mod keyword;
mod kind;
mod kind_set;
mod kind_text;
mod operator;
mod operator_map;
mod options;
mod precedence;
mod source_type;
mod span;
mod statement_context;
mod token;

pub use context::Context;
pub use diagnostic::{Diagnostic, DiagnosticClass, DiagnosticKind, Diagnostics};
pub use function_kind::{FunctionKind, VariableDeclarationParent};
pub use keyword::keyword_kind;
pub use kind::Kind;
pub use operator::{
    AssignmentOperator, BinaryOperator, LogicalOperator, UnaryOperator, UpdateOperator,
};
pub use operator_map::{
    map_assignment_operator, map_binary_operator, map_logical_operator, map_unary_operator,
    map_update_operator,
};
pub use options::ParseOptions;
pub use part_memory::{Ledger, List, NoMemory, Steps, TickLedger};
pub use part_text::{
    CodePointEscape, CodePointStep, InvalidEscape, JsStr, Text, decode_name, decode_string,
    decode_template, invalid_escape,
};
pub use precedence::{Precedence, kind_to_precedence};
pub use source_type::SourceType;
pub use span::{Span, Spans};
pub use statement_context::{StatementContext, Tristate};
pub use token::{Token, Tokens};

/// The greatest length of a text in bytes: a place in it fits a `u32`, with room for small sums.
pub const MAX_LEN: usize = 4_294_967_039;
