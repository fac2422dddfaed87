//! The parse functions: one for each production, which call each other.
#![tactic(auto)]

mod by;
mod parse;
mod program;

pub use parse::{
    RuntimeParser, parse_assignment_expression_or_higher, parse_binary_expression_or_higher,
    parse_binding_pattern, parse_directives_and_statements, parse_expr, parse_formal_parameters,
    parse_function_body, parse_import_declaration, parse_lhs_expression_or_higher,
    parse_property_name, parse_statement_list_item,
    try_parse_parenthesized_arrow_function_expression,
};
pub use parse_targets::grammar::CoverGrammar;
pub use parse_targets::ids::{
    ArrayAssignmentTargetId, ArrayExpressionId, AssignmentExpressionId, AssignmentTargetId,
    AssignmentTargetMaybeDefaultId, AssignmentTargetPropertyId, AssignmentTargetWithDefaultId,
    ExpressionId, ObjectAssignmentTargetId, ObjectExpressionId, ObjectPropertyId,
    SimpleAssignmentTargetId,
};
pub use program::parse_program;
