//! Bodies of classes and their elements (ECMA-262, section 15.7).
#![tactic(auto)]

pub mod accessor_member;
pub mod class_body;
pub mod element;
pub mod element_name;
pub mod field;
pub mod member;
pub mod method;
pub mod other_member;
pub mod special_method;
pub mod static_block;
pub mod string_member;
pub mod word_member;

pub use laws_classes::forms;
pub use parse_members::left_hand_side;
pub use parse_primary::forms::PropertyName;
pub use parse_primary::property_name;
pub use parse_statements::forms::StatementList;
pub use parse_statements::{block, patterns, sequences, statement, statement_list};
