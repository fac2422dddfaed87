//! Definitions and laws of import and export declarations, over which the parse functions of `parse_modules` are proved.
#![tactic(auto)]

pub mod forms;
