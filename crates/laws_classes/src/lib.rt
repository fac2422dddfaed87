//! Definitions and laws of classes, over which the parse functions of `parse_classes` are proved.
#![tactic(auto)]

pub mod forms;
