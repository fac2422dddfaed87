//! Texts, and what the inside of a name, a string literal or a part of a template stands for (ECMA-262, 12.7, 12.9.4,
//! 12.9.6).
#![tactic(auto)]

mod code_point_escape;
mod decode;
mod escape;
mod text;

pub use code_point_escape::{CodePointEscape, CodePointStep};
pub use decode::{decode_name, decode_string, decode_template};
pub use escape::{InvalidEscape, invalid_escape};
pub use text::{JsStr, Text};
