//! Classes of characters (ECMA-262, sections 11.1, 12.2, 12.3 and 12.7).

ghost use Rattle.std.specs.Prelude.{◌≡◌};
ghost use Rattle.js_base.specs.part_text.Characters as base;
ghost use Rattle.js_grammar.specs.Characters as grammar;

use unicode::properties::{GeneralCategory, is_id_continue, is_id_start};

/// IdentifierStartChar (12.7).
pub fn is_identifier_start(c: char) -> bool
    ensures { result ≡ grammar.is_identifier_start c }
{
    c == '$'
        || c == '_'
        || if c.is_ascii() {
            c.is_ascii_alphabetic()
        } else {
            is_id_start(c)
        }
}

/// IdentifierPartChar (12.7).
pub(crate) fn is_identifier_part(c: char) -> bool
    ensures { result ≡ grammar.is_identifier_part c }
{
    c == '$'
        || c == '_'
        || c == '\u{200c}'
        || c == '\u{200d}'
        || if c.is_ascii() {
            c.is_ascii_alphanumeric()
        } else {
            is_id_continue(c)
        }
}

/// WhiteSpace (12.2).
pub fn is_white_space(c: char) -> bool
    ensures { result ≡ grammar.is_white_space c }
{
    c == '\t'
        || c == '\u{b}'
        || c == '\u{c}'
        || c == ' '
        || c == '\u{feff}'
        || if c.is_ascii() {
            false
        } else {
            GeneralCategory::for_char(c) == GeneralCategory::SpaceSeparator
        }
}

/// LineTerminator (12.3).
pub fn is_line_terminator(c: char) -> bool
    ensures { result ≡ base.is_line_terminator c }
{
    c == '\n' || c == '\r' || c == '\u{2028}' || c == '\u{2029}'
}
