//! Runs of the characters of names (ECMA-262, section 12.7).

ghost use Rattle.std.specs.Prelude.{◌≡◌, IsCharBoundary};
ghost use Rattle.part_words.specs.Faults as faults;
ghost use Rattle.part_words.specs.Faults.{PartsEnd};
ghost use Rattle.part_words.specs.Names as names;

use crate::byte_class::class_of;
use crate::character::next_character;
use crate::class::is_identifier_part;
use crate::place::byte_at;

/// The place behind the ASCII characters of a name from a place on.
pub(crate) fn ascii_parts_end(text: &str, at: usize) -> usize
    requires { IsCharBoundary text.now at }
    ensures { names.AsciiParts text.now at result }
{
    let mut end = at;
    'parts: loop {
        match byte_at(text, end) {
            Some(byte) => {
                if !is_ascii_part(byte) {
                    return end;
                }
                end += 1;
            }
            None => return end,
        }
    }
}

/// Whether a byte is an ASCII character of a name.
#[inline]
fn is_ascii_part(byte: u8) -> bool
    ensures { result ≡ names.is_ascii_part byte }
{
    class_of(byte).is_in_name()
}

/// The place behind the characters of a name (IdentifierPartChar) from a place on; where `dots` is set, dots count among
/// them.
pub fn parts_end(text: &str, at: usize, dots: bool) -> usize
    requires { IsCharBoundary text.now at }
    ensures { PartsEnd dots text.now at result }
{
    let mut end = ascii_parts_end(text, at);
    'parts: while let Some(next) = next_character(text, end) {
        if !is_part(next.value, dots) {
            return end;
        }
        end = ascii_parts_end(text, next.end);
    }
    end
}

/// Whether a character is one of a name, or a dot where dots count.
fn is_part(c: char, dots: bool) -> bool
    ensures { result ≡ faults.is_part dots c }
{
    is_identifier_part(c) || (dots && c == '.')
}
