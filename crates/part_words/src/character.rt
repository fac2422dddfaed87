//! One character of a text, where a byte of ASCII costs no decoding.

ghost use Rattle.std.specs.Prelude.{◌≡◌, ◌≤◌, ◌⊎◌, IsCharBoundary};
ghost use Rattle.part_words.specs.Places.{Peeks, ReadsAt};
ghost use Rattle.part_words.specs.NextCharacters.{NextAt, IsNext};

use crate::place::byte_at;

/// A character of a text.
#[derive(Clone, Copy)]
pub struct Character {
    pub value: char,
    /// The place behind it.
    pub end: usize,
}

/// The character at a place, or none at the end of the text.
#[inline]
pub fn next_character(text: &str, at: usize) -> Option<Character>
    requires { IsCharBoundary text.now at }
    ensures { NextAt text.now at result }
{
    match byte_at(text, at) {
        None => None,
        Some(byte) => Some(character_of(text, at, byte)),
    }
}

/// The character at a place that a byte begins.
#[inline]
pub fn character_of(text: &str, at: usize, byte: u8) -> Character
    requires boundary { IsCharBoundary text.now at }
    requires byte { Peeks text.now at byte }
    ensures next { IsNext text.now at result }
    ensures same { (result.value ≡ byte) ⊎ (128 ≤ result.value) }
{
    if byte < 128 {
        return Character {
            value: char::from(byte),
            end: at + 1,
        };
    }
    match char_at(text, at) {
        Some(value) => Character {
            value,
            end: at + value.len_utf8(),
        },
        None => unreachable!(),
    }
}

/// The character at a place, decoded; none at the end of the text.
fn char_at(text: &str, at: usize) -> Option<char>
    requires { IsCharBoundary text.now at }
    ensures { ReadsAt text.now at result }
{
    text[at..].chars().next()
}
