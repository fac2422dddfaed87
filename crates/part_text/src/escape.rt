//! The first ill-formed escape in the inside of a string literal.

ghost use Rattle.std.specs.Prelude.{◌≡◌, List, ℕ, IsTrue, IfSome, chars};
ghost use Rattle.part_text.specs.CodePointEscapes.{fits};
ghost use Rattle.part_text.specs.DecodingSteps.{state_of};
ghost use Rattle.part_text.specs.InvalidEscapes.{TellsEscape, IsRead, ReadsOn, ReadsAs, bytes_of};

use crate::decode::{Form, State, finish, step};

/// An ill-formed escape in the inside of a string literal.
#[derive(Debug, Drop)]
pub struct InvalidEscape {
    /// The place of its backslash, in bytes from the beginning of the inside.
    pub start: usize,
    /// The place before the first character with which no escape goes on, or the end of the inside.
    pub end: usize,
}

/// What is known after some characters.
#[derive(Clone, Copy)]
pub(crate) struct Reading {
    pub state: State,
    /// Whether a CR stands directly before.
    pub after_carriage: bool,
    /// The place of the last backslash that begins an escape.
    pub backslash: usize,
}

/// The first ill-formed escape in the inside of a string literal, outside strict mode; `None` exactly where each escape
/// is well-formed (ECMA-262, section 12.9.4). CR LF and CR count as LF.
pub fn invalid_escape(inside: &str) -> Option<InvalidEscape>
    ensures { TellsEscape (chars inside.now) result }
{
    let mut reading = Reading {
        state: State::Outside,
        after_carriage: false,
        backslash: 0,
    };
    for (place, c) in inside.char_indices() {
        match read(reading, place, c) {
            Some(next) => reading = next,
            None => {
                return Some(InvalidEscape {
                    start: reading.backslash,
                    end: place,
                });
            }
        }
    }
    match finish(reading.state) {
        Some(_) => None,
        None => Some(InvalidEscape {
            start: reading.backslash,
            end: inside.len(),
        }),
    }
}

/// Reads the character at a place; none where no escape goes on so.
fn read(reading: Reading, place: usize, c: char) -> Option<Reading>
    requires { IsTrue (fits (state_of reading.state)) }
    ensures read { (w : List ℕ) → place ≡ bytes_of w → IsRead w reading → ReadsOn w reading c result }
    ensures fits { IfSome result (λ r. IsTrue (fits (state_of r.state))) }
{
    if c == '\r' {
        return read_plainly(reading, place, '\n', true);
    }
    if reading.after_carriage && c == '\n' {
        return Some(Reading {
            state: reading.state,
            after_carriage: false,
            backslash: reading.backslash,
        });
    }
    read_plainly(reading, place, c, false)
}

/// Reads a character, as what a line terminator counts as.
fn read_plainly(reading: Reading, place: usize, c: char, after_carriage: bool) -> Option<Reading>
    requires { IsTrue (fits (state_of reading.state)) }
    ensures read { ReadsAs reading place c after_carriage result }
    ensures fits { IfSome result (λ r. IsTrue (fits (state_of r.state))) }
{
    let Some(progress) = step(Form::Inside, reading.state, c) else {
        return None;
    };
    match progress.state {
        State::Backslash => Some(Reading {
            state: State::Backslash,
            after_carriage,
            backslash: place,
        }),
        state => Some(Reading {
            state,
            after_carriage,
            backslash: reading.backslash,
        }),
    }
}
