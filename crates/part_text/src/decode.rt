//! What the inside of a string literal, the inside of a template part, and a name stand for.

ghost use Rattle.std.specs.Prelude.{◌≡◌, ◌≤◌, ℕ, List, [], ◌∷◌, ◌++◌, ◌==◌, if◌then◌else◌, true, IfOk, OnOk, IfSome, IsSome, Some, IsTrue, option_map, chars};
ghost use Rattle.std.specs.List.{list_all, flat_map};
ghost use Rattle.std.specs.Char.{encode_utf8};
ghost use Rattle.part_text.specs.Characters.{is_scalar};
ghost use Rattle.part_text.specs.Escapes as escape;
ghost use Rattle.part_text.specs.Escapes.{Where};
ghost use Rattle.part_text.specs.Decoding.{string_points, string_units, cooked, name_text};
ghost use Rattle.part_text.specs.CodePointEscapes.{stage_of, fits, is_point};
ghost use Rattle.part_text.specs.DecodingSteps.{form_of, state_of, progress_of, points_of, units_from, utf8_from};

use crate::code_point_escape::{CodePointEscape, CodePointStep};
use crate::text::{JsStr, Text};
use part_memory::NoMemory;
use std::alloc::Global;

/// What the characters are part of.
#[derive(Clone, Copy)]
pub(crate) enum Form {
    /// A name.
    Name,
    /// The inside of a string literal.
    Inside,
    /// The inside of a template part.
    Part,
}

/// What stands directly before a character.
#[derive(Clone, Copy)]
pub(crate) enum State {
    /// No part of an escape.
    Outside,
    /// A backslash.
    Backslash,
    /// In a template, a backslash and `0`.
    Nul,
    /// An escape that names a code point by hexadecimal digits.
    Point(CodePointEscape),
    /// A backslash and an octal digit or two, how many more may follow, and the value of those before.
    Octal(u32, u32),
}

/// The code points that a character completes.
#[derive(Clone, Copy)]
pub(crate) enum Points {
    Nothing,
    One(u32),
    Two(u32, u32),
}

/// The state after a character, and the code points that are complete.
#[derive(Clone, Copy)]
pub(crate) struct Progress {
    pub state: State,
    pub points: Points,
}

/// The code units that the inside of a string literal stands for, outside strict mode: its SV (ECMA-262, section
/// 12.9.4.2). CR LF and CR count as LF. Condition: each escape in it is well-formed.
pub fn decode_string(alloc: Global, raw: &str) -> Result<JsStr, NoMemory>
    requires { IsSome (string_points (chars raw.now)) }
    ensures { IfOk result (λ units. Some units ≡ string_units (chars raw.now)) }
{
    match cook(alloc, Form::Inside, raw)? {
        Some(units) => Ok(units),
        None => unreachable!(),
    }
}

/// The code units that the inside of a template part stands for: its TV (ECMA-262, section 12.9.6.1). CR LF and CR
/// count as LF. `None` exactly where an escape in it is ill-formed.
pub fn decode_template(alloc: Global, raw: &str) -> Result<Option<JsStr>, NoMemory>
    ensures { IfOk result (λ units. units ≡ cooked (chars raw.now)) }
{
    cook(alloc, Form::Part, raw)
}

/// The UTF-8 of the characters that a name stands for, each escape in it for the character that it names (ECMA-262,
/// section 12.7.1). Condition: each escape in it is well-formed and names a Unicode scalar value.
pub fn decode_name(alloc: Global, raw: &str) -> Result<Text, NoMemory>
    requires { IsSome (name_text (chars raw.now)) }
    ensures { IfOk result (λ text. Some text ≡ name_text (chars raw.now)) }
{
    match spell(alloc, raw)? {
        Some(text) => Ok(text),
        None => unreachable!(),
    }
}

/// The UTF-8 of the characters that a name stands for; `None` exactly where an escape in it is ill-formed or names a
/// surrogate.
fn spell(alloc: Global, raw: &str) -> Result<Option<Text>, NoMemory>
    ensures { IfOk result (λ text. text ≡ name_text (chars raw.now)) }
{
    let mut text = Text::new(alloc);
    let mut state = State::Outside;
    for c in raw.chars() {
        match feed_name(&mut text, state, c)? {
            Some(next) => state = next,
            None => return Ok(None),
        }
    }
    let Some(points) = finish(state) else {
        return Ok(None);
    };
    if push_characters(&mut text, points)? {
        Ok(Some(text))
    } else {
        Ok(None)
    }
}

/// Reads a character of a name; the state after it, or none where no escape goes on so or one names a surrogate.
fn feed_name(text: &mut Text, state: State, c: char) -> Result<Option<State>, NoMemory>
    requires { IsTrue (fits (state_of state)) }
    ensures read { IfOk result (λ next. (cs : List ℕ) → utf8_from text.new (option_map state_of next) cs ≡ utf8_from text.old (Some (state_of state)) (c ∷ cs)) }
    ensures fits { IfOk result (λ next. IfSome next (λ s. IsTrue (fits (state_of s)))) }
{
    let Some(progress) = step(Form::Name, state, c) else {
        return Ok(None);
    };
    if push_characters(text, progress.points)? {
        Ok(Some(progress.state))
    } else {
        Ok(None)
    }
}

/// The UTF-8 of code points, at the end; whether each is a Unicode scalar value.
fn push_characters(text: &mut Text, points: Points) -> Result<bool, NoMemory>
    ensures scalar { IfOk result (λ all. all ≡ list_all is_scalar (points_of points)) }
    ensures text { IfOk result (λ all. IsTrue all → text.new ≡ text.old ++ flat_map encode_utf8 (points_of points)) }
{
    match points {
        Points::Nothing => Ok(true),
        Points::One(first) => push_character(text, first),
        Points::Two(first, second) => {
            if !push_character(text, first)? {
                return Ok(false);
            }
            push_character(text, second)
        }
    }
}

/// The UTF-8 of a code point, at the end; whether it is a Unicode scalar value.
fn push_character(text: &mut Text, code_point: u32) -> Result<bool, NoMemory>
    ensures scalar { IfOk result (λ is. is ≡ is_scalar code_point) }
    ensures text { IfOk result (λ is. IsTrue is → text.new ≡ text.old ++ encode_utf8 code_point) }
{
    match char::from_u32(code_point) {
        Some(c) => {
            text.push(c)?;
            Ok(true)
        }
        None => Ok(false),
    }
}

/// The code units that an inside stands for; `None` exactly where an escape in it is ill-formed.
fn cook(alloc: Global, form: Form, raw: &str) -> Result<Option<JsStr>, NoMemory>
    ensures { IfOk result (λ units. units ≡ option_map escape.code_units (escape.code_points (form_of form) (escape.line_feeds (chars raw.now)))) }
{
    let mut units = JsStr::new(alloc);
    let mut state = State::Outside;
    let mut after_carriage = false;
    for c in raw.chars() {
        match feed_line(&mut units, form, state, after_carriage, c)? {
            Some(next) => state = next,
            None => return Ok(None),
        }
        after_carriage = c == '\r';
    }
    let Some(points) = finish(state) else {
        return Ok(None);
    };
    push_points(&mut units, points)?;
    Ok(Some(units))
}

/// Reads a character, where CR LF and CR count as LF; the state after it, or none where no escape goes on so.
fn feed_line(
    units: &mut JsStr,
    form: Form,
    state: State,
    after_carriage: bool,
    c: char,
) -> Result<Option<State>, NoMemory>
    requires { IsTrue (fits (state_of state)) }
    ensures read { IfOk result (λ next. (cs : List ℕ) → units_from (form_of form) units.new (option_map state_of next) (escape.line_feeds_after (c == 13) cs) ≡ units_from (form_of form) units.old (Some (state_of state)) (escape.line_feeds_after after_carriage (c ∷ cs))) }
    ensures fits { IfOk result (λ next. IfSome next (λ s. IsTrue (fits (state_of s)))) }
{
    if c == '\r' {
        return feed(units, form, state, '\n');
    }
    if after_carriage && c == '\n' {
        return Ok(Some(state));
    }
    feed(units, form, state, c)
}

/// Reads a character; the state after it, or none where no escape goes on so.
fn feed(units: &mut JsStr, form: Form, state: State, c: char) -> Result<Option<State>, NoMemory>
    requires { IsTrue (fits (state_of state)) }
    ensures read { IfOk result (λ next. (cs : List ℕ) → units_from (form_of form) units.new (option_map state_of next) cs ≡ units_from (form_of form) units.old (Some (state_of state)) (c ∷ cs)) }
    ensures fits { IfOk result (λ next. IfSome next (λ s. IsTrue (fits (state_of s)))) }
{
    let Some(progress) = step(form, state, c) else {
        return Ok(None);
    };
    push_points(units, progress.points)?;
    Ok(Some(progress.state))
}

/// The code units of code points, at the end.
fn push_points(units: &mut JsStr, points: Points) -> Result<(), NoMemory>
    requires { IsTrue (list_all is_point (points_of points)) }
    ensures { OnOk result (units.new ≡ units.old ++ escape.code_units (points_of points)) }
{
    match points {
        Points::Nothing => Ok(()),
        Points::One(first) => units.push_code_point(first),
        Points::Two(first, second) => {
            units.push_code_point(first)?;
            units.push_code_point(second)
        }
    }
}

/// The code points that the end completes, or none where it cuts an escape off.
pub(crate) fn finish(state: State) -> Option<Points>
    ensures { option_map points_of result ≡ escape.finish (state_of state) }
{
    match state {
        State::Outside => Some(Points::Nothing),
        State::Nul => Some(Points::One(0)),
        State::Octal(_, value) => Some(Points::One(value)),
        State::Backslash | State::Point(_) => None,
    }
}

/// The state after a character and the code points that it completes, or none where no escape goes on so.
pub(crate) fn step(form: Form, state: State, c: char) -> Option<Progress>
    requires { IsTrue (fits (state_of state)) }
    ensures { option_map progress_of result ≡ escape.step (form_of form) (state_of state) c }
{
    match state {
        State::Outside => plainly(c),
        State::Backslash => begun(form, c),
        State::Nul => nul(c),
        State::Point(before) => point(before, c),
        State::Octal(more, value) => octal(more, value, c),
    }
}

/// The character goes on with an escape, and completes nothing.
fn goes_on(state: State) -> Option<Progress>
    ensures { option_map progress_of result ≡ escape.go (state_of state) [] }
{
    Some(Progress {
        state,
        points: Points::Nothing,
    })
}

/// The character completes a code point.
fn completes(code_point: u32) -> Option<Progress>
    ensures { option_map progress_of result ≡ escape.go escape.outside (code_point ∷ []) }
{
    Some(Progress {
        state: State::Outside,
        points: Points::One(code_point),
    })
}

/// A character outside escapes.
fn plainly(c: char) -> Option<Progress>
    ensures { option_map progress_of result ≡ escape.plainly c }
{
    if c == '\\' {
        goes_on(State::Backslash)
    } else {
        completes(c as u32)
    }
}

/// A character behind a code point that it doesn't go on with.
fn after(code_point: u32, c: char) -> Option<Progress>
    ensures { option_map progress_of result ≡ (if c == 92 then escape.go escape.backslash (code_point ∷ []) else escape.go escape.outside (code_point ∷ c ∷ [])) }
{
    if c == '\\' {
        Some(Progress {
            state: State::Backslash,
            points: Points::One(code_point),
        })
    } else {
        Some(Progress {
            state: State::Outside,
            points: Points::Two(code_point, c as u32),
        })
    }
}

/// A character behind a backslash.
fn begun(form: Form, c: char) -> Option<Progress>
    ensures { option_map progress_of result ≡ escape.begun (form_of form) c }
{
    match form {
        Form::Name => {
            if c == 'u' {
                goes_on(State::Point(CodePointEscape::Unicode))
            } else {
                None
            }
        }
        Form::Inside => match c.to_digit(8) {
            Some(digit) => goes_on(State::Octal(if c < '4' { 2 } else { 1 }, digit)),
            None => begun_other(c),
        },
        Form::Part => {
            if c == '0' {
                goes_on(State::Nul)
            } else if c.is_digit(10) {
                None
            } else {
                begun_other(c)
            }
        }
    }
}

/// A character behind a backslash that no digit rule reads.
fn begun_other(c: char) -> Option<Progress>
    ensures { option_map progress_of result ≡ escape.begun_unicode c }
{
    match c {
        'u' => goes_on(State::Point(CodePointEscape::Unicode)),
        'x' => goes_on(State::Point(CodePointEscape::Due(2, 0))),
        '\n' | '\r' | '\u{2028}' | '\u{2029}' => goes_on(State::Outside),
        _ => completes(single_escape(c)),
    }
}

/// What a character behind a backslash stands for.
fn single_escape(c: char) -> u32
    ensures { result ≡ escape.single_escape c }
{
    match c {
        'b' => 8,
        't' => 9,
        'n' => 10,
        'v' => 11,
        'f' => 12,
        'r' => 13,
        _ => c as u32,
    }
}

/// A character of an escape that names a code point.
fn point(before: CodePointEscape, c: char) -> Option<Progress>
    requires { fits (stage_of before) ≡ true }
    ensures { (w : Where) → option_map progress_of result ≡ escape.step w (stage_of before) c }
{
    match before.step(c) {
        CodePointStep::Goes(next) => goes_on(State::Point(next)),
        CodePointStep::Names(code_point) => completes(code_point),
        CodePointStep::Fails => None,
    }
}

/// A character behind `\0` in a template.
fn nul(c: char) -> Option<Progress>
    ensures { option_map progress_of result ≡ escape.step escape.in_template escape.nul c }
{
    if c.is_digit(10) { None } else { after(0, c) }
}

/// A character behind a backslash and octal digits.
fn octal(more: u32, value: u32, c: char) -> Option<Progress>
    requires { value ≤ 0x10_FFFF }
    ensures { option_map progress_of result ≡ escape.step escape.in_string (escape.octal more value) c }
{
    match c.to_digit(8) {
        Some(digit) => {
            if more > 0 {
                goes_on(State::Octal(more - 1, value * 8 + digit))
            } else {
                after(value, c)
            }
        }
        None => after(value, c),
    }
}
