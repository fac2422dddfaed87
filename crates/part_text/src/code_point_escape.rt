//! Escapes that name a code point by hexadecimal digits, one character after the other (ECMA-262, sections 12.7 and
//! 12.9.4).

ghost use Rattle.std.specs.Prelude.{◌≡◌, true};
ghost use Rattle.part_text.specs.CodePointEscapes.{stage_of, step_of, fits, step_fits};
ghost use Rattle.part_text.specs.Escapes as escape;
ghost use Rattle.part_text.specs.Escapes.{Where};

/// What stands directly before a character of such an escape.
#[derive(Debug, Clone, Copy)]
pub enum CodePointEscape {
    /// A backslash and `u`.
    Unicode,
    /// An escape of which so many hexadecimal digits are due, and the value of those before.
    Due(u32, u32),
    /// `\u{`, whether a digit stands behind it, and the value of the digits.
    Braced(bool, u32),
}

/// What a character does to such an escape.
#[derive(Debug, Clone, Copy)]
pub enum CodePointStep {
    /// The escape goes on.
    Goes(CodePointEscape),
    /// It ends, and names a code point.
    Names(u32),
    /// No escape goes on so.
    Fails,
}

impl CodePointEscape {
    /// What a character does to the escape. Condition: the value so far is one of so many digits.
    pub fn step(self, c: char) -> CodePointStep
        requires { fits (stage_of self) ≡ true }
        ensures step { (w : Where) → step_of result ≡ escape.step w (stage_of self) c }
        ensures fits { step_fits result ≡ true }
    {
        match self {
            CodePointEscape::Unicode => behind_unicode(c),
            CodePointEscape::Due(due, value) => behind_digits(due, value, c),
            CodePointEscape::Braced(any, value) => behind_brace(any, value, c),
        }
    }
}

/// A character behind `\u`.
fn behind_unicode(c: char) -> CodePointStep
    ensures step { step_of result ≡ escape.step escape.in_name escape.unicode c }
    ensures fits { step_fits result ≡ true }
{
    if c == '{' {
        return CodePointStep::Goes(CodePointEscape::Braced(false, 0));
    }
    match c.to_digit(16) {
        Some(digit) => CodePointStep::Goes(CodePointEscape::Due(3, digit)),
        None => CodePointStep::Fails,
    }
}

/// A character where hexadecimal digits are due.
fn behind_digits(due: u32, value: u32, c: char) -> CodePointStep
    requires { fits (escape.due due value) ≡ true }
    ensures step { step_of result ≡ escape.step escape.in_name (escape.due due value) c }
    ensures fits { step_fits result ≡ true }
{
    match c.to_digit(16) {
        Some(digit) => {
            let more = value * 16 + digit;
            if due <= 1 {
                CodePointStep::Names(more)
            } else {
                CodePointStep::Goes(CodePointEscape::Due(due - 1, more))
            }
        }
        None => CodePointStep::Fails,
    }
}

/// A character behind `\u{` and the digits there.
fn behind_brace(any: bool, value: u32, c: char) -> CodePointStep
    requires { fits (escape.braced any value) ≡ true }
    ensures step { step_of result ≡ escape.step escape.in_name (escape.braced any value) c }
    ensures fits { step_fits result ≡ true }
{
    match c.to_digit(16) {
        Some(digit) => {
            let more = value * 16 + digit;
            if more <= 0x10_FFFF {
                CodePointStep::Goes(CodePointEscape::Braced(true, more))
            } else {
                CodePointStep::Fails
            }
        }
        None => {
            if any && c == '}' {
                CodePointStep::Names(value)
            } else {
                CodePointStep::Fails
            }
        }
    }
}
