//! The flags of a regular expression (ECMA-262, section 12.9.5).

ghost use Rattle.std.specs.Prelude.{◌≡◌, ◌∷◌, [], ℕ, List, chars, unwrap_or};
ghost use Rattle.js_base.specs.part_text.Characters as base;
ghost use Rattle.js_grammar.specs.RegularExpressions.{behind_pattern, flags};
ghost use Rattle.js_parser.specs.FlagScans.{both_among, both_behind};

/// Where in a pattern the next character stands.
#[derive(Clone, Copy)]
struct Inside {
    /// In brackets.
    brackets: bool,
    /// Directly behind a backslash that no backslash escapes.
    escaped: bool,
}

/// Which of two flags were read.
#[derive(Clone, Copy)]
struct Seen {
    u: bool,
    v: bool,
}

/// What of a regular expression was read.
#[derive(Clone, Copy)]
enum Read {
    /// Nothing.
    Nothing,
    /// The slash that opens it.
    Slash,
    /// A part of its pattern too.
    Pattern(Inside),
    /// The pattern, and some flags.
    Flags(Seen),
    /// It is none.
    Other,
}

/// Whether a regular expression has the flags `u` and `v`, both.
pub fn has_u_and_v(literal: &str) -> bool
    ensures { result ≡ both_among (unwrap_or (flags (chars literal.now)) []) }
{
    let mut read = Read::Nothing;
    for c in literal.chars() {
        read = read_character(read, c);
    }
    has_both(read)
}

/// What was read with one character more.
fn read_character(read: Read, c: char) -> Read
    ensures { (cs : List ℕ) → both_behind result cs ≡ both_behind read (c ∷ cs) }
{
    match read {
        Read::Nothing => { if c == '/' { Read::Slash } else { Read::Other } }
        Read::Slash => read_first(c),
        Read::Pattern(inside) => read_in_pattern(inside, c),
        Read::Flags(seen) => Read::Flags(Seen {
            u: seen.u || c == 'u',
            v: seen.v || c == 'v',
        }),
        Read::Other => Read::Other,
    }
}

/// The same of the first character behind the slash, which would begin a comment as a star or a slash.
fn read_first(c: char) -> Read
    ensures { (cs : List ℕ) → both_behind result cs ≡ both_among (unwrap_or (flags (47 ∷ c ∷ cs)) []) }
{
    if c == '*' || c == '/' {
        return Read::Other;
    }
    let inside = Inside {
        brackets: false,
        escaped: false,
    };
    read_in_pattern(inside, c)
}

/// The same of a character of a pattern.
fn read_in_pattern(inside: Inside, c: char) -> Read
    ensures { (cs : List ℕ) → both_behind result cs ≡ both_among (unwrap_or (behind_pattern inside.brackets inside.escaped (c ∷ cs)) []) }
{
    if is_line_terminator(c) {
        return Read::Other;
    }
    if inside.escaped {
        return Read::Pattern(Inside {
            brackets: inside.brackets,
            escaped: false,
        });
    }
    if c == '/' && !inside.brackets {
        return Read::Flags(Seen { u: false, v: false });
    }
    Read::Pattern(Inside {
        brackets: (inside.brackets && c != ']') || c == '[',
        escaped: c == '\\',
    })
}

/// LineTerminator (ECMA-262, section 12.3).
fn is_line_terminator(c: char) -> bool
    ensures { result ≡ base.is_line_terminator c }
{
    c == '\n' || c == '\r' || c == '\u{2028}' || c == '\u{2029}'
}

/// Whether both flags were read, where nothing is left.
fn has_both(read: Read) -> bool
    ensures { result ≡ both_behind read [] }
{
    match read {
        Read::Flags(seen) => seen.u && seen.v,
        _ => false,
    }
}
