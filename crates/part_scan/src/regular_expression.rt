//! Regular expression literals (ECMA-262, section 12.9.5) and their flags.

ghost use Rattle.std.specs.Prelude.{◌≡◌, ◌+◌, ◌||◌, [], ◌∷◌, IsCharBoundary, MatchResult, codes, false, not};
ghost use Rattle.js_base.specs.part_text.Characters.{one_of};
ghost use Rattle.part_words.specs.js_grammar.Characters.{begins};
ghost use Rattle.part_words.specs.js_grammar.Lexemes.{regular_expression};
ghost use Rattle.part_words.specs.js_grammar.LexicalFaults.{behind};
ghost use Rattle.part_words.specs.Places.{Word};
ghost use Rattle.part_words.specs.Scans.{IsStopped};
ghost use Rattle.part_scan.specs.RegularExpressionParts.{ends_bracketed, Steps, PatternEnds, FlagAt, TellsFlag, IsRegularExpression};

use js_base::DiagnosticKind;
use part_words::character::next_character;
use part_words::class::is_line_terminator;
use part_words::part::parts_end;
use part_words::scan::Fault;

/// A regular expression literal.
#[derive(Clone, Copy)]
pub struct RegularExpression {
    /// The place behind the slash that ends the pattern, where the flags begin.
    pub pattern_end: usize,
    /// The place behind the flags.
    pub end: usize,
}

/// A flag of a regular expression literal.
#[derive(Clone, Copy)]
pub struct Flag {
    /// The place behind it.
    pub end: usize,
    /// Whether it is none of the eight flags, or stands before too.
    pub is_wrong: bool,
    /// The flags that are seen with it.
    pub seen: Seen,
}

/// Which of the eight flags are seen.
#[derive(Clone, Copy)]
pub struct Seen {
    d: bool,
    g: bool,
    i: bool,
    m: bool,
    s: bool,
    u: bool,
    v: bool,
    y: bool,
}

/// None of them.
pub const NONE_SEEN: Seen = Seen {
    d: false,
    g: false,
    i: false,
    m: false,
    s: false,
    u: false,
    v: false,
    y: false,
};

/// Where in a pattern a character stands.
#[derive(Clone, Copy)]
struct Inside {
    /// In brackets.
    brackets: bool,
    /// Directly behind a backslash that no backslash escapes.
    escaped: bool,
}

/// What a character of a pattern does.
#[derive(Clone, Copy)]
enum Step {
    /// It is of the pattern.
    On(Inside),
    /// It is the slash that ends the pattern.
    Ends,
    /// It ends the line.
    LineEnds,
}

/// The regular expression literal that a slash opens at a byte offset, with as many flags as name characters follow
/// (ECMA-262, section 12.9.5). Where nothing ends the pattern, a fault from there to the end of the line. Condition:
/// the slash begins no comment.
pub fn regular_expression_at(text: &str, at: usize) -> Result<RegularExpression, Fault>
    requires boundary { IsCharBoundary text.now at }
    requires opening { Word text.now at (at + 1) (47 ∷ []) }
    requires no_comment { begins (one_of (codes "*/")) (behind text.now (at + 1)) ≡ false }
    ensures { MatchResult result (λ r. IsRegularExpression text.now at r) (λ f. IsStopped regular_expression text.now at f) }
{
    match pattern_end(text, at + 1) {
        Ok(pattern_end) => Ok(RegularExpression {
            pattern_end,
            end: parts_end(text, pattern_end, false),
        }),
        Err(line_end) => Err(Fault {
            kind: DiagnosticKind::UnterminatedRegexp,
            start: at,
            end: line_end,
        }),
    }
}

/// The place behind the slash that ends the pattern which begins at a byte offset; where none does, the end of the
/// line.
fn pattern_end(text: &str, at: usize) -> Result<usize, usize>
    requires { IsCharBoundary text.now at }
    ensures { PatternEnds text.now at result }
{
    let mut end = at;
    let mut inside = Inside {
        brackets: false,
        escaped: false,
    };
    'pattern: while let Some(next) = next_character(text, end) {
        match read_in_pattern(inside, next.value) {
            Step::On(read) => inside = read,
            Step::Ends => return Ok(next.end),
            Step::LineEnds => return Err(end),
        }
        end = next.end;
    }
    Err(end)
}

/// What a character does in a pattern.
fn read_in_pattern(inside: Inside, c: char) -> Step
    ensures { Steps inside c result }
{
    if is_line_terminator(c) {
        return Step::LineEnds;
    }
    if inside.escaped {
        return Step::On(Inside {
            brackets: inside.brackets,
            escaped: false,
        });
    }
    if c == '/' && !inside.brackets {
        return Step::Ends;
    }
    Step::On(Inside {
        brackets: is_bracketed(inside.brackets, c),
        escaped: c == '\\',
    })
}

/// Whether the characters behind an unescaped one stand in brackets, where it does or does not.
fn is_bracketed(brackets: bool, c: char) -> bool
    ensures { result ≡ ends_bracketed brackets c }
{
    (brackets && c != ']') || c == '['
}

/// The flag at a byte offset, where some are seen before it; none at the text's end.
pub fn flag_at(text: &str, at: usize, seen: Seen) -> Option<Flag>
    requires { IsCharBoundary text.now at }
    ensures { FlagAt text.now at seen result }
{
    match next_character(text, at) {
        None => None,
        Some(next) => Some(flag_of(next.value, next.end, seen)),
    }
}

/// A flag up to a byte offset. It is wrong where it is none of `d g i m s u v y`, or is seen already (ECMA-262, section
/// 13.2.7.2).
fn flag_of(flag: char, end: usize, seen: Seen) -> Flag
    ensures end { result.end ≡ end }
    ensures tells { TellsFlag seen flag result }
{
    let (is_wrong, seen) = match flag {
        'd' => (seen.d, Seen { d: true, ..seen }),
        'g' => (seen.g, Seen { g: true, ..seen }),
        'i' => (seen.i, Seen { i: true, ..seen }),
        'm' => (seen.m, Seen { m: true, ..seen }),
        's' => (seen.s, Seen { s: true, ..seen }),
        'u' => (seen.u, Seen { u: true, ..seen }),
        'v' => (seen.v, Seen { v: true, ..seen }),
        'y' => (seen.y, Seen { y: true, ..seen }),
        _ => (true, seen),
    };
    Flag {
        end,
        is_wrong,
        seen,
    }
}
