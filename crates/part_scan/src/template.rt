//! Template parts (ECMA-262, section 12.9.6).

ghost use Rattle.std.specs.Prelude.{◌+◌, [], ◌∷◌, IsCharBoundary};
ghost use Rattle.part_words.specs.js_grammar.Lexemes.{division, template_tail};
ghost use Rattle.part_scan.specs.declared.template.Before.TheVariants.{Other};
ghost use Rattle.part_words.specs.Places.{Word};
ghost use Rattle.part_words.specs.Scans.{Scans};
ghost use Rattle.part_scan.specs.TemplateParts.{PartEnds, Steps, IsPart, IsUnended};

use js_base::{DiagnosticKind, Kind};
use part_words::character::next_character;
use part_words::scan::{Fault, Scan, Scanned};

/// The end of a template part.
#[derive(Clone, Copy)]
struct PartEnd {
    /// The place behind the backquote or the `${` that ends the part.
    end: usize,
    /// Whether `${` ends it.
    opens_substitution: bool,
}

/// What stands directly before a character of a template part.
#[derive(Clone, Copy)]
enum Before {
    /// Nothing that tells on the character.
    Other,
    /// A backslash that no backslash escapes.
    Backslash,
    /// A dollar sign that no backslash escapes.
    Dollar,
}

/// What a character of a template part does.
#[derive(Clone, Copy)]
enum Step {
    /// It is of the inside.
    On(Before),
    /// It ends the part; whether as the brace of `${`.
    Ends(bool),
}

/// The template part that a backquote opens at a byte offset: NoSubstitutionTemplate or TemplateHead (ECMA-262,
/// section 12.9.6). Where nothing ends it, a fault from there to the text's end.
pub fn template_at(text: &str, at: usize) -> Scan
    requires boundary { IsCharBoundary text.now at }
    requires opening { Word text.now at (at + 1) (96 ∷ []) }
    ensures { Scans division text.now at result }
{
    match part_end(text, at + 1) {
        Some(part) => Ok(part_of(Kind::NoSubstitutionTemplate, Kind::TemplateHead, part)),
        None => Err(unterminated(text, at)),
    }
}

/// The template part that a right brace opens at a byte offset: TemplateTail or TemplateMiddle (ECMA-262, section
/// 12.9.6). Where nothing ends it, a fault from there to the text's end.
pub fn template_tail_at(text: &str, at: usize) -> Scan
    requires boundary { IsCharBoundary text.now at }
    requires opening { Word text.now at (at + 1) (125 ∷ []) }
    ensures { Scans template_tail text.now at result }
{
    match part_end(text, at + 1) {
        Some(part) => Ok(part_of(Kind::TemplateTail, Kind::TemplateMiddle, part)),
        None => Err(unterminated(text, at)),
    }
}

/// A part of the first kind where a backquote ends it, and of the second where `${` does.
fn part_of(closing: Kind, opening: Kind, part: PartEnd) -> Scanned
    ensures { IsPart result part closing opening }
{
    Scanned {
        kind: if part.opens_substitution {
            opening
        } else {
            closing
        },
        end: part.end,
        escaped: false,
        has_separator: false,
    }
}

/// The fault of a part that nothing ends.
fn unterminated(text: &str, at: usize) -> Fault
    ensures { IsUnended text.now at result }
{
    Fault {
        kind: DiagnosticKind::UnterminatedTemplate,
        start: at,
        end: text.len(),
    }
}

/// Where the template part ends of which the inside begins at a byte offset (ECMA-262, section 12.9.6); none where
/// neither a backquote nor `${` ends it.
fn part_end(text: &str, at: usize) -> Option<PartEnd>
    requires { IsCharBoundary text.now at }
    ensures { PartEnds text.now at result }
{
    let mut end = at;
    let mut before = Before::Other;
    'part: while let Some(next) = next_character(text, end) {
        end = next.end;
        match read_in_part(before, next.value) {
            Step::On(read) => before = read,
            Step::Ends(opens_substitution) => {
                return Some(PartEnd {
                    end,
                    opens_substitution,
                });
            }
        }
    }
    None
}

/// What a character does that stands behind another in a template part.
fn read_in_part(before: Before, c: char) -> Step
    ensures { Steps before c result }
{
    match before {
        Before::Backslash => Step::On(Before::Other),
        Before::Dollar if c == '{' => Step::Ends(true),
        _ => read_alone(c),
    }
}

/// What a character does that stands behind none that tells on it.
fn read_alone(c: char) -> Step
    ensures { Steps Other c result }
{
    match c {
        '`' => Step::Ends(false),
        '\\' => Step::On(Before::Backslash),
        '$' => Step::On(Before::Dollar),
        _ => Step::On(Before::Other),
    }
}
