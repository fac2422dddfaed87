//! The hashbang comment (ECMA-262, section 12.5).

ghost use Rattle.std.specs.Prelude.{MatchOption};
ghost use Rattle.part_words.specs.js_grammar.Lexemes.{hashbang};
ghost use Rattle.part_words.specs.Scans.{IsScanned, NoLexeme};
ghost use Rattle.js_lex.specs.Hashbangs.{OpeningEnds};

use crate::trivia::line_end;
use js_base::Kind;
use part_words::character::next_character;
use part_words::scan::Scanned;

/// The hashbang comment at a byte offset, up to the end of the line; none where the offset is not the text's start or
/// the text does not begin with `#!` (ECMA-262, section 12.5).
pub(crate) fn hashbang_at(text: &str, at: usize) -> Option<Scanned>
    ensures { MatchOption result (NoLexeme hashbang text.now at) (λ s. IsScanned hashbang text.now at s) }
{
    if at != 0 {
        return None;
    }
    match opening_end(text) {
        None => None,
        Some(opening) => Some(Scanned {
            kind: Kind::HashbangComment,
            end: line_end(text, opening),
            escaped: false,
            has_separator: false,
        }),
    }
}

/// The place behind the `#!` with which a text begins; none where it does not.
fn opening_end(text: &str) -> Option<usize>
    ensures { OpeningEnds text.now result }
{
    let Some(first) = next_character(text, 0) else {
        return None;
    };
    if first.value != '#' {
        return None;
    }
    let Some(second) = next_character(text, first.end) else {
        return None;
    };
    if second.value != '!' {
        return None;
    }
    Some(second.end)
}
