//! Comments that mark what stands behind them: pure comments, and no-side-effects comments.

ghost use Rattle.std.specs.Prelude.{◌≡◌, ◌<◌, IsTrue, length, nat_lt, chars};
ghost use Rattle.std.specs.List.{list_all, All};
ghost use Rattle.js_base.specs.Spans.{LiesIn};
ghost use Rattle.part_words.specs.js_grammar.CoreTexts.{occurs};
ghost use Rattle.js_lex.specs.Comments.{sort_of, has_before, AreInOrder};

use crate::comment::Comments;
use part_words::character::next_character;
use part_words::place::goes_on;

/// The sorts of comments that mark what stands behind them.
#[derive(Clone, Copy)]
pub(crate) enum Sort {
    /// It holds `@__PURE__` or `#__PURE__`.
    Pure,
    /// It holds `@__NO_SIDE_EFFECTS__` or `#__NO_SIDE_EFFECTS__`.
    NoSideEffects,
}

/// Whether a comment of a sort is attached to a place. Where the comments are known to stand in the order of the places
/// that they are attached to, only those that are attached to it or to a place behind it are looked at.
pub(crate) fn is_marked(
    text: &str,
    comments: &Comments,
    in_order: bool,
    place: u32,
    sort: Sort,
) -> bool
    requires lie { All (λ c. LiesIn c.span text.now) comments.now }
    requires order { IsTrue in_order → AreInOrder comments.now }
    ensures { result ≡ has_before (sort_of sort) text.now place comments.now }
{
    let mut left = comments.len();
    'comments: while left > 0 {
        let comment = comments[left - 1];
        if comment.attached_to == place {
            let words = &text[comment.span.start as usize..comment.span.end as usize];
            if is_of_sort(words, sort) {
                return true;
            }
        } else if in_order && comment.attached_to < place {
            return false;
        }
        left -= 1;
    }
    false
}

/// Whether a comment is of a sort.
fn is_of_sort(comment: &str, sort: Sort) -> bool
    ensures { result ≡ sort_of sort (chars comment.now) }
{
    match sort {
        Sort::Pure => holds(comment, b"@__PURE__") || holds(comment, b"#__PURE__"),
        Sort::NoSideEffects => {
            holds(comment, b"@__NO_SIDE_EFFECTS__") || holds(comment, b"#__NO_SIDE_EFFECTS__")
        }
    }
}

/// Whether a word of ASCII characters stands somewhere in a text.
fn holds(text: &str, word: &[u8]) -> bool
    requires ascii { IsTrue (list_all (λ c. nat_lt c 128) word.now) }
    requires some { 0 < length word.now }
    ensures { result ≡ occurs word.now (chars text.now) }
{
    let mut at = 0;
    'places: while let Some(next) = next_character(text, at) {
        if goes_on(text, at, word) {
            return true;
        }
        at = next.end;
    }
    false
}
