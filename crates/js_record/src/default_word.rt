//! Where the word `default` stands behind `export` (ECMA-262, 16.2.3).

ghost use Rattle.std.specs.Prelude.{◌≡◌, ◌+◌, ◌≤◌, ℕ, chars, length, true, IfOk};
ghost use Rattle.js_base.specs.part_text.Characters.{is_line_terminator};
ghost use Rattle.js_grammar.specs.Modules as def;
ghost use Rattle.js_grammar.specs.Modules.{default_from, outside};
ghost use Rattle.js_grammar.specs.Trees.{Label};
ghost use Rattle.js_record.specs.Between.{between, next_of, begins};

use js_base::{MAX_LEN, NoMemory, Span};

/// How many bytes the word `export` has.
const EXPORT: usize = 6;

/// How many bytes the word `default` has.
const DEFAULT: u32 = 7;

/// Where a character stands between the two words.
#[derive(Clone, Copy)]
enum Between {
    /// In no comment.
    Outside,
    /// Behind the slash that begins a comment.
    Slash,
    /// In a comment that ends with its line.
    InLine,
    /// In another comment.
    InBlock,
    /// In such a comment, behind a star.
    BehindStar,
}

impl Between {
    /// Whether the second word begins with this character.
    fn begins(self, c: char) -> bool
        ensures { result ≡ begins (between self) c }
    {
        matches!(self, Between::Outside) && c == 'd'
    }

    /// Where the next character stands behind this one, with which the word doesn't begin.
    fn behind(self, c: char) -> Between
        ensures { between result ≡ next_of (between self) c }
    {
        match self {
            Between::Outside if c == '/' => Between::Slash,
            Between::Outside => Between::Outside,
            Between::Slash if c == '*' => Between::InBlock,
            Between::Slash => Between::InLine,
            Between::InLine if is_line_terminator(c) => Between::Outside,
            Between::InLine => Between::InLine,
            Between::InBlock | Between::BehindStar if c == '*' => Between::BehindStar,
            Between::BehindStar if c == '/' => Between::Outside,
            Between::InBlock | Between::BehindStar => Between::InBlock,
        }
    }
}

/// LineTerminator (ECMA-262, section 12.3).
fn is_line_terminator(c: char) -> bool
    ensures { result ≡ is_line_terminator c }
{
    c == '\n' || c == '\r' || c == '\u{2028}' || c == '\u{2029}'
}

/// The word `default` of the declaration that begins at the place with `export`. Want of memory is answered where no character
/// begins behind that word, too.
pub(crate) fn default_word(source: &str, from: u32) -> Result<Span, NoMemory>
    ensures { IfOk result (λ word. (l : Label) → l.span.from ≡ from → word ≡ def.default_word source.now l) }
{
    let behind = from as usize + EXPORT;
    if !source.is_char_boundary(behind) {
        return Err(NoMemory);
    }
    let start = behind + first_word(&source[behind..]);
    if start > MAX_LEN {
        return Err(NoMemory);
    }
    let start = start as u32;
    Ok(Span::new(start, start + DEFAULT))
}

/// Where the first `d` stands that is in no comment; where the text ends, if there is none.
fn first_word(text: &str) -> usize
    ensures is { (at : ℕ) → default_from outside at (chars text.now) ≡ at + result }
    ensures within { result ≤ length text.now }
{
    let mut between = Between::Outside;
    for (place, c) in text.char_indices() {
        if between.begins(c) {
            return place;
        }
        between = between.behind(c);
    }
    text.len()
}
