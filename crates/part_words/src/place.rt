//! Bytes and characters at a place of a text.

ghost use Rattle.std.specs.Prelude.{◌≡◌, ◌≤◌, ◌<◌, ◌+◌, ◌==◌, [], ◌∷◌, length, nat_lt, IsTrue, IsCharBoundary};
ghost use Rattle.std.specs.List.{list_all};
ghost use Rattle.js_base.specs.part_text.Characters.{one_of};
ghost use Rattle.js_grammar.specs.CoreTexts.{starts};
ghost use Rattle.js_grammar.specs.LexicalFaults.{behind};
ghost use Rattle.part_words.specs.Places.{Word, PeeksAt, Finds, in_radix};

/// The byte at a place, or none at the end of the text.
#[inline]
pub fn byte_at(text: &str, at: usize) -> Option<u8>
    requires { IsCharBoundary text.now at }
    ensures { PeeksAt text.now at result }
{
    let bytes = text.as_bytes();
    if at < bytes.len() {
        Some(bytes[at])
    } else {
        None
    }
}

/// Whether the text goes on at a place with some ASCII characters.
pub fn goes_on(text: &str, at: usize, characters: &[u8]) -> bool
    requires boundary { IsCharBoundary text.now at }
    requires ascii { IsTrue (list_all (λ c. nat_lt c 128) characters.now) }
    ensures is { result ≡ starts characters.now (behind text.now at) }
    ensures word { IsTrue result → Word text.now at (at + length characters.now) characters.now }
{
    let mut end = at;
    for character in characters {
        match byte_at(text, end) {
            Some(byte) if byte == *character => end += 1,
            _ => return false,
        }
    }
    true
}

/// Whether an ASCII character stands at a place.
pub fn is_at(text: &str, at: usize, byte: u8) -> bool
    requires boundary { IsCharBoundary text.now at }
    requires ascii { byte < 128 }
    ensures { Finds (λ c. c == byte) text.now at result }
{
    match byte_at(text, at) {
        Some(b) => b == byte,
        None => false,
    }
}

/// Whether one of two ASCII characters stands at a place.
pub fn is_either_at(text: &str, at: usize, first: u8, second: u8) -> bool
    requires boundary { IsCharBoundary text.now at }
    requires ascii { first < 128 }
    requires ascii_too { second < 128 }
    ensures { Finds (one_of (first ∷ second ∷ [])) text.now at result }
{
    match byte_at(text, at) {
        Some(b) => b == first || b == second,
        None => false,
    }
}

/// Whether a digit of a radix stands at a place (12.9.3).
pub fn digit_at(text: &str, at: usize, radix: u32) -> bool
    requires boundary { IsCharBoundary text.now at }
    requires radix { 2 ≤ radix }
    requires radix_within { radix ≤ 16 }
    ensures { Finds (in_radix radix) text.now at result }
{
    match byte_at(text, at) {
        Some(b) => char::from(b).is_digit(radix),
        None => false,
    }
}
