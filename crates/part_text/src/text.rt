//! Texts: of characters, as UTF-8, and of JavaScript, as 16-bit code units.

ghost use Rattle.std.specs.Prelude.{◌≡◌, ◌≤◌, [], ◌++◌, bytes_eq, length, IfOk, OnOk, not, slice_get};
ghost use Rattle.std.proofs.Common.{rules};
ghost use Rattle.std.specs.Char.{encode_utf8};
ghost use Rattle.std.specs.Char.Escape.{encode_utf16};
ghost use Rattle.std.specs.Char.Utf16.{has_unpaired_surrogate};
ghost use Rattle.std.specs.Hash as fed;
ghost use Rattle.std.specs.Cmp.{partial_equiv_from_equiv};
ghost use Rattle.std.specs.Cmp.Lexicographic.{nat_list_eq_equiv};
ghost use Rattle.std.specs.Cmp.Rules.{hashing};

use part_memory::NoMemory;
use std::alloc::Global;
use std::hash::{Hash, Hasher};
use std::marker::Model;

/// A text of characters, seen as its UTF-8 bytes.
#[derive(Drop)]
pub struct Text {
    text: String,
}

impl Model for Text {
    ghost use Rattle.std.specs.Prelude.{ℕ, List, string_bytes};

    ghost Value = { List ℕ };

    ghost view = { λ t. string_bytes t.text };
}

impl Text {
    /// The empty text; it takes no memory.
    pub(crate) fn new(alloc: Global) -> Self
        ensures { result ≡ [] }
    {
        Text {
            text: String::new(alloc),
        }
    }

    /// The UTF-8 of a character, at the end.
    pub(crate) fn push(&mut self, c: char) -> Result<(), NoMemory>
        ensures { OnOk result (self.new ≡ self.old ++ encode_utf8 c) }
    {
        self.text.push(c)?;
        Ok(())
    }

    /// A text with the same bytes; the only error is want of memory.
    pub fn from_str(alloc: Global, text: &str) -> Result<Self, NoMemory>
        ensures { IfOk result (λ t. t ≡ text.now) }
    {
        Ok(Text {
            text: String::from_str(alloc, text)?,
        })
    }

    /// The text.
    pub fn as_str(&self) -> &str
        ensures { result.now ≡ self.now }
    {
        self.text.as_str()
    }
}

impl PartialEq for Text {
    ghost eq = { bytes_eq };

    ghost laws = { partial_equiv_from_equiv nat_list_eq_equiv };

    /// Whether the bytes are the same.
    fn eq(&self, other: &Text) -> bool {
        self.as_str() == other.as_str()
    }
}

impl Eq for Text {
    ghost laws = { nat_list_eq_equiv };
}

impl Hash for Text {
    ghost hash_input = { fed.str };

    ghost respects_eq = { Prim.search (hashing, rules) };

    /// Hashes the bytes, as the text's `&str` is hashed.
    fn hash<H: Hasher>(&self, state: &mut H) {
        self.as_str().hash(state);
    }
}

/// The text of a string of JavaScript, seen as its code units (ECMA-262, section 6.1.4). It may hold lone surrogates.
#[derive(Drop)]
pub struct JsStr {
    units: Vec<u16>,
}

impl Model for JsStr {
    ghost use Rattle.std.specs.Prelude.{ℕ, List};

    ghost Value = { List ℕ };

    ghost view = { λ s. s.units.items };
}

impl JsStr {
    /// The empty text; it takes no memory.
    pub(crate) fn new(alloc: Global) -> Self
        ensures { result ≡ [] }
    {
        JsStr {
            units: Vec::new(alloc),
        }
    }

    /// The code units of a code point, at the end (ECMA-262, section 11.1.1).
    pub(crate) fn push_code_point(&mut self, code_point: u32) -> Result<(), NoMemory>
        requires { code_point ≤ 0x10_FFFF }
        ensures { OnOk result (self.new ≡ self.old ++ encode_utf16 code_point) }
    {
        if code_point < 0x1_0000 {
            self.units.push(code_point as u16)?;
        } else {
            let above = code_point - 0x1_0000;
            self.units.push((0xD800 + above / 0x400) as u16)?;
            self.units.push((0xDC00 + above % 0x400) as u16)?;
        }
        Ok(())
    }

    /// How many code units there are.
    pub fn len(&self) -> usize
        ensures { result ≡ length self.now }
    {
        self.units.len()
    }

    /// The code unit at a place, counted from 0; none exactly where the place isn't below the length.
    pub fn unit(&self, i: usize) -> Option<u16>
        ensures { result ≡ slice_get self.now i }
    {
        self.units.get(i).copied()
    }

    /// Whether each surrogate is half of a pair (ECMA-262, section 6.1.4); false exactly where a lone surrogate stands.
    pub fn is_well_formed(&self) -> bool
        ensures { result ≡ not (has_unpaired_surrogate self.now) }
    {
        is_paired(self.units.as_slice())
    }
}

/// Whether each surrogate is half of a pair.
fn is_paired(units: &[u16]) -> bool
    ensures { result ≡ not (has_unpaired_surrogate units.now) }
{
    let mut after_high = false;
    for unit in units {
        let is_low = (0xDC00..0xE000).contains(unit);
        if after_high != is_low {
            return false;
        }
        after_high = (0xD800..0xDC00).contains(unit);
    }
    !after_high
}
