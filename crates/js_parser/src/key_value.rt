//! Values of keys, which are compared (ECMA-262, section 16.2.2.1).

ghost use Rattle.std.specs.Prelude.{◌≡◌, ◌++◌, bytes_eq, chars, IfOk, OnOk};
ghost use Rattle.std.proofs.Common.{rules};
ghost use Rattle.std.specs.Char.Escape.{encode_utf16};
ghost use Rattle.std.specs.Hash as fed;
ghost use Rattle.std.specs.Cmp.{partial_equiv_from_equiv};
ghost use Rattle.std.specs.Cmp.Lexicographic.{nat_list_eq_equiv};
ghost use Rattle.std.specs.Cmp.Rules.{hashing};
ghost use Rattle.js_base.specs.part_text.Escapes.{code_units};

use js_base::{JsStr, NoMemory};
use std::alloc::Global;
use std::hash::{Hash, Hasher};
use std::marker::Model;

/// The value of a key, seen as its code units (section 6.1.4). It may hold lone surrogates.
#[derive(Drop)]
pub struct KeyValue {
    units: Vec<u16>,
}

impl Model for KeyValue {
    ghost use Rattle.std.specs.Prelude.{ℕ, List};

    ghost Value = { List ℕ };

    ghost view = { λ v. v.units.items };
}

impl KeyValue {
    /// That of a name that is this text.
    pub fn of_name(alloc: Global, name: &str) -> Result<Self, NoMemory>
        ensures { IfOk result (λ value. value ≡ code_units (chars name.now)) }
    {
        let mut units = Vec::new(alloc);
        for c in name.chars() {
            push_character(&mut units, c)?;
        }
        Ok(KeyValue { units })
    }

    /// That of a string with these code units.
    pub fn of_string(alloc: Global, string: &JsStr) -> Result<Self, NoMemory>
        ensures { IfOk result (λ value. value ≡ string.now) }
    {
        let mut units = Vec::new(alloc);
        for i in 0..string.len() {
            if let Some(unit) = string.unit(i) {
                units.push(unit)?;
            }
        }
        Ok(KeyValue { units })
    }
}

impl PartialEq for KeyValue {
    ghost eq = { bytes_eq };

    ghost laws = { partial_equiv_from_equiv nat_list_eq_equiv };

    /// Whether the code units are the same.
    fn eq(&self, other: &KeyValue) -> bool {
        self.units == other.units
    }
}

impl Eq for KeyValue {
    ghost laws = { nat_list_eq_equiv };
}

impl Hash for KeyValue {
    ghost hash_input = { fed.slice fed.u16 };

    ghost respects_eq = { Prim.search (hashing, rules) };

    /// Hashes the code units.
    fn hash<H: Hasher>(&self, state: &mut H) {
        self.units.hash(state);
    }
}

/// Appends the code units of a character (section 11.1.1).
fn push_character(units: &mut Vec<u16>, c: char) -> Result<(), NoMemory>
    ensures { OnOk result (units.new.items ≡ units.old.items ++ encode_utf16 c) }
{
    let code_point = c as u32;
    if code_point < 0x1_0000 {
        units.push(code_point as u16)?;
    } else {
        let above = code_point - 0x1_0000;
        units.push((0xD800 + above / 0x400) as u16)?;
        units.push((0xDC00 + above % 0x400) as u16)?;
    }
    Ok(())
}
