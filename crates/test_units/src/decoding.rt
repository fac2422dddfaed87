//! What the insides of strings, parts of templates and names stand for.

ghost use Rattle.std.specs.Prelude.{IsTrue, IsSome, chars};
ghost use Rattle.js_base.specs.part_text.Decoding.{name_text};

use js_base::{JsStr, decode_name, decode_string, decode_template, invalid_escape};
use std::alloc::Global;

/// Whether a text has these code units.
fn has_units(text: &JsStr, units: &[u16]) -> bool {
    if text.len() != units.len() {
        return false;
    }
    for i in 0..units.len() {
        if text.unit(i) != units.get(i).copied() {
            return false;
        }
    }
    true
}

/// Whether the inside of a string is well-formed and stands for these code units.
fn string_has(alloc: Global, raw: &str, units: &[u16]) -> bool {
    if invalid_escape(raw).is_some() {
        return false;
    }
    match decode_string(alloc, raw) {
        Ok(text) => has_units(&text, units),
        Err(_) => false,
    }
}

/// The inside of a string, and its code units.
static STRINGS: [(&str, &[u16]); 13] = [
    ("", &[]),
    (r"\uD83D\u{DE00}", &[0xD83D, 0xDE00]),
    (r"\u{1F600}", &[0xD83D, 0xDE00]),
    ("\u{1F600}", &[0xD83D, 0xDE00]),
    (r"\uDE00\uD83D", &[0xDE00, 0xD83D]),
    (r"\x41", &[0x41]),
    (r"\101", &[0x41]),
    (r"\0", &[0]),
    (r"\400", &[0x20, 0x30]),
    (r"\8", &[0x38]),
    (r"\b\t\n\v\f\r\q", &[8, 9, 10, 11, 12, 13, 0x71]),
    ("a\\\nb", &[0x61, 0x62]),
    ("a\\\r\nb", &[0x61, 0x62]),
];

#[test]
fn strings(rt: HostRuntime) {
    for &(raw, units) in &STRINGS {
        assert!(rt; string_has(rt.alloc(), raw, units), "{raw}");
    }
}

/// A part of a template, and its code units; none where an escape is ill-formed.
static PARTS: [(&str, Option<&[u16]>); 11] = [
    ("", Some(&[])),
    (r"a\u{1F600}", Some(&[0x61, 0xD83D, 0xDE00])),
    (r"\uD83D", Some(&[0xD83D])),
    (r"\0", Some(&[0])),
    ("\r\n", Some(&[10])),
    ("\r\r\n\n", Some(&[10, 10, 10])),
    ("a\\\r\nb", Some(&[0x61, 0x62])),
    (r"\01", None),
    (r"\8", None),
    (r"\u{110000}", None),
    (r"\xg", None),
];

/// Whether there are these code units, or none.
fn is_wanted(text: &Option<JsStr>, wanted: Option<&[u16]>) -> bool {
    match (text, wanted) {
        (Some(text), Some(units)) => has_units(text, units),
        (None, None) => true,
        _ => false,
    }
}

/// Whether a part of a template stands for these code units, or for none.
fn part_has(alloc: Global, raw: &str, wanted: Option<&[u16]>) -> bool {
    match decode_template(alloc, raw) {
        Ok(text) => is_wanted(&text, wanted),
        Err(_) => false,
    }
}

#[test]
fn template_parts(rt: HostRuntime) {
    for &(raw, wanted) in &PARTS {
        assert!(rt; part_has(rt.alloc(), raw, wanted), "{raw}");
    }
}

/// A part of a template whose escapes spell code units, these units, and whether each surrogate is half of a pair.
static SURROGATES: [(&str, &[u16], bool); 5] = [
    ("", &[], true),
    (r"a\uD83D\uDE00", &[0x61, 0xD83D, 0xDE00], true),
    (r"\uD83D", &[0xD83D], false),
    (r"\uDE00\uD83D", &[0xDE00, 0xD83D], false),
    (r"\uD83D\uD83D\uDE00", &[0xD83D, 0xD83D, 0xDE00], false),
];

/// Whether a text has as many code units as these and the same first one, and is well-formed or not.
fn is_formed(text: &JsStr, units: &[u16], well_formed: bool) -> bool {
    text.len() == units.len()
        && text.unit(0) == units.first().copied()
        && text.is_well_formed() == well_formed
}

/// Whether a part of a template stands for a text that `is_formed`.
fn part_is(alloc: Global, raw: &str, units: &[u16], well_formed: bool) -> bool {
    match decode_template(alloc, raw) {
        Ok(Some(text)) => is_formed(&text, units, well_formed),
        _ => false,
    }
}

#[test]
fn surrogates(rt: HostRuntime) {
    for &(raw, units, well_formed) in &SURROGATES {
        assert!(rt; part_is(rt.alloc(), raw, units, well_formed), "{raw}");
    }
}

/// Whether it is one of the names without escapes of the rows.
fn is_plain(raw: &str) -> bool
    ensures { IsTrue result → IsSome (name_text (chars raw.now)) }
{
    matches!(raw, "plain" | "\u{E9}")
}

/// Whether it is one of the names with escapes of the rows.
fn is_escaped(raw: &str) -> bool
    ensures { IsTrue result → IsSome (name_text (chars raw.now)) }
{
    matches!(raw, "\\u0061b" | "\\u{61}wait" | "x\\u{1D7D8}")
}

/// Whether a name stands for a text.
fn name_is(alloc: Global, raw: &str, wanted: &str) -> bool {
    if !is_plain(raw) && !is_escaped(raw) {
        return false;
    }
    match decode_name(alloc, raw) {
        Ok(text) => text.as_str() == wanted,
        Err(_) => false,
    }
}

/// A name, and the text that it stands for.
static NAMES: [(&str, &str); 5] = [
    ("plain", "plain"),
    (r"\u0061b", "ab"),
    (r"\u{61}wait", "await"),
    (r"x\u{1D7D8}", "x\u{1D7D8}"),
    ("\u{E9}", "\u{E9}"),
];

#[test]
fn names(rt: HostRuntime) {
    for &(raw, wanted) in &NAMES {
        assert!(rt; name_is(rt.alloc(), raw, wanted), "{raw}");
    }
}
