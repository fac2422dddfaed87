//! What is read from nodes together with their text.

ghost use Rattle.std.specs.Prelude.{◌≡◌, ◌<◌, length, Some, None, IfOk, IsSome, chars, encode_utf8_all, slice_range, OnOk, ℕ, List, ◌∷◌, ◌++◌, ◌==◌, not, filter, string_bytes};
ghost use Rattle.js_base.specs.Spans.{LiesIn};
ghost use Rattle.js_tree.specs.Nodes.{node_at};
ghost use Rattle.js_tree.specs.Sources.{text_of, name_of, IsString, units_of, IsKey, prop_name_of};
ghost use Rattle.js_tree.specs.Sources as sources;
ghost use Rattle.js_base.specs.part_text.Escapes.{line_feeds_after};
ghost use Rattle.js_base.specs.part_text.Decoding.{raw_text, string_points};
ghost use Rattle.js_base.specs.declared.kind.Kind.TheVariants.{Str};
ghost use Rattle.js_grammar.specs.NodeNames.{without_sign};
ghost use Rattle.js_grammar.specs.Strings.{string_kind, string_inside};

use crate::columns::Columns;
use crate::id::NodeId;
use crate::kind::NodeKind;
use js_base::{JsStr, NoMemory, Span, Text, decode_string};
use std::alloc::{AllocError, Global};

/// The text at a span.
fn slice_at(source: &str, span: Span) -> &str
    requires { LiesIn span source.now }
    ensures { result.now ≡ slice_range source.now span.start span.end }
{
    &source[span.start as usize..span.end as usize]
}

/// The name of a PrivateIdentifier (ECMA-262, section 12.7) without the `#` before it, without copying; any other name
/// begins with no `#` and stays.
pub fn without_sign(name: &str) -> &str
    ensures { result.now ≡ without_sign name.now }
{
    name.strip_prefix('#').unwrap_or(name)
}

impl Columns {
    /// The text at a node's span, without copying.
    pub(crate) fn text<'s>(&self, id: NodeId, source: &'s str) -> &'s str
        requires contained { id.0 < length self.now }
        requires lies { LiesIn (node_at self.now id).span source.now }
        ensures { result.now ≡ text_of (node_at self.now id) source.now }
    {
        slice_at(source, self.span(id))
    }

    /// The name of a node, without copying.
    pub(crate) fn name<'s>(&'s self, id: NodeId, source: &'s str) -> &'s str
        requires contained { id.0 < length self.now }
        requires lies { LiesIn (node_at self.now id).span source.now }
        ensures { result.now ≡ name_of (node_at self.now id) source.now }
    {
        match self.kept_name(id) {
            Some(name) => name.as_str(),
            None => without_sign(self.text(id, source)),
        }
    }
}

/// A text with CR LF and CR as LF (ECMA-262, section 12.9.6.2).
pub(crate) fn with_line_feeds(alloc: Global, text: &str) -> Result<Text, NoMemory>
    ensures { IfOk result (λ t. t ≡ encode_utf8_all (raw_text (chars text.now))) }
{
    let mut lines = String::new(alloc);
    let mut after_carriage = false;
    for c in text.chars() {
        push_character(&mut lines, after_carriage, c)?;
        after_carriage = c == '\r';
    }
    Text::from_str(alloc, lines.as_str())
}

/// A character of a text, where CR LF and CR count as LF.
fn push_character(lines: &mut String, after_carriage: bool, c: char) -> Result<(), NoMemory>
    ensures { OnOk result ((cs : List ℕ) → string_bytes lines.new ++ encode_utf8_all (line_feeds_after (c == 13) cs) ≡ string_bytes lines.old ++ encode_utf8_all (line_feeds_after after_carriage (c ∷ cs))) }
{
    if c == '\r' {
        lines.push('\n')?;
        return Ok(());
    }
    if after_carriage && c == '\n' {
        return Ok(());
    }
    lines.push(c)?;
    Ok(())
}

/// The digits of a big integer without prefix, separators and the `n` behind them.
pub(crate) fn digits_of(alloc: Global, number: &str) -> Result<Text, NoMemory>
    ensures { IfOk result (λ t. t ≡ encode_utf8_all (sources.digits_of (chars number.now))) }
{
    let all = characters(alloc, number)?;
    let digits = without_prefix(all.as_slice());
    let count = digits.len().saturating_sub(1);
    let kept = without_separators(alloc, &digits[..count])?;
    Text::from_str(alloc, kept.as_str())
}

/// The characters of a text.
fn characters(alloc: Global, text: &str) -> Result<Vec<char>, AllocError>
    ensures { IfOk result (λ all. all.items ≡ chars text.now) }
{
    text.chars().collect(alloc)
}

/// The UTF-8 of characters, separators aside.
fn without_separators(alloc: Global, digits: &[char]) -> Result<String, AllocError>
    ensures { IfOk result (λ s. string_bytes s ≡ encode_utf8_all (filter (λ c. not (c == 95)) digits.now)) }
{
    digits.iter().copied().filter(|c| *c != '_').collect(alloc)
}

/// The characters of a number without `0b`, `0o` or `0x`.
fn without_prefix(number: &[char]) -> &[char]
    ensures { result.now ≡ sources.without_prefix number.now }
{
    match number {
        [_, 'b' | 'B' | 'o' | 'O' | 'x' | 'X', ..] => &number[2..],
        _ => number,
    }
}

/// What stands between the quotes of a string literal.
fn between_quotes(literal: &str) -> &str
    requires { string_kind (chars literal.now) ≡ Some Str }
    ensures inside { chars result.now ≡ string_inside (chars literal.now) }
    ensures right { IsSome (string_points (chars result.now)) }
{
    &literal[1..literal.len() - 1]
}

/// The text that code units spell; none where a surrogate stands alone.
fn spelled(alloc: Global, units: &JsStr) -> Result<Option<Text>, NoMemory>
    ensures { IfOk result (λ text. text ≡ sources.spelled units.now) }
{
    let mut all = Vec::new(alloc);
    for i in 0..units.len() {
        if let Some(unit) = units.unit(i) {
            all.push(unit)?;
        }
    }
    match String::from_utf16(alloc, all.as_slice())? {
        Ok(text) => Ok(Some(Text::from_str(alloc, text.as_str())?)),
        Err(_) => Ok(None),
    }
}

impl Columns {
    /// The code units that a string literal stands for.
    pub(crate) fn string_value(
        &self,
        alloc: Global,
        id: NodeId,
        source: &str,
    ) -> Result<JsStr, NoMemory>
        requires contained { id.0 < length self.now }
        requires lies { LiesIn (node_at self.now id).span source.now }
        requires string { IsString (node_at self.now id) source.now }
        ensures { IfOk result (λ units. Some units ≡ units_of (node_at self.now id) source.now) }
    {
        decode_string(alloc, between_quotes(self.text(id, source)))
    }

    /// The name of a key; none of a node that is none, or that is a string literal with a lone surrogate.
    pub(crate) fn prop_name(
        &self,
        alloc: Global,
        id: NodeId,
        source: &str,
    ) -> Result<Option<Text>, NoMemory>
        requires contained { id.0 < length self.now }
        requires lies { LiesIn (node_at self.now id).span source.now }
        requires key { IsKey (node_at self.now id).kind (node_at self.now id) source.now }
        ensures { IfOk result (λ name. name ≡ prop_name_of (node_at self.now id) source.now) }
    {
        match self.kind(id) {
            NodeKind::IdentifierName | NodeKind::PrivateIdentifier => {
                Ok(Some(Text::from_str(alloc, self.name(id, source))?))
            }
            NodeKind::StringLiteral => {
                let units = self.string_value(alloc, id, source)?;
                spelled(alloc, &units)
            }
            _ => Ok(None),
        }
    }
}
