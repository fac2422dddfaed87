//! Spans of a text.

ghost use Rattle.std.specs.Prelude.{◌≡◌, ◌++◌, ◌+◌, ◌^◌, ◌<◌, ◌≤◌, min, max, OnOk};
ghost use Rattle.std.specs.Fmt.{decimal};
ghost use Rattle.js_base.specs.Spans.{span_text};

use itoa::Buffer;
use part_memory::{List, NoMemory};

/// Byte places in a text: from `start` up to but not including `end`, with `start` at most `end`.
#[derive(Debug, Clone, Copy, PartialEq, Eq)]
pub struct Span {
    /// The place of the first byte.
    pub start: u32,
    /// The place behind the last byte.
    pub end: u32,
}

/// A list of spans.
pub type Spans = List<Span>;

impl Span {
    /// The span from one byte place to another, which may not stand before it.
    pub fn new(start: u32, end: u32) -> Span
        requires { start ≤ end }
        ensures start { result.start ≡ start }
        ensures end { result.end ≡ end }
    {
        Span { start, end }
    }

    /// The span of `size` bytes from a place on; its end has to fit a `u32`.
    pub fn sized(start: u32, size: u32) -> Span
        requires { start + size < 2 ^ 32 }
        ensures start { result.start ≡ start }
        ensures end { result.end ≡ start + size }
    {
        Span {
            start,
            end: start + size,
        }
    }

    /// The span of no byte at a place.
    pub fn empty(at: u32) -> Span
        ensures start { result.start ≡ at }
        ensures end { result.end ≡ at }
    {
        Span { start: at, end: at }
    }

    /// The least span that holds both.
    pub fn merge(self, other: Span) -> Span
        ensures start { result.start ≡ min self.start other.start }
        ensures end { result.end ≡ max self.end other.end }
    {
        Span {
            start: self.start.min(other.start),
            end: self.end.max(other.end),
        }
    }

    /// Writes its two places in decimal, with `..` between them.
    pub fn write(self, out: &mut Vec<u8>) -> Result<(), NoMemory>
        ensures { OnOk result (out.new.items ≡ out.old.items ++ span_text self) }
    {
        write_decimal(out, self.start)?;
        out.extend_from_slice(b"..")?;
        write_decimal(out, self.end)
    }
}

/// Writes a number in decimal.
fn write_decimal(out: &mut Vec<u8>, n: u32) -> Result<(), NoMemory>
    ensures { OnOk result (out.new.items ≡ out.old.items ++ decimal n) }
{
    let mut buffer = Buffer::new();
    out.extend_from_slice(buffer.format(n).as_bytes())?;
    Ok(())
}
