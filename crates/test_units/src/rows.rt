//! What the rows of trees and of records share.

ghost use Rattle.std.specs.Prelude.{IsTrue};
ghost use Rattle.js_base.specs.Spans.{LiesIn};

use js_base::{NoMemory, Span};
use js_tree::NodeId;
use std::alloc::Global;

/// Whether what was to be shown is so; not where memory is wanting.
pub(crate) fn is_so(given: Result<bool, NoMemory>) -> bool {
    matches!(given, Ok(true))
}

/// The slots of a step, taken from the end of the nodes that are in none yet.
pub(crate) fn slots_of(
    alloc: Global,
    free: &mut Vec<NodeId>,
    slots: &str,
) -> Result<Vec<Option<NodeId>>, NoMemory> {
    let mut taken = Vec::new(alloc);
    for slot in slots.bytes().rev() {
        taken.push(if slot == b'n' { free.pop() } else { None })?;
    }
    taken.reverse();
    Ok(taken)
}

/// Whether a span lies in a text of ASCII, whose characters no span splits.
pub(crate) fn lies_in(source: &str, span: Span) -> bool
    ensures { IsTrue result → LiesIn span source.now }
{
    source.is_ascii() && span.start <= span.end && span.end as usize <= source.len()
}
