//! What is noted of parentheses, and of heads that are attempted; and what goes with an attempt that is taken back.

ghost use Rattle.std.specs.Prelude.{◌≡◌, ◌<◌, true, length, take, IfOk};
ghost use Rattle.parse_arrows.specs.Prelude.{closing_known, is_place, NotesOne};

use js_base::NoMemory;
use parse_shared::{ParserConfig, ParserImpl};

/// Whether `=>` stands behind the parentheses that begin behind a place; `None` where that isn't noted.
pub(crate) fn arrow_behind<C: ParserConfig>(p: &ParserImpl<'_, C>, place: u32) -> Option<bool>
    ensures { result ≡ closing_known p.now.state place }
{
    p.state.arrow_behind(place)
}

/// Whether it is noted that it does.
pub(crate) fn is_arrow_noted<C: ParserConfig>(p: &ParserImpl<'_, C>, place: u32) -> bool
    ensures { result ≡ true → is_place p.now.state.arrows place ≡ true }
{
    matches!(arrow_behind(p, place), Some(true))
}

/// Notes whether it does.
pub(crate) fn note_closing<C: ParserConfig>(
    p: &mut ParserImpl<'_, C>,
    place: u32,
    is_arrow: bool,
) -> Result<(), NoMemory>
    ensures { IfOk result (λ _. NotesOne place is_arrow p.old p.new) }
{
    p.state.note_closing(place, is_arrow)
}

/// Notes up to which place the text was looked through.
pub(crate) fn set_looked<C: ParserConfig>(p: &mut ParserImpl<'_, C>, place: u32)
    ensures { p.new ≡ record p.old { state = record p.old.state { looked = place } } }
{
    p.state.set_looked(place);
}

/// Notes whether a head is being attempted.
pub(crate) fn set_attempting<C: ParserConfig>(p: &mut ParserImpl<'_, C>, is_attempting: bool)
    ensures { p.new ≡ record p.old { state = record p.old.state { attempting = is_attempting } } }
{
    p.state.set_attempting(is_attempting);
}

/// How many nodes there are, one at least.
pub(crate) fn node_count<C: ParserConfig>(p: &ParserImpl<'_, C>) -> usize
    ensures count { result ≡ length p.now.nodes }
    ensures some { 0 < result }
{
    p.ast.len()
}

/// Keeps the first nodes, so many, and drops those that an attempt made behind them.
pub(crate) fn drop_nodes<C: ParserConfig>(p: &mut ParserImpl<'_, C>, nodes: usize)
    requires { 0 < nodes }
    ensures { p.new ≡ record p.old { nodes = take nodes p.old.nodes } }
{
    p.ast.truncate(nodes);
}
