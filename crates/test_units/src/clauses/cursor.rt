//! Calls of `js_cursor`.

ghost use Rattle.std.specs.Prelude.{◌≡◌, ◌≤◌, ◌↔◌, IsTrue, OnOk, OnErr};
ghost use Rattle.js_cursor.specs.Places.{IsAt};
ghost use Rattle.js_cursor.specs.Checkpoints.{MayGoBack, GoesBack};
ghost use Rattle.js_cursor.specs.Moves.{Leaves, MayEnd, NotesArrow, Opened, Steps};

use js_base::{Kind, NoMemory, Span};
use js_cursor::{ListStep, ParserCheckpoint, ParserConfig, ParserImpl, Stop};

/// `ParserImpl::can_insert_semicolon`.
pub fn can_insert_semicolon<C: ParserConfig>(p: &ParserImpl<'_, C>) -> bool
    ensures { IsTrue result ↔ MayEnd p.now }
{
    p.can_insert_semicolon()
}

/// `ParserImpl::delimited_step`.
pub fn delimited_step<C: ParserConfig>(
    p: &mut ParserImpl<'_, C>,
    close: Kind,
    opening: Span,
    first: bool,
) -> Result<ListStep, Stop>
    requires at { IsAt p.old }
    requires opened { Opened p.old opening }
    ensures { Steps close opening first p.old p.new result }
{
    p.delimited_step(close, opening, first)
}

/// `ParserImpl::leave`.
pub fn leave<C: ParserConfig>(p: &mut ParserImpl<'_, C>, levels: u32)
    requires at { IsAt p.old }
    requires entered { levels ≤ p.old.depth }
    ensures { Leaves levels p.old p.new }
{
    p.leave(levels);
}

/// `ParserImpl::note_arrow_failed`.
pub fn note_arrow_failed<C: ParserConfig>(
    p: &mut ParserImpl<'_, C>,
    place: u32,
) -> Result<(), NoMemory>
    requires { IsAt p.old }
    ensures ok { OnOk result (NotesArrow place p.old p.new) }
    ensures err { OnErr result (p.new ≡ p.old) }
{
    p.note_arrow_failed(place)
}

/// `ParserImpl::rewind`.
pub fn rewind<C: ParserConfig>(p: &mut ParserImpl<'_, C>, c: ParserCheckpoint)
    requires at { IsAt p.old }
    requires may { MayGoBack c p.old }
    ensures { GoesBack c p.old p.new }
{
    p.rewind(c);
}
