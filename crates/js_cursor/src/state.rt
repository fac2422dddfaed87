//! What a parser notes on its way.

ghost use Rattle.std.specs.Prelude.{◌≡◌, ◌<◌, ℕ, List, [], ◌∷◌, ◌++◌, length, take, Some, OnOk, OnErr};
ghost use Rattle.js_base.specs.Contexts.{bits_of};
ghost use Rattle.js_cursor.specs.Histories.{standing, without, Pops};
ghost use Rattle.js_cursor.specs.Notes.{HasNone, NotesClosing, NotesFailed, NotesOperand, NotesPlace, closing_known, is_noted, noted_number};

use crate::history::History;
use js_base::{Context, NoMemory, Span};
use js_tree::NodeId;
use std::alloc::Global;
use std::collections::BTreeSet;
use std::marker::Model;

/// A shorthand property with `=`, which is right in a target alone.
#[derive(Debug, Clone, Copy, PartialEq, Eq)]
pub struct CoverInitializer {
    /// Where it stands.
    pub span: Span,
    /// The node of its initialiser.
    pub init: NodeId,
}

/// Places, each by the parameters in force there.
#[derive(Drop)]
pub(crate) struct NotedPlaces {
    numbers: BTreeSet<u64>,
}

impl Model for NotedPlaces {
    ghost Value = { List ℕ };

    ghost view = { λ f. f.numbers.keys };
}

/// A place and the parameters in force there, as one number.
fn noted_number(ctx: Context, place: u32) -> u64
    ensures number { result ≡ noted_number ctx place }
    ensures small { bits_of ctx < 65536 }
{
    u64::from(place) * 65_536 + u64::from(ctx.number())
}

impl NotedPlaces {
    fn new(alloc: Global) -> Self
        ensures { result ≡ [] }
    {
        NotedPlaces {
            numbers: BTreeSet::new(alloc),
        }
    }

    fn contains(&self, ctx: Context, place: u32) -> bool
        ensures found { result ≡ is_noted self.now ctx place }
        ensures small { bits_of ctx < 65536 }
    {
        self.numbers.contains(&noted_number(ctx, place))
    }

    fn insert(&mut self, ctx: Context, place: u32) -> Result<(), NoMemory>
        ensures ok { OnOk result (NotesPlace ctx place self.old self.new) }
        ensures err { OnErr result (self.new ≡ self.old) }
    {
        self.numbers.insert(noted_number(ctx, place))?;
        Ok(())
    }
}

/// What a parser notes on its way: where no head of an arrow function was found, where no operand was found, since such a
/// head stands there, behind which parentheses `=>` stands, and the shorthands with `=` and the commas at the end of a list
/// that are judged once it is known whether a target stands there. Contracts see it as `Notes`.
#[derive(Drop)]
pub struct ParserState {
    failed: NotedPlaces,
    operands: NotedPlaces,
    /// Places behind which parentheses begin that have `=>` behind them; and behind which others do.
    arrows: BTreeSet<u32>,
    others: BTreeSet<u32>,
    /// Up to which place the text was looked through for these, in bytes.
    looked: u32,
    /// Whether a head is being attempted.
    attempting: bool,
    covers: History<CoverInitializer>,
    commas: History<Span>,
}

impl Model for ParserState {
    ghost use Rattle.js_cursor.specs.Notes.{Notes};

    ghost Value = { Notes };

    ghost view = { λ s. record { failed = s.failed; operands = s.operands; arrows = s.arrows.keys; others = s.others.keys; looked = s.looked; attempting = s.attempting; covers = s.covers; commas = s.commas } };
}

impl ParserState {
    /// Nothing is noted. It takes no memory.
    pub fn new(alloc: Global) -> Self
        ensures { HasNone result }
    {
        ParserState {
            failed: NotedPlaces::new(alloc),
            operands: NotedPlaces::new(alloc),
            arrows: BTreeSet::new(alloc),
            others: BTreeSet::new(alloc),
            looked: 0,
            attempting: false,
            covers: History::new(alloc),
            commas: History::new(alloc),
        }
    }

    /// Keeps a shorthand with `=`, by the place at which it is looked for: its span and the node of its initialiser. One
    /// that stands at this place is replaced. The only error is want of memory, and then all stays.
    pub fn add_cover_initializer(
        &mut self,
        start: u32,
        span: Span,
        init: NodeId,
    ) -> Result<(), NoMemory>
        ensures ok { OnOk result (self.new ≡ record self.old { covers = self.old.covers ++ (start, Some (record { span = span; init = init })) ∷ [] }) }
        ensures err { OnErr result (self.new ≡ self.old) }
    {
        self.covers.set(start, CoverInitializer { span, init })
    }

    /// Takes out the shorthand that is kept for a place; `None` exactly where none is.
    pub fn take_cover_initializer(&mut self, start: u32) -> Option<CoverInitializer>
        ensures value { result ≡ standing self.old.covers start }
        ensures taken { self.new ≡ record self.old { covers = without self.old.covers start } }
    {
        self.covers.take(start)
    }

    /// Takes out the shorthand with the least place; `None` exactly where there is none.
    pub fn pop_cover_initializer(&mut self) -> Option<CoverInitializer>
        ensures popped { Pops self.old.covers self.new.covers result }
        ensures others { self.new ≡ record self.old { covers = self.new.covers } }
    {
        self.covers.pop()
    }

    /// Keeps the comma that ends the list which begins at a place. One that stands there is replaced. The only error is
    /// want of memory, and then all stays.
    pub fn add_trailing_comma(&mut self, start: u32, comma: Span) -> Result<(), NoMemory>
        ensures ok { OnOk result (self.new ≡ record self.old { commas = self.old.commas ++ (start, Some comma) ∷ [] }) }
        ensures err { OnErr result (self.new ≡ self.old) }
    {
        self.commas.set(start, comma)
    }

    /// The comma that ends the list which begins at a place; `None` exactly where none is kept.
    pub fn trailing_comma(&self, start: u32) -> Option<Span>
        ensures { result ≡ standing self.now.commas start }
    {
        self.commas.get(start)
    }

    /// Whether no head of an arrow function was found at a place, under these parameters.
    pub(crate) fn arrow_failed(&self, ctx: Context, place: u32) -> bool
        ensures found { result ≡ is_noted self.now.failed ctx place }
        ensures small { bits_of ctx < 65536 }
    {
        self.failed.contains(ctx, place)
    }

    /// Notes that none was. The only error is want of memory, and then all stays.
    pub(crate) fn note_arrow_failed(&mut self, ctx: Context, place: u32) -> Result<(), NoMemory>
        ensures ok { OnOk result (NotesFailed ctx place self.old self.new) }
        ensures err { OnErr result (self.new ≡ self.old) }
    {
        self.failed.insert(ctx, place)
    }

    /// Whether no operand was found at a place, under these parameters.
    pub(crate) fn operand_failed(&self, ctx: Context, place: u32) -> bool
        ensures found { result ≡ is_noted self.now.operands ctx place }
        ensures small { bits_of ctx < 65536 }
    {
        self.operands.contains(ctx, place)
    }

    /// Notes that none was. The only error is want of memory, and then all stays.
    pub(crate) fn note_operand_failed(&mut self, ctx: Context, place: u32) -> Result<(), NoMemory>
        ensures ok { OnOk result (NotesOperand ctx place self.old self.new) }
        ensures err { OnErr result (self.new ≡ self.old) }
    {
        self.operands.insert(ctx, place)
    }

    /// Whether `=>` stands behind the parentheses that begin behind a place; `None` where that wasn't noted.
    pub fn arrow_behind(&self, place: u32) -> Option<bool>
        ensures { result ≡ closing_known self.now place }
    {
        if self.arrows.contains(&place) {
            return Some(true);
        }
        if self.others.contains(&place) {
            return Some(false);
        }
        None
    }

    /// Notes whether it does. The only error is want of memory, and then all stays.
    pub fn note_closing(&mut self, place: u32, is_arrow: bool) -> Result<(), NoMemory>
        ensures ok { OnOk result (NotesClosing place is_arrow self.old self.new) }
        ensures err { OnErr result (self.new ≡ self.old) }
    {
        if is_arrow {
            self.arrows.insert(place)?;
        } else {
            self.others.insert(place)?;
        }
        Ok(())
    }

    /// Up to which place the text was looked through for `=>` behind parentheses, in bytes.
    pub fn looked(&self) -> u32
        ensures { result ≡ self.now.looked }
    {
        self.looked
    }

    /// It was looked through up to this place.
    pub fn set_looked(&mut self, place: u32)
        ensures { self.new ≡ record self.old { looked = place } }
    {
        self.looked = place;
    }

    /// Whether a head of an arrow function is being attempted.
    pub fn is_attempting(&self) -> bool
        ensures { result ≡ self.now.attempting }
    {
        self.attempting
    }

    /// From now on one is, or none.
    pub fn set_attempting(&mut self, is_attempting: bool)
        ensures { self.new ≡ record self.old { attempting = is_attempting } }
    {
        self.attempting = is_attempting;
    }

    /// How many changes made the shorthands.
    pub(crate) fn covers_len(&self) -> usize
        ensures { result ≡ length self.now.covers }
    {
        self.covers.len()
    }

    /// How many changes made the commas.
    pub(crate) fn commas_len(&self) -> usize
        ensures { result ≡ length self.now.commas }
    {
        self.commas.len()
    }

    /// Takes back all changes but the first ones of each kind; where no head or no operand was found stays.
    pub(crate) fn truncate(&mut self, covers: usize, commas: usize)
        ensures { self.new ≡ record self.old { covers = take covers self.old.covers; commas = take commas self.old.commas } }
    {
        self.covers.truncate(covers);
        self.commas.truncate(commas);
    }
}
